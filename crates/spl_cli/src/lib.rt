// The program's top call: words, an input and a report.
//
// It stands on spl_table, which reads the input, on spl_engine, which finds evidence, on spl_evidence, which writes it,
// and on spl_outside. Read specs/Correct.antt first, which says what the program comes to, and then `run`: its
// contract, the record `IsRun` of specs/Run.antt, is all that the program promises.
#![tactic(auto)]

mod input;
pub mod laws;
pub mod report;
pub mod run;
pub mod status;
pub mod words;
