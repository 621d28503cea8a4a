// Tables of structure constants: their text, read and written, and the search for a failed law of associativity.
//
// It stands on spl_text, whose words it reads, on spl_field and spl_fraction, whose rational functions are the
// constants, and on spl_algebra. Read specs/TableText.antt and specs/Refusal.antt first, which say what a text of a
// table is and what is wrong with each other text; then the type `Table`, `read_table`, `write_table` and
// `first_failed_triple`.
#![tactic(auto)]

pub mod canonical_laws;
pub mod laws;
pub mod reader;
pub mod refusal;
pub mod table;
pub mod triple;
pub mod writing;
