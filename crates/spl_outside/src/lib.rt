// The outside of a program: where its bytes come from and go to, in memory and by std's streams.
//
// It stands on spl_field for NoMemory alone. Read the traits `Source` and `Sink` first, then `write_whole`.
#![tactic(auto)]

mod faults;
pub mod memory;
pub mod outside;
pub mod streams;
pub mod write;
