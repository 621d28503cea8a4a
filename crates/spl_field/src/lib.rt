// Fields as a program has them, and the fields of 2 to 256 elements.
//
// It stands on theory_rings, where the laws of a field are stated. Read the trait `Field` first, then `SmallField`.
#![tactic(auto)]

pub mod admission;
mod digits;
pub mod field;
pub mod field_laws;
pub mod laws;
pub mod list;
pub mod small;
mod tables;
