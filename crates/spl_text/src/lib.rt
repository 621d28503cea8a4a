// The words of the project's texts, read and written: numbers, lists of numbers and fractions, lines, and the bytes
// that a text may hold.
//
// It stands on std, and on spl_field for `NoMemory` and `List`. Read specs/Text.antt first, which says how each is
// spelled, and then `fraction_of`.
#![tactic(auto)]

pub mod fraction;
pub mod laws;
pub mod numbers;
pub mod scan;
pub mod word;
pub mod writing;
