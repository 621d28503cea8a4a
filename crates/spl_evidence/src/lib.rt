// Evidence of what an algebra over the rational functions is or is not, and its text.
//
// It stands on spl_fraction and spl_text, whose words the text has, and on theory_tables and theory_places for what
// evidence claims. Read the type `Evidence` first, then specs/Line.antt and specs/Evidence.antt, which say how it is
// spelled, and specs/Refusal.antt, which says what is wrong with each other text; then `read_evidence` and
// `write_evidence`.
#![tactic(auto)]

mod arguments;
mod body;
mod due;
pub mod evidence;
pub mod laws;
mod line;
mod lines;
mod reader;
pub mod reading;
pub mod refusal;
mod steps;
mod terms;
pub mod word;
pub mod writing;
