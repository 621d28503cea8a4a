// Calls of the libraries up to algebras, as words of a line: what a call requires of its arguments is read here, and
// its answer is written.
//
// It stands on spl_algebra, spl_fraction, spl_factor and the crates below them; spl_calls takes the lines. Read `calls`
// first; `args` and `lists` read arguments, `show` writes answers, and each other module has the calls of a crate or
// two.
#![tactic(auto)]

pub mod algebras;
pub mod args;
pub mod calls;
pub mod fault;
pub mod fields;
pub mod fractions;
pub mod lattices;
pub mod laws;
pub mod lists;
pub mod matrices;
pub mod polynomials;
pub mod residues;
pub mod scalars;
pub mod show;
pub mod small;
pub mod texts;
pub mod words;
