// Polynomials in one variable over a small field.
//
// It stands on spl_field, whose `SmallField` the coefficients are elements of, and on theory_rings, where the ring of
// polynomials and the division in it are proved. Read `specs/Operations.antt` first, then `Poly`.
#![tactic(auto)]

mod elements;
pub mod order;
pub mod poly;
mod rows;
