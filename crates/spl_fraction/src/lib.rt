// Fractions of polynomials in one variable over a small field, its places, and the canonical texts of fractions.
//
// It stands on spl_poly, on spl_lattice, whose generator of an ideal gives common divisors, on spl_text, and on
// theory_rings, where the field of fractions is proved. Read `specs/Fraction.antt` first, then `Fractions`.
#![tactic(auto)]

mod arithmetic;
mod denominator;
pub mod field;
pub mod fraction;
pub mod laws;
pub mod place;
mod reading;
mod reduction;
mod swap;
pub mod tuples;
mod valuation;
mod writing;
