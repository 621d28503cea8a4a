// Irreducible polynomials over a small field, and the residue fields, which are the remainders by them.
//
// It stands on spl_poly, and on theory_remainders, where the test of irreducibility, the field of remainders and its
// roots are proved. Read `specs/Residue.antt` first, then `is_irreducible` and `ResidueField`.
#![tactic(auto)]

mod coprime;
pub mod elem;
pub mod field;
mod inverse;
pub mod irreducible;
pub mod laws;
mod remainder;
