// The irreducible factors of polynomials over a small field.
//
// It stands on spl_poly and spl_residue, and on theory_factors, where the parts by the degree of their factors and the
// elements that split them are proved. Read `specs/Factorisation.antt` first, then `factor`.
#![tactic(auto)]

mod degrees;
pub mod factors;
mod gcd;
mod powers;
mod splitting;
mod work;
