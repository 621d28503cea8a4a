// Algebras over the rational functions by polynomials over one denominator, and the search for a failed law of
// associativity over these polynomials, without a fraction and without a greatest common divisor.
//
// It stands on spl_algebra, on spl_fraction, whose rational functions are the constants, on spl_generators and
// spl_residue for the generators of the algebra of residues, and on theory_constants and theory_reductions, by which
// multiplied constants, and those in a smaller field, keep what associates, and few triples tell that all do. Read
// specs/Numerators.antt, specs/Residues.antt and specs/Constants.antt, then `numerators_of` and `first_failed_triple`.
#![tactic(auto)]

pub mod associates;
mod constants;
pub mod numerators;
pub mod products;
pub mod residues;
pub mod triple;
