// What becomes of fractions modulo an irreducible polynomial over a program's field: the fractions whose denominator it
// doesn't divide are a valuation ring, its residue field is that of the remainders as lists of coefficients, and the
// residue of u/v is the remainder of u times the inverse of that of v. It stands on theory_places, whose residue fields
// it carries to lists, on theory_remainders, and on what is below them, and has no code: the public function does
// nothing, and its contract is a law.
//
// Read specs/Reductions first, then the law in reduction_laws.
#![tactic(auto)]

pub mod reduction_laws;
