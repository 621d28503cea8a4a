// The remainders by an irreducible polynomial over a program's field, as lists of coefficients: their operations as
// total functions, and that these are a field. It stands on theory_rings and theory_fractions, and has no code: each
// public function does nothing, and its contract is a law.
//
// Read specs/Irreducible and specs/RemainderLaws first, then specs/RemainderOps, and the laws in remainder_laws.
#![tactic(auto)]

pub mod remainder_laws;
