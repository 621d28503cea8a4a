// The places of a field of rational functions: the monic irreducible polynomials and infinity, what is integral there,
// the valuation rings with their uniformizers, valuations as numbers, residue fields, and the automorphism that puts
// 1/x for x; the same of the fractions over a program's field, and quaternions that are ramified at a place. It stands
// on theory_orders, theory_lattices, theory_residue, theory_tables and theory_fractions, and what is below them, and
// has no code: each public function does nothing, and its contract is a theorem.
//
// Read specs/Places first, then specs/Valuations, and then the contracts in place_laws; specs/FractionPlaces says the
// same of pairs of lists, with the laws in fraction_laws and ramified_laws. (Reiner, Maximal Orders, sections 4 and 5;
// Stichtenoth, Algebraic Function Fields and Codes, chapter 1.)
#![tactic(auto)]

pub mod fraction_laws;
pub mod place_laws;
pub mod ramified_laws;
