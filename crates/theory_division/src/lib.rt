// There is no division ring but the field itself, in dimension 2 to 36 over a finite field as centre: cyclotomic
// polynomials, the class equation of a finite group, and what the two say together. It stands on theory_rings and
// theory_spaces, and has no code: each public function does nothing, and its contract is a theorem.
//
// Read specs/Cyclotomic, specs/Group and specs/DivisionRing first, then the contracts in number_laws, group_laws and
// division_laws.
#![tactic(auto)]

pub mod division_laws;
pub mod group_laws;
pub mod number_laws;
