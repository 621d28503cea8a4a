// Lattices over the polynomials and over the elements of degree at most 0 of a field: reduced rows and predictable
// degrees, a common basis of a finite and an infinite lattice, their intersection, and what two self-dual orders have
// in common. It stands on theory_rings, theory_spaces and theory_division, and has no code: each public function does
// nothing, and its contract is a theorem.
//
// Read specs/Degree and specs/ReducedRows first, then specs/CommonBasis, specs/Members and specs/SelfDual, and then the
// contracts in row_laws, lattice_laws and order_laws. Each theorem stands over an abstract degree; rational_laws has
// the degrees of polynomials and of rational functions.
#![tactic(auto)]

pub mod lattice_laws;
pub mod order_laws;
pub mod rational_laws;
pub mod row_laws;
