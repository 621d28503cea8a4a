// The mathematics of vector spaces: modules and algebras over a ring, combinations of vectors, spans, dependence and
// bases, matrices and traces, bilinear forms, central simple algebras and how a minimal idempotent makes them matrices,
// quotients, lattices over a valuation ring, and algebras that structure constants give. It stands on theory_rings,
// whose records of laws it uses.
//
// Read specs/Module and specs/Linear first, then the file of specs/ that carries the notion in question. The functions
// below have no code: each states a theorem as its contract, for whatever space or algebra the trait names.
#![tactic(auto)]

pub mod algebra_laws;
pub mod form_laws;
pub mod matrix_laws;
pub mod space_laws;
pub mod table_laws;
