// Linear algebra over any field: matrices, their reduced row echelon form, linear systems, and subspaces.
//
// It stands on spl_field. Read the type `Matrix` first, then `Echelon`, `Solution` and `Subspace`.
#![tactic(auto)]

mod basis;
pub mod echelon;
mod elimination;
pub mod inverse;
pub mod kernel;
pub mod laws;
pub mod lists;
pub mod matrix;
mod meet;
pub mod rows;
pub mod solve;
pub mod subspace;
