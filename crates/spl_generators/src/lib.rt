// Basis elements that generate an algebra of finite dimension over any field.
//
// It stands on spl_algebra, on spl_matrix for subspaces, and on theory_constants, where the subalgebra that basis
// elements generate is defined. Read `generators::generators`.
#![tactic(auto)]

pub mod generators;
