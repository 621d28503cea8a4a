// Algebras of finite dimension over any field, by their structure constants.
//
// It stands on spl_field, on spl_matrix for the linear systems, on theory_spaces for the definition of the product, and
// on theory_tables for what an identity, the centre and an ideal are. Read the type `Algebra` first.
#![tactic(auto)]

pub mod algebra;
mod basis;
pub mod centre;
pub mod entries;
pub mod ideal;
pub mod identity;
pub mod laws;
pub mod nilpotent;
pub mod power;
pub mod products;
pub mod quotient;
pub mod trace;
pub mod triple;
pub mod two_sided;
