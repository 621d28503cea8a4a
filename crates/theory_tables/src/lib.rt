// Algebras by structure constants as a program has them, lists of a field's elements: matrices and the spans of their
// rows, the product of tuples, identity, centre, ideals, traces, central simple and split algebras, and what evidence
// claims of an algebra, with the laws of these.
//
// It stands on theory_rings, theory_spaces and theory_orders, and has no code. Read specs/Structure, specs/Algebras and
// specs/Claims first, then `claims_exclude_central_simple` and `split_claim_splits`.
#![tactic(auto)]

pub mod laws;
pub mod ramified_laws;
pub mod split_laws;
