// The mathematics of orders at a place: valuation rings with a uniformizer, orders and their two-sided ideals, the
// radical, left orders, duals by the trace form, and ramified places, which exclude an isomorphism to the algebra of
// all matrices. It stands on theory_rings and theory_spaces.
//
// Read specs/Uniformizer, specs/Orders and specs/Lattices first, then specs/Ramified and specs/Dual. The functions
// below have no code: each states a theorem as its contract. (Reiner, Maximal Orders.)
#![tactic(auto)]

pub mod dual_laws;
pub mod maximal_ideal_laws;
pub mod order_laws;
pub mod ramified_laws;
