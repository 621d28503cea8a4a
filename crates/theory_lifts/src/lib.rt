// The residue fields F_q[x]/(π) with which the program computes, where the elements of F_q are numbers by their digits,
// and their lift rings, whose elements are lists of numbers below p^n. Over these the radical of an algebra of finite
// dimension is the span of finitely many elements; so the radical of an order at a place exists, as a lattice, and its
// maximal ideals are finitely many lattices.
//
// It stands on theory_radical (the chain of ideals by lifted traces) and theory_residue (an order modulo p).
//
// Read specs/DigitLift first (the lift ring of lists), then specs/RadicalSpan and specs/OrderRadical, and then
// lift_laws, radical_laws and order_laws. The functions have no code: each states a theorem as its contract.
#![tactic(auto)]

pub mod lift_laws;
pub mod order_laws;
pub mod radical_laws;
