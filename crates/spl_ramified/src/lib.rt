// What a check of a ramified place answers: the conditions on the tuples of an order and its radical, in their order,
// with a fault for each, and the first of them that fails; whether a polynomial is a place. No fault is first exactly
// where the place is a ramified one.
//
// It stands on spl_order (lattices at a place, and an order modulo it), spl_blocks (simple algebras over a residue
// field), and on theory_ramified, which shows that the conditions are together the claim of a ramified place. Read
// specs/Faults and theory_ramified/specs/Conditions first, then `first_fault`.
#![tactic(auto)]

pub mod fault;
pub mod fault_laws;
pub mod first_fault;
mod maximal;
mod order_fault;
pub mod place;
mod radical_fault;
