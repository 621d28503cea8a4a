// What an order over the polynomials needs to be settled at a finite place: where none of its maximal ideals has a
// larger left order it is its own dual for the trace or ramified there; larger orders are the same at all other finite
// places, and bounded in number; and a ramified place is told by rows over the residue field.
//
// It stands on theory_left_orders (residue tables, preimages and left orders as lists), theory_chains (the radical of a
// table), theory_orders and theory_residue, and has no code: each public function does nothing, and its contract is a
// theorem.
//
// Read specs/Steps and specs/Settled first, then specs/Growths, specs/RamifiedRows, specs/MaximalIdeals and the laws.
#![tactic(auto)]

pub mod growth_laws;
pub mod ideal_laws;
