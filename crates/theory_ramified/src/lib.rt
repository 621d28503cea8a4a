// What a check of a ramified place tests, condition by condition: that the tuples of an order and of its radical span
// lattices at the place with these properties; all conditions together are the claim of a ramified place.
//
// It stands on theory_growth (a ramified place by rows over a residue field), theory_swaps (infinity as the place x)
// and theory_places (the claim), and has no code: each public function does nothing, and its contract is a theorem.
//
// Read specs/Conditions first, then condition_laws; row_laws and member_laws have what a check tests at a finite place,
// infinity_laws why it tests no more.
#![tactic(auto)]

pub mod condition_laws;
pub mod infinity_laws;
pub mod member_laws;
pub mod row_laws;
