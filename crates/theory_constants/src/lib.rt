// What the constants of an algebra tell without more work on the algebra itself: an algebra whose constants are all
// multiplied by one element, or taken in a larger field, how few triples tell that it is associative, and what a matrix
// sends to 0, by its residues at a place.
//
// It stands on theory_tables and theory_residue, and has no code. Read specs/Scaled and specs/Residues first, then
// `laws::multiple_of_constants`.
#![tactic(auto)]

pub mod laws;
