// Left orders, orders modulo p and preimages of ideals by linear equations over a residue field, for lattices over any
// subring with a residue field: at a place, and over the polynomials alike.
//
// It stands on theory_residue (maps of an order onto an algebra), theory_reductions (the residue fields of fractions),
// theory_tables and theory_bases (tuples and their lattices), and has no code: each public function does nothing, and
// its contract is a theorem.
//
// Read specs/ResidueRings and specs/LeftOrders first, then specs/TupleResidues, which says the same of lists, and then
// left_order_laws. specs/FractionResidues has the subrings of the fractions for which it holds.
#![tactic(auto)]

pub mod fraction_laws;
pub mod left_order_laws;
