// Automorphisms of a program's field that are their own inverses, and what they carry of algebras by structure
// constants, lattices of tuples and ideals; that which puts 1/x for x in fractions carries what is integral at infinity
// to what is integral at the place x, so that orders at infinity are orders at x of another algebra.
//
// It stands on theory_places (places of fractions), theory_tables and theory_bases (tuples and their lattices), and has
// no code: each public function does nothing, and its contract is a theorem.
//
// Read specs/Involutions first, then specs/CarriedAlgebras, specs/CarriedLattices and specs/CarriedSets.
#![tactic(auto)]

pub mod involution_laws;
pub mod swap_laws;
