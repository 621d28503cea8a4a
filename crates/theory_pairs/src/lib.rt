// Pairs of an order over the polynomials and one at infinity, and what they are made from: the corner eAe of an algebra
// at an idempotent, with its constants, its centre and its ideals; lattices that are their own duals for a form, told
// by the Gram matrix and its inverse; lattices at places and over the ring of what is integral at all of them; the
// element of both orders that a degree count gives; a first order, from structure constants; and lattices over the
// fractions of a program.
//
// It stands on the other theory crates: theory_spaces (forms, corners), theory_orders (orders, lattices and duals at a
// place), theory_tables (structure constants), theory_lattices (common bases and the degree count), theory_places
// (finite places), theory_fractions (fractions as values) and theory_blocks (decisions).
//
// Read specs/Corner, specs/Subring and specs/OwnDual first, then corner_laws and dual_laws; place_laws, with
// specs/PlaceLaws, degree_laws, with specs/DegreeElement, and order_laws stand by themselves; fraction_laws, with
// specs/FractionLattices, says the same of the fractions of a program; example_laws shows the matrix units. The
// functions have no code: each states a theorem as its contract.
#![tactic(auto)]

pub mod corner_laws;
pub mod degree_laws;
pub mod dual_laws;
pub mod example_laws;
pub mod fraction_laws;
pub mod isomorphism_laws;
pub mod order_laws;
pub mod place_laws;
