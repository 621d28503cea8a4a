// Bases of lattices of tuples of rational functions, as rows of polynomials over one denominator.
//
// It stands on spl_lattice, whose kernels tell whether such rows are independent, on spl_fraction and spl_numerators,
// and on theory_bases, where such rows are lattices of tuples. Read theory_bases/specs/Bases first, then `Basis`. What
// holds at infinity holds of what `swap` makes at the place x (theory_swaps).
#![tactic(auto)]

pub mod bad_places;
pub mod basis;
mod columns;
mod coordinates;
mod copies;
mod denominators;
pub mod forms;
mod fractions;
pub mod images;
mod inverse;
mod lattice_bases;
pub mod left_order;
pub mod lift_ideal;
mod lifts;
mod matrices;
pub mod members_at;
mod numerators;
pub mod orders_at;
mod place_parts;
pub mod powers;
mod product_matrices;
pub mod reduction;
mod remainders;
pub mod residue_algebra;
pub mod start;
pub mod swap;
mod units;
pub mod within;
pub mod within_at;
