// The maximal two-sided ideals of an algebra over a residue field that has no nilpotent ideal but 0, and whether such
// an algebra, or any with identity, is simple.
//
// It stands on spl_algebra and spl_residue, and on theory_blocks, where it is proved that the maximal ideals are those
// of the field factors of the centre, and that these are as many as the dimension of the solutions of z^q = z in it.
// Read `specs/Blocks.antt` first, then `maximal_ideals` and `is_simple`. `rank_laws` says over any field how centre and
// two-sided rank tell a simple algebra, and `rank` is that test over a residue field.
#![tactic(auto)]

mod fixed;
pub mod ideals;
mod powers;
pub mod rank;
pub mod rank_laws;
pub mod refine;
pub mod simple;
mod splits;
