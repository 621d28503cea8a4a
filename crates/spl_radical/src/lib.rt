// The radical of an algebra over a residue field, by the traces of powers of lifts to a ring of lists of numbers.
//
// It stands on spl_algebra and spl_residue, on theory_lifts, where such a ring is made for each residue field and each
// power of the characteristic, and on theory_chains, where the chain of ideals by lifted traces ends in the radical.
// Read `specs/LiftRing.antt` first, then `LiftRing`, and `specs/Radical.antt` before `radical`.
#![tactic(auto)]

mod digits;
pub mod laws;
pub mod lift_ring;
mod matrices;
mod multiples;
pub mod radical;
mod roots;
mod rows;
pub mod trace_power;
mod turns;
