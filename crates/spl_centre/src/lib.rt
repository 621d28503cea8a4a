// What keeps an algebra over the rational functions from being central simple: no identity, a centre larger than the
// multiples of the identity, or a degenerate trace form.
//
// It stands on spl_algebra and spl_fraction, for a guess at the identity, which is then verified, on spl_numerators and
// spl_lattice, and for what residues at a place tell of the centre and the trace form, on spl_residue and
// theory_reductions. Read `identity_or_refutation`, `centre_fault` and `trace_ideal`.
#![tactic(auto)]

mod by_residues;
pub mod centre;
mod equations;
mod guess;
mod identity;
mod radical;
