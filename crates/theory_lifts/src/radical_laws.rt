// The radical of a finite-dimensional algebra as a span.
ghost use Rattle.std.specs.Prelude.{ℕ, ◌<◌, ◌^◌};
ghost use Rattle.theory_radical.specs.LiftRing.{HasRoots};
ghost use Rattle.theory_lifts.specs.RadicalSpan.{RadicalBasis, ChainBases};

use theory_radical::chain_laws::LiftedAlgebra;

/// Each member of the chain up to n has a basis, and where the dimension is below p^n the largest nilpotent two-sided
/// ideal is the span of finitely many independent elements.
pub fn radical_has_basis<A: LiftedAlgebra>()
    ensures chain { HasRoots A.field.ring A.p → ChainBases A.lift_ring A.algebra A.dimension A.basis }
    ensures radical { HasRoots A.field.ring A.p → A.dimension < A.p ^ A.n → RadicalBasis A.algebra }
{}
