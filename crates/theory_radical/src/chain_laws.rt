// Theorems on the chain of ideals by lifted traces, over an abstract lift ring.
ghost use Rattle.std.specs.Prelude.{◌≡◌, ℕ};
ghost use Rattle.theory_rings.specs.Ring.{FieldOn};
ghost use Rattle.theory_rings.specs.Prime.{IsPrime};
ghost use Rattle.theory_spaces.specs.Module.{AlgebraOn, module_of};
ghost use Rattle.theory_spaces.specs.Linear.{Basis};
ghost use Rattle.theory_radical.specs.LiftRing.{LiftRingOn};
ghost use Rattle.theory_radical.specs.ChainLaws.{IndependentOfLift, AdditiveOnChain, TracesOfNilpotentsAndIdempotents};
ghost use Rattle.theory_radical.specs.ChainLaws.{ChainOfIdeals, ChainHolds, MayStop, EndsInRadical, NextIsKernel};

/// An algebra with a basis over a field, a lift ring of the field in which p^i can be cancelled for i below n, and a
/// set of elements of the algebra.
pub trait LiftedAlgebra {
    ghost Scalar: { Type 0 };

    ghost Lift: { Type 0 };

    ghost Vector: { Type 0 };

    ghost p: { ℕ };

    ghost n: { ℕ };

    ghost prime: { IsPrime p };

    ghost field: { FieldOn Scalar };

    ghost lift_ring: { LiftRingOn field p n Lift };

    ghost algebra: { AlgebraOn field.ring Vector };

    ghost dimension: { ℕ };

    ghost basis: { Basis (module_of algebra) dimension };

    ghost Subset: { Vector → Type 0 };
}

/// Each element has a lift, a matrix over the lift ring that reduces to its multiplication from the left. Modulo p^(i +
/// 1) the trace of the p^i-th power does not depend on the lift.
pub fn trace_is_independent_of_lift<A: LiftedAlgebra>()
    ensures { IndependentOfLift A.lift_ring A.algebra A.dimension A.basis }
{}

/// On member i of the chain the trace of the p^i-th power is a multiple of p^i and, modulo p^(i + 1), additive.
pub fn trace_is_additive_on_chain<A: LiftedAlgebra>()
    ensures { AdditiveOnChain A.lift_ring A.algebra A.dimension A.basis }
{}

/// The traces of a nilpotent element are 0, and those of an idempotent its rank, which is 0 only for 0.
pub fn traces_of_nilpotents_and_idempotents<A: LiftedAlgebra>()
    ensures { TracesOfNilpotentsAndIdempotents A.lift_ring A.algebra A.dimension A.basis }
{}

/// Each member of the chain is a two-sided ideal.
pub fn chain_of_ideals<A: LiftedAlgebra>()
    ensures { ChainOfIdeals A.lift_ring A.algebra A.dimension A.basis }
{}

/// Each member of the chain holds each nilpotent two-sided ideal.
pub fn chain_holds_nilpotent_ideals<A: LiftedAlgebra>()
    ensures { ChainHolds A.lift_ring A.algebra A.dimension A.basis A.Subset }
{}

/// Where the dimension m is below p^n, member n of the chain is the largest nilpotent two-sided ideal, and products of
/// m of its elements are 0.
pub fn chain_ends_in_radical<A: LiftedAlgebra>()
    ensures { EndsInRadical A.lift_ring A.algebra A.dimension A.basis }
{}

/// The chain may stop at the first member that is nilpotent: it is the largest nilpotent two-sided ideal, and the chain
/// stays.
pub fn chain_may_stop<A: LiftedAlgebra>()
    ensures { MayStop A.lift_ring A.algebra A.dimension A.basis }
{}

/// The next member of the chain is the kernel of linear functionals: the p^i-th roots of the traces of p^i-th powers
/// over p^i.
pub fn next_ideal_is_kernel<A: LiftedAlgebra>()
    ensures { NextIsKernel A.lift_ring A.algebra A.dimension A.basis }
{}
