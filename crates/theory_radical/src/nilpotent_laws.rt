// Theorems on nilpotent elements and ideals of finite-dimensional algebras.
ghost use Rattle.std.specs.Prelude.{ℕ, suc, ◌↔◌};
ghost use Rattle.theory_rings.specs.Ring.{FieldOn};
ghost use Rattle.theory_spaces.specs.Module.{AlgebraOn, module_of};
ghost use Rattle.theory_spaces.specs.Linear.{Basis};
ghost use Rattle.theory_spaces.specs.Algebra.{IsNilpotent};
ghost use Rattle.theory_spaces.specs.Sets.{Within, Zero, Power, ring_ops};
ghost use Rattle.theory_radical.specs.Ideal.{IsIdeal, ProductsVanish, IsNilpotentIdeal, IsNilSubalgebra};
ghost use Rattle.theory_radical.specs.Ideal.{FittingIdempotent};

use theory_spaces::algebra_laws::BasedAlgebra;

/// Fitting's lemma: for each element a there is an h that commutes with it such that a·h is idempotent and keeps a
/// power of a.
pub fn fitting_idempotents<A: BasedAlgebra>()
    ensures { (a : A.Vector) → FittingIdempotent A.algebra.ring a }
{}

/// A set of elements of an algebra with a basis over a field.
pub trait AlgebraSubset {
    ghost Scalar: { Type 0 };

    ghost Vector: { Type 0 };

    ghost field: { FieldOn Scalar };

    ghost algebra: { AlgebraOn field.ring Vector };

    ghost dimension: { ℕ };

    ghost basis: { Basis (module_of algebra) dimension };

    ghost Subset: { Vector → Type 0 };
}

/// In an algebra of dimension m products of m elements of a nil subalgebra are 0, so that a nil ideal is nilpotent.
pub fn nil_ideals_are_nilpotent<J: AlgebraSubset>()
    ensures products { IsNilSubalgebra J.algebra J.Subset → ProductsVanish J.algebra.ring J.Subset J.dimension }
    ensures ideal { IsIdeal J.algebra.ring J.Subset → ((x : J.Vector) → J.Subset x → IsNilpotent J.algebra.ring x)
        → IsNilpotentIdeal J.algebra.ring J.Subset }
{}

/// The power e + 1 of an ideal is 0 just where products of e + 1 members are.
pub fn powers_and_products<J: AlgebraSubset>()
    ensures { IsIdeal J.algebra.ring J.Subset → (e : ℕ)
        → Within (Power (ring_ops J.algebra.ring) J.Subset e)
        (Zero (ring_ops J.algebra.ring)) ↔ ProductsVanish J.algebra.ring J.Subset (suc e) }
{}
