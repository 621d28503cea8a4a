// Theorems on lift rings, and the radical over a field F_p[t]/(f)[x]/(g) by its lift ring (Z/p^n)[t]/(f)[x]/(g).
ghost use Rattle.std.specs.Prelude.{◌≡◌, ℕ, ◌^◌, ◌<◌, ◌≤◌};
ghost use Rattle.theory_rings.specs.Ring.{FieldOn};
ghost use Rattle.theory_rings.specs.Prime.{IsPrime};
ghost use Rattle.theory_spaces.specs.Module.{AlgebraOn, module_of};
ghost use Rattle.theory_spaces.specs.Linear.{Basis};
ghost use Rattle.theory_radical.specs.LiftRing.{LiftRingOn, HasRoots};
ghost use Rattle.theory_radical.specs.Functional.{NextFunctional};
ghost use Rattle.theory_radical.specs.ChainLaws.{IsRadicalChain};
ghost use Rattle.theory_radical.specs.Tower.{TowerElement, TowerMod, Reduces, IsTowerLift};
ghost use Rattle.theory_radical.specs.LiftLaws.{IntegersAreLiftRings, IsomorphicLiftRings, RemaindersAreLiftRings};
ghost use Rattle.theory_radical.specs.LiftLaws.{HasMonicLifts, OneHasFullOrder, TowersAreLiftRings, TowersHaveLifts};
ghost use Rattle.theory_radical.specs.LiftLaws.{IrreducibleTowersAreFields, TowerFieldsHaveRoots};

use theory_rings::structures::CommutativeRing;

/// The integers modulo p^n are a lift ring of those modulo p.
pub fn integers_are_lift_rings()
    ensures { IntegersAreLiftRings }
{}

/// The remainders by a monic polynomial over a lift ring are a lift ring of those by its residue, and each monic
/// polynomial is such a residue.
pub fn remainders_are_lift_rings<S: CommutativeRing, R: CommutativeRing>()
    ensures remainders { RemaindersAreLiftRings S.ring R.ring }
    ensures lifts { HasMonicLifts S.ring R.ring }
    ensures order { OneHasFullOrder S.ring R.ring }
{}

/// What is isomorphic to a lift ring is one of each ring that is isomorphic to the first.
pub fn isomorphic_lift_rings<
    S: CommutativeRing,
    R: CommutativeRing,
    T: CommutativeRing,
    U: CommutativeRing,
>()
    ensures { IsomorphicLiftRings S.ring R.ring T.ring U.ring }
{}

/// The ring (Z/p^n)[t]/(f)[x]/(g) is a lift ring of its residue (Z/p)[t]/(f)[x]/(g), and each of the latter has such a
/// lift ring.
pub fn towers_are_lift_rings()
    ensures lift { TowersAreLiftRings }
    ensures exists { TowersHaveLifts }
{}

/// With irreducible moduli (Z/p)[t]/(f)[x]/(g) is a field; and where it is one, it is finite and has p-th roots.
pub fn towers_are_fields()
    ensures field { IrreducibleTowersAreFields }
    ensures roots { TowerFieldsHaveRoots }
{}

/// An algebra with a basis over a field with the ring (Z/p)[t]/(f)[x]/(g), a ring over the integers modulo p^n whose
/// moduli reduce to f and g, and a set of elements of the algebra.
pub trait TowerAlgebra {
    ghost p: { ℕ };

    ghost n: { ℕ };

    ghost prime: { IsPrime p };

    ghost two_le_pow: { 2 ≤ p ^ n };

    ghost residue: { TowerMod p prime.two_le };

    ghost lift: { TowerMod (p ^ n) two_le_pow };

    ghost reduces: { Reduces p n prime.two_le two_le_pow lift residue };

    ghost field: { FieldOn (TowerElement residue) };

    ghost field_ring: { field.cring ≡ residue.second };

    ghost Vector: { Type 0 };

    ghost algebra: { AlgebraOn field.ring Vector };

    ghost dimension: { ℕ };

    ghost basis: { Basis (module_of algebra) dimension };

    ghost Subset: { Vector → Type 0 };
}

/// The radical of an algebra over F_p[t]/(f)[x]/(g) by the lift ring (Z/p^n)[t]/(f)[x]/(g): all that holds over an
/// abstract lift ring, with linear functionals.
pub fn radical_by_lifted_traces<A: TowerAlgebra>()
    ensures { (L : LiftRingOn A.field A.p A.n (TowerElement A.lift))
        × IsTowerLift A.p A.n A.prime.two_le A.two_le_pow A.lift A.residue A.field L
        × IsRadicalChain L A.algebra A.dimension A.basis A.Subset
        × ((i : ℕ) → i < A.n → NextFunctional L A.algebra A.dimension A.basis i) }
{}
