// The residue fields F_q[x]/(π) over the numbers by their digits, and their lift rings of lists.
ghost use Rattle.std.specs.Prelude.{◌≡◌, ℕ, ◌^◌, ◌<◌, ◌≤◌, List, length};
ghost use Rattle.theory_rings.specs.Ring.{CommRingOn, FieldOn};
ghost use Rattle.theory_rings.specs.Ops.{Ops, FieldLaws};
ghost use Rattle.theory_rings.specs.Elements.{Elem, elements};
ghost use Rattle.theory_rings.specs.FieldByDigits.{IsFieldByDigits};
ghost use Rattle.theory_rings.specs.Polynomial.{Poly, IsMonic, IsPolynomialRing};
ghost use Rattle.theory_rings.specs.Remainder.{Remainder, IsRemainderRing};
ghost use Rattle.theory_spaces.specs.Module.{AlgebraOn, module_of};
ghost use Rattle.theory_spaces.specs.Linear.{Basis};
ghost use Rattle.theory_radical.specs.LiftRing.{LiftRingOn};
ghost use Rattle.theory_radical.specs.Functional.{NextFunctional};
ghost use Rattle.theory_radical.specs.Tower.{TowerMod};
ghost use Rattle.theory_radical.specs.ChainLaws.{IsRadicalChain};
ghost use Rattle.theory_lifts.specs.RadicalSpan.{RadicalBasis, ChainBases};
ghost use Rattle.theory_lifts.specs.DigitLift.{ResidueFields, LiftsOfLists, LiftList, IsLiftOfLists, HasDigitModuli};

/// The remainders by an irreducible polynomial over the field of numbers by their digits are a field, with p-th roots.
pub fn residue_fields()
    ensures { ResidueFields }
{}

/// It has a lift ring of the lists of numbers below p^n, which are the coefficients of the elements of
/// (Z/p^n)[t]/(f)[x]/(g).
pub fn residue_fields_have_lifts_of_lists()
    ensures { LiftsOfLists }
{}

/// An algebra with a basis over a residue field of the field of numbers by their digits.
pub trait ResidueAlgebra {
    ghost p: { ℕ };

    ghost two_le: { 2 ≤ p };

    ghost modulus: { List ℕ };

    ghost positive: { 1 ≤ length modulus };

    ghost operations: { Ops ℕ };

    ghost by_digits: { IsFieldByDigits p modulus operations };

    ghost laws: { FieldLaws operations };

    ghost divisor: { Poly (elements operations laws).cring };

    ghost monic: { IsMonic (elements operations laws).cring divisor };

    ghost polynomials: { CommRingOn (Poly (elements operations laws).cring) };

    ghost polynomials_is: { IsPolynomialRing (elements operations laws).cring polynomials };

    ghost field: { FieldOn (Remainder (elements operations laws).cring divisor) };

    ghost field_is: { IsRemainderRing (elements operations laws).cring divisor polynomials field.cring };

    ghost Vector: { Type 0 };

    ghost algebra: { AlgebraOn field.ring Vector };

    ghost dimension: { ℕ };

    ghost basis: { Basis (module_of algebra) dimension };

    ghost Subset: { Vector → Type 0 };
}

/// Over the lift ring of lists all holds of the chain that holds over an abstract lift ring, with linear functionals,
/// and each member up to n has a basis.
pub fn radical_by_lists<A: ResidueAlgebra>()
    ensures { (n : ℕ) (two_le : 2 ≤ A.p ^ n) → (T : TowerMod (A.p ^ n) two_le)
        × HasDigitModuli A.p A.modulus A.operations A.laws A.divisor n two_le T
        × ((L : LiftRingOn A.field A.p n (LiftList A.p A.modulus A.operations A.laws A.divisor n))
        × IsLiftOfLists A.p A.modulus A.operations A.laws A.divisor n two_le T A.field L
        × IsRadicalChain L A.algebra A.dimension A.basis A.Subset
        × ((i : ℕ) → i < n → NextFunctional L A.algebra A.dimension A.basis i)
        × ChainBases L A.algebra A.dimension A.basis) }
{}

/// The largest nilpotent two-sided ideal is the span of finitely many independent elements.
pub fn residue_algebra_has_radical<A: ResidueAlgebra>()
    ensures { RadicalBasis A.algebra }
{}
