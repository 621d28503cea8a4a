// Theorems on the maximal ideals of an order over p times it.
ghost use Rattle.std.specs.Prelude.{◌≡◌, ℕ};
ghost use Rattle.theory_rings.specs.Ring.{FieldOn};
ghost use Rattle.theory_spaces.specs.Module.{AlgebraOn, module_of};
ghost use Rattle.theory_spaces.specs.Linear.{Basis};
ghost use Rattle.theory_spaces.specs.Algebra.{Central};
ghost use Rattle.theory_spaces.specs.Valuation.{ValuationOn};
ghost use Rattle.theory_orders.specs.Uniformizer.{IsIntegral, UniformizerOn};
ghost use Rattle.theory_orders.specs.MaximalIdealLaws.{MaximalIsOnly, RadicalIsOnly, SomeIsOnly, RadicalIsTheOnly};
ghost use Rattle.theory_orders.specs.MaximalIdealLaws.{NothingGrowsByList, FamilyIsOnly, FamilyIsOne};
ghost use Rattle.theory_orders.specs.MaximalIdealLaws.{RadicalHolds, SimpleHolds, OnlyHolds};

use crate::order_laws::PlacedAlgebra;

/// Where the centre is the scalars and no maximal ideal over p·Λ has a larger left order, there is exactly one; it is
/// the radical and invertible, and p·Λ is a power of it. Each maximal ideal is that one, and so is the radical,
/// unless it is Λ. It is enough that the maximal ideals of a family do not grow, of which some product lies in p·Λ.
pub fn exactly_one_maximal_ideal<A: PlacedAlgebra>()
    ensures each { Central A.algebra → MaximalIsOnly A.field A.valuation A.p A.algebra A.dimension }
    ensures radical { Central A.algebra → RadicalIsOnly A.field A.valuation A.p A.algebra A.dimension }
    ensures family { Central A.algebra → FamilyIsOnly A.field A.valuation A.p A.algebra A.dimension }
{}

/// Where p is not a unit, the algebra is not 0 and its centre is the scalars, and no maximal ideal over p·Λ has a
/// larger left order, it is absurd that there is not exactly one, and the radical, given as a lattice, is that one.
/// Whether nothing grows is told by any finite list of all maximal ideals.
pub fn a_maximal_ideal_exists<A: PlacedAlgebra>()
    ensures some { (IsIntegral A.field A.valuation A.q → ⊥) → (A.algebra.one ≡ A.algebra.zero → ⊥) → Central A.algebra
        → SomeIsOnly A.field A.valuation A.p A.algebra A.dimension }
    ensures radical { (IsIntegral A.field A.valuation A.q → ⊥) → (A.algebra.one ≡ A.algebra.zero → ⊥)
        → Central A.algebra
        → RadicalIsTheOnly A.field A.valuation A.p A.algebra A.dimension }
    ensures listed { NothingGrowsByList A.field A.valuation A.p A.algebra A.dimension }
{}

/// A family of sets of elements of an algebra with a basis over a field with a valuation ring and a uniformizer p,
/// which has the inverse q.
pub trait IdealFamily {
    ghost Scalar: { Type 0 };

    ghost Vector: { Type 0 };

    ghost Index: { Type 0 };

    ghost field: { FieldOn Scalar };

    ghost valuation: { ValuationOn field };

    ghost p: { Scalar };

    ghost q: { Scalar };

    ghost uniformizer: { UniformizerOn field valuation p q };

    ghost algebra: { AlgebraOn field.ring Vector };

    ghost dimension: { ℕ };

    ghost basis: { Basis (module_of algebra) dimension };

    ghost Ideal: { Index → Vector → Type 0 };
}

/// Maximal ideals over p·Λ, given by elements, of which some product lies in p·Λ and none has a larger left order, are
/// one, where the centre is the scalars.
pub fn maximal_ideals_are_one<F: IdealFamily>()
    ensures { Central F.algebra → FamilyIsOne F.field F.valuation F.p F.algebra F.dimension F.Ideal }
{}

/// What the definitions ask of ideals that tests tell holds of each set: the radical holds each ideal over p·Λ with a
/// power in p·Λ, no ideal lies strictly between Λ and an ideal with a simple quotient, and each maximal ideal is the
/// only one.
pub fn ideals_of_whatever_form<F: IdealFamily>()
    ensures radical { RadicalHolds F.field F.valuation F.p F.algebra F.dimension F.Ideal }
    ensures simple { SimpleHolds F.field F.valuation F.p F.algebra F.dimension F.Ideal }
    ensures only { OnlyHolds F.field F.valuation F.p F.algebra F.dimension F.Ideal }
{}
