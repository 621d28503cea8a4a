// Theorems on ramified places.
ghost use Rattle.std.specs.Prelude.{ℕ};
ghost use Rattle.theory_rings.specs.Ring.{FieldOn};
ghost use Rattle.theory_rings.specs.Ops.{Ops, FieldLaws};
ghost use Rattle.theory_rings.specs.Elements.{Elem, elements};
ghost use Rattle.theory_spaces.specs.Module.{AlgebraOn};
ghost use Rattle.theory_spaces.specs.Valuation.{ValuationOn};
ghost use Rattle.theory_orders.specs.Uniformizer.{IsIntegral, UniformizerOn};
ghost use Rattle.theory_orders.specs.Ramified.{IsRamified};
ghost use Rattle.theory_orders.specs.RamifiedLaws.{RamifiedExcludesIsomorphism, RamifiedOrderIsMaximal};
ghost use Rattle.theory_orders.specs.RamifiedLaws.{RamifiedRadicalIsOnly};

use crate::order_laws::PlacedAlgebra;

/// An algebra with a ramified place is isomorphic to no algebra of all matrices of a size n ≥ 1.
pub fn ramified_excludes_isomorphism<A: PlacedAlgebra>()
    ensures { RamifiedExcludesIsomorphism A.field A.valuation A.p A.algebra A.dimension }
{}

/// The order of a ramified place is maximal: each order that is a lattice and holds it is it.
pub fn ramified_order_is_maximal<A: PlacedAlgebra>()
    ensures { RamifiedOrderIsMaximal A.field A.valuation A.p A.algebra A.dimension }
{}

/// The radical of a ramified place is the one maximal ideal over p·Λ and invertible, and p·Λ is a power of it.
pub fn radical_of_ramified_place<A: PlacedAlgebra>()
    ensures { RamifiedRadicalIsOnly A.field A.valuation A.p A.algebra A.dimension }
{}

/// A program's field with a valuation ring and a uniformizer p, which has the inverse q.
pub trait PlacedTuples {
    ghost Value: { Type 0 };

    ghost ops: { Ops Value };

    ghost laws: { FieldLaws ops };

    ghost valuation: { ValuationOn (elements ops laws) };

    ghost p: { Elem ops };

    ghost q: { Elem ops };

    ghost uniformizer: { UniformizerOn (elements ops laws) valuation p q };
}

/// A field with a valuation ring and a uniformizer p, whose inverse q is not integral.
pub trait Place {
    ghost Scalar: { Type 0 };

    ghost field: { FieldOn Scalar };

    ghost valuation: { ValuationOn field };

    ghost p: { Scalar };

    ghost q: { Scalar };

    ghost uniformizer: { UniformizerOn field valuation p q };

    ghost strict: { IsIntegral field valuation q → ⊥ };
}

/// There are ramified places: in the field with a square root of p, the integral pairs and the multiples of the root.
pub fn ramified_place_exists<P: Place>()
    ensures { (A : AlgebraOn P.field.ring (P.Scalar × P.Scalar)) × (v : ℕ → P.Scalar × P.Scalar)
        × (w : ℕ → P.Scalar × P.Scalar)
        × IsRamified P.field P.valuation P.p A 2 v w }
{}
