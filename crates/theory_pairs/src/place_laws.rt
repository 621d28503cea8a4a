// Theorems on lattices at places and over the ring of what is integral at all of them.
ghost use Rattle.std.specs.Prelude.{◌≡◌, ℕ, ◌↔◌};
ghost use Rattle.theory_rings.specs.Ring.{FieldOn};
ghost use Rattle.theory_spaces.specs.Module.{AlgebraOn, module_of};
ghost use Rattle.theory_spaces.specs.Linear.{Basis};
ghost use Rattle.theory_spaces.specs.Matrix.{Matrix};
ghost use Rattle.theory_spaces.specs.Algebra.{Nondegenerate};
ghost use Rattle.theory_spaces.specs.Form.{DualBasis, gram, trace_form};
ghost use Rattle.theory_spaces.specs.Valuation.{ValuationOn};
ghost use Rattle.theory_rings.specs.Polynomial.{Poly};
ghost use Rattle.theory_rings.specs.Division.{Divides};
ghost use Rattle.theory_lattices.specs.RationalFunctions.{polynomial_ring};
ghost use Rattle.theory_lattices.specs.RationalFunctions.{IsPolynomial, of_polynomial};
ghost use Rattle.theory_pairs.specs.PolynomialPlaces.{FinitePlace, FiniteValuations, valuation_at};
ghost use Rattle.theory_orders.specs.Uniformizer.{IsIntegral, IsUnit};
ghost use Rattle.theory_orders.specs.Orders.{IsOrder, Same};
ghost use Rattle.theory_orders.specs.Lattices.{Lattice, IsOrderAt};
ghost use Rattle.theory_orders.specs.Dual.{Dual, IsSelfDual};
ghost use Rattle.theory_spaces.specs.Lattice.{IsSubring, LatticeOver};
ghost use Rattle.theory_pairs.specs.Subring.{IsIntersection, HasFractions};
ghost use Rattle.theory_pairs.specs.OwnDual.{EntriesIn, InvertsGram};
ghost use Rattle.theory_pairs.specs.PlaceLaws.{SelfDualOutside};

use theory_lattices::rational_laws::RationalFunctions;
use theory_orders::order_laws::PlacedAlgebra;

/// An algebra with a basis over a field, and a subring of the field that is the intersection of valuation rings.
pub trait RingOfPlaces {
    ghost Scalar: { Type 0 };

    ghost Vector: { Type 0 };

    ghost Place: { Type 0 };

    ghost field: { FieldOn Scalar };

    ghost Weight: { Scalar → Type 0 };

    ghost valuation: { Place → ValuationOn field };

    ghost intersection: { IsIntersection field Weight valuation };

    ghost algebra: { AlgebraOn field.ring Vector };

    ghost dimension: { ℕ };

    ghost basis: { Basis (module_of algebra) dimension };
}

/// The lattice of the basis over the subring is the intersection of its lattices at the places; and it is an order
/// exactly where each of these is one.
pub fn orders_are_local<R: RingOfPlaces>()
    ensures members { Same (LatticeOver (module_of R.algebra) R.Weight R.dimension R.basis.vec)
        (λ x. (place : R.Place) → Lattice R.field (R.valuation place) R.algebra R.dimension R.basis.vec x) }
    ensures order { IsOrder R.algebra (LatticeOver (module_of R.algebra) R.Weight R.dimension R.basis.vec)
        ↔ ((place : R.Place) → IsOrderAt R.field (R.valuation place) R.algebra R.dimension R.basis.vec) }
{}

/// The dual of the lattice of a basis at a place, by the trace form, is the lattice of the dual basis; and the lattice
/// is its own dual exactly where the entries of the Gram matrix and of its inverse are integral.
pub fn duals_at_places<A: PlacedAlgebra>()
    ensures dual { (v : Basis (module_of A.algebra) A.dimension)
        (D : DualBasis (module_of A.algebra) (trace_form A.algebra A.dimension A.basis) A.dimension v)
        → Same (Dual A.field A.valuation A.algebra A.dimension A.basis
        (Lattice A.field A.valuation A.algebra A.dimension v.vec))
        (Lattice A.field A.valuation A.algebra A.dimension D.basis.vec) }
    ensures own_dual { (v : Basis (module_of A.algebra) A.dimension) (N : Matrix A.Scalar)
        → InvertsGram (module_of A.algebra) (trace_form A.algebra A.dimension A.basis) A.dimension v.vec N
        → IsSelfDual A.field A.valuation A.algebra A.dimension A.basis
        (Lattice A.field A.valuation A.algebra A.dimension v.vec)
        ↔ (EntriesIn (IsIntegral A.field A.valuation) A.dimension
        (gram (module_of A.algebra) (trace_form A.algebra A.dimension A.basis) v.vec)
        × EntriesIn (IsIntegral A.field A.valuation) A.dimension N) }
{}

/// An algebra with a basis over a field that is the fractions of a subring.
pub trait AlgebraOverFractions {
    ghost Scalar: { Type 0 };

    ghost Vector: { Type 0 };

    ghost field: { FieldOn Scalar };

    ghost Weight: { Scalar → Type 0 };

    ghost subring: { IsSubring field.ring Weight };

    ghost fractions: { HasFractions field Weight };

    ghost algebra: { AlgebraOn field.ring Vector };

    ghost dimension: { ℕ };

    ghost basis: { Basis (module_of algebra) dimension };
}

/// Where the trace form is nondegenerate, the lattice of a basis is its own dual at all places but those at which one
/// element of the subring is no unit.
pub fn self_dual_almost_everywhere<A: AlgebraOverFractions>()
    ensures { Nondegenerate A.algebra A.dimension A.basis → (v : Basis (module_of A.algebra) A.dimension)
        → (d : A.Scalar) × SelfDualOutside A.field A.Weight A.algebra A.dimension A.basis v.vec d }
{}

/// The polynomials are what is integral at all finite places of the rational functions; and a polynomial is a unit at
/// each finite place whose polynomial does not divide it.
pub fn polynomials_at_places<Q: RationalFunctions>()
    ensures intersection { (V : FiniteValuations Q.constants Q.field)
        → IsIntersection Q.field (IsPolynomial Q.constants) (valuation_at Q.constants Q.field V) }
    ensures units { (V : FiniteValuations Q.constants Q.field) (place : FinitePlace Q.constants)
        (u : Poly Q.constants.cring)
        → (Divides (polynomial_ring Q.constants) place.0 u → ⊥)
        → IsUnit Q.field (valuation_at Q.constants Q.field V place) (of_polynomial Q.constants u) }
{}
