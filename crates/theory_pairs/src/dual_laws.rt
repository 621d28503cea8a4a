// Theorems on lattices that are their own duals for a form.
ghost use Rattle.std.specs.Prelude.{◌≡◌, ℕ, ◌<◌, pos};
ghost use Rattle.theory_rings.specs.Ring.{RingOn, FieldOn};
ghost use Rattle.theory_spaces.specs.Module.{ModuleOn, AlgebraOn, module_of};
ghost use Rattle.theory_spaces.specs.Linear.{Basis};
ghost use Rattle.theory_spaces.specs.Matrix.{Matrix};
ghost use Rattle.theory_spaces.specs.Form.{IsBilinear, IsNondegenerate, DualBasis, gram};
ghost use Rattle.theory_spaces.specs.Algebra.{InCorner};
ghost use Rattle.theory_spaces.specs.Valuation.{ValuationOn};
ghost use Rattle.theory_orders.specs.Uniformizer.{IsIntegral};
ghost use Rattle.theory_orders.specs.Orders.{Same};
ghost use Rattle.theory_orders.specs.Lattices.{Lattice};
ghost use Rattle.theory_lattices.specs.Degree.{DegreeOn, DegreeBelow};
ghost use Rattle.theory_spaces.specs.Lattice.{IsSubring, LatticeOver, DualOf, IsOwnDual};
ghost use Rattle.theory_lattices.specs.CommonBasis.{InInfinite};
ghost use Rattle.theory_lattices.specs.RationalFunctions.{IsPolynomial};
ghost use Rattle.theory_lattices.specs.SelfDual.{SelfDualPair, IntegralTrace};
ghost use Rattle.theory_pairs.specs.Subring.{HasFractions};
ghost use Rattle.theory_pairs.specs.OwnDual.{CornerPart, EntriesIn, InvertsGram, UnimodularGram};
ghost use Rattle.theory_pairs.specs.OwnDual.{IsTraceMap};

use theory_lattices::lattice_laws::{DegreeSpace, IdempotentWithLattice};
use theory_lattices::rational_laws::RationalFunctions;
use theory_orders::order_laws::PlacedAlgebra;

/// A set that is closed under products, holds the idempotent e and is its own dual: its products e·y·e are its members
/// in the corner of e, and just the elements of the corner that all of them pair with into the weights.
pub fn corner_part<E: IdempotentWithLattice>()
    ensures members { ((x y : E.Vector) → E.Lattice x → E.Lattice y → E.Lattice (E.algebra.◌⊗◌ x y))
        → E.Lattice E.idempotent
        → Same (CornerPart E.algebra E.idempotent E.Lattice) (λ x. E.Lattice x × InCorner E.algebra E.idempotent x) }
    ensures own_dual { ((x y : E.Vector) → E.trace (E.algebra.◌⊗◌ x y) ≡ E.trace (E.algebra.◌⊗◌ y x))
        → ((x y : E.Vector) → E.Lattice x → E.Lattice y → E.Lattice (E.algebra.◌⊗◌ x y)) → E.Lattice E.idempotent
        → IsOwnDual (λ x y. E.trace (E.algebra.◌⊗◌ x y)) E.Weight E.Lattice
        → Same (λ x. DualOf (λ x y. E.trace (E.algebra.◌⊗◌ x y)) E.Weight
        (CornerPart E.algebra E.idempotent E.Lattice) x × InCorner E.algebra E.idempotent x)
        (CornerPart E.algebra E.idempotent E.Lattice) }
{}

/// A bilinear form on a space with a basis, and a subring of the field as a condition on its elements.
pub trait FormOverRing {
    ghost Scalar: { Type 0 };

    ghost Vector: { Type 0 };

    ghost field: { FieldOn Scalar };

    ghost space: { ModuleOn field.ring Vector };

    ghost form: { Vector → Vector → Scalar };

    ghost bilinear: { IsBilinear space form };

    ghost dimension: { ℕ };

    ghost basis: { Basis space dimension };

    ghost Weight: { Scalar → Type 0 };

    ghost subring: { IsSubring field.ring Weight };
}

/// The dual of the lattice of a basis is the lattice of the dual basis.
pub fn dual_of_span<B: FormOverRing>()
    ensures { (D : DualBasis B.space B.form B.dimension B.basis)
        → Same (DualOf B.form B.Weight (LatticeOver B.space B.Weight B.dimension B.basis.vec))
        (LatticeOver B.space B.Weight B.dimension D.basis.vec) }
{}

/// The Gram matrix of a basis has an inverse where the form is nondegenerate. The lattice of the basis is then its own
/// dual just if the entries of both matrices are in the ring.
pub fn own_dual_by_gram<B: FormOverRing>()
    ensures inverse { IsNondegenerate B.space B.form → (N : Matrix B.Scalar)
        × InvertsGram B.space B.form B.dimension B.basis.vec N }
    ensures entries { (N : Matrix B.Scalar) → InvertsGram B.space B.form B.dimension B.basis.vec N
        → IsOwnDual B.form B.Weight (LatticeOver B.space B.Weight B.dimension B.basis.vec)
        → EntriesIn B.Weight B.dimension (gram B.space B.form B.basis.vec) × EntriesIn B.Weight B.dimension N }
    ensures own_dual { (N : Matrix B.Scalar) → InvertsGram B.space B.form B.dimension B.basis.vec N
        → EntriesIn B.Weight B.dimension (gram B.space B.form B.basis.vec) → EntriesIn B.Weight B.dimension N
        → IsOwnDual B.form B.Weight (LatticeOver B.space B.Weight B.dimension B.basis.vec) }
{}

/// A valuation ring is a subring.
pub fn valuation_weights<A: PlacedAlgebra>()
    ensures { IsSubring A.field.ring (IsIntegral A.field A.valuation) }
{}

/// The polynomials among the rational functions are a subring, and each rational function is a fraction of them.
pub fn polynomial_weights<Q: RationalFunctions>()
    ensures subring { IsSubring Q.field.ring (IsPolynomial Q.constants) }
    ensures fractions { HasFractions Q.field (IsPolynomial Q.constants) }
{}

/// The elements of degree at most 0 are a subring.
pub fn degree_weights<S: DegreeSpace>()
    ensures { IsSubring S.field.ring (λ c. DegreeBelow S.degree (pos 1) c) }
{}

/// An algebra over a field with a degree, a trace of it, a subring of the field, and two bases.
pub trait TwoBases {
    ghost Scalar: { Type 0 };

    ghost Vector: { Type 0 };

    ghost field: { FieldOn Scalar };

    ghost degree: { DegreeOn field.ring };

    ghost algebra: { AlgebraOn field.ring Vector };

    ghost trace: { Vector → Scalar };

    ghost is_trace: { IsTraceMap algebra trace };

    ghost Weight: { Scalar → Type 0 };

    ghost subring: { IsSubring field.ring Weight };

    ghost dimension: { ℕ };

    ghost finite: { Basis (module_of algebra) dimension };

    ghost infinite: { Basis (module_of algebra) dimension };
}

/// Let the Gram matrices of the two bases and their inverses have entries in the subring, and in the elements of degree
/// at most 0. Where the products of each basis are combinations of it over its ring, the lattices of the two are a
/// self-dual pair. Where they hold one, the trace is integral.
pub fn self_dual_pair_by_gram<T: TwoBases>()
    ensures pair { UnimodularGram (module_of T.algebra)
        (λ x y. T.trace (T.algebra.◌⊗◌ x y)) T.Weight T.dimension T.finite.vec
        → UnimodularGram (module_of T.algebra) (λ x y. T.trace (T.algebra.◌⊗◌ x y))
        (λ c. DegreeBelow T.degree (pos 1) c) T.dimension T.infinite.vec
        → ((i j : ℕ) → i < T.dimension → j < T.dimension
        → LatticeOver (module_of T.algebra) T.Weight T.dimension T.finite.vec
        (T.algebra.◌⊗◌ (T.finite.vec i) (T.finite.vec j)))
        → ((i j : ℕ) → i < T.dimension → j < T.dimension
        → InInfinite T.field T.degree (module_of T.algebra) T.Weight T.dimension T.infinite.vec
        (T.algebra.◌⊗◌ (T.infinite.vec i) (T.infinite.vec j)))
        → SelfDualPair T.field T.degree T.algebra T.Weight
        (LatticeOver (module_of T.algebra) T.Weight T.dimension T.finite.vec)
        (InInfinite T.field T.degree (module_of T.algebra) T.Weight T.dimension T.infinite.vec) T.trace }
    ensures integral { UnimodularGram (module_of T.algebra)
        (λ x y. T.trace (T.algebra.◌⊗◌ x y)) T.Weight T.dimension T.finite.vec
        → UnimodularGram (module_of T.algebra) (λ x y. T.trace (T.algebra.◌⊗◌ x y))
        (λ c. DegreeBelow T.degree (pos 1) c) T.dimension T.infinite.vec
        → LatticeOver (module_of T.algebra) T.Weight T.dimension T.finite.vec T.algebra.one
        → InInfinite T.field T.degree (module_of T.algebra) T.Weight T.dimension T.infinite.vec T.algebra.one
        → IntegralTrace T.field T.degree T.algebra T.Weight
        (LatticeOver (module_of T.algebra) T.Weight T.dimension T.finite.vec)
        (InInfinite T.field T.degree (module_of T.algebra) T.Weight T.dimension T.infinite.vec) T.trace }
{}
