// Theorems on the corner eAe of an algebra A at an idempotent e.
ghost use Rattle.std.specs.Prelude.{◌≡◌, ℕ};
ghost use Rattle.theory_rings.specs.Ring.{RingOn, FieldOn};
ghost use Rattle.theory_rings.specs.Ops.{Ops, FieldLaws};
ghost use Rattle.theory_spaces.specs.Module.{ModuleOn, AlgebraOn, module_of};
ghost use Rattle.theory_spaces.specs.Linear.{Basis, BasisOf};
ghost use Rattle.theory_spaces.specs.Space.{SpaceOn};
ghost use Rattle.theory_spaces.specs.Subspaces.{Whole};
ghost use Rattle.theory_spaces.specs.Algebra.{CentralSimple, InCorner};
ghost use Rattle.theory_spaces.specs.Lattice.{IsOwnDual};
ghost use Rattle.theory_orders.specs.Orders.{IsIdeal, Within};
ghost use Rattle.theory_lattices.specs.Degree.{DegreeOn};
ghost use Rattle.theory_lattices.specs.SelfDual.{SelfDualPair, IntegralTrace};
ghost use Rattle.theory_pairs.specs.Corner.{Corner, IsCorner, IdealOf, CornerConstants, CornerTable};
ghost use Rattle.theory_pairs.specs.TableCorner.{TablesHaveCorners};

use theory_spaces::algebra_laws::BasedAlgebra;

/// The corner of an idempotent is an algebra whose one is the idempotent.
pub fn corner_exists<A: BasedAlgebra>()
    ensures { (e : A.Vector) → A.algebra.◌⊗◌ e e ≡ e
        → (C : AlgebraOn A.field.ring (Corner A.algebra e)) × IsCorner A.algebra e C (λ x. x.0) }
{}

/// An algebra with a basis, and a space of coordinates.
pub trait AlgebraAndSpace {
    ghost Scalar: { Type 0 };

    ghost Vector: { Type 0 };

    ghost Part: { Type 0 };

    ghost field: { FieldOn Scalar };

    ghost algebra: { AlgebraOn field.ring Vector };

    ghost dimension: { ℕ };

    ghost basis: { Basis (module_of algebra) dimension };
}

/// The corner of an idempotent has a basis with constants, and the product by these on a space of coordinates makes the
/// corner: it is associative, and the coordinates of the idempotent are its one.
pub fn corner_by_constants<A: AlgebraAndSpace>()
    ensures basis { (e : A.Vector) → A.algebra.◌⊗◌ e e ≡ e
        → (k : ℕ) × BasisOf (module_of A.algebra) k (InCorner A.algebra e) }
    ensures constants { (e : A.Vector) → A.algebra.◌⊗◌ e e ≡ e
        → (k : ℕ) (U : BasisOf (module_of A.algebra) k (InCorner A.algebra e)) → CornerConstants A.algebra e k U.vec }
    ensures table { (e : A.Vector) → A.algebra.◌⊗◌ e e ≡ e
        → (k : ℕ) (U : BasisOf (module_of A.algebra) k (InCorner A.algebra e)) (D : CornerConstants A.algebra e k U.vec)
        → (N : ModuleOn A.field.ring A.Part) (S : SpaceOn N k) → CornerTable A.field A.algebra e k U.vec D N S }
{}

/// Over a program's field, as that of the fractions, the corner of an idempotent of the algebra of a table is the
/// algebra of a table too.
pub fn tables_have_corners<E>()
    ensures corner { (o : Ops E) (L : FieldLaws o) → TablesHaveCorners o L }
{}

/// An algebra with a basis, an idempotent of it, and the corner of the idempotent, however its elements are written.
pub trait CornerOfAlgebra {
    ghost Scalar: { Type 0 };

    ghost Vector: { Type 0 };

    ghost field: { FieldOn Scalar };

    ghost algebra: { AlgebraOn field.ring Vector };

    ghost dimension: { ℕ };

    ghost basis: { Basis (module_of algebra) dimension };

    ghost idempotent: { Vector };

    ghost squared: { algebra.◌⊗◌ idempotent idempotent ≡ idempotent };

    ghost Part: { Type 0 };

    ghost corner: { AlgebraOn field.ring Part };

    ghost inclusion: { Part → Vector };

    ghost is_corner: { IsCorner algebra idempotent corner inclusion };
}

/// The corner has a basis.
pub fn corner_has_basis<C: CornerOfAlgebra>()
    ensures { (k : ℕ) × Basis (module_of C.corner) k }
{}

/// The corner of an idempotent other than 0 of a central simple algebra is central simple.
pub fn corner_is_central_simple<C: CornerOfAlgebra>()
    ensures { CentralSimple C.algebra → (C.idempotent ≡ C.algebra.zero → ⊥) → CentralSimple C.corner }
{}

/// The corner of an idempotent, and a set of its elements.
pub trait CornerWithSet {
    ghost Scalar: { Type 0 };

    ghost Vector: { Type 0 };

    ghost ring: { RingOn Scalar };

    ghost algebra: { AlgebraOn ring Vector };

    ghost idempotent: { Vector };

    ghost squared: { algebra.◌⊗◌ idempotent idempotent ≡ idempotent };

    ghost Part: { Type 0 };

    ghost corner: { AlgebraOn ring Part };

    ghost inclusion: { Part → Vector };

    ghost is_corner: { IsCorner algebra idempotent corner inclusion };

    ghost Set: { Part → Type 0 };
}

/// A set J of the corner lies in the ideal of the algebra that it generates; where J is an ideal of the corner, nothing
/// else of the corner does.
pub fn ideals_of_corner<C: CornerWithSet>()
    ensures into { Within C.Set (λ x. IdealOf C.algebra C.idempotent C.corner C.inclusion C.Set (C.inclusion x)) }
    ensures back { IsIdeal C.corner Whole C.Set
        → Within (λ x. IdealOf C.algebra C.idempotent C.corner C.inclusion C.Set (C.inclusion x)) C.Set }
{}

/// The corner of an idempotent, a map of the algebra to the scalars, a set of elements and one of scalars.
pub trait CornerWithLattice {
    ghost Scalar: { Type 0 };

    ghost Vector: { Type 0 };

    ghost ring: { RingOn Scalar };

    ghost algebra: { AlgebraOn ring Vector };

    ghost idempotent: { Vector };

    ghost squared: { algebra.◌⊗◌ idempotent idempotent ≡ idempotent };

    ghost Part: { Type 0 };

    ghost corner: { AlgebraOn ring Part };

    ghost inclusion: { Part → Vector };

    ghost is_corner: { IsCorner algebra idempotent corner inclusion };

    ghost trace: { Vector → Scalar };

    ghost Weight: { Scalar → Type 0 };

    ghost Lattice: { Vector → Type 0 };
}

/// Where a set is closed under products, holds the idempotent and is its own dual for a trace with tr(xy) = tr(yx), its
/// part in the corner is its own dual there.
pub fn corner_of_own_dual<C: CornerWithLattice>()
    ensures { ((x y : C.Vector) → C.trace (C.algebra.◌⊗◌ x y) ≡ C.trace (C.algebra.◌⊗◌ y x))
        → ((x y : C.Vector) → C.Lattice x → C.Lattice y → C.Lattice (C.algebra.◌⊗◌ x y)) → C.Lattice C.idempotent
        → IsOwnDual (λ x y. C.trace (C.algebra.◌⊗◌ x y)) C.Weight C.Lattice
        → IsOwnDual (λ x y. C.trace (C.inclusion (C.corner.◌⊗◌ x y))) C.Weight (λ x. C.Lattice (C.inclusion x)) }
{}

/// A pair of self-dual orders, and the corner of an idempotent of both.
pub trait PairWithCorner {
    ghost Scalar: { Type 0 };

    ghost Vector: { Type 0 };

    ghost field: { FieldOn Scalar };

    ghost degree: { DegreeOn field.ring };

    ghost algebra: { AlgebraOn field.ring Vector };

    ghost idempotent: { Vector };

    ghost squared: { algebra.◌⊗◌ idempotent idempotent ≡ idempotent };

    ghost Part: { Type 0 };

    ghost corner: { AlgebraOn field.ring Part };

    ghost inclusion: { Part → Vector };

    ghost is_corner: { IsCorner algebra idempotent corner inclusion };

    ghost Weight: { Scalar → Type 0 };

    ghost Finite: { Vector → Type 0 };

    ghost Infinite: { Vector → Type 0 };

    ghost trace: { Vector → Scalar };

    ghost pair: { SelfDualPair field degree algebra Weight Finite Infinite trace };

    ghost in_finite: { Finite idempotent };

    ghost in_infinite: { Infinite idempotent };
}

/// The corner of a self-dual pair is a self-dual pair, and its trace is integral where that of the pair is.
pub fn corner_of_self_dual_pair<C: PairWithCorner>()
    ensures pair { SelfDualPair C.field C.degree C.corner C.Weight (λ x. C.Finite (C.inclusion x))
        (λ x. C.Infinite (C.inclusion x)) (λ x. C.trace (C.inclusion x)) }
    ensures integral { IntegralTrace C.field C.degree C.algebra C.Weight C.Finite C.Infinite C.trace
        → IntegralTrace C.field C.degree C.corner C.Weight (λ x. C.Finite (C.inclusion x))
        (λ x. C.Infinite (C.inclusion x)) (λ x. C.trace (C.inclusion x)) }
{}
