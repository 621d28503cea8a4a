// Theorems on lattices: common bases, intersections, and lattices that are their own duals.
ghost use Rattle.std.specs.Prelude.{◌≡◌, ℕ, ◌<◌, ℤ, pos, ◌+ℤ◌, neg_ℤ};
ghost use Rattle.theory_rings.specs.Ring.{RingOn, FieldOn};
ghost use Rattle.theory_rings.specs.Sum.{sum};
ghost use Rattle.theory_spaces.specs.Module.{ModuleOn, AlgebraOn};
ghost use Rattle.theory_spaces.specs.Linear.{comb, InSpan, Independent, Coords};
ghost use Rattle.theory_spaces.specs.Matrix.{delta};
ghost use Rattle.theory_spaces.specs.Form.{IsBilinear};
ghost use Rattle.theory_spaces.specs.Algebra.{InCorner, Central, CentralSimple};
ghost use Rattle.theory_lattices.specs.Degree.{DegreeOn};
ghost use Rattle.theory_lattices.specs.ReducedRows.{Reduced};
ghost use Rattle.theory_spaces.specs.Sets.{Within};
ghost use Rattle.theory_spaces.specs.Lattice.{LatticeOver, DualOf};
ghost use Rattle.theory_lattices.specs.CommonBasis.{InInfinite, InBoth, CommonBasis};
ghost use Rattle.theory_lattices.specs.Members.{PolynomialsOf, IntersectionBasis};

use theory_spaces::algebra_laws::BasedAlgebra;

/// A space of n coordinates over a field with a degree, and the elements that may be weights of a finite lattice.
pub trait DegreeSpace {
    ghost Scalar: { Type 0 };

    ghost Vector: { Type 0 };

    ghost field: { FieldOn Scalar };

    ghost degree: { DegreeOn field.ring };

    ghost space: { ModuleOn field.ring Vector };

    ghost Weight: { Scalar → Type 0 };

    ghost size: { ℕ };

    ghost coords: { Coords space size };
}

/// Reduced rows over a basis e of an infinite lattice are a common basis of the finite lattice that they span and of
/// the infinite one, with the opposites of their degrees.
pub fn common_basis<S: DegreeSpace>()
    ensures { (e : ℕ → S.Vector) → Independent S.space S.size e → ((x : S.Vector) → InSpan S.space S.size e x)
        → (rows : ℕ → ℕ → S.Scalar) (red : Reduced S.degree S.size S.size rows)
        → CommonBasis S.field S.degree S.space S.Weight S.size
        (LatticeOver S.space S.Weight S.size (λ i. comb S.space S.size (rows i) e))
        (InInfinite S.field S.degree S.space S.Weight S.size e) (λ i. comb S.space S.size (rows i) e)
        (λ i. neg_ℤ (red.degree i)) }
{}

/// A finite and an infinite lattice with a common basis, where the weights of the finite one are the polynomials over a
/// field of constants.
pub trait LatticePair {
    ghost Constant: { Type 0 };

    ghost Scalar: { Type 0 };

    ghost Vector: { Type 0 };

    ghost constants: { RingOn Constant };

    ghost field: { FieldOn Scalar };

    ghost degree: { DegreeOn field.ring };

    ghost Weight: { Scalar → Type 0 };

    ghost embed: { Constant → Scalar };

    ghost powers: { ℕ → Scalar };

    ghost polynomials: { PolynomialsOf field degree Weight constants embed powers };

    ghost space: { ModuleOn field.ring Vector };

    ghost size: { ℕ };

    ghost Finite: { Vector → Type 0 };

    ghost Infinite: { Vector → Type 0 };

    ghost vec: { ℕ → Vector };

    ghost degrees: { ℕ → ℤ };

    ghost basis: { CommonBasis field degree space Weight size Finite Infinite vec degrees };
}

/// In the intersection the weights by a common basis are the polynomials whose degree is at most that of the basis
/// vector; so the products of powers up to these degrees with the basis vectors are a basis of it over the constants.
pub fn intersection<L: LatticePair>()
    ensures weights { (x : L.Vector) → L.Finite x → L.Infinite x
        → InBoth L.field L.degree L.space L.Weight L.size L.vec L.degrees x }
    ensures members { (x : L.Vector) → InBoth L.field L.degree L.space L.Weight L.size L.vec L.degrees x → L.Finite x
        × L.Infinite x }
    ensures basis { IntersectionBasis L.field L.degree L.Weight L.constants L.embed L.powers L.space L.size L.vec
        L.degrees L.Finite L.Infinite }
{}

/// A bilinear form on a space, and the elements that may be weights of a lattice.
pub trait FormWithWeights {
    ghost Scalar: { Type 0 };

    ghost Vector: { Type 0 };

    ghost field: { FieldOn Scalar };

    ghost space: { ModuleOn field.ring Vector };

    ghost form: { Vector → Vector → Scalar };

    ghost bilinear: { IsBilinear space form };

    ghost Weight: { Scalar → Type 0 };
}

/// Where a basis and its dual basis span one lattice, all that pairs with the lattice into the weights lies in it.
pub fn self_dual_lattice<B: FormWithWeights>()
    ensures { (n : ℕ) (f g : ℕ → B.Vector) → ((i j : ℕ) → i < n → j < n → B.form (f i) (g j) ≡ delta B.field.ring i j)
        → ((x : B.Vector) → InSpan B.space n f x)
        → Within (LatticeOver B.space B.Weight n f) (LatticeOver B.space B.Weight n g)
        → Within (LatticeOver B.space B.Weight n g) (LatticeOver B.space B.Weight n f)
        → ((i : ℕ) → i < n → LatticeOver B.space B.Weight n f (f i))
        → Within (DualOf B.form B.Weight (LatticeOver B.space B.Weight n f)) (LatticeOver B.space B.Weight n f) }
{}

/// An idempotent of an algebra, a map to the scalars, a set of elements and one of scalars.
pub trait IdempotentWithLattice {
    ghost Scalar: { Type 0 };

    ghost Vector: { Type 0 };

    ghost ring: { RingOn Scalar };

    ghost algebra: { AlgebraOn ring Vector };

    ghost trace: { Vector → Scalar };

    ghost Weight: { Scalar → Type 0 };

    ghost Lattice: { Vector → Type 0 };

    ghost idempotent: { Vector };

    ghost squared: { algebra.◌⊗◌ idempotent idempotent ≡ idempotent };
}

/// A lattice that is closed under products, holds the idempotent and is all that pairs with it into the weights: so is
/// its part in the corner of the idempotent, among the elements of the corner.
pub fn corner_is_self_dual<E: IdempotentWithLattice>()
    ensures { ((x y : E.Vector) → E.trace (E.algebra.◌⊗◌ x y) ≡ E.trace (E.algebra.◌⊗◌ y x))
        → ((x y : E.Vector) → E.Lattice x → E.Lattice y → E.Lattice (E.algebra.◌⊗◌ x y)) → E.Lattice E.idempotent
        → Within (DualOf (λ x y. E.trace (E.algebra.◌⊗◌ x y)) E.Weight E.Lattice) E.Lattice
        → (x : E.Vector) → InCorner E.algebra E.idempotent x
        → ((y : E.Vector) → InCorner E.algebra E.idempotent y → E.Lattice y → E.Weight (E.trace (E.algebra.◌⊗◌ y x)))
        → E.Lattice x }
{}

/// Where one is a sum of products x·e·y and the centre is the scalars, the centre of the corner of e is the multiples
/// of e.
pub fn centre_of_corner<E: IdempotentWithLattice>()
    ensures { (r : ℕ) (x y : ℕ → E.Vector)
        → E.algebra.one ≡ sum E.algebra.monoid r (λ i. E.algebra.◌⊗◌ (E.algebra.◌⊗◌ (x i) E.idempotent) (y i))
        → Central E.algebra
        → (c : E.Vector) → InCorner E.algebra E.idempotent c
        → ((a : E.Vector) → InCorner E.algebra E.idempotent a → E.algebra.◌⊗◌ c a ≡ E.algebra.◌⊗◌ a c)
        → (k : E.Scalar) × (c ≡ E.algebra.◌•◌ k E.idempotent) }
{}

/// The centre of the corner of an idempotent e other than 0 of a central simple algebra is the multiples of e.
pub fn centre_of_simple_corner<A: BasedAlgebra>()
    ensures { CentralSimple A.algebra → (e : A.Vector) → A.algebra.◌⊗◌ e e ≡ e → (e ≡ A.algebra.zero → ⊥)
        → (c : A.Vector) → InCorner A.algebra e c
        → ((a : A.Vector) → InCorner A.algebra e a → A.algebra.◌⊗◌ c a ≡ A.algebra.◌⊗◌ a c)
        → (k : A.Scalar) × (c ≡ A.algebra.◌•◌ k e) }
{}
