// Theorems on algebras with a basis.
ghost use Rattle.std.specs.Prelude.{◌≡◌, ◌↔◌, ℕ};
ghost use Rattle.theory_rings.specs.Ring.{CommRingOn, FieldOn};
ghost use Rattle.theory_spaces.specs.Module.{AlgebraOn, module_of};
ghost use Rattle.theory_spaces.specs.Linear.{Basis};
ghost use Rattle.theory_spaces.specs.Matrix.{Matrix, mat_mul, mat_trace};
ghost use Rattle.theory_spaces.specs.Algebra.{trace, IsNilpotent, Nondegenerate, Central, CentralSimple, IsSimple};
ghost use Rattle.theory_spaces.specs.Algebra.{SimpleByTests};

/// An algebra over a field, with a basis.
pub trait BasedAlgebra {
    ghost Scalar: { Type 0 };

    ghost Vector: { Type 0 };

    ghost field: { FieldOn Scalar };

    ghost algebra: { AlgebraOn field.ring Vector };

    ghost dimension: { ℕ };

    ghost basis: { Basis (module_of algebra) dimension };
}

/// The trace of a product is the same for both orders.
pub fn trace_of_product<A: BasedAlgebra>()
    ensures { (x y : A.Vector) → trace A.algebra A.dimension A.basis (A.algebra.◌⊗◌ x y)
        ≡ trace A.algebra A.dimension A.basis (A.algebra.◌⊗◌ y x) }
{}

/// A nilpotent element has trace 0.
pub fn trace_of_nilpotent<A: BasedAlgebra>()
    ensures { (x : A.Vector) → IsNilpotent A.algebra.ring x → trace A.algebra A.dimension A.basis x ≡ A.field.zero }
{}

/// An algebra whose trace form is nondegenerate and whose centre is the multiples of one is central simple.
pub fn central_simple<A: BasedAlgebra>()
    ensures { Nondegenerate A.algebra A.dimension A.basis → Central A.algebra → CentralSimple A.algebra }
{}

/// An algebra with a basis is simple and not 0, by ideals that finitely many vectors span, just where it is by ideals
/// that a test tells.
pub fn simple_by_spans_and_tests<A: BasedAlgebra>()
    ensures { (IsSimple A.algebra × (A.algebra.one ≡ A.algebra.zero → ⊥)) ↔ SimpleByTests A.algebra }
{}

/// A commutative ring.
pub trait Scalars {
    ghost Elem: { Type 0 };

    ghost ring: { CommRingOn Elem };
}

/// The trace of a product of an n by m and an m by n matrix is the same for both orders.
pub fn trace_of_matrix_product<S: Scalars>()
    ensures { (n m : ℕ) (A B : Matrix S.Elem) → mat_trace S.ring.ring n
        (mat_mul S.ring.ring m A B) ≡ mat_trace S.ring.ring m (mat_mul S.ring.ring n B A) }
{}
