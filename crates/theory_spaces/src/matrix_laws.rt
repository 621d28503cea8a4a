// Theorems on algebras of matrices, and on how an algebra becomes one.
ghost use Rattle.std.specs.Prelude.{◌≡◌, ℕ, ◌*◌, ◌<◌};
ghost use Rattle.theory_rings.specs.Ring.{RingOn, FieldOn};
ghost use Rattle.theory_spaces.specs.Module.{AlgebraOn, module_of};
ghost use Rattle.theory_spaces.specs.Linear.{Basis, BasisOf, IsLinear};
ghost use Rattle.theory_spaces.specs.Matrix.{Mat};
ghost use Rattle.theory_spaces.specs.Algebra.{trace, map_trace, Central, CentralSimple};
ghost use Rattle.theory_spaces.specs.AlgebraMap.{IsAlgebraIso, IsSimple};
ghost use Rattle.theory_spaces.specs.MatrixAlgebra.{IsMatrixAlgebra, MatrixUnits};
ghost use Rattle.theory_spaces.specs.MinimalIdempotent.{IsMinimalIdempotent, InLeftIdeal, OneThrough, IsEndomorphism};
ghost use Rattle.theory_spaces.specs.MinimalIdempotent.{multiplier, LeftMatrices};

use crate::algebra_laws::BasedAlgebra;

/// A field.
pub trait BaseField {
    ghost Scalar: { Type 0 };

    ghost field: { FieldOn Scalar };
}

/// The n by n matrices are an algebra, the matrices with one entry 1 and else 0 are a basis of it, and it is central
/// simple, and not 0 unless n is.
pub fn matrices_are_central_simple<F: BaseField>()
    ensures algebra { (n : ℕ) → (A : AlgebraOn F.field.ring (Mat F.field.ring n)) × IsMatrixAlgebra F.field.ring n A }
    ensures units { (n : ℕ) (A : AlgebraOn F.field.ring (Mat F.field.ring n)) → IsMatrixAlgebra F.field.ring n A
        → MatrixUnits F.field.ring n A }
    ensures central_simple { (n : ℕ) (A : AlgebraOn F.field.ring (Mat F.field.ring n))
        → IsMatrixAlgebra F.field.ring n A → CentralSimple A }
    ensures nonzero { (n : ℕ) (A : AlgebraOn F.field.ring (Mat F.field.ring n)) → IsMatrixAlgebra F.field.ring n A
        → 0 < n → A.one ≡ A.zero → ⊥ }
{}

/// An isomorphism of algebras.
pub trait AlgebraIso {
    ghost Scalar: { Type 0 };

    ghost Source: { Type 0 };

    ghost Target: { Type 0 };

    ghost ring: { RingOn Scalar };

    ghost source: { AlgebraOn ring Source };

    ghost target: { AlgebraOn ring Target };

    ghost map: { Source → Target };

    ghost isomorphism: { IsAlgebraIso source target map };
}

/// What is isomorphic to a central simple algebra is central simple, and has bases of the same sizes.
pub fn isomorphic_to_central_simple<I: AlgebraIso>()
    ensures central_simple { CentralSimple I.target → CentralSimple I.source }
    ensures simple { IsSimple I.target → IsSimple I.source }
    ensures central { Central I.target → Central I.source }
    ensures basis { (n : ℕ) → Basis (module_of I.target) n → Basis (module_of I.source) n }
{}

/// An idempotent e of a simple algebra A with eAe = Ke: one is a sum of products x·e·y, each linear map of Ae is the
/// multiplication by one element of A, on a basis of Ae the elements of A become all matrices, and the dimension of A
/// is the square of that of Ae.
pub fn matrices_from_minimal_idempotent<A: BasedAlgebra>()
    ensures one { IsSimple A.algebra → (e : A.Vector) → (e ≡ A.algebra.zero → ⊥) → OneThrough A.algebra e }
    ensures multiplications { (e : A.Vector) → IsMinimalIdempotent A.algebra e → (o : OneThrough A.algebra e)
        → (s : A.Vector → A.Vector) → IsEndomorphism A.algebra e s
        → (x : A.Vector) → InLeftIdeal A.algebra e x → A.algebra.◌⊗◌ (multiplier A.algebra e o s) x ≡ s x }
    ensures left_ideal { (e : A.Vector) → A.algebra.◌⊗◌ e e ≡ e → (k : ℕ)
        × BasisOf (module_of A.algebra) k (InLeftIdeal A.algebra e) }
    ensures matrices { IsSimple A.algebra → (e : A.Vector) → IsMinimalIdempotent A.algebra e
        → (k : ℕ) (W : BasisOf (module_of A.algebra) k (InLeftIdeal A.algebra e))
        → (B : AlgebraOn A.field.ring (Mat A.field.ring k)) → IsMatrixAlgebra A.field.ring k B
        → LeftMatrices A.algebra e k W B }
    ensures dimension { IsSimple A.algebra → (e : A.Vector) → IsMinimalIdempotent A.algebra e
        → (k : ℕ) → BasisOf (module_of A.algebra) k (InLeftIdeal A.algebra e) → A.dimension ≡ k * k }
{}

/// The traces of a linear map and of an element are the same by any basis.
pub fn trace_by_any_basis<A: BasedAlgebra>()
    ensures of_map { (n : ℕ) (B : Basis (module_of A.algebra) n) (f : A.Vector → A.Vector)
        → IsLinear (module_of A.algebra) (module_of A.algebra) f
        → map_trace (module_of A.algebra) A.dimension A.basis f ≡ map_trace (module_of A.algebra) n B f }
    ensures of_element { (n : ℕ) (B : Basis (module_of A.algebra) n) (x : A.Vector)
        → trace A.algebra A.dimension A.basis x ≡ trace A.algebra n B x }
{}
