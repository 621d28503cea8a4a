// Theorems on bilinear forms.
ghost use Rattle.std.specs.Prelude.{◌≡◌, ℕ, ◌+◌, ◌<◌};
ghost use Rattle.theory_rings.specs.Ring.{FieldOn};
ghost use Rattle.theory_spaces.specs.Module.{ModuleOn, module_of};
ghost use Rattle.theory_spaces.specs.Linear.{comb, InSpan, Independent, Basis, BasisOf};
ghost use Rattle.theory_spaces.specs.Matrix.{delta, mat_mul};
ghost use Rattle.theory_spaces.specs.Form.{IsBilinear, IsSymmetric, IsInvariant, IsNondegenerate, NondegenerateOrNot};
ghost use Rattle.theory_spaces.specs.Form.{flip, gram, transpose, InRadical, Orthogonal, DualBasis, OrthogonalBasis};
ghost use Rattle.theory_spaces.specs.Form.{trace_form};

use crate::algebra_laws::BasedAlgebra;

/// A bilinear form on a vector space with a basis.
pub trait FormOn {
    ghost Scalar: { Type 0 };

    ghost Vector: { Type 0 };

    ghost field: { FieldOn Scalar };

    ghost space: { ModuleOn field.ring Vector };

    ghost dimension: { ℕ };

    ghost basis: { Basis space dimension };

    ghost form: { Vector → Vector → Scalar };

    ghost bilinear: { IsBilinear space form };
}

/// A nondegenerate form has a dual basis, and one only. The coordinates of a vector are its values at the dual basis,
/// and by the dual basis they are its values at the basis. The Gram matrices of the two, one of them transposed, are
/// inverse to each other.
pub fn dual_basis<B: FormOn>()
    ensures exists { IsNondegenerate B.space B.form → DualBasis B.space B.form B.dimension B.basis }
    ensures unique { (D E : DualBasis B.space B.form B.dimension B.basis) (j : ℕ) → j < B.dimension
        → D.basis.vec j ≡ E.basis.vec j }
    ensures coordinates { (D : DualBasis B.space B.form B.dimension B.basis) (x : B.Vector)
        → x ≡ comb B.space B.dimension (λ i. B.form x (D.basis.vec i)) B.basis.vec }
    ensures dual_coordinates { (D : DualBasis B.space B.form B.dimension B.basis) (x : B.Vector)
        → x ≡ comb B.space B.dimension (λ i. B.form (B.basis.vec i) x) D.basis.vec }
    ensures gram { (D : DualBasis B.space B.form B.dimension B.basis) (i j : ℕ) → i < B.dimension → j < B.dimension
        → mat_mul B.field.ring B.dimension (gram B.space B.form B.basis.vec)
        (transpose (gram B.space B.form D.basis.vec)) i j
        ≡ delta B.field.ring i j }
    ensures only_nondegenerate { DualBasis B.space B.form B.dimension B.basis → IsNondegenerate B.space B.form }
{}

/// Under a nondegenerate form the dimensions of a subspace and of what is orthogonal to it sum to that of the space,
/// and what is orthogonal to all the latter is the subspace again.
pub fn dimension_of_orthogonal<B: FormOn>()
    ensures dimension { IsNondegenerate B.space B.form → (k : ℕ) (u : ℕ → B.Vector) → Independent B.space k u
        → OrthogonalBasis B.space B.form (InSpan B.space k u) k B.dimension }
    ensures twice { IsNondegenerate B.space B.form → (k : ℕ) (u : ℕ → B.Vector) → Independent B.space k u
        → (y : B.Vector) → Orthogonal B.space (flip B.form) (Orthogonal B.space B.form (InSpan B.space k u)) y
        → InSpan B.space k u y }
{}

/// The vectors that are orthogonal to everything have a basis, so whether there are others than 0 can be told. A form
/// is nondegenerate from both sides or from none.
pub fn radical_of_form<B: FormOn>()
    ensures basis { (r : ℕ) × BasisOf B.space r (InRadical B.space B.form) }
    ensures decided { NondegenerateOrNot B.space B.form }
    ensures both_sides { IsNondegenerate B.space B.form → IsNondegenerate B.space (flip B.form) }
{}

/// The trace form of an algebra is bilinear, symmetric and associative.
pub fn trace_forms<A: BasedAlgebra>()
    ensures bilinear { IsBilinear (module_of A.algebra) (trace_form A.algebra A.dimension A.basis) }
    ensures symmetric { IsSymmetric (trace_form A.algebra A.dimension A.basis) }
    ensures associative { IsInvariant A.algebra (trace_form A.algebra A.dimension A.basis) }
{}
