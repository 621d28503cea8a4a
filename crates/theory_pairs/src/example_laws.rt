// An example of the notions on orders: the matrix units over a field with a degree.
ghost use Rattle.std.specs.Prelude.{ℕ};
ghost use Rattle.theory_rings.specs.Ring.{FieldOn};
ghost use Rattle.theory_spaces.specs.Module.{AlgebraOn, module_of};
ghost use Rattle.theory_spaces.specs.Linear.{Basis};
ghost use Rattle.theory_spaces.specs.Matrix.{Mat};
ghost use Rattle.theory_spaces.specs.MatrixAlgebra.{IsMatrixAlgebra};
ghost use Rattle.theory_spaces.specs.Lattice.{IsSubring};
ghost use Rattle.theory_lattices.specs.Degree.{DegreeOn};
ghost use Rattle.theory_pairs.specs.MatrixPair.{MatrixPair};

/// A field with a degree, and a subring of it.
pub trait DegreeField {
    ghost Scalar: { Type 0 };

    ghost field: { FieldOn Scalar };

    ghost degree: { DegreeOn field.ring };

    ghost Weight: { Scalar → Type 0 };

    ghost subring: { IsSubring field.ring Weight };
}

/// The n by n matrices, so the 2 by 2 ones with their 4 matrix units: the lattices of the units over the subring and
/// over the elements of degree at most 0 are a self-dual pair by the trace, with unimodular Gram matrices; the first
/// unit is a minimal idempotent, and the centre is the multiples of one.
pub fn matrix_units_are_a_self_dual_pair<D: DegreeField>()
    ensures any { (n : ℕ) (A : AlgebraOn D.field.ring (Mat D.field.ring n)) → IsMatrixAlgebra D.field.ring n A
        → MatrixPair D.field D.degree D.Weight n A }
    ensures two { (A : AlgebraOn D.field.ring (Mat D.field.ring 2)) → IsMatrixAlgebra D.field.ring 2 A
        → MatrixPair D.field D.degree D.Weight 2 A × Basis (module_of A) 4 }
{}
