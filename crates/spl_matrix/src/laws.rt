// Laws of linear systems and subspaces.
ghost use Rattle.theory_tables.specs.Solve.{NotBoth};
ghost use Rattle.theory_tables.specs.Subspace.{SameSubspaceSameRows, ReducedBasisIsIndependent};

use spl_field::field::Field;

/// A system that has a solution has no multipliers that refute it. `Matrix::solve` answers one of the two, so exactly
/// one of them holds.
pub fn not_both<F: Field>(f: &F)
    ensures { NotBoth (F.ops f.now) }
{
    let _ = f;
}

/// Two subspaces with the same vectors have equal rows: the basis in reduced row echelon form is unique.
pub fn same_subspace_same_rows<F: Field>(f: &F)
    ensures { SameSubspaceSameRows (F.ops f.now) }
{
    let _ = f;
}

/// The rows of a subspace are independent, so that `Subspace::dim` is its dimension.
pub fn reduced_basis_is_independent<F: Field>(f: &F)
    ensures { ReducedBasisIsIndependent (F.ops f.now) }
{
    let _ = f;
}
