// The radical and the maximal ideals of an algebra over a residue field.
ghost use Rattle.std.specs.Prelude.{◌≡◌, ◌≤◌, ◌++◌, length, IfOk, All};
ghost use Rattle.theory_tables.specs.Matrix.{IsMatrix};
ghost use Rattle.theory_tables.specs.Subspace.{IsSubspace};
ghost use Rattle.theory_chains.specs.Radical.{SpansRadical};
ghost use Rattle.spl_residue.specs.Residue.{residue_ops};
ghost use Rattle.spl_blocks.specs.Blocks.{IsUnital, AreMaximalIdeals};
ghost use Rattle.spl_local.specs.PulledBack.{lifted_rows, IsPulledBack, AreAllPulledBack};

use spl_algebra::algebra::Algebra;
use spl_algebra::quotient::Quotient;
use spl_blocks::ideals::{Ideals, maximal_ideals};
use spl_blocks::refine::combination;
use spl_field::field::{Field, NoMemory};
use spl_field::list::{List, Vector};
use spl_field::small::SmallField;
use spl_matrix::matrix::Matrix;
use spl_matrix::subspace::Subspace;
use spl_radical::radical::radical;
use spl_residue::field::ResidueField;
use std::alloc::Global;

/// The radical of an algebra, and its maximal two-sided ideals.
#[derive(Drop)]
pub struct MaximalIdeals {
    pub radical: Subspace<ResidueField>,
    pub ideals: Ideals,
}

/// The combinations of the lifts by the rows.
fn lifted<F: Field>(
    alloc: Global,
    f: &F,
    a: &Algebra<F>,
    lifts: &[Vector<F>],
    rows: &[Vector<F>],
) -> Result<Matrix<F>, NoMemory>
    requires lifts { IsMatrix (F.ops f.now) a.now.dim lifts.now }
    requires rows { IsMatrix (F.ops f.now) (length lifts.now) rows.now }
    ensures shape { IfOk result (IsMatrix (F.ops f.now) a.now.dim) }
    ensures value { IfOk result (λ r. r ≡ lifted_rows (F.ops f.now) a.now lifts.now rows.now) }
{
    let mut out = Matrix::new(alloc);
    for i in 0..rows.len() {
        out.push(combination(alloc, f, a, rows[i].as_slice(), lifts)?)?;
    }
    Ok(out)
}

/// The rows, and then copies of more.
fn with_rows<F: Field>(
    alloc: Global,
    f: &F,
    w: usize,
    mut rows: Matrix<F>,
    more: &[Vector<F>],
) -> Result<Matrix<F>, NoMemory>
    requires rows { IsMatrix (F.ops f.now) w rows }
    requires more { IsMatrix (F.ops f.now) w more.now }
    ensures shape { IfOk result (IsMatrix (F.ops f.now) w) }
    ensures value { IfOk result (λ r. r ≡ rows ++ more.now) }
{
    let _ = w;
    for i in 0..more.len() {
        rows.push(more[i].copy(alloc, f)?)?;
    }
    Ok(rows)
}

/// What a subspace of a quotient comes from: the span of its rows, lifted, and of the ideal by which the quotient is.
fn pulled_back<F: Field>(
    alloc: Global,
    f: &F,
    a: &Algebra<F>,
    ideal: &Subspace<F>,
    lifts: &Matrix<F>,
    below: &Subspace<F>,
) -> Result<Subspace<F>, NoMemory>
    requires ideal { IsMatrix (F.ops f.now) a.now.dim ideal.now.rows }
    requires lifts { IsMatrix (F.ops f.now) a.now.dim lifts.now }
    requires below { IsMatrix (F.ops f.now) (length lifts.now) below.now.rows }
    ensures { IfOk result (IsPulledBack (F.ops f.now) a.now lifts.now ideal.now.rows below.now) }
{
    let m = a.dim();
    let rows = lifted(alloc, f, a, lifts.as_slice(), below.rows().as_slice())?;
    let rows = with_rows(alloc, f, m, rows, ideal.rows().as_slice())?;
    Subspace::span(alloc, f, m, &rows)
}

/// What each of the subspaces of a quotient comes from.
fn all_pulled_back<F: Field>(
    alloc: Global,
    f: &F,
    a: &Algebra<F>,
    ideal: &Subspace<F>,
    lifts: &Matrix<F>,
    below: &[Subspace<F>],
) -> Result<List<Subspace<F>>, NoMemory>
    requires ideal { IsMatrix (F.ops f.now) a.now.dim ideal.now.rows }
    requires lifts { IsMatrix (F.ops f.now) a.now.dim lifts.now }
    requires below { All (λ s. IsMatrix (F.ops f.now) (length lifts.now) s.rows) below.now }
    ensures { IfOk result (AreAllPulledBack (F.ops f.now) a.now lifts.now ideal.now.rows below.now) }
{
    let mut above = List::new(alloc);
    for i in 0..below.len() {
        above.push(pulled_back(alloc, f, a, ideal, lifts, &below[i])?)?;
    }
    Ok(above)
}

/// The radical and the maximal two-sided ideals of an associative algebra with identity over a residue field k of f,
/// which is not 0. The maximal ideals are those of the quotient by the radical, pulled back. The one fault is want of
/// memory. (Pierce, Associative Algebras, chapters 3 and 4.)
pub fn radical_and_ideals(
    alloc: Global,
    f: &SmallField,
    k: &ResidueField,
    b: &Algebra<ResidueField>,
) -> Result<MaximalIdeals, NoMemory>
    requires unital { IsUnital (residue_ops k.now) b.now }
    requires positive { 1 ≤ b.now.dim }
    ensures basis { IfOk result (λ r. IsSubspace (residue_ops k.now) r.radical) }
    ensures width { IfOk result (λ r. r.radical.width ≡ b.now.dim) }
    ensures radical { IfOk result (λ r. SpansRadical (residue_ops k.now) b.now r.radical.rows) }
    ensures ideals { IfOk result (λ r. AreMaximalIdeals (residue_ops k.now) b.now r.ideals) }
{
    let radical = radical(alloc, k, b)?;
    let Quotient {
        algebra,
        project: _,
        lifts,
    } = b.quotient(alloc, k, &radical)?;
    let below = maximal_ideals(alloc, f, k, &algebra)?;
    let ideals = all_pulled_back(alloc, k, b, &radical, &lifts, below.as_slice())?;
    Ok(MaximalIdeals { radical, ideals })
}
