// The solutions of z^q = z among the combinations of some elements.
ghost use Rattle.std.specs.Prelude.{◌≡◌, ◌+◌, ◌^◌, ◌<◌, ◌≤◌, ℕ, [], IfOk, length, get_or, All};
ghost use Rattle.theory_rings.specs.Ops.{IsElem};
ghost use Rattle.theory_rings.specs.Sum.{table, at};
ghost use Rattle.theory_spaces.specs.Tuples.{IsTuple};
ghost use Rattle.theory_tables.specs.Matrix.{entry, IsMatrix};
ghost use Rattle.theory_tables.specs.Subspace.{IsSubspace, SpansKernel};
ghost use Rattle.theory_tables.specs.Structure.{IsElement};
ghost use Rattle.spl_blocks.specs.Blocks.{IsUnital};
ghost use Rattle.spl_blocks.specs.Fixed.{difference_of, less_self, power_equations};

use crate::powers::iterated_power;
use spl_algebra::algebra::Algebra;
use spl_field::field::{Field, NoMemory};
use spl_field::list::{List, Vector};
use spl_matrix::matrix::Matrix;
use spl_matrix::subspace::Subspace;
use std::alloc::Global;

/// The difference x − y of two elements.
pub(crate) fn difference<F: Field>(
    alloc: Global,
    f: &F,
    x: &[F::Elem],
    y: &[F::Elem],
) -> Result<Vector<F>, NoMemory>
    requires left { All (IsElem (F.ops f.now)) x.now }
    requires right { IsTuple (F.ops f.now) (length x.now) y.now }
    ensures elem { IfOk result (IsTuple (F.ops f.now) (length x.now)) }
    ensures value { IfOk result (λ r. r ≡ table (length x.now) (λ k.
        (F.ops f.now).add (at (F.ops f.now) x.now k) ((F.ops f.now).neg (at (F.ops f.now) y.now k)))) }
{
    let mut items = List::new(alloc);
    for k in 0..x.len() {
        let less = f.neg(alloc, &y[k])?;
        items.push(f.add(alloc, &x[k], &less)?)?;
    }
    Ok(items)
}

/// The sum x + y of two elements.
pub(crate) fn sum<F: Field>(
    alloc: Global,
    f: &F,
    x: &[F::Elem],
    y: &[F::Elem],
) -> Result<Vector<F>, NoMemory>
    requires left { All (IsElem (F.ops f.now)) x.now }
    requires right { IsTuple (F.ops f.now) (length x.now) y.now }
    ensures elem { IfOk result (IsTuple (F.ops f.now) (length x.now)) }
    ensures value { IfOk result (λ r. r ≡ table (length x.now) (λ k.
        (F.ops f.now).add (at (F.ops f.now) x.now k) (at (F.ops f.now) y.now k))) }
{
    let mut items = List::new(alloc);
    for k in 0..x.len() {
        items.push(f.add(alloc, &x[k], &y[k])?)?;
    }
    Ok(items)
}

/// z^(q^d) − z for each of the elements z.
fn less_selves<F: Field>(
    alloc: Global,
    f: &F,
    a: &Algebra<F>,
    q: usize,
    d: usize,
    rows: &[Vector<F>],
) -> Result<Matrix<F>, NoMemory>
    requires unital { IsUnital (F.ops f.now) a.now }
    requires shape { IsMatrix (F.ops f.now) a.now.dim rows.now }
    requires positive { 1 ≤ q }
    ensures shape { IfOk result (IsMatrix (F.ops f.now) a.now.dim) }
    ensures value { IfOk result (λ r. r ≡ table (length rows.now) (λ i.
        less_self (F.ops f.now) a.now (q ^ d) (get_or rows.now i []))) }
{
    let mut out = Matrix::new(alloc);
    for i in 0..rows.len() {
        let power = iterated_power(alloc, f, a, &rows[i], q, d)?;
        out.push(difference(alloc, f, power.as_slice(), rows[i].as_slice())?)?;
    }
    Ok(out)
}

/// Column j of the matrix.
fn column_of<F: Field>(
    alloc: Global,
    f: &F,
    w: usize,
    rows: &[Vector<F>],
    j: usize,
) -> Result<Vector<F>, NoMemory>
    requires shape { IsMatrix (F.ops f.now) w rows.now }
    requires column { j < w }
    ensures elem { IfOk result (IsTuple (F.ops f.now) (length rows.now)) }
    ensures value { IfOk result (λ r. r ≡ table (length rows.now) (λ i. entry (F.ops f.now) rows.now i j)) }
{
    let mut items = List::new(alloc);
    for i in 0..rows.len() {
        items.push(f.copy(alloc, &rows[i].as_slice()[j])?)?;
    }
    Ok(items)
}

/// The w columns of the matrix as rows.
pub(crate) fn columns_of<F: Field>(
    alloc: Global,
    f: &F,
    w: usize,
    rows: &[Vector<F>],
) -> Result<Matrix<F>, NoMemory>
    requires shape { IsMatrix (F.ops f.now) w rows.now }
    ensures shape { IfOk result (IsMatrix (F.ops f.now) (length rows.now)) }
    ensures value { IfOk result (λ r. r ≡ table w (λ j.
        table (length rows.now) (λ i. entry (F.ops f.now) rows.now i j))) }
{
    let mut out = Matrix::new(alloc);
    for j in 0..w {
        out.push(column_of(alloc, f, w, rows, j)?)?;
    }
    Ok(out)
}

/// The weights of the combinations of the rows that are 0.
pub(crate) fn relations<F: Field>(
    alloc: Global,
    f: &F,
    w: usize,
    rows: &[Vector<F>],
) -> Result<Subspace<F>, NoMemory>
    requires shape { IsMatrix (F.ops f.now) w rows.now }
    requires positive { 1 ≤ w }
    ensures basis { IfOk result (IsSubspace (F.ops f.now)) }
    ensures width { IfOk result (λ s. s.width ≡ length rows.now) }
    ensures members { IfOk result (λ s. SpansKernel (F.ops f.now) w (length rows.now)
        (table w (λ j. table (length rows.now) (λ i. entry (F.ops f.now) rows.now i j))) s.rows) }
{
    let columns = columns_of(alloc, f, w, rows)?;
    columns.kernel(alloc, f)
}

/// The weights of the combinations of the elements, which commute, that solve z^(q^d) = z, where the field has q^d
/// elements.
pub(crate) fn fixed_weights<F: Field>(
    alloc: Global,
    f: &F,
    a: &Algebra<F>,
    q: usize,
    d: usize,
    rows: &[Vector<F>],
) -> Result<Subspace<F>, NoMemory>
    requires unital { IsUnital (F.ops f.now) a.now }
    requires shape { IsMatrix (F.ops f.now) a.now.dim rows.now }
    requires positive { 1 ≤ q }
    ensures basis { IfOk result (IsSubspace (F.ops f.now)) }
    ensures width { IfOk result (λ s. s.width ≡ length rows.now) }
    ensures members { IfOk result (λ s. SpansKernel (F.ops f.now) a.now.dim (length rows.now)
        (power_equations (F.ops f.now) a.now (q ^ d) rows.now) s.rows) }
{
    let images = less_selves(alloc, f, a, q, d, rows)?;
    relations(alloc, f, a.dim(), images.as_slice())
}
