// The rows of two matrices together, and what their spans have in common.
ghost use Rattle.std.specs.Prelude.{◌≡◌, ◌+◌, ◌<◌, ◌≤◌, ℕ, ◌++◌, length, get_or, cond, IfOk, All};
ghost use Rattle.theory_rings.specs.Ops.{IsElem};
ghost use Rattle.theory_rings.specs.Sum.{table};
ghost use Rattle.theory_tables.specs.Matrix.{IsMatrix};
ghost use Rattle.theory_tables.specs.Subspace.{IsReducedBasis, SpansMeet};
ghost use Rattle.spl_matrix.specs.Spanning.{doubled, IsRightPart};

use crate::basis::{basis_of, pivots_of};
use crate::echelon::columns_of;
use crate::matrix::{Matrix, copied};
use crate::rows::{joined, zeros};
use spl_field::field::{Field, NoMemory};
use spl_field::list::Vector;
use std::alloc::Global;

/// The rows of a, and after them those of b.
pub(crate) fn stacked<F: Field>(
    alloc: Global,
    f: &F,
    a: &[Vector<F>],
    b: &[Vector<F>],
) -> Result<Vec<Vector<F>>, NoMemory>
    requires left { All (All (IsElem (F.ops f.now))) a.now }
    requires right { All (All (IsElem (F.ops f.now))) b.now }
    ensures { IfOk result (λ r. r.items ≡ a.now ++ b.now) }
{
    let mut rows = copied(alloc, f, a)?;
    for i in 0..b.len() {
        rows.push(b[i].copy(alloc, f)?)?;
    }
    Ok(rows)
}

/// The row with itself after it, or with these zeros.
fn doubled_row<F: Field>(
    alloc: Global,
    f: &F,
    zeros: &[F::Elem],
    twice: bool,
    row: &Vector<F>,
) -> Result<Vector<F>, NoMemory>
    requires row { All (IsElem (F.ops f.now)) row.now }
    requires zeros { All (IsElem (F.ops f.now)) zeros.now }
    ensures { IfOk result (λ r. r ≡ row.now ++ cond twice row.now zeros.now) }
{
    if twice {
        joined(alloc, f, row, row.as_slice())
    } else {
        joined(alloc, f, row, zeros)
    }
}

/// The matrix whose first p rows stand twice beside each other, and the others beside 0.
fn doubled_of<F: Field>(
    alloc: Global,
    f: &F,
    zeros: &[F::Elem],
    p: usize,
    rows: &[Vector<F>],
) -> Result<Vec<Vector<F>>, NoMemory>
    requires rows { All (All (IsElem (F.ops f.now))) rows.now }
    requires zeros { All (IsElem (F.ops f.now)) zeros.now }
    ensures { IfOk result (λ r. r.items ≡ doubled zeros.now p rows.now) }
{
    let mut out = Vec::with_capacity(alloc, rows.len())?;
    for i in 0..rows.len() {
        out.push(doubled_row(alloc, f, zeros, i < p, &rows[i])?)?;
    }
    Ok(out)
}

/// The rows of a, each beside itself, and after them those of b, each beside 0.
fn zassenhaus<F: Field>(
    alloc: Global,
    f: &F,
    w: usize,
    a: &[Vector<F>],
    b: &[Vector<F>],
) -> Result<Vec<Vector<F>>, NoMemory>
    requires left { IsMatrix (F.ops f.now) w a.now }
    requires right { IsMatrix (F.ops f.now) w b.now }
    ensures { IfOk result (λ r. r.items ≡ doubled (table w (λ _. (F.ops f.now).zero)) (length a.now)
        (a.now ++ b.now)) }
{
    let rows = stacked(alloc, f, a, b)?;
    let zeros = zeros(alloc, f, w)?;
    doubled_of(alloc, f, zeros.as_slice(), a.len(), rows.as_slice())
}

/// The number of indices below w before the first that is not.
fn count_below(indices: &[usize], w: usize) -> usize
    ensures within { result ≤ length indices.now }
    ensures below { (s : ℕ) → s < result → get_or indices.now s 0 < w }
    ensures above { result < length indices.now → w ≤ get_or indices.now result 0 }
{
    for s in 0..indices.len() {
        if indices[s] >= w {
            return s;
        }
    }
    indices.len()
}

/// The rows of a reduced form with n = 2w columns whose left half is 0, without that half.
fn right_part<F: Field>(
    alloc: Global,
    f: &F,
    w: usize,
    n: usize,
    rows: &[Vector<F>],
) -> Result<Matrix<F>, NoMemory>
    requires basis { IsReducedBasis (F.ops f.now) n rows.now }
    requires width { n ≡ w + w }
    ensures { IfOk result (IsRightPart (F.ops f.now) w rows.now) }
{
    let pivots = pivots_of(alloc, f, n, rows)?;
    let k = count_below(pivots.as_slice(), w);
    columns_of(alloc, f, n, &rows[k..], w, w)
}

/// The basis of what the spans of the rows of a and of b have in common, by Zassenhaus: each row of a stands twice
/// beside itself and each of b beside 0, and where the left half of a row of the reduced form is 0, the right half is
/// in both.
pub(crate) fn meet_rows<F: Field>(
    alloc: Global,
    f: &F,
    w: usize,
    a: &[Vector<F>],
    b: &[Vector<F>],
) -> Result<Matrix<F>, NoMemory>
    requires left { IsMatrix (F.ops f.now) w a.now }
    requires right { IsMatrix (F.ops f.now) w b.now }
    ensures basis { IfOk result (IsReducedBasis (F.ops f.now) w) }
    ensures members { IfOk result (λ m. SpansMeet (F.ops f.now) w m a.now b.now) }
{
    let twice = zassenhaus(alloc, f, w, a, b)?;
    let h = twice.len();
    if h == 0 {
        return Ok(Matrix::new(alloc));
    }
    let n = twice[0].len();
    let rows = basis_of(alloc, f, n, twice)?;
    right_part(alloc, f, w, n, rows.as_slice())
}
