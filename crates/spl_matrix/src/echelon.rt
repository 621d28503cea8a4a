// The reduced row echelon form.
ghost use Rattle.std.specs.Prelude.{◌≡◌, ◌+◌, ◌≤◌, length, IfOk, All};
ghost use Rattle.theory_rings.specs.Ops.{IsElem};
ghost use Rattle.theory_rings.specs.Sum.{table, at};
ghost use Rattle.theory_tables.specs.Matrix.{IsMatrix, width_of};
ghost use Rattle.theory_tables.specs.Echelon.{IsEchelon};
ghost use Rattle.spl_matrix.specs.Elimination.{columns};

use crate::elimination::{augmented_of, augmented_width, eliminate};
use crate::matrix::{Indices, Matrix};
use spl_field::field::{Field, NoMemory};
use spl_field::list::{List, Vector};
use std::alloc::Global;

/// A reduced row echelon form.
#[derive(Drop)]
pub struct Echelon<F: Field> {
    pub rows: Matrix<F>,
    pub pivots: Indices,
    pub transform: Matrix<F>,
}

/// These `count` items of the row from place `from` on.
fn part_of<F: Field>(
    alloc: Global,
    f: &F,
    row: &[F::Elem],
    from: usize,
    count: usize,
) -> Result<Vector<F>, NoMemory>
    requires row { All (IsElem (F.ops f.now)) row.now }
    requires within { from + count ≤ length row.now }
    ensures { IfOk result (λ r. r ≡ table count (λ j. at (F.ops f.now) row.now (from + j))) }
{
    let mut items = List::new(alloc);
    for j in 0..count {
        items.push(f.copy(alloc, &row[from + j])?)?;
    }
    Ok(items)
}

/// These `count` columns from column `from` on.
pub(crate) fn columns_of<F: Field>(
    alloc: Global,
    f: &F,
    n: usize,
    rows: &[Vector<F>],
    from: usize,
    count: usize,
) -> Result<Matrix<F>, NoMemory>
    requires shape { IsMatrix (F.ops f.now) n rows.now }
    requires within { from + count ≤ n }
    ensures { IfOk result (λ r. r ≡ columns (F.ops f.now) (length rows.now) from count rows.now) }
{
    let mut out = Vec::with_capacity(alloc, rows.len())?;
    for i in 0..rows.len() {
        let row = part_of(alloc, f, rows[i].as_slice(), from, count)?;
        out.push(row)?;
    }
    Ok(Matrix::from_rows(out))
}

/// The reduced row echelon form of the matrix a with w columns.
pub(crate) fn echelon_of<F: Field>(
    alloc: Global,
    f: &F,
    w: usize,
    a: &[Vector<F>],
) -> Result<Echelon<F>, NoMemory>
    requires shape { IsMatrix (F.ops f.now) w a.now }
    ensures { IfOk result (λ e. IsEchelon (F.ops f.now) (length a.now) w a.now e.rows e.pivots e.transform) }
{
    let mut rows = augmented_of(alloc, f, w, a)?;
    let n = augmented_width(w, rows.as_slice());
    let pivots = eliminate(alloc, f, n, w, &mut rows)?;
    let left = columns_of(alloc, f, n, rows.as_slice(), 0, w)?;
    let transform = columns_of(alloc, f, n, rows.as_slice(), w, a.len())?;
    Ok(Echelon {
        rows: left,
        pivots,
        transform,
    })
}

impl<F: Field> Matrix<F> {
    /// The reduced row echelon form.
    pub fn echelon(&self, alloc: Global, f: &F) -> Result<Echelon<F>, NoMemory>
        requires { All (All (IsElem (F.ops f.now))) self.now }
        ensures { IfOk result (λ e.
            IsEchelon (F.ops f.now) (length self.now) (width_of self.now) self.now e.rows e.pivots e.transform) }
    {
        echelon_of(alloc, f, self.width(), self.as_slice())
    }
}
