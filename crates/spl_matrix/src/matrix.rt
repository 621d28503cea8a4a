// Matrices, as lists of rows of one length, and lists of indices.
ghost use Rattle.std.specs.Prelude.{◌≡◌, ◌<◌, ◌≤◌, ◌↔◌, List, [], ◌∷◌, ◌++◌, length, IfOk, IfSome, OnOk, OnErr};
ghost use Rattle.std.specs.Prelude.{slice_index_or, All};
ghost use Rattle.theory_rings.specs.Ops.{IsElem};
ghost use Rattle.theory_tables.specs.Matrix.{width_of, trace_of, IsMatrix, IsRectangular};

use spl_field::field::{Field, NoMemory};
use spl_field::list::{List, Vector};
use std::alloc::Global;
use std::marker::Model;

/// A list of places, counted from 0.
pub type Indices = List<usize>;

/// Rows of one length. Contracts see them as a list of lists; whose elements they are is a condition of the calls that
/// take them.
pub struct Matrix<F: Field> {
    rows: Vec<Vector<F>>,
}

// (one proof for all functions that drop a matrix, in place of one in each)
impl<F: Field> Drop for Matrix<F> {
    fn drop(self) {
        let Matrix { rows } = self;
    }
}

impl<F: Field> Model for Matrix<F> {
    ghost use Rattle.std.specs.Prelude.{List};

    ghost Value = { List (List F.Elem) };

    ghost use Rattle.theory_tables.specs.Matrix.{IsRectangular};

    ghost view = { λ m. m.rows.items };

    ghost invariant = { λ m. IsRectangular m.rows.items };
}

impl<F: Field> Matrix<F> {
    /// The matrix without rows. It takes no memory; it keeps the allocator.
    pub fn new(alloc: Global) -> Self
        ensures { result ≡ [] }
    {
        Matrix {
            rows: Vec::new(alloc),
        }
    }

    /// Appends the row, which has the length of the rows that are there. Where memory is wanting the matrix stays as it
    /// was, and the row is dropped.
    pub fn push(&mut self, item: Vector<F>) -> Result<(), NoMemory>
        requires { All (λ row. length row ≡ length item) self.old }
        ensures ok { OnOk result (self.new ≡ self.old ++ item ∷ []) }
        ensures err { OnErr result (self.new ≡ self.old) }
    {
        self.rows.push(item)?;
        Ok(())
    }

    /// The number of rows.
    pub fn len(&self) -> usize
        ensures { result ≡ length self.now }
    {
        self.rows.len()
    }

    /// The row at place i, counted from 0; None exactly where i is past the end.
    pub fn at(&self, i: usize) -> Option<&Vector<F>>
        ensures none { (result ≡ None) ↔ (length self.now ≤ i) }
        ensures some { IfSome result (λ r. (i < length self.now) × (r.now ≡ slice_index_or self.now i r.now)) }
    {
        self.rows.get(i)
    }

    /// The number of columns, and 0 where there is no row.
    pub fn width(&self) -> usize
        ensures width { result ≡ width_of self.now }
        ensures shape { IsRectangular self.now }
    {
        match self.rows.first() {
            Some(row) => row.len(),
            None => 0,
        }
    }

    /// All rows in order.
    pub fn as_slice(&self) -> &[Vector<F>]
        ensures { result.now ≡ self.now }
    {
        self.rows.as_slice()
    }

    /// All rows in order, as a list of its own. It takes no memory.
    pub fn into_list(self) -> List<Vector<F>>
        ensures { result ≡ self }
    {
        let Matrix { rows } = self;
        List::from_vec(rows)
    }

    /// An equal matrix of elements of f. The one fault is want of memory.
    pub fn copy(&self, alloc: Global, f: &F) -> Result<Self, NoMemory>
        requires { All (All (IsElem (F.ops f.now))) self.now }
        ensures { IfOk result (λ v. v ≡ self.now) }
    {
        let rows = copied(alloc, f, self.rows.as_slice())?;
        Ok(Matrix::from_rows(rows))
    }

    /// The matrix of these rows, which have one length.
    pub(crate) fn from_rows(rows: Vec<Vector<F>>) -> Self
        requires { IsRectangular rows.items }
        ensures { result ≡ rows.items }
    {
        Matrix { rows }
    }

    /// The sum of the diagonal of a square matrix.
    pub fn trace(&self, alloc: Global, f: &F) -> Result<F::Elem, NoMemory>
        requires elems { All (All (IsElem (F.ops f.now))) self.now }
        requires square { width_of self.now ≡ length self.now }
        ensures elem { IfOk result (IsElem (F.ops f.now)) }
        ensures value { IfOk result (λ r. r ≡ trace_of (F.ops f.now) (length self.now) self.now) }
    {
        let _ = self.width();
        diagonal_sum(alloc, f, self.as_slice())
    }
}

/// Equal rows, of elements of f. The one fault is want of memory.
pub fn copied<F: Field>(
    alloc: Global,
    f: &F,
    rows: &[Vector<F>],
) -> Result<Vec<Vector<F>>, NoMemory>
    requires { All (All (IsElem (F.ops f.now))) rows.now }
    ensures { IfOk result (λ r. r.items ≡ rows.now) }
{
    let mut out = Vec::with_capacity(alloc, rows.len())?;
    for i in 0..rows.len() {
        out.push(rows[i].copy(alloc, f)?)?;
    }
    Ok(out)
}

/// The sum of the diagonal of these rows, each as long as there are rows.
fn diagonal_sum<F: Field>(alloc: Global, f: &F, rows: &[Vector<F>]) -> Result<F::Elem, NoMemory>
    requires shape { IsMatrix (F.ops f.now) (length rows.now) rows.now }
    ensures elem { IfOk result (IsElem (F.ops f.now)) }
    ensures value { IfOk result (λ r. r ≡ trace_of (F.ops f.now) (length rows.now) rows.now) }
{
    let mut sum = f.zero(alloc)?;
    for i in 0..rows.len() {
        let row = rows[i].as_slice();
        sum = f.add(alloc, &sum, &row[i])?;
    }
    Ok(sum)
}
