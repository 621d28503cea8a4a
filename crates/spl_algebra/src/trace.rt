// Left multiplication and the trace form.
ghost use Rattle.std.specs.Prelude.{◌≡◌, ◌+◌, ◌*◌, ◌^◌, ◌<◌, ℕ, IfOk, length, All};
ghost use Rattle.theory_rings.specs.Ops.{IsElem};
ghost use Rattle.theory_rings.specs.Sum.{sum_of, table, at};
ghost use Rattle.theory_spaces.specs.Tuples.{IsTuple};
ghost use Rattle.theory_tables.specs.Matrix.{IsMatrix, entry};
ghost use Rattle.theory_tables.specs.Traces.{left_matrix, trace_matrix};
ghost use Rattle.theory_tables.specs.Structure.{IsOver, IsElement, basis_of, product_of};
ghost use Rattle.spl_algebra.specs.Contractions.{contracted_row, contraction, basis_trace};

use crate::algebra::Algebra;
use crate::basis::place;
use crate::products::contracted_item;
use spl_field::field::{Field, NoMemory};
use spl_field::list::{List, Vector};
use spl_matrix::matrix::Matrix;
use std::alloc::Global;

/// The row of these sums that begin `along` places after one another, as many as a has items.
fn contracted_row_of<F: Field>(
    alloc: Global,
    f: &F,
    zero: &F::Elem,
    a: &[F::Elem],
    constants: &[F::Elem],
    start: usize,
    along: usize,
    stride: usize,
) -> Result<Vector<F>, NoMemory>
    requires zero { zero.now ≡ (F.ops f.now).zero }
    requires coordinates { All (IsElem (F.ops f.now)) a.now }
    requires constants { All (IsElem (F.ops f.now)) constants.now }
    requires within { (j l : ℕ) → j < length a.now → l < length a.now →
        start + j * along + l * stride < length constants.now }
    ensures elem { IfOk result (IsTuple (F.ops f.now) (length a.now)) }
    ensures value { IfOk result (λ r. r ≡
        contracted_row (F.ops f.now) (length a.now) a.now constants.now start along stride) }
{
    let mut row = List::new(alloc);
    for j in 0..a.len() {
        row.push(contracted_item(alloc, f, zero, a, constants, start + j * along, stride)?)?;
    }
    Ok(row)
}

/// The matrix of as many rows of these sums, which begin `down` places after one another.
fn contraction_of<F: Field>(
    alloc: Global,
    f: &F,
    a: &[F::Elem],
    constants: &[F::Elem],
    down: usize,
    along: usize,
    stride: usize,
) -> Result<Matrix<F>, NoMemory>
    requires coordinates { All (IsElem (F.ops f.now)) a.now }
    requires constants { All (IsElem (F.ops f.now)) constants.now }
    requires within { (r j l : ℕ) → r < length a.now → j < length a.now → l < length a.now →
        r * down + j * along + l * stride < length constants.now }
    ensures shape { IfOk result (IsMatrix (F.ops f.now) (length a.now)) }
    ensures value { IfOk result (λ r. r ≡
        contraction (F.ops f.now) (length a.now) a.now constants.now down along stride) }
{
    let zero = f.zero(alloc)?;
    let mut rows = Matrix::new(alloc);
    for r in 0..a.len() {
        let row = contracted_row_of(alloc, f, &zero, a, constants, r * down, along, stride)?;
        rows.push(row)?;
    }
    Ok(rows)
}

/// The trace of the multiplication by the basis element i from the left.
fn basis_trace_of<F: Field>(
    alloc: Global,
    f: &F,
    m: usize,
    constants: &[F::Elem],
    i: usize,
) -> Result<F::Elem, NoMemory>
    requires over { IsTuple (F.ops f.now) (m * m * m) constants.now }
    requires fits { m * m * m < 2 ^ 64 }
    requires index { i < m }
    ensures elem { IfOk result (IsElem (F.ops f.now)) }
    ensures value { IfOk result (λ r. r ≡ basis_trace (F.ops f.now) m constants.now i) }
{
    let mut sum = f.zero(alloc)?;
    for j in 0..m {
        sum = f.add(alloc, &sum, &constants[place(m, i, j, j)])?;
    }
    Ok(sum)
}

/// The traces of all basis elements.
fn basis_traces_of<F: Field>(
    alloc: Global,
    f: &F,
    m: usize,
    constants: &[F::Elem],
) -> Result<Vector<F>, NoMemory>
    requires over { IsTuple (F.ops f.now) (m * m * m) constants.now }
    requires fits { m * m * m < 2 ^ 64 }
    ensures elem { IfOk result (IsTuple (F.ops f.now) m) }
    ensures value { IfOk result (λ r. r ≡ table m (basis_trace (F.ops f.now) m constants.now)) }
{
    let mut traces = List::new(alloc);
    for i in 0..m {
        traces.push(basis_trace_of(alloc, f, m, constants, i)?)?;
    }
    Ok(traces)
}

impl<F: Field> Algebra<F> {
    /// The matrix of the multiplication by a from the left, m by m: column j has the coordinates of a·b_j.
    pub fn left_matrix(&self, alloc: Global, f: &F, a: &Vector<F>) -> Result<Matrix<F>, NoMemory>
        requires over { IsOver (F.ops f.now) self.now }
        requires element { IsElement (F.ops f.now) self.now a.now }
        ensures shape { IfOk result (IsMatrix (F.ops f.now) self.now.dim) }
        ensures value { IfOk result (λ r. r ≡ left_matrix (F.ops f.now) self.now a.now) }
    {
        let m = self.dim();
        let constants = self.constants();
        contraction_of(alloc, f, a.as_slice(), constants, 1, m, m * m)
    }

    /// The matrix of the trace form, m by m: tr(b_i·b_j) stands in row i and column j, where tr(a) is the trace of the
    /// multiplication by a from the left.
    pub fn trace_form(&self, alloc: Global, f: &F) -> Result<Matrix<F>, NoMemory>
        requires { IsOver (F.ops f.now) self.now }
        ensures shape { IfOk result (IsMatrix (F.ops f.now) self.now.dim) }
        ensures value { IfOk result (λ r. r ≡ trace_matrix (F.ops f.now) self.now) }
    {
        let m = self.dim();
        let constants = self.constants();
        let traces = basis_traces_of(alloc, f, m, constants)?;
        contraction_of(alloc, f, traces.as_slice(), constants, m * m, m, 1)
    }

    /// The matrix of the form that takes a and b to the sum of the products of the items of w and of a·b, m by m: its
    /// value at b_i and b_j stands in row j and column i.
    pub fn form(&self, alloc: Global, f: &F, w: &Vector<F>) -> Result<Matrix<F>, NoMemory>
        requires over { IsOver (F.ops f.now) self.now }
        requires tuple { IsElement (F.ops f.now) self.now w.now }
        ensures shape { IfOk result (IsMatrix (F.ops f.now) self.now.dim) }
        ensures height { IfOk result (λ r. length r ≡ self.now.dim) }
        ensures value { IfOk result (λ r. (i j : ℕ) → i < self.now.dim → j < self.now.dim →
            entry (F.ops f.now) r j i ≡ sum_of (F.ops f.now) self.now.dim (λ k. (F.ops f.now).mul (at (F.ops f.now)
            w.now k) (at (F.ops f.now) (product_of (F.ops f.now) self.now
            (basis_of (F.ops f.now) self.now i) (basis_of (F.ops f.now) self.now j)) k))) }
    {
        let m = self.dim();
        let constants = self.constants();
        contraction_of(alloc, f, w.as_slice(), constants, m, m * m, 1)
    }
}
