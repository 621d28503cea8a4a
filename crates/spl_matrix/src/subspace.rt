// Subspaces of the tuples over a field, each by its basis in reduced row echelon form.
ghost use Rattle.std.specs.Prelude.{◌≡◌, ◌<◌, ◌≤◌, ◌↔◌, ℕ, List, [], length, IfOk, IsTrue, All};
ghost use Rattle.theory_rings.specs.Ops.{IsElem};
ghost use Rattle.theory_spaces.specs.Tuples.{IsTuple};
ghost use Rattle.theory_tables.specs.Matrix.{IsMatrix};
ghost use Rattle.theory_tables.specs.Echelon.{IsReducedEchelon};
ghost use Rattle.theory_tables.specs.Subspace.{InSpan, SameSpan, IsReducedBasis, IsSubspace, SpansSum, SpansMeet};

use crate::basis::{basis_of, gathered, is_combination, pivots_of};
use crate::matrix::{Indices, Matrix, copied};
use crate::meet::{meet_rows, stacked};
use spl_field::field::{Field, NoMemory};
use spl_field::list::Vector;
use std::alloc::Global;
use std::marker::Model;

/// A subspace of the tuples of `width` elements of a field, by its one basis in reduced row echelon form (Lang, Linear
/// Algebra). Whose elements they are, and that the basis is reduced, is a condition of the calls that take it.
pub struct Subspace<F: Field> {
    width: usize,
    rows: Matrix<F>,
}

impl<F: Field> Drop for Subspace<F> {
    fn drop(self) {
        let Subspace { width, rows } = self;
    }
}

impl<F: Field> Model for Subspace<F> {
    ghost use Rattle.theory_tables.specs.Subspace.{Rows};

    ghost Value = { Rows F.Elem };

    ghost use Rattle.std.specs.Prelude.{◌≡◌, length, All};

    ghost view = { λ s. record { width = s.width; rows = s.rows } };

    ghost invariant = { λ s. All (λ row. length row ≡ s.width) s.rows };
}

/// The span of the rows of a matrix with w columns.
pub fn span_of<F: Field>(
    alloc: Global,
    f: &F,
    w: usize,
    rows: Vec<Vector<F>>,
) -> Result<Subspace<F>, NoMemory>
    requires shape { IsMatrix (F.ops f.now) w rows.items }
    ensures basis { IfOk result (λ s. IsSubspace (F.ops f.now) s) }
    ensures width { IfOk result (λ s. s.width ≡ w) }
    ensures members { IfOk result (λ s. SameSpan (F.ops f.now) w s.rows rows.items) }
{
    let rows = basis_of(alloc, f, w, rows)?;
    Ok(Subspace { width: w, rows })
}

impl<F: Field> Subspace<F> {
    /// The span of the rows of a matrix with `width` columns: the set of all their combinations.
    pub fn span(alloc: Global, f: &F, width: usize, rows: &Matrix<F>) -> Result<Self, NoMemory>
        requires shape { IsMatrix (F.ops f.now) width rows.now }
        ensures basis { IfOk result (λ s. IsSubspace (F.ops f.now) s) }
        ensures width { IfOk result (λ s. s.width ≡ width) }
        ensures members { IfOk result (λ s. SameSpan (F.ops f.now) width s.rows rows.now) }
    {
        span_of(alloc, f, width, copied(alloc, f, rows.as_slice())?)
    }

    /// The sum: the set of the sums of a vector of this subspace and one of the other.
    pub fn sum(&self, alloc: Global, f: &F, b: &Subspace<F>) -> Result<Self, NoMemory>
        requires left { IsSubspace (F.ops f.now) self.now }
        requires right { IsSubspace (F.ops f.now) b.now }
        requires same_width { b.now.width ≡ self.now.width }
        ensures basis { IfOk result (λ s. IsSubspace (F.ops f.now) s) }
        ensures width { IfOk result (λ s. s.width ≡ self.now.width) }
        ensures members { IfOk result (λ s. SpansSum (F.ops f.now) self.now.width s.rows self.now.rows b.now.rows) }
    {
        span_of(
            alloc,
            f,
            self.width,
            stacked(alloc, f, self.rows.as_slice(), b.rows.as_slice())?,
        )
    }

    /// The meet: the set of the vectors of this subspace that are in the other too.
    pub fn meet(&self, alloc: Global, f: &F, b: &Subspace<F>) -> Result<Self, NoMemory>
        requires left { IsSubspace (F.ops f.now) self.now }
        requires right { IsSubspace (F.ops f.now) b.now }
        requires same_width { b.now.width ≡ self.now.width }
        ensures basis { IfOk result (λ s. IsSubspace (F.ops f.now) s) }
        ensures width { IfOk result (λ s. s.width ≡ self.now.width) }
        ensures members { IfOk result (λ s. SpansMeet (F.ops f.now) self.now.width s.rows self.now.rows b.now.rows) }
    {
        let rows = meet_rows(
            alloc,
            f,
            self.width,
            self.rows.as_slice(),
            b.rows.as_slice(),
        )?;
        Ok(Subspace {
            width: self.width,
            rows,
        })
    }

    /// Whether the tuple is in this subspace.
    pub fn contains(&self, alloc: Global, f: &F, v: &[F::Elem]) -> Result<bool, NoMemory>
        requires basis { IsSubspace (F.ops f.now) self.now }
        requires vector { IsTuple (F.ops f.now) self.now.width v.now }
        ensures { IfOk result (λ b. IsTrue b ↔ InSpan (F.ops f.now) self.now.width self.now.rows v.now) }
    {
        let rows = self.rows.as_slice();
        let pivots = pivots_of(alloc, f, self.width, rows)?;
        let c = gathered(alloc, f, pivots.as_slice(), v)?;
        is_combination(alloc, f, c.as_slice(), rows, v)
    }

    /// The dimension.
    pub fn dim(&self) -> usize
        ensures { result ≡ length self.now.rows }
    {
        self.rows.len()
    }

    /// The number of elements of each vector.
    pub fn width(&self) -> usize
        ensures { result ≡ self.now.width }
    {
        self.width
    }

    /// The basis in reduced row echelon form.
    pub fn rows(&self) -> &Matrix<F>
        ensures { result.now ≡ self.now.rows }
    {
        &self.rows
    }

    /// The pivots of the basis: the place of the first item of each row that is not 0.
    pub fn pivots(&self, alloc: Global, f: &F) -> Result<Indices, NoMemory>
        requires { IsSubspace (F.ops f.now) self.now }
        ensures each { IfOk result (λ p. length p ≡ length self.now.rows) }
        ensures reduced { IfOk result (λ p.
            IsReducedEchelon (F.ops f.now) (length self.now.rows) self.now.rows p self.now.width) }
    {
        pivots_of(alloc, f, self.width, self.rows.as_slice())
    }

    /// The basis in reduced row echelon form, as a matrix of its own. It takes no memory.
    pub fn into_rows(self) -> Matrix<F>
        ensures { result ≡ self.rows }
    {
        let Subspace { width, rows } = self;
        rows
    }

    /// An equal subspace over f. The one fault is want of memory.
    pub fn copy(&self, alloc: Global, f: &F) -> Result<Self, NoMemory>
        requires { All (All (IsElem (F.ops f.now))) self.now.rows }
        ensures { IfOk result (λ s. s ≡ self.now) }
    {
        let rows = self.rows.copy(alloc, f)?;
        Ok(Subspace {
            width: self.width,
            rows,
        })
    }
}
