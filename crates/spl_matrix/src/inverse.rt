// Inverses of square matrices.
ghost use Rattle.std.specs.Prelude.{◌≡◌, ◌↔◌, length, IfOk, IfSome, All};
ghost use Rattle.theory_rings.specs.Ops.{IsElem};
ghost use Rattle.theory_tables.specs.Matrix.{width_of, IsMatrix};
ghost use Rattle.theory_tables.specs.Inverse.{IsInverse, AreDependent};

use crate::echelon::echelon_of;
use crate::matrix::Matrix;
use spl_field::field::{Field, NoMemory};
use spl_field::list::Vector;
use std::alloc::Global;

/// The inverse of a matrix with as many columns as rows: the transform, where each column has a pivot.
fn inverse_of<F: Field>(
    alloc: Global,
    f: &F,
    a: &[Vector<F>],
) -> Result<Option<Matrix<F>>, NoMemory>
    requires shape { IsMatrix (F.ops f.now) (length a.now) a.now }
    ensures none { IfOk result (λ r. (r ≡ None) ↔ AreDependent (F.ops f.now) (length a.now) (length a.now) a.now) }
    ensures some { IfOk result (λ r. IfSome r (IsInverse (F.ops f.now) (length a.now) a.now)) }
{
    let e = echelon_of(alloc, f, a.len(), a)?;
    if e.pivots.len() == a.len() {
        Ok(Some(e.transform))
    } else {
        Ok(None)
    }
}

impl<F: Field> Matrix<F> {
    /// The inverse of a square matrix, on both sides; None exactly where its rows are dependent. The one fault is want
    /// of memory. By Gauss-Jordan elimination of the matrix with the identity beside it.
    pub fn inverse(&self, alloc: Global, f: &F) -> Result<Option<Matrix<F>>, NoMemory>
        requires elems { All (All (IsElem (F.ops f.now))) self.now }
        requires square { width_of self.now ≡ length self.now }
        ensures none { IfOk result (λ r.
            (r ≡ None) ↔ AreDependent (F.ops f.now) (length self.now) (length self.now) self.now) }
        ensures some { IfOk result (λ r. IfSome r (IsInverse (F.ops f.now) (length self.now) self.now)) }
    {
        let _ = self.width();
        inverse_of(alloc, f, self.as_slice())
    }
}
