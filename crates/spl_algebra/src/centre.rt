// The centre.
ghost use Rattle.std.specs.Prelude.{◌≡◌, ◌*◌, ◌^◌, ◌<◌, ◌≤◌, IfOk};
ghost use Rattle.theory_rings.specs.Ops.{IsElem};
ghost use Rattle.theory_rings.specs.Sum.{table};
ghost use Rattle.theory_spaces.specs.Tuples.{IsTuple};
ghost use Rattle.theory_tables.specs.Matrix.{IsMatrix};
ghost use Rattle.theory_tables.specs.Subspace.{IsSubspace};
ghost use Rattle.theory_tables.specs.Structure.{IsOver};
ghost use Rattle.spl_algebra.specs.Contractions.{commutator_item, commutator_rows};
ghost use Rattle.spl_algebra.specs.Subspaces.{SpansCentre};

use crate::algebra::Algebra;
use crate::basis::place;
use spl_field::field::{Field, NoMemory};
use spl_field::list::{List, Vector};
use spl_matrix::matrix::Matrix;
use spl_matrix::subspace::Subspace;
use std::alloc::Global;

/// a − b; a 0 costs no sum.
fn difference<F: Field>(
    alloc: Global,
    f: &F,
    zero: &F::Elem,
    a: &F::Elem,
    b: &F::Elem,
) -> Result<F::Elem, NoMemory>
    requires zero { zero.now ≡ (F.ops f.now).zero }
    requires left { IsElem (F.ops f.now) a.now }
    requires right { IsElem (F.ops f.now) b.now }
    ensures elem { IfOk result (IsElem (F.ops f.now)) }
    ensures value { IfOk result (λ r. r ≡ (F.ops f.now).add a.now ((F.ops f.now).neg b.now)) }
{
    if f.eq(b, zero) {
        return f.copy(alloc, a);
    }
    let less = f.neg(alloc, b)?;
    if f.eq(a, zero) {
        return Ok(less);
    }
    f.add(alloc, a, &less)
}

/// The coefficients of b_k in b_j·b_i − b_i·b_j, for all j.
fn commutator_row_of<F: Field>(
    alloc: Global,
    f: &F,
    zero: &F::Elem,
    m: usize,
    constants: &[F::Elem],
    i: usize,
    k: usize,
) -> Result<Vector<F>, NoMemory>
    requires zero { zero.now ≡ (F.ops f.now).zero }
    requires fits { m * m * m < 2 ^ 64 }
    requires over { IsTuple (F.ops f.now) (m * m * m) constants.now }
    requires first { i < m }
    requires second { k < m }
    ensures elem { IfOk result (IsTuple (F.ops f.now) m) }
    ensures value { IfOk result (λ r. r ≡ table m (commutator_item (F.ops f.now) m constants.now i k)) }
{
    let mut row = List::new(alloc);
    for j in 0..m {
        let right = &constants[place(m, j, i, k)];
        let left = &constants[place(m, i, j, k)];
        row.push(difference(alloc, f, zero, right, left)?)?;
    }
    Ok(row)
}

/// The matrix of these rows for all i and k, which sends the central elements to 0 and no others.
fn commutator_rows_of<F: Field>(
    alloc: Global,
    f: &F,
    m: usize,
    constants: &[F::Elem],
) -> Result<Matrix<F>, NoMemory>
    requires positive { 1 ≤ m }
    requires fits { m * m * m < 2 ^ 64 }
    requires over { IsTuple (F.ops f.now) (m * m * m) constants.now }
    ensures shape { IfOk result (IsMatrix (F.ops f.now) m) }
    ensures value { IfOk result (λ r. r ≡ commutator_rows (F.ops f.now) m constants.now) }
{
    let zero = f.zero(alloc)?;
    let mut rows = Matrix::new(alloc);
    for r in 0..m * m {
        let row = commutator_row_of(alloc, f, &zero, m, constants, r / m, r % m)?;
        rows.push(row)?;
    }
    Ok(rows)
}

impl<F: Field> Algebra<F> {
    /// The centre: all elements that commute with each basis element.
    pub fn centre(&self, alloc: Global, f: &F) -> Result<Subspace<F>, NoMemory>
        requires { IsOver (F.ops f.now) self.now }
        ensures basis { IfOk result (IsSubspace (F.ops f.now)) }
        ensures width { IfOk result (λ s. s.width ≡ self.now.dim) }
        ensures members { IfOk result (λ s. SpansCentre (F.ops f.now) self.now s.rows) }
    {
        let rows = commutator_rows_of(alloc, f, self.dim(), self.constants())?;
        rows.kernel(alloc, f)
    }
}
