// The maps y → b_i·y·b_j, and the dimension of their span.
ghost use Rattle.std.specs.Prelude.{◌≡◌, ◌*◌, ◌/◌, ◌%◌, ◌^◌, ◌<◌, ◌≤◌, IfOk};
ghost use Rattle.theory_rings.specs.Ops.{IsElem};
ghost use Rattle.theory_spaces.specs.Tuples.{IsTuple};
ghost use Rattle.theory_tables.specs.Matrix.{IsMatrix};
ghost use Rattle.theory_tables.specs.Structure.{IsOver};
ghost use Rattle.spl_algebra.specs.TwoSided.{map_coordinate, map_coordinates, two_sided_maps, IsTwoSidedRank};

use crate::algebra::Algebra;
use crate::basis::{place, row_of};
use crate::products::contracted_item;
use spl_field::field::{Field, NoMemory};
use spl_field::list::{List, Vector};
use spl_matrix::matrix::Matrix;
use spl_matrix::subspace::Subspace;
use std::alloc::Global;

/// The coordinate l of (b_i·b_k)·b_j, where s is k·m + l.
fn map_item<F: Field>(
    alloc: Global,
    f: &F,
    zero: &F::Elem,
    m: usize,
    constants: &[F::Elem],
    i: usize,
    j: usize,
    s: usize,
) -> Result<F::Elem, NoMemory>
    requires zero { zero.now ≡ (F.ops f.now).zero }
    requires fits { m * m * m < 2 ^ 64 }
    requires over { IsTuple (F.ops f.now) (m * m * m) constants.now }
    requires first { i < m }
    requires second { j < m }
    requires item { s < m * m }
    ensures elem { IfOk result (IsElem (F.ops f.now)) }
    ensures value { IfOk result (λ r. r ≡ map_coordinate (F.ops f.now) m constants.now i j s) }
{
    let first = row_of(f, m, constants, i, s / m);
    let start = place(m, 0, j, s % m);
    Ok(contracted_item(alloc, f, zero, first, constants, start, m * m)?)
}

/// The map y → (b_i·y)·b_j by its coordinates.
fn map_row<F: Field>(
    alloc: Global,
    f: &F,
    zero: &F::Elem,
    m: usize,
    constants: &[F::Elem],
    i: usize,
    j: usize,
) -> Result<Vector<F>, NoMemory>
    requires zero { zero.now ≡ (F.ops f.now).zero }
    requires fits { m * m * m < 2 ^ 64 }
    requires over { IsTuple (F.ops f.now) (m * m * m) constants.now }
    requires first { i < m }
    requires second { j < m }
    ensures elem { IfOk result (IsTuple (F.ops f.now) (m * m)) }
    ensures value { IfOk result (λ r. r ≡ map_coordinates (F.ops f.now) m constants.now i j) }
{
    let mut row = List::new(alloc);
    for s in 0..m * m {
        row.push(map_item(alloc, f, zero, m, constants, i, j, s)?)?;
    }
    Ok(row)
}

/// These maps for all i and j.
fn map_rows<F: Field>(
    alloc: Global,
    f: &F,
    m: usize,
    constants: &[F::Elem],
) -> Result<Matrix<F>, NoMemory>
    requires positive { 1 ≤ m }
    requires fits { m * m * m < 2 ^ 64 }
    requires over { IsTuple (F.ops f.now) (m * m * m) constants.now }
    ensures shape { IfOk result (IsMatrix (F.ops f.now) (m * m)) }
    ensures value { IfOk result (λ r. r ≡ two_sided_maps (F.ops f.now) m constants.now) }
{
    let zero = f.zero(alloc)?;
    let mut rows = Matrix::new(alloc);
    for t in 0..m * m {
        let row = map_row(alloc, f, &zero, m, constants, t / m, t % m)?;
        rows.push(row)?;
    }
    Ok(rows)
}

impl<F: Field> Algebra<F> {
    /// The dimension of the span of the maps y → (b_i·y)·b_j of all basis elements b_i and b_j: the two-sided rank. It
    /// tells, with the centre, whether an associative algebra with one is simple. The one fault is want of memory.
    pub fn two_sided_rank(&self, alloc: Global, f: &F) -> Result<usize, NoMemory>
        requires { IsOver (F.ops f.now) self.now }
        ensures { IfOk result (IsTwoSidedRank (F.ops f.now) self.now) }
    {
        let m = self.dim();
        let maps = map_rows(alloc, f, m, self.constants())?;
        let span = Subspace::span(alloc, f, m * m, &maps)?;
        Ok(span.dim())
    }
}
