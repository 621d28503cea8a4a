// Linear systems.
ghost use Rattle.std.specs.Prelude.{◌≡◌, ◌≢◌, ◌<◌, ◌≤◌, ℕ, length, IfOk, MatchOption, All};
ghost use Rattle.theory_rings.specs.Ops.{IsElem};
ghost use Rattle.theory_rings.specs.Sum.{table, at};
ghost use Rattle.theory_spaces.specs.Tuples.{IsTuple};
ghost use Rattle.theory_tables.specs.Matrix.{entry, image, width_of, IsMatrix};
ghost use Rattle.theory_tables.specs.Echelon.{IsEchelon};
ghost use Rattle.spl_matrix.specs.Solution.{IsSolution};
ghost use Rattle.theory_tables.specs.Solve.{IsSolved, IsRefuted, IsScattered};

use crate::echelon::{Echelon, echelon_of};
use crate::kernel::place_of;
use crate::matrix::Matrix;
use crate::rows::{dot_of, scaled};
use spl_field::field::{Field, NoMemory};
use spl_field::list::{List, Vector};
use std::alloc::Global;

/// m·v
fn image_of<F: Field>(
    alloc: Global,
    f: &F,
    m: &[Vector<F>],
    v: &[F::Elem],
) -> Result<Vector<F>, NoMemory>
    requires shape { IsMatrix (F.ops f.now) (length v.now) m.now }
    requires vector { All (IsElem (F.ops f.now)) v.now }
    ensures elem { IfOk result (IsTuple (F.ops f.now) (length m.now)) }
    ensures value { IfOk result (λ r. r ≡ image (F.ops f.now) (length m.now) (length v.now) m.now v.now) }
{
    let mut items = List::new(alloc);
    for i in 0..m.len() {
        let item = dot_of(alloc, f, m[i].as_slice(), v)?;
        items.push(item)?;
    }
    Ok(items)
}

/// The first place from r on with an item that is not 0.
fn find_nonzero<F: Field>(
    alloc: Global,
    f: &F,
    v: &[F::Elem],
    r: usize,
) -> Result<Option<usize>, NoMemory>
    requires { All (IsElem (F.ops f.now)) v.now }
    ensures { IfOk result (λ o. MatchOption o
        ((i : ℕ) → r ≤ i → i < length v.now → at (F.ops f.now) v.now i ≡ (F.ops f.now).zero)
        (λ i. (r ≤ i) × (i < length v.now) × (at (F.ops f.now) v.now i ≢ (F.ops f.now).zero))) }
{
    let zero = f.zero(alloc)?;
    for i in r..v.len() {
        if !f.eq(&v[i], &zero) {
            return Ok(Some(i));
        }
    }
    Ok(None)
}

/// Item j of the tuple with c_s at the place of pivot s, and 0 elsewhere.
fn scattered_item<F: Field>(
    alloc: Global,
    f: &F,
    pivots: &[usize],
    c: &[F::Elem],
    j: usize,
) -> Result<F::Elem, NoMemory>
    requires elems { All (IsElem (F.ops f.now)) c.now }
    requires enough { length pivots.now ≤ length c.now }
    ensures elem { IfOk result (IsElem (F.ops f.now)) }
    ensures value { IfOk result (IsScattered (F.ops f.now) pivots.now c.now j) }
{
    let s = place_of(pivots, j);
    if s < pivots.len() {
        f.copy(alloc, &c[s])
    } else {
        f.zero(alloc)
    }
}

/// The tuple with c_s at the place of pivot s, and 0 elsewhere.
fn scattered<F: Field>(
    alloc: Global,
    f: &F,
    w: usize,
    pivots: &[usize],
    c: &[F::Elem],
) -> Result<Vector<F>, NoMemory>
    requires elems { All (IsElem (F.ops f.now)) c.now }
    requires enough { length pivots.now ≤ length c.now }
    ensures elem { IfOk result (IsTuple (F.ops f.now) w) }
    ensures value { IfOk result (λ v. (j : ℕ) → j < w →
        IsScattered (F.ops f.now) pivots.now c.now j (at (F.ops f.now) v j)) }
{
    let mut items = List::new(alloc);
    for j in 0..w {
        let item = scattered_item(alloc, f, pivots, c, j)?;
        items.push(item)?;
    }
    Ok(items)
}

/// A solution of a linear system, or multipliers that turn it into 0 = 1.
#[derive(Drop)]
pub enum Solution<F: Field> {
    Solved { vector: Vector<F> },
    Refuted { multipliers: Vector<F> },
}

/// A solution of a·v = right, for a matrix with w columns.
fn solve_of<F: Field>(
    alloc: Global,
    f: &F,
    w: usize,
    a: &[Vector<F>],
    right: &[F::Elem],
) -> Result<Solution<F>, NoMemory>
    requires shape { IsMatrix (F.ops f.now) w a.now }
    requires right { IsTuple (F.ops f.now) (length a.now) right.now }
    ensures { IfOk result (IsSolution (F.ops f.now) (length a.now) w a.now right.now) }
{
    let e = echelon_of(alloc, f, w, a)?;
    let c = image_of(alloc, f, e.transform.as_slice(), right)?;
    match find_nonzero(alloc, f, c.as_slice(), e.pivots.len())? {
        Some(i) => {
            let multipliers = refutation(alloc, f, w, a, right, &e, c.as_slice(), i)?;
            Ok(Solution::Refuted { multipliers })
        }
        None => {
            let vector = scattered(alloc, f, w, e.pivots.as_slice(), c.as_slice())?;
            Ok(Solution::Solved { vector })
        }
    }
}

fn refutation<F: Field>(
    alloc: Global,
    f: &F,
    w: usize,
    a: &[Vector<F>],
    right: &[F::Elem],
    e: &Echelon<F>,
    c: &[F::Elem],
    i: usize,
) -> Result<Vector<F>, NoMemory>
    requires shape { IsMatrix (F.ops f.now) w a.now }
    requires right { IsTuple (F.ops f.now) (length a.now) right.now }
    requires echelon { IsEchelon (F.ops f.now) (length a.now) w a.now e.now.rows e.now.pivots e.now.transform }
    requires c_elems { IsTuple (F.ops f.now) (length a.now) c.now }
    requires c_is { c.now ≡ image (F.ops f.now) (length a.now) (length a.now) e.now.transform right.now }
    requires past { length e.now.pivots ≤ i }
    requires within { i < length a.now }
    requires nonzero { at (F.ops f.now) c.now i ≢ (F.ops f.now).zero }
    ensures { IfOk result (IsRefuted (F.ops f.now) (length a.now) w a.now right.now) }
{
    let factor = match f.inv(alloc, &c[i])? {
        Some(factor) => factor,
        None => unreachable!(),
    };
    let rows = e.transform.as_slice();
    Ok(scaled(alloc, f, &factor, rows[i].as_slice())?)
}

impl<F: Field> Matrix<F> {
    /// A solution of self·v = right, or multipliers by which the equations give 0 = 1.
    pub fn solve(&self, alloc: Global, f: &F, right: &[F::Elem]) -> Result<Solution<F>, NoMemory>
        requires elems { All (All (IsElem (F.ops f.now))) self.now }
        requires rows { 1 ≤ length self.now }
        requires right { IsTuple (F.ops f.now) (length self.now) right.now }
        ensures { IfOk result (IsSolution (F.ops f.now) (length self.now) (width_of self.now) self.now right.now) }
    {
        solve_of(alloc, f, self.width(), self.as_slice(), right)
    }
}
