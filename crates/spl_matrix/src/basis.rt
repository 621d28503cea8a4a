// Bases in reduced row echelon form: the rows with a pivot, their pivots, and the combinations of the rows.
ghost use Rattle.std.specs.Prelude.{◌≡◌, ◌<◌, ◌↔◌, ℕ, length, get_or, IfOk, IsTrue, All};
ghost use Rattle.theory_rings.specs.Ops.{IsElem};
ghost use Rattle.theory_rings.specs.Sum.{sum_of, table, at};
ghost use Rattle.theory_spaces.specs.Tuples.{IsTuple};
ghost use Rattle.theory_tables.specs.Matrix.{entry, IsMatrix};
ghost use Rattle.theory_tables.specs.Echelon.{IsReducedEchelon};
ghost use Rattle.theory_tables.specs.Subspace.{SameSpan, IsReducedBasis};
ghost use Rattle.spl_matrix.specs.Spanning.{IsLeadingPlace};

use crate::elimination::eliminate;
use crate::matrix::{Indices, Matrix};
use crate::rows::add_product;
use spl_field::field::{Field, NoMemory};
use spl_field::list::{List, Vector};
use std::alloc::Global;

/// The rows with a pivot of the reduced row echelon form of a matrix with w columns.
pub(crate) fn basis_of<F: Field>(
    alloc: Global,
    f: &F,
    w: usize,
    rows: Vec<Vector<F>>,
) -> Result<Matrix<F>, NoMemory>
    requires { IsMatrix (F.ops f.now) w rows.items }
    ensures basis { IfOk result (IsReducedBasis (F.ops f.now) w) }
    ensures same { IfOk result (SameSpan (F.ops f.now) w rows.items) }
{
    let mut changed = rows;
    let pivots = eliminate(alloc, f, w, w, &mut changed)?;
    changed.truncate(pivots.len());
    Ok(Matrix::from_rows(changed))
}

/// The first place of the row with an item that is not 0, or the end of the row.
fn leading_place<F: Field>(f: &F, zero: &F::Elem, row: &[F::Elem]) -> usize
    requires row { All (IsElem (F.ops f.now)) row.now }
    requires zero_elem { IsElem (F.ops f.now) zero.now }
    requires zero { zero.now ≡ (F.ops f.now).zero }
    ensures { IsLeadingPlace (F.ops f.now) row.now result }
{
    for j in 0..row.len() {
        if !f.eq(&row[j], zero) {
            return j;
        }
    }
    row.len()
}

/// The pivots of a basis in reduced row echelon form.
pub(crate) fn pivots_of<F: Field>(
    alloc: Global,
    f: &F,
    w: usize,
    rows: &[Vector<F>],
) -> Result<Indices, NoMemory>
    requires { IsReducedBasis (F.ops f.now) w rows.now }
    ensures each { IfOk result (λ p. length p ≡ length rows.now) }
    ensures reduced { IfOk result (λ p. IsReducedEchelon (F.ops f.now) (length rows.now) rows.now p w) }
{
    let zero = f.zero(alloc)?;
    let mut pivots = List::new(alloc);
    for i in 0..rows.len() {
        pivots.push(leading_place(f, &zero, rows[i].as_slice()))?;
    }
    Ok(pivots)
}

/// The items of the tuple at these places.
pub(crate) fn gathered<F: Field>(
    alloc: Global,
    f: &F,
    places: &[usize],
    v: &[F::Elem],
) -> Result<Vector<F>, NoMemory>
    requires elems { All (IsElem (F.ops f.now)) v.now }
    requires within { (s : ℕ) → s < length places.now → get_or places.now s 0 < length v.now }
    ensures elem { IfOk result (IsTuple (F.ops f.now) (length places.now)) }
    ensures value { IfOk result (λ c. c ≡ table (length places.now) (λ s.
        at (F.ops f.now) v.now (get_or places.now s 0))) }
{
    let mut items = List::new(alloc);
    for s in 0..places.len() {
        items.push(f.copy(alloc, &v[places[s]])?)?;
    }
    Ok(items)
}

/// Item j of the combination of the rows by c.
fn combined_item<F: Field>(
    alloc: Global,
    f: &F,
    w: usize,
    zero: &F::Elem,
    c: &[F::Elem],
    rows: &[Vector<F>],
    j: usize,
) -> Result<F::Elem, NoMemory>
    requires shape { IsMatrix (F.ops f.now) w rows.now }
    requires weights { IsTuple (F.ops f.now) (length rows.now) c.now }
    requires zero_elem { IsElem (F.ops f.now) zero.now }
    requires zero { zero.now ≡ (F.ops f.now).zero }
    requires column { j < w }
    ensures elem { IfOk result (IsElem (F.ops f.now)) }
    ensures value { IfOk result (λ r. r ≡ sum_of (F.ops f.now) (length rows.now) (λ i.
        (F.ops f.now).mul (at (F.ops f.now) c.now i) (entry (F.ops f.now) rows.now i j))) }
{
    let mut sum = f.zero(alloc)?;
    for i in 0..rows.len() {
        sum = add_product(alloc, f, zero, sum, &c[i], &rows[i].as_slice()[j])?;
    }
    Ok(sum)
}

/// Whether v is the combination of the rows by c.
pub(crate) fn is_combination<F: Field>(
    alloc: Global,
    f: &F,
    c: &[F::Elem],
    rows: &[Vector<F>],
    v: &[F::Elem],
) -> Result<bool, NoMemory>
    requires shape { IsMatrix (F.ops f.now) (length v.now) rows.now }
    requires weights { IsTuple (F.ops f.now) (length rows.now) c.now }
    requires vector { All (IsElem (F.ops f.now)) v.now }
    ensures { IfOk result (λ b. IsTrue b ↔ ((j : ℕ) → j < length v.now →
        at (F.ops f.now) v.now j ≡ sum_of (F.ops f.now) (length rows.now) (λ i.
        (F.ops f.now).mul (at (F.ops f.now) c.now i) (entry (F.ops f.now) rows.now i j)))) }
{
    let zero = f.zero(alloc)?;
    for j in 0..v.len() {
        let item = combined_item(alloc, f, v.len(), &zero, c, rows, j)?;
        if !f.eq(&v[j], &item) {
            return Ok(false);
        }
    }
    Ok(true)
}
