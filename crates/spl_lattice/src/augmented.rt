// Rows with further columns, and the reduction of such rows in the first columns.
ghost use Rattle.std.specs.Prelude.{◌≡◌, ℕ, ◌+◌, ◌≤◌, [], ◌∷◌, ◌++◌, length, IfOk, OnOk, All, cond, nat_eq};
ghost use Rattle.theory_rows.specs.Rows.{IsPolynomialMatrix};
ghost use Rattle.theory_rows.specs.Augmented.{heads_of, tails_of, extended_by, zero_row, zero_rows, unit_row};
ghost use Rattle.theory_rows.specs.Augmented.{unit_rows};
ghost use Rattle.spl_field.specs.SmallField.{small_ops};
ghost use Rattle.spl_poly.specs.Operations.{IsOver};
ghost use Rattle.spl_lattice.specs.Reduction.{IsSplit, IsSplitOf};

use crate::euclid::know_laws;
use crate::matrix::PolyMatrix;
use crate::rows::PolyRow;
use crate::splits::{Split, insert};
use spl_field::field::NoMemory;
use spl_field::small::SmallField;
use spl_poly::poly::Poly;
use std::alloc::Global;

/// The row, and then copies of the items.
fn with_copies(
    alloc: Global,
    f: &SmallField,
    mut row: PolyRow,
    items: &[Poly],
) -> Result<PolyRow, NoMemory>
    requires { All (IsOver (small_ops f.now)) items.now }
    ensures { IfOk result (λ r. r ≡ row ++ items.now) }
{
    for item in items {
        row.push(item.copy(alloc, f)?)?;
    }
    Ok(row)
}

/// A copy of the items.
pub(crate) fn copied(alloc: Global, f: &SmallField, items: &[Poly]) -> Result<PolyRow, NoMemory>
    requires { All (IsOver (small_ops f.now)) items.now }
    ensures { IfOk result (λ r. r ≡ items.now) }
{
    Ok(with_copies(alloc, f, PolyRow::new(alloc), items)?)
}

/// The entry at place k of the unit row i.
fn unit_entry(alloc: Global, k: usize, i: usize) -> Result<Poly, NoMemory>
    ensures { IfOk result (λ r. r ≡ cond (nat_eq k i) (1 ∷ []) []) }
{
    if k == i {
        return Ok(Poly::from_slice(alloc, &[1])?);
    }
    Ok(Poly::from_slice(alloc, &[])?)
}

/// The unit row i of n entries.
fn unit(alloc: Global, n: usize, i: usize) -> Result<PolyRow, NoMemory>
    ensures { IfOk result (λ r. r ≡ unit_row 1 n i) }
{
    let mut row = PolyRow::new(alloc);
    for k in 0..n {
        row.push(unit_entry(alloc, k, i)?)?;
    }
    Ok(row)
}

/// The n unit rows of n entries.
pub(crate) fn units(alloc: Global, n: usize) -> Result<PolyMatrix, NoMemory>
    ensures { IfOk result (λ r. r ≡ unit_rows 1 n) }
{
    let mut rows = PolyMatrix::new(alloc);
    for i in 0..n {
        rows.push(unit(alloc, n, i)?)?;
    }
    Ok(rows)
}

/// A row of n zeros.
pub(crate) fn zeros(alloc: Global, n: usize) -> Result<PolyRow, NoMemory>
    ensures { IfOk result (λ r. r ≡ zero_row n) }
{
    let mut row = PolyRow::new(alloc);
    for _ in 0..n {
        row.push(Poly::from_slice(alloc, &[])?)?;
    }
    Ok(row)
}

/// The n rows of w zeros.
pub(crate) fn zero_matrix(alloc: Global, n: usize, w: usize) -> Result<PolyMatrix, NoMemory>
    ensures { IfOk result (λ r. r ≡ zero_rows n w) }
{
    let mut rows = PolyMatrix::new(alloc);
    for _ in 0..n {
        rows.push(zeros(alloc, w)?)?;
    }
    Ok(rows)
}

/// The columns of the rows up to w.
pub(crate) fn heads(
    alloc: Global,
    f: &SmallField,
    rows: &[PolyRow],
    w: usize,
) -> Result<PolyMatrix, NoMemory>
    requires rows { All (All (IsOver (small_ops f.now))) rows.now }
    requires width { All (λ row. w ≤ length row) rows.now }
    ensures { IfOk result (λ r. r ≡ heads_of w rows.now) }
{
    let mut parts = PolyMatrix::new(alloc);
    for i in 0..rows.len() {
        parts.push(copied(alloc, f, &rows[i].as_slice()[..w])?)?;
    }
    Ok(parts)
}

/// The columns of the rows from w on.
pub(crate) fn tails(
    alloc: Global,
    f: &SmallField,
    rows: &[PolyRow],
    w: usize,
) -> Result<PolyMatrix, NoMemory>
    requires rows { All (All (IsOver (small_ops f.now))) rows.now }
    requires width { All (λ row. w ≤ length row) rows.now }
    ensures { IfOk result (λ r. r ≡ tails_of w rows.now) }
{
    let mut parts = PolyMatrix::new(alloc);
    for i in 0..rows.len() {
        parts.push(copied(alloc, f, &rows[i].as_slice()[w..])?)?;
    }
    Ok(parts)
}

/// Brings the rows of w entries in, each followed by the row of the second list at its place, which has t entries.
pub(crate) fn insert_extended(
    alloc: Global,
    f: &SmallField,
    split: &mut Split,
    rows: &[PolyRow],
    tails: &[PolyRow],
    w: usize,
    t: usize,
) -> Result<(), NoMemory>
    requires rows { IsPolynomialMatrix (small_ops f.now) w rows.now }
    requires tails { IsPolynomialMatrix (small_ops f.now) t tails.now }
    requires count { length tails.now ≡ length rows.now }
    requires split { IsSplit (small_ops f.now) w (w + t) split.old.basis.items split.old.places.items
        split.old.zeros.items }
    ensures { OnOk result (IsSplitOf (small_ops f.now) w (w + t)
        ((split.old.basis.items ++ split.old.zeros.items) ++ extended_by rows.now tails.now)
        split.new.basis.items split.new.places.items split.new.zeros.items) }
{
    let _ = t;
    know_laws(f);
    for i in 0..rows.len() {
        let row = copied(alloc, f, rows[i].as_slice())?;
        let row = with_copies(alloc, f, row, tails[i].as_slice())?;
        insert(alloc, f, split, row, w)?;
    }
    Ok(())
}
