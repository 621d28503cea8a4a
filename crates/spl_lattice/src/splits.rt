// The reduction of rows in their first columns: each further row is brought into a list of reduced rows.
ghost use Rattle.std.specs.Prelude.{◌≡◌, ◌<◌, ◌≤◌, [], ◌∷◌, ◌++◌, length, IfOk, OnOk, get_or};
ghost use Rattle.theory_rows.specs.Rows.{IsPolynomialRow, IsPolynomialMatrix};
ghost use Rattle.theory_rows.specs.LeadingPositions.{HasLeadingPosition};
ghost use Rattle.spl_field.specs.SmallField.{small_ops};
ghost use Rattle.spl_lattice.specs.Reduction.{IsLowerKept, IsLowering, IsSettled, IsSplit, IsSplitOf};

use crate::euclid::know_laws;
use crate::positions::{conflict, leading_position};
use crate::rows::PolyRow;
use crate::steps::without_multiple;
use spl_field::field::NoMemory;
use spl_field::small::SmallField;
use std::alloc::Global;
use std::mem;

/// Reduced rows, with their leading positions, and rows that are 0 in the columns in which the others are reduced.
#[derive(Drop)]
pub(crate) struct Split {
    pub(crate) basis: Vec<PolyRow>,
    pub(crate) places: Vec<usize>,
    pub(crate) zeros: Vec<PolyRow>,
}

impl Split {
    /// No rows.
    pub(crate) fn new(alloc: Global) -> Split
        ensures basis { result.basis.items ≡ [] }
        ensures places { result.places.items ≡ [] }
        ensures zeros { result.zeros.items ≡ [] }
    {
        Split {
            basis: Vec::new(alloc),
            places: Vec::new(alloc),
            zeros: Vec::new(alloc),
        }
    }
}

/// Of the row and that of the basis at i, the one whose entry at p is of smaller degree stays in the basis, or goes
/// there; the other is handed back.
fn lower_kept(split: &mut Split, i: usize, p: usize, row: PolyRow) -> PolyRow
    requires row_in { i < length split.old.basis.items }
    requires entry_in { p < length (get_or split.old.basis.items i []) }
    requires place_in { p < length row }
    ensures kept { IsLowerKept p i split.old.basis.items row split.new.basis.items result }
    ensures places { split.new.places.items ≡ split.old.places.items }
    ensures zeros { split.new.zeros.items ≡ split.old.zeros.items }
{
    let here = split.basis[i].as_slice()[p].as_slice().len();
    if here <= row.as_slice()[p].as_slice().len() {
        return row;
    }
    mem::replace(&mut split.basis[i], row)
}

/// The row, which leads where that of the basis at i does, or that row, whose place it takes: less the multiple of the
/// other that lowers it.
fn lower(
    alloc: Global,
    f: &SmallField,
    split: &mut Split,
    i: usize,
    row: PolyRow,
    w: usize,
) -> Result<PolyRow, NoMemory>
    requires width { w ≤ length row }
    requires row { IsPolynomialRow (small_ops f.now) (length row) row }
    requires split { IsSplit (small_ops f.now) w (length row) split.old.basis.items split.old.places.items
        split.old.zeros.items }
    requires row_in { i < length split.old.basis.items }
    requires place { HasLeadingPosition w row (get_or split.old.places.items i 0) }
    ensures value { IfOk result (λ r. IsLowering (small_ops f.now) (get_or split.old.places.items i 0) i
        split.old.basis.items row split.new.basis.items r) }
    ensures row { IfOk result (IsPolynomialRow (small_ops f.now) (length row)) }
    ensures places { split.new.places.items ≡ split.old.places.items }
    ensures zeros { split.new.zeros.items ≡ split.old.zeros.items }
{
    let p = split.places[i];
    let high = lower_kept(split, i, p, row);
    Ok(without_multiple(alloc, f, high, &split.basis[i], p)?)
}

/// Puts the row, which leads where no row of the basis does, or nowhere, where it belongs.
fn settle(split: &mut Split, row: PolyRow, w: usize) -> Result<(), NoMemory>
    requires { w ≤ length row }
    ensures { OnOk result (IsSettled w split.old.basis.items split.old.places.items split.old.zeros.items row
        split.new.basis.items split.new.places.items split.new.zeros.items) }
{
    match leading_position(row.as_slice(), w) {
        None => split.zeros.push(row)?,
        Some(p) => {
            split.places.push(p)?;
            split.basis.push(row)?;
        }
    }
    Ok(())
}

/// Brings one more row in. As long as it leads where a row of the basis does, the one of smaller degree stands in the
/// basis and the other goes on, less a multiple of it.
pub(crate) fn insert(
    alloc: Global,
    f: &SmallField,
    split: &mut Split,
    row: PolyRow,
    w: usize,
) -> Result<(), NoMemory>
    requires width { w ≤ length row }
    requires row { IsPolynomialRow (small_ops f.now) (length row) row }
    requires split { IsSplit (small_ops f.now) w (length row) split.old.basis.items split.old.places.items
        split.old.zeros.items }
    ensures { OnOk result (IsSplitOf (small_ops f.now) w (length row)
        ((split.old.basis.items ++ split.old.zeros.items) ++ row ∷ [])
        split.new.basis.items split.new.places.items split.new.zeros.items) }
{
    know_laws(f);
    let mut rest = row;
    'steps: while let Some(i) = conflict(split.places.as_slice(), rest.as_slice(), w) {
        rest = lower(alloc, f, split, i, rest, w)?;
    }
    settle(split, rest, w)?;
    Ok(())
}
