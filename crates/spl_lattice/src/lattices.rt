// Kernels, sums and meets of row lattices.
ghost use Rattle.std.specs.Prelude.{◌≡◌, ◌+◌, ◌++◌, length, IfOk, OnOk};
ghost use Rattle.theory_tables.specs.Matrix.{width_of};
ghost use Rattle.theory_rows.specs.Rows.{IsPolynomialMatrix, IsLatticeBasis, InRowKernel, InLatticeSum, InLatticeMeet};
ghost use Rattle.theory_rows.specs.Augmented.{extended_by, zero_rows};
ghost use Rattle.spl_field.specs.SmallField.{small_ops};
ghost use Rattle.spl_lattice.specs.Reduction.{IsSplit, IsSplitOf};

use crate::augmented::{insert_extended, tails, zero_matrix};
use crate::euclid::know_laws;
use crate::matrix::PolyMatrix;
use crate::reduced::{split_with_units, width};
use crate::rows::PolyRow;
use crate::splits::Split;
use spl_field::field::NoMemory;
use spl_field::small::SmallField;
use std::alloc::Global;

/// A basis of the weights with which the rows combine to 0: what the transform that reduces them has in place of zero
/// rows. The one fault is want of memory.
pub fn kernel(alloc: Global, f: &SmallField, rows: &PolyMatrix) -> Result<PolyMatrix, NoMemory>
    requires { IsPolynomialMatrix (small_ops f.now) (width_of rows.now) rows.now }
    ensures { IfOk result (IsLatticeBasis (small_ops f.now) (length rows.now)
        (InRowKernel (small_ops f.now) rows.now)) }
{
    know_laws(f);
    let w = width(rows);
    let split = split_with_units(alloc, f, rows.as_slice(), w)?;
    Ok(tails(alloc, f, split.zeros.as_slice(), w)?)
}

/// Brings the rows in, with nothing after them.
fn insert_rows(
    alloc: Global,
    f: &SmallField,
    split: &mut Split,
    rows: &[PolyRow],
    w: usize,
) -> Result<(), NoMemory>
    requires rows { IsPolynomialMatrix (small_ops f.now) w rows.now }
    requires split { IsSplit (small_ops f.now) w w split.old.basis.items split.old.places.items split.old.zeros.items }
    ensures { OnOk result (IsSplitOf (small_ops f.now) w w
        ((split.old.basis.items ++ split.old.zeros.items) ++ rows.now)
        split.new.basis.items split.new.places.items split.new.zeros.items) }
{
    know_laws(f);
    let nothing = zero_matrix(alloc, rows.len(), 0)?;
    insert_extended(alloc, f, split, rows, nothing.as_slice(), w, 0)?;
    Ok(())
}

/// The rows of w entries reduced.
fn split_of(alloc: Global, f: &SmallField, rows: &[PolyRow], w: usize) -> Result<Split, NoMemory>
    requires { IsPolynomialMatrix (small_ops f.now) w rows.now }
    ensures { IfOk result (λ s. IsSplitOf (small_ops f.now) w w rows.now s.basis.items s.places.items s.zeros.items) }
{
    know_laws(f);
    let mut split = Split::new(alloc);
    insert_rows(alloc, f, &mut split, rows, w)?;
    Ok(split)
}

/// The number of columns of the rows of both, and 0 where there is no row.
fn common_width(a: &PolyMatrix, b: &PolyMatrix) -> usize
    ensures { result ≡ width_of (a.now ++ b.now) }
{
    if a.is_empty() {
        return width(b);
    }
    width(a)
}

/// The rows of both, one after the other, reduced.
fn split_of_both(
    alloc: Global,
    f: &SmallField,
    a: &[PolyRow],
    b: &[PolyRow],
    w: usize,
) -> Result<Split, NoMemory>
    requires left { IsPolynomialMatrix (small_ops f.now) w a.now }
    requires right { IsPolynomialMatrix (small_ops f.now) w b.now }
    ensures { IfOk result (λ s. IsSplitOf (small_ops f.now) w w (a.now ++ b.now) s.basis.items s.places.items
        s.zeros.items) }
{
    know_laws(f);
    let mut split = split_of(alloc, f, a, w)?;
    insert_rows(alloc, f, &mut split, b, w)?;
    Ok(split)
}

/// A basis of the sum of the row lattices. The one fault is want of memory.
pub fn sum(
    alloc: Global,
    f: &SmallField,
    a: &PolyMatrix,
    b: &PolyMatrix,
) -> Result<PolyMatrix, NoMemory>
    requires left { IsPolynomialMatrix (small_ops f.now) (width_of (a.now ++ b.now)) a.now }
    requires right { IsPolynomialMatrix (small_ops f.now) (width_of (a.now ++ b.now)) b.now }
    ensures { IfOk result (IsLatticeBasis (small_ops f.now) (width_of (a.now ++ b.now))
        (InLatticeSum (small_ops f.now) (width_of (a.now ++ b.now)) a.now b.now)) }
{
    know_laws(f);
    let w = common_width(a, b);
    let split = split_of_both(alloc, f, a.as_slice(), b.as_slice(), w)?;
    Ok(PolyMatrix::from_vec(split.basis))
}

/// Each of the first rows followed by itself, and each of the others by zeros, reduced in the first w columns.
fn split_for_meet(
    alloc: Global,
    f: &SmallField,
    a: &[PolyRow],
    b: &[PolyRow],
    w: usize,
) -> Result<Split, NoMemory>
    requires left { IsPolynomialMatrix (small_ops f.now) w a.now }
    requires right { IsPolynomialMatrix (small_ops f.now) w b.now }
    ensures { IfOk result (λ s. IsSplitOf (small_ops f.now) w (w + w)
        (extended_by a.now a.now ++ extended_by b.now (zero_rows (length b.now) w)) s.basis.items s.places.items
        s.zeros.items) }
{
    know_laws(f);
    let nothing = zero_matrix(alloc, b.len(), w)?;
    let mut split = Split::new(alloc);
    insert_extended(alloc, f, &mut split, a, a, w, w)?;
    insert_extended(alloc, f, &mut split, b, nothing.as_slice(), w, w)?;
    Ok(split)
}

/// A basis of the intersection of the row lattices. The one fault is want of memory.
pub fn meet(
    alloc: Global,
    f: &SmallField,
    a: &PolyMatrix,
    b: &PolyMatrix,
) -> Result<PolyMatrix, NoMemory>
    requires left { IsPolynomialMatrix (small_ops f.now) (width_of (a.now ++ b.now)) a.now }
    requires right { IsPolynomialMatrix (small_ops f.now) (width_of (a.now ++ b.now)) b.now }
    ensures { IfOk result (IsLatticeBasis (small_ops f.now) (width_of (a.now ++ b.now))
        (InLatticeMeet (small_ops f.now) a.now b.now)) }
{
    know_laws(f);
    let w = common_width(a, b);
    let left = split_of(alloc, f, a.as_slice(), w)?;
    let right = split_of(alloc, f, b.as_slice(), w)?;
    let split = split_for_meet(alloc, f, left.basis.as_slice(), right.basis.as_slice(), w)?;
    Ok(tails(alloc, f, split.zeros.as_slice(), w)?)
}
