// Matrices over a lift ring, as rows of numbers: products, powers, and the lifts of matrices over the field.
ghost use Rattle.std.specs.Prelude.{◌≡◌, ◌*◌, ◌%◌, ◌<◌, ◌≤◌, ◌++◌, [], length, get_or, All, IfOk, OnOk};
ghost use Rattle.theory_rings.specs.Ops.{IsElem};
ghost use Rattle.theory_rings.specs.Sum.{sum, table};
ghost use Rattle.theory_rings.specs.Naturals.{nat_monoid};
ghost use Rattle.theory_spaces.specs.Matrix.{mat_mul};
ghost use Rattle.theory_radical.specs.Chain.{mat_power};
ghost use Rattle.theory_tables.specs.Matrix.{IsMatrix};
ghost use Rattle.theory_chains.specs.NumberRows.{AreRows};
ghost use Rattle.spl_residue.specs.Residue.{residue_ops};
ghost use Rattle.spl_radical.specs.LiftNumbers.{residues_of, level_of};
ghost use Rattle.spl_radical.specs.LiftRing.{size_of, width_of, ring_of};
ghost use Rattle.spl_radical.specs.LiftMatrices.{IsLiftMatrix, matrix_of, HasEntries, IsLiftedRow, AreLiftedRows};

use crate::lift_ring::LiftRing;
use spl_field::field::NoMemory;
use spl_field::list::{List, Vector};
use spl_residue::elem::ResidueElem;
use spl_residue::field::ResidueField;
use std::alloc::Global;

/// Equal rows.
fn copied(alloc: Global, rows: &[List<u64>]) -> Result<List<List<u64>>, NoMemory>
    ensures { IfOk result (λ r. r ≡ table (length rows.now) (λ i. get_or rows.now i [])) }
{
    let mut out = List::new(alloc);
    for i in 0..rows.len() {
        out.push(List::from_slice(alloc, rows[i].as_slice())?)?;
    }
    Ok(out)
}

/// The sums of the products of each row and each column.
fn rows_times(
    alloc: Global,
    ring: &LiftRing,
    a: &[List<u64>],
    columns: &[List<u64>],
) -> Result<List<List<u64>>, NoMemory>
    requires rows { AreRows (size_of (residues_of ring.now) (level_of ring.now)) (length columns.now) a.now }
    requires columns { AreRows (size_of (residues_of ring.now) (level_of ring.now))
        (length columns.now) columns.now }
    ensures { IfOk result (λ r. r ≡ table (length a.now) (λ i. table (length columns.now)
        (λ t. sum nat_monoid (length columns.now) (λ r. get_or (get_or a.now i []) r 0
        * get_or (get_or columns.now t []) r 0) % size_of (residues_of ring.now) (level_of ring.now)))) }
{
    let mut out = List::new(alloc);
    for i in 0..a.len() {
        out.push(ring.row_times(alloc, a[i].as_slice(), columns)?)?;
    }
    Ok(out)
}

/// The product of two matrices whose rows have n numbers.
fn product(
    alloc: Global,
    ring: &LiftRing,
    a: &[List<u64>],
    b: &[List<u64>],
    n: usize,
) -> Result<List<List<u64>>, NoMemory>
    requires left { IsLiftMatrix (residues_of ring.now) (level_of ring.now) (length b.now) a.now }
    requires right { IsLiftMatrix (residues_of ring.now) (level_of ring.now) (length b.now) b.now }
    requires count { n ≡ length b.now * width_of (residues_of ring.now) }
    ensures shape { IfOk result (IsLiftMatrix (residues_of ring.now) (level_of ring.now) (length b.now)) }
    ensures value { IfOk result (HasEntries (residues_of ring.now) (level_of ring.now) (length b.now)
        (mat_mul (ring_of (residues_of ring.now) (level_of ring.now)).ring (length b.now)
        (matrix_of (residues_of ring.now) (level_of ring.now) a.now)
        (matrix_of (residues_of ring.now) (level_of ring.now) b.now))) }
{
    let columns = ring.columns(alloc, b, n)?;
    Ok(rows_times(alloc, ring, a, columns.as_slice())?)
}

/// The power with exponent e of a matrix whose rows have n numbers, by halves of e.
pub(crate) fn power(
    alloc: Global,
    ring: &LiftRing,
    a: &[List<u64>],
    n: usize,
    e: u64,
) -> Result<List<List<u64>>, NoMemory>
    requires matrix { IsLiftMatrix (residues_of ring.now) (level_of ring.now) (length a.now) a.now }
    requires count { n ≡ length a.now * width_of (residues_of ring.now) }
    requires positive { 1 ≤ e }
    ensures shape { IfOk result (IsLiftMatrix (residues_of ring.now) (level_of ring.now) (length a.now)) }
    ensures value { IfOk result (HasEntries (residues_of ring.now) (level_of ring.now) (length a.now)
        (mat_power (ring_of (residues_of ring.now) (level_of ring.now)).ring (length a.now)
        (matrix_of (residues_of ring.now) (level_of ring.now) a.now) e)) }
{
    if e < 2 {
        return Ok(copied(alloc, a)?);
    }
    let half = power(alloc, ring, a, n, e / 2)?;
    let square = product(alloc, ring, half.as_slice(), half.as_slice(), n)?;
    if e % 2 == 0 {
        return Ok(square);
    }
    Ok(product(alloc, ring, a, square.as_slice(), n)?)
}

/// Appends the numbers.
fn append(out: &mut List<u64>, numbers: &[u64]) -> Result<(), NoMemory>
    ensures { OnOk result (out.new ≡ out.old ++ numbers.now) }
{
    for t in 0..numbers.len() {
        out.push(numbers[t])?;
    }
    Ok(())
}

/// The numbers of the lifts of the elements, one after the other.
fn lifted_row(alloc: Global, ring: &LiftRing, row: &[ResidueElem]) -> Result<List<u64>, NoMemory>
    requires { All (IsElem (residue_ops (residues_of ring.now))) row.now }
    ensures { IfOk result (IsLiftedRow (residues_of ring.now) (level_of ring.now) row.now (length row.now)) }
{
    let mut out = List::new(alloc);
    for j in 0..row.len() {
        let element = ring.lift(alloc, &row[j])?;
        append(&mut out, element.numbers())?;
    }
    Ok(out)
}

/// The rows of the lifts of the entries of a matrix over the field.
pub(crate) fn lifted_rows(
    alloc: Global,
    ring: &LiftRing,
    left: &[Vector<ResidueField>],
) -> Result<List<List<u64>>, NoMemory>
    requires { IsMatrix (residue_ops (residues_of ring.now)) (length left.now) left.now }
    ensures { IfOk result (AreLiftedRows (residues_of ring.now) (level_of ring.now) left.now (length left.now)) }
{
    let mut out = List::new(alloc);
    for i in 0..left.len() {
        out.push(lifted_row(alloc, ring, left[i].as_slice())?)?;
    }
    Ok(out)
}
