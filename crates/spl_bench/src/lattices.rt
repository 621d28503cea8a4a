// Reductions of matrices of polynomials, and kernels of wide ones.
ghost use Rattle.std.specs.Prelude.{◌≡◌, length, IfOk};
ghost use Rattle.theory_tables.specs.Matrix.{width_of};
ghost use Rattle.theory_rows.specs.Rows.{IsPolynomialRow, IsPolynomialMatrix};
ghost use Rattle.spl_field.specs.SmallField.{small_ops};

use crate::entries::{mixed, next};
use crate::polynomials::poly;
use anyhow::Result;
use spl_field::field::NoMemory;
use spl_field::small::SmallField;
use spl_lattice::lattices::kernel;
use spl_lattice::matrix::PolyMatrix;
use spl_lattice::reduced::{Reduced, reduce};
use spl_lattice::rows::PolyRow;
use std::alloc::Global;

/// The number of coefficients of an entry.
const TERMS: usize = 9;

/// The number of rows and of columns of the matrix that is reduced.
const SIZE: usize = 25;

/// The number of rows of the matrix whose kernel is taken.
const HEIGHT: usize = 26;

/// The number of its columns.
const WIDTH: usize = 1250;

/// A row of polynomials that have no coefficient 0. After 25 of them they begin again, so that a wide matrix of more
/// than 25 such rows has a kernel.
fn row(alloc: Global, f: &SmallField, width: usize, seed: u32) -> Result<PolyRow, NoMemory>
    ensures { IfOk result (IsPolynomialRow (small_ops f.now) width) }
{
    let mut row = PolyRow::new(alloc);
    let mut state = seed;
    for j in 0..width {
        state = next(if j % SIZE == 0 { seed } else { state });
        row.push(poly(alloc, f, TERMS, state / 3 + 5)?)?;
    }
    Ok(row)
}

/// A matrix of such rows.
fn matrix(
    alloc: Global,
    f: &SmallField,
    height: usize,
    width: usize,
) -> Result<PolyMatrix, NoMemory>
    ensures { IfOk result (λ m. IsPolynomialMatrix (small_ops f.now) (width_of m) m) }
{
    let mut rows = PolyMatrix::new(alloc);
    let mut seed = 3;
    for _ in 0..height {
        seed = next(seed / 5 + 1);
        rows.push(row(alloc, f, width, seed)?)?;
    }
    Ok(rows)
}

/// The last of count reductions.
fn last_reduction(
    alloc: Global,
    f: &SmallField,
    rows: &PolyMatrix,
    count: u64,
) -> Result<Reduced, NoMemory>
    requires { IsPolynomialMatrix (small_ops f.now) (width_of rows.now) rows.now }
{
    for _ in 1..count {
        reduce(alloc, f, rows)?;
    }
    reduce(alloc, f, rows)
}

/// The checksum with that of the coefficients.
fn with_row(checksum: u32, row: &PolyRow) -> u32 {
    let mut sum = checksum;
    for item in row.as_slice() {
        for c in item.as_slice() {
            sum = mixed(sum, *c);
        }
    }
    sum
}

/// The checksum of the coefficients.
fn checksum(rows: &PolyMatrix) -> u32 {
    let mut sum = 0;
    for row in rows.as_slice() {
        sum = with_row(sum, row);
    }
    sum
}

/// Reduces the matrix count times, and answers the line on the last reduction.
pub(crate) fn reduction(alloc: Global, f: &SmallField, count: u64) -> Result<String> {
    let rows = matrix(alloc, f, SIZE, SIZE)?;
    let last = last_reduction(alloc, f, &rows, count)?;
    let n = last.basis().len();
    let basis = checksum(last.basis());
    let transform = checksum(last.transform());
    Ok(format!(in alloc; "rows {n} checksum {basis} transform {transform}")?)
}

/// The last of count kernels.
fn last_kernel(
    alloc: Global,
    f: &SmallField,
    rows: &PolyMatrix,
    count: u64,
) -> Result<PolyMatrix, NoMemory>
    requires { IsPolynomialMatrix (small_ops f.now) (width_of rows.now) rows.now }
{
    for _ in 1..count {
        kernel(alloc, f, rows)?;
    }
    kernel(alloc, f, rows)
}

/// Takes the kernel of the wide matrix count times, and answers the line on the last.
pub(crate) fn wide_kernel(alloc: Global, f: &SmallField, count: u64) -> Result<String> {
    let rows = matrix(alloc, f, HEIGHT, WIDTH)?;
    let last = last_kernel(alloc, f, &rows, count)?;
    let n = last.len();
    let sum = checksum(&last);
    Ok(format!(in alloc; "rows {n} checksum {sum}")?)
}
