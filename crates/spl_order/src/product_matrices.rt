// The matrix of the constants of products, and its kernel.
ghost use Rattle.std.specs.Prelude.{◌≡◌, ◌*◌, ◌/◌, ◌%◌, ◌<◌, ◌≤◌, ◌^◌, IfOk};
ghost use Rattle.theory_rings.specs.Ops.{IsElem};
ghost use Rattle.theory_rings.specs.Sum.{table};
ghost use Rattle.spl_residue.specs.Residue.{residue_ops};
ghost use Rattle.theory_spaces.specs.Tuples.{IsTuple, constant};
ghost use Rattle.theory_tables.specs.Matrix.{IsMatrix};
ghost use Rattle.theory_tables.specs.Subspace.{SpansKernel};
ghost use Rattle.spl_order.specs.LeftOrders.{product_matrix as matrix_of_products};

use crate::lifts::lifted_rows;
use spl_field::field::{Field, NoMemory};
use spl_field::list::{List, Vector};
use spl_lattice::matrix::PolyMatrix;
use spl_matrix::matrix::Matrix;
use spl_residue::elem::ResidueElem;
use spl_residue::field::ResidueField;
use std::alloc::Global;

/// The constant for i, j and l, of n·n·n constants.
fn constant_of<'a>(
    k: &ResidueField,
    constants: &'a [ResidueElem],
    n: usize,
    i: usize,
    j: usize,
    l: usize,
) -> &'a ResidueElem
    requires constants { IsTuple (residue_ops k.now) (n * n * n) constants.now }
    requires fits { n * n * n < 2 ^ 64 }
    requires first { i < n }
    requires second { j < n }
    requires third { l < n }
    ensures elem { IsElem (residue_ops k.now) result.now }
    ensures value { result.now ≡ constant (residue_ops k.now) n constants.now i j l }
{
    let _ = k;
    &constants[(i * n + j) * n + l]
}

/// The row of this number of the matrix of n·n·n constants: those of the second and third index of the number, for each
/// first index.
fn matrix_row(
    alloc: Global,
    k: &ResidueField,
    constants: &[ResidueElem],
    n: usize,
    number: usize,
) -> Result<Vector<ResidueField>, NoMemory>
    requires constants { IsTuple (residue_ops k.now) (n * n * n) constants.now }
    requires fits { n * n * n < 2 ^ 64 }
    requires number { number < n * n }
    ensures { IfOk result (λ r.
        r ≡ table n (λ i. constant (residue_ops k.now) n constants.now i (number / n) (number % n))) }
{
    let j = number / n;
    let l = number % n;
    let mut row = List::new(alloc);
    for i in 0..n {
        row.push(k.copy(alloc, constant_of(k, constants, n, i, j, l))?)?;
    }
    Ok(row)
}

/// The matrix of n·n·n constants whose kernel the weights are that combine the first factors to what has products 0.
fn product_matrix(
    alloc: Global,
    k: &ResidueField,
    constants: &[ResidueElem],
    n: usize,
) -> Result<Matrix<ResidueField>, NoMemory>
    requires constants { IsTuple (residue_ops k.now) (n * n * n) constants.now }
    requires fits { n * n * n < 2 ^ 64 }
    requires positive { 1 ≤ n }
    ensures { IfOk result (λ r. r ≡ matrix_of_products (residue_ops k.now) n constants.now) }
{
    let mut rows = Matrix::new(alloc);
    for number in 0..n * n {
        rows.push(matrix_row(alloc, k, constants, n, number)?)?;
    }
    Ok(rows)
}

/// The lifts of a basis of its kernel.
pub(crate) fn kernel_lifts(
    alloc: Global,
    k: &ResidueField,
    constants: &[ResidueElem],
    n: usize,
) -> Result<PolyMatrix, NoMemory>
    requires constants { IsTuple (residue_ops k.now) (n * n * n) constants.now }
    requires fits { n * n * n < 2 ^ 64 }
    requires positive { 1 ≤ n }
    ensures matrix { IfOk result (IsMatrix (residue_ops k.now) n) }
    ensures kernel { IfOk result (SpansKernel (residue_ops k.now) (n * n) n
        (matrix_of_products (residue_ops k.now) n constants.now)) }
{
    let matrix = product_matrix(alloc, k, constants, n)?;
    let kernel = matrix.kernel(alloc, k)?;
    let lifts = lifted_rows(alloc, k, kernel.rows().as_slice())?;
    Ok(lifts)
}
