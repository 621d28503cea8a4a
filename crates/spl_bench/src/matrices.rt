// Kernels of matrices, and linear systems.
ghost use Rattle.std.specs.Prelude.{◌≡◌, ◌≤◌, length, IfOk, All};
ghost use Rattle.theory_rings.specs.Ops.{IsElem};
ghost use Rattle.theory_spaces.specs.Tuples.{IsTuple};
ghost use Rattle.spl_field.specs.SmallField.{small_ops};

use crate::entries::{mixed, next, nonzero};
use anyhow::Result;
use spl_field::field::NoMemory;
use spl_field::list::{List, Vector};
use spl_field::small::SmallField;
use spl_matrix::matrix::Matrix;
use spl_matrix::solve::Solution;
use spl_matrix::subspace::Subspace;
use std::alloc::Global;

/// The number of columns.
const WIDTH: usize = 25;

/// The number of rows of the matrix whose kernel is taken.
const KERNEL_HEIGHT: usize = 625;

/// The number of equations of the system.
const SYSTEM_HEIGHT: usize = 200;

/// A list of n elements, none of which is 0.
fn vector(
    alloc: Global,
    f: &SmallField,
    n: usize,
    seed: u32,
) -> Result<Vector<SmallField>, NoMemory>
    ensures { IfOk result (IsTuple (small_ops f.now) n) }
{
    let mut items = List::new(alloc);
    let size = f.size();
    let mut state = seed;
    for _ in 0..n {
        state = next(state);
        items.push(nonzero(state, size))?;
    }
    Ok(items)
}

/// A matrix without a zero.
fn matrix(
    alloc: Global,
    f: &SmallField,
    height: usize,
    width: usize,
) -> Result<Matrix<SmallField>, NoMemory>
    ensures elems { IfOk result (All (All (IsElem (small_ops f.now)))) }
    ensures height { IfOk result (λ m. length m ≡ height) }
{
    let mut rows = Matrix::new(alloc);
    let mut seed = 3;
    for _ in 0..height {
        seed = next(seed);
        let row = vector(alloc, f, width, seed)?;
        rows.push(row)?;
    }
    Ok(rows)
}

/// The last of count kernels.
fn last_kernel(
    alloc: Global,
    f: &SmallField,
    m: &Matrix<SmallField>,
    count: u64,
) -> Result<Subspace<SmallField>, NoMemory>
    requires elems { All (All (IsElem (small_ops f.now))) m.now }
    requires rows { 1 ≤ length m.now }
{
    for _ in 1..count {
        m.kernel(alloc, f)?;
    }
    m.kernel(alloc, f)
}

/// Takes the kernel count times, and answers the line on the last.
pub(crate) fn kernel(alloc: Global, f: &SmallField, count: u64) -> Result<String> {
    let m = matrix(alloc, f, KERNEL_HEIGHT, WIDTH)?;
    let dimension = last_kernel(alloc, f, &m, count)?.dim();
    Ok(format!(in alloc; "dimension {dimension}")?)
}

/// The last of count solutions.
fn last_solution(
    alloc: Global,
    f: &SmallField,
    m: &Matrix<SmallField>,
    right: &[u8],
    count: u64,
) -> Result<Solution<SmallField>, NoMemory>
    requires elems { All (All (IsElem (small_ops f.now))) m.now }
    requires rows { 1 ≤ length m.now }
    requires right { IsTuple (small_ops f.now) (length m.now) right.now }
{
    for _ in 1..count {
        m.solve(alloc, f, right)?;
    }
    m.solve(alloc, f, right)
}

/// The checksum of the items.
fn checksum(items: &[u8]) -> u32 {
    let mut sum = 0;
    for item in items {
        sum = mixed(sum, *item);
    }
    sum
}

/// The line on the solution.
fn line(alloc: Global, solution: &Solution<SmallField>) -> Result<String> {
    match solution {
        Solution::Refuted { multipliers } => {
            let sum = checksum(multipliers.as_slice());
            Ok(format!(in alloc; "refuted {sum}")?)
        }
        Solution::Solved { vector } => {
            let sum = checksum(vector.as_slice());
            Ok(format!(in alloc; "solved {sum}")?)
        }
    }
}

/// Solves the system count times, and answers the line on the last solution.
pub(crate) fn solve(alloc: Global, f: &SmallField, count: u64) -> Result<String> {
    let m = matrix(alloc, f, SYSTEM_HEIGHT, WIDTH)?;
    let right = vector(alloc, f, SYSTEM_HEIGHT, 5)?;
    let last = last_solution(alloc, f, &m, right.as_slice(), count)?;
    line(alloc, &last)
}
