// Reading lists of elements, matrices, subspaces and algebras over a field. The items of a list are joined by colons,
// and the rows of a matrix by semicolons; `-` is the list of none, and `none` the matrix without rows.
ghost use Rattle.std.specs.Prelude.{◌≡◌, ◌≤◌, ◌*◌, length, IfOk, All};
ghost use Rattle.theory_rings.specs.Ops.{IsElem};
ghost use Rattle.theory_spaces.specs.Tuples.{IsTuple};
ghost use Rattle.theory_tables.specs.Matrix.{IsMatrix};
ghost use Rattle.theory_tables.specs.Subspace.{IsSubspace};
ghost use Rattle.theory_tables.specs.Structure.{IsOver};

use crate::fault::Fault;
use crate::scalars::Scalars;
use spl_algebra::algebra::Algebra;
use spl_field::list::{List, Vector};
use spl_matrix::matrix::Matrix;
use spl_matrix::subspace::Subspace;
use std::alloc::Global;

/// The most items of a row of an algebra's products.
const MOST: usize = 1000;

/// The parts of a word between the separators; none of the word `-`.
pub(crate) fn parts<'a>(
    alloc: Global,
    word: &'a str,
    separator: char,
) -> Result<Vec<&'a str>, Fault> {
    let mut parts = Vec::new(alloc);
    if word == "-" {
        return Ok(parts);
    }
    for part in word.split(separator) {
        parts.push(part)?;
    }
    Ok(parts)
}

/// Elements, one a word.
pub fn elements<F: Scalars>(alloc: Global, f: &F, words: &[&str]) -> Result<Vector<F>, Fault>
    ensures { IfOk result (All (IsElem (F.ops f.now))) }
{
    let mut items = List::new(alloc);
    for word in words {
        items.push(f.read(alloc, word)?)?;
    }
    Ok(items)
}

/// Elements, joined by colons, or `-` for none.
pub fn vector<F: Scalars>(alloc: Global, f: &F, word: &str) -> Result<Vector<F>, Fault>
    ensures { IfOk result (All (IsElem (F.ops f.now))) }
{
    elements(alloc, f, parts(alloc, word, ':')?.as_slice())
}

/// A list of this many elements.
pub fn tuple<F: Scalars>(
    alloc: Global,
    f: &F,
    length: usize,
    word: &str,
) -> Result<Vector<F>, Fault>
    ensures { IfOk result (IsTuple (F.ops f.now) length) }
{
    let items = vector(alloc, f, word)?;
    if items.len() != length {
        return Err(Fault::BadLine);
    }
    Ok(items)
}

/// The rows of a matrix with this many columns.
pub fn rows<F: Scalars>(alloc: Global, f: &F, width: usize, word: &str) -> Result<Matrix<F>, Fault>
    ensures { IfOk result (IsMatrix (F.ops f.now) width) }
{
    let mut rows = Matrix::new(alloc);
    if word == "none" {
        return Ok(rows);
    }
    for part in word.split(';') {
        rows.push(tuple(alloc, f, width, part)?)?;
    }
    Ok(rows)
}

/// The number of items of the first row.
pub(crate) fn width(word: &str) -> usize {
    let first = word.split(';').next().unwrap_or(word);
    if first == "-" {
        return 0;
    }
    first.split(':').count()
}

/// A matrix.
pub fn matrix<F: Scalars>(alloc: Global, f: &F, word: &str) -> Result<Matrix<F>, Fault>
    ensures { IfOk result (All (All (IsElem (F.ops f.now)))) }
{
    rows(alloc, f, width(word), word)
}

/// The subspace that the rows span, of lists of this many elements.
pub fn space<F: Scalars>(
    alloc: Global,
    f: &F,
    width: usize,
    word: &str,
) -> Result<Subspace<F>, Fault>
    ensures basis { IfOk result (IsSubspace (F.ops f.now)) }
    ensures width { IfOk result (λ s. s.width ≡ width) }
{
    let rows = rows(alloc, f, width, word)?;
    Ok(Subspace::span(alloc, f, width, &rows)?)
}

/// The items of rows of this many.
fn items_of_rows<'a>(alloc: Global, width: usize, word: &'a str) -> Result<Vec<&'a str>, Fault> {
    let mut items = Vec::new(alloc);
    for row in word.split(';') {
        let row = parts(alloc, row, ':')?;
        if row.len() != width {
            return Err(Fault::BadLine);
        }
        items.extend_from_slice(row.as_slice())?;
    }
    Ok(items)
}

/// An algebra, by the products of its basis elements: row i·m + j is that of the basis elements i and j.
pub fn algebra<F: Scalars>(alloc: Global, f: &F, word: &str) -> Result<Algebra<F>, Fault>
    ensures over { IfOk result (IsOver (F.ops f.now)) }
{
    let m = width(word);
    if m == 0 || m > MOST {
        return Err(Fault::BadLine);
    }
    let items = elements(alloc, f, items_of_rows(alloc, m, word)?.as_slice())?;
    if items.len() != m * m * m {
        return Err(Fault::BadLine);
    }
    Ok(Algebra::new(alloc, f, m, items)?)
}
