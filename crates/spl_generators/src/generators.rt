// The search for basis elements that generate an algebra.
ghost use Rattle.std.specs.Prelude.{◌+◌, ◌<◌, ℕ, length, get_or, IfOk, OnOk};
ghost use Rattle.theory_tables.specs.Structure.{IsOver, IsElement};
ghost use Rattle.theory_constants.specs.Generated.{InSubalgebra, Generates};
ghost use Rattle.spl_generators.specs.Generated.{AreGenerated, Lies, IsGenerated};

use spl_algebra::algebra::Algebra;
use spl_field::field::{Field, NoMemory};
use spl_field::list::{List, Vector};
use spl_matrix::matrix::{Indices, Matrix};
use spl_matrix::subspace::Subspace;
use std::alloc::Global;

/// Basis elements, counted from 0, and a subspace of the subalgebra that they generate.
#[derive(Drop)]
struct Generated<F: Field> {
    by: Indices,
    space: Subspace<F>,
}

/// Appends the product of each row and the basis element at place s of these.
fn push_products<F: Field>(
    alloc: Global,
    f: &F,
    a: &Algebra<F>,
    by: &[usize],
    s: usize,
    rows: &[Vector<F>],
    more: &mut Matrix<F>,
) -> Result<(), NoMemory>
    requires over { IsOver (F.ops f.now) a.now }
    requires within { (s : ℕ) → s < length by.now → get_or by.now s 0 < a.now.dim }
    requires place { s < length by.now }
    requires rows { AreGenerated (F.ops f.now) a.now by.now rows.now }
    requires more { AreGenerated (F.ops f.now) a.now by.now more.old }
    ensures { OnOk result (AreGenerated (F.ops f.now) a.now by.now more.new) }
{
    let element = a.basis_element(alloc, f, by[s])?;
    for r in 0..rows.len() {
        more.push(a.mul(alloc, f, &rows[r], &element)?)?;
    }
    Ok(())
}

/// The rows, with the products of each and each of these basis elements.
fn with_products<F: Field>(
    alloc: Global,
    f: &F,
    a: &Algebra<F>,
    by: &[usize],
    rows: &Matrix<F>,
) -> Result<Matrix<F>, NoMemory>
    requires over { IsOver (F.ops f.now) a.now }
    requires within { (s : ℕ) → s < length by.now → get_or by.now s 0 < a.now.dim }
    requires rows { AreGenerated (F.ops f.now) a.now by.now rows.now }
    ensures { IfOk result (AreGenerated (F.ops f.now) a.now by.now) }
{
    let mut more = rows.copy(alloc, f)?;
    let rows = rows.as_slice();
    for s in 0..by.len() {
        push_products(alloc, f, a, by, s, rows, &mut more)?;
    }
    Ok(more)
}

/// The span of rows of the subalgebra.
fn spanned<F: Field>(
    alloc: Global,
    f: &F,
    a: &Algebra<F>,
    by: &[usize],
    rows: &Matrix<F>,
) -> Result<Subspace<F>, NoMemory>
    requires over { IsOver (F.ops f.now) a.now }
    requires rows { AreGenerated (F.ops f.now) a.now by.now rows.now }
    ensures { IfOk result (Lies (F.ops f.now) a.now by.now) }
{
    let _ = by;
    Ok(Subspace::span(alloc, f, a.dim(), rows)?)
}

/// The subspace, enlarged by the products of its rows and each of these basis elements.
fn enlarged<F: Field>(
    alloc: Global,
    f: &F,
    a: &Algebra<F>,
    by: &[usize],
    space: &Subspace<F>,
) -> Result<Subspace<F>, NoMemory>
    requires over { IsOver (F.ops f.now) a.now }
    requires within { (s : ℕ) → s < length by.now → get_or by.now s 0 < a.now.dim }
    requires rows { AreGenerated (F.ops f.now) a.now by.now space.now.rows }
    ensures { IfOk result (Lies (F.ops f.now) a.now by.now) }
{
    let more = with_products(alloc, f, a, by, space.rows())?;
    Ok(spanned(alloc, f, a, by, &more)?)
}

/// The span of the rows, enlarged by products with these basis elements until they add nothing.
fn closed<F: Field>(
    alloc: Global,
    f: &F,
    a: &Algebra<F>,
    by: &[usize],
    rows: &Matrix<F>,
) -> Result<Subspace<F>, NoMemory>
    requires over { IsOver (F.ops f.now) a.now }
    requires within { (s : ℕ) → s < length by.now → get_or by.now s 0 < a.now.dim }
    requires rows { AreGenerated (F.ops f.now) a.now by.now rows.now }
    ensures { IfOk result (Lies (F.ops f.now) a.now by.now) }
{
    let mut space = spanned(alloc, f, a, by, rows)?;
    for _round in 0..a.dim() {
        let next = enlarged(alloc, f, a, by, &space)?;
        if next.dim() == space.dim() {
            return Ok(next);
        }
        space = next;
    }
    Ok(space)
}

/// The rows and one more.
fn with_row<F: Field>(
    alloc: Global,
    f: &F,
    a: &Algebra<F>,
    by: &[usize],
    rows: &Matrix<F>,
    row: Vector<F>,
) -> Result<Matrix<F>, NoMemory>
    requires rows { AreGenerated (F.ops f.now) a.now by.now rows.now }
    requires row { IsElement (F.ops f.now) a.now row }
    requires generated { InSubalgebra (F.ops f.now) a.now by.now row }
    ensures { IfOk result (AreGenerated (F.ops f.now) a.now by.now) }
{
    let _ = a;
    let _ = by;
    let mut more = rows.copy(alloc, f)?;
    more.push(row)?;
    Ok(more)
}

/// The basis element j too, which is a generator where the subspace doesn't hold it.
fn with_basis_element<F: Field>(
    alloc: Global,
    f: &F,
    a: &Algebra<F>,
    j: usize,
    found: Generated<F>,
) -> Result<Generated<F>, NoMemory>
    requires over { IsOver (F.ops f.now) a.now }
    requires index { j < a.now.dim }
    requires found { IsGenerated (F.ops f.now) a.now j found.by found.space }
    ensures { IfOk result (λ g. IsGenerated (F.ops f.now) a.now (j + 1) g.by g.space) }
{
    let element = a.basis_element(alloc, f, j)?;
    if found.space.contains(alloc, f, element.as_slice())? {
        return Ok(found);
    }
    let Generated { by, space } = found;
    let mut by = by;
    by.push(j)?;
    let rows = with_row(alloc, f, a, by.as_slice(), space.rows(), element)?;
    let space = closed(alloc, f, a, by.as_slice(), &rows)?;
    Ok(Generated { by, space })
}

/// Basis elements, counted from 0 and going up, that generate the algebra: the first that is not 0, and each other that
/// isn't found among the sums of products of those before it. The one fault is want of memory.
pub fn generators<F: Field>(alloc: Global, f: &F, a: &Algebra<F>) -> Result<Indices, NoMemory>
    requires { IsOver (F.ops f.now) a.now }
    ensures { IfOk result (Generates (F.ops f.now) a.now) }
{
    let mut found = Generated {
        by: List::new(alloc),
        space: Subspace::span(alloc, f, a.dim(), &Matrix::new(alloc))?,
    };
    for j in 0..a.dim() {
        found = with_basis_element(alloc, f, a, j, found)?;
    }
    Ok(found.by)
}
