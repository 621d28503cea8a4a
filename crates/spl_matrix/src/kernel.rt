// The vectors that a matrix sends to 0.
ghost use Rattle.std.specs.Prelude.{◌≡◌, ◌+◌, ◌<◌, ◌≤◌, ℕ, length, get_or, IfOk, OnOk, All};
ghost use Rattle.theory_rings.specs.Ops.{IsElem};
ghost use Rattle.theory_rings.specs.Sum.{table};
ghost use Rattle.theory_tables.specs.Matrix.{IsMatrix, width_of};
ghost use Rattle.theory_tables.specs.Subspace.{IsReducedBasis, IsSubspace, SpansKernel};
ghost use Rattle.spl_matrix.specs.Spanning.{IsPlace, kernel_item, AreKernelRows};

use crate::basis::{basis_of, pivots_of};
use crate::matrix::{Indices, Matrix, copied};
use crate::rows::unit_item;
use crate::subspace::{Subspace, span_of};
use spl_field::field::{Field, NoMemory};
use spl_field::list::{List, Vector};
use std::alloc::Global;

/// The place of j in the list, or the length of the list where j isn't in it.
pub(crate) fn place_of(indices: &[usize], j: usize) -> usize
    ensures { IsPlace indices.now j result }
{
    for s in 0..indices.len() {
        if indices[s] == j {
            return s;
        }
    }
    indices.len()
}

/// The place of each number below w in the list.
fn places_of(alloc: Global, indices: &[usize], w: usize) -> Result<Indices, NoMemory>
    ensures long { IfOk result (λ p. length p ≡ w) }
    ensures each { IfOk result (λ p. (j : ℕ) → j < w → IsPlace indices.now j (get_or p j 0)) }
{
    let mut places = List::new(alloc);
    for j in 0..w {
        places.push(place_of(indices, j))?;
    }
    Ok(places)
}

fn kernel_item_of<F: Field>(
    alloc: Global,
    f: &F,
    w: usize,
    rows: &[Vector<F>],
    places: &[usize],
    j: usize,
    l: usize,
) -> Result<F::Elem, NoMemory>
    requires shape { IsMatrix (F.ops f.now) w rows.now }
    requires places { length places.now ≡ w }
    requires column { j < w }
    requires item { l < w }
    ensures elem { IfOk result (IsElem (F.ops f.now)) }
    ensures value { IfOk result (λ r. r ≡ kernel_item (F.ops f.now) rows.now places.now j l) }
{
    let unit = unit_item(alloc, f, l, j)?;
    let s = places[l];
    if s >= rows.len() {
        return Ok(unit);
    }
    let less = f.neg(alloc, &rows[s].as_slice()[j])?;
    f.add(alloc, &unit, &less)
}

fn kernel_row_of<F: Field>(
    alloc: Global,
    f: &F,
    w: usize,
    rows: &[Vector<F>],
    places: &[usize],
    j: usize,
) -> Result<Vector<F>, NoMemory>
    requires shape { IsMatrix (F.ops f.now) w rows.now }
    requires places { length places.now ≡ w }
    requires column { j < w }
    ensures { IfOk result (λ r. r ≡ table w (kernel_item (F.ops f.now) rows.now places.now j)) }
{
    let mut items = List::new(alloc);
    for l in 0..w {
        items.push(kernel_item_of(alloc, f, w, rows, places, j, l)?)?;
    }
    Ok(items)
}

/// Appends the vector for column j, if the column has no pivot.
fn add_kernel_row<F: Field>(
    alloc: Global,
    f: &F,
    w: usize,
    rows: &[Vector<F>],
    places: &[usize],
    j: usize,
    vectors: &mut Vec<Vector<F>>,
) -> Result<(), NoMemory>
    requires shape { IsMatrix (F.ops f.now) w rows.now }
    requires places { length places.now ≡ w }
    requires column { j < w }
    requires vectors { AreKernelRows (F.ops f.now) w rows.now places.now j vectors.old.items }
    ensures { OnOk result (AreKernelRows (F.ops f.now) w rows.now places.now (j + 1) vectors.new.items) }
{
    if places[j] >= rows.len() {
        vectors.push(kernel_row_of(alloc, f, w, rows, places, j)?)?;
    }
    Ok(())
}

/// One vector for each column without a pivot.
fn kernel_rows_of<F: Field>(
    alloc: Global,
    f: &F,
    w: usize,
    rows: &[Vector<F>],
    places: &[usize],
) -> Result<Vec<Vector<F>>, NoMemory>
    requires shape { IsMatrix (F.ops f.now) w rows.now }
    requires places { length places.now ≡ w }
    ensures { IfOk result (λ r. AreKernelRows (F.ops f.now) w rows.now places.now w r.items) }
{
    let mut vectors = Vec::new(alloc);
    for j in 0..w {
        add_kernel_row(alloc, f, w, rows, places, j, &mut vectors)?;
    }
    Ok(vectors)
}

/// One vector for each column without a pivot, of a basis in reduced row echelon form.
fn kernel_vectors<F: Field>(
    alloc: Global,
    f: &F,
    w: usize,
    rows: &[Vector<F>],
) -> Result<Vec<Vector<F>>, NoMemory>
    requires { IsReducedBasis (F.ops f.now) w rows.now }
    ensures shape { IfOk result (λ r. IsMatrix (F.ops f.now) w r.items) }
    ensures kernel { IfOk result (λ r. SpansKernel (F.ops f.now) (length rows.now) w rows.now r.items) }
{
    let pivots = pivots_of(alloc, f, w, rows)?;
    let places = places_of(alloc, pivots.as_slice(), w)?;
    kernel_rows_of(alloc, f, w, rows, places.as_slice())
}

/// The vectors that a matrix with w columns sends to 0.
fn kernel_of<F: Field>(
    alloc: Global,
    f: &F,
    w: usize,
    rows: &[Vector<F>],
) -> Result<Subspace<F>, NoMemory>
    requires shape { IsMatrix (F.ops f.now) w rows.now }
    ensures basis { IfOk result (λ s. IsSubspace (F.ops f.now) s) }
    ensures width { IfOk result (λ s. s.width ≡ w) }
    ensures members { IfOk result (λ s. SpansKernel (F.ops f.now) (length rows.now) w rows.now s.rows) }
{
    let basis = basis_of(alloc, f, w, copied(alloc, f, rows)?)?;
    let vectors = kernel_vectors(alloc, f, w, basis.as_slice())?;
    span_of(alloc, f, w, vectors)
}

impl<F: Field> Matrix<F> {
    /// The vectors v with self·v = 0.
    pub fn kernel(&self, alloc: Global, f: &F) -> Result<Subspace<F>, NoMemory>
        requires elems { All (All (IsElem (F.ops f.now))) self.now }
        requires rows { 1 ≤ length self.now }
        ensures basis { IfOk result (λ s. IsSubspace (F.ops f.now) s) }
        ensures width { IfOk result (λ s. s.width ≡ width_of self.now) }
        ensures members { IfOk result (λ s.
            SpansKernel (F.ops f.now) (length self.now) (width_of self.now) self.now s.rows) }
    {
        kernel_of(alloc, f, self.width(), self.as_slice())
    }
}

impl<F: Field> Subspace<F> {
    /// The annihilator: the vectors v with row·v = 0 for each row of this subspace's basis.
    pub fn annihilator(&self, alloc: Global, f: &F) -> Result<Subspace<F>, NoMemory>
        requires { IsSubspace (F.ops f.now) self.now }
        ensures basis { IfOk result (IsSubspace (F.ops f.now)) }
        ensures width { IfOk result (λ s. s.width ≡ self.now.width) }
        ensures members { IfOk result (λ s.
            SpansKernel (F.ops f.now) (length self.now.rows) self.now.width self.now.rows s.rows) }
    {
        let w = self.width();
        let vectors = kernel_vectors(alloc, f, w, self.rows().as_slice())?;
        span_of(alloc, f, w, vectors)
    }
}
