// The elimination, in place: the pivot of one column after the other is moved to its row and cleared from the other
// rows.
ghost use Rattle.std.specs.Prelude.{◌≡◌, ◌≢◌, ◌+◌, ◌<◌, ◌≤◌, ℕ, [], length, IfOk, OnOk, MatchOption, get_or, All, ◌++◌};
ghost use Rattle.theory_rings.specs.Ops.{IsElem};
ghost use Rattle.theory_rings.specs.Sum.{table};
ghost use Rattle.theory_spaces.specs.Tuples.{IsTuple};
ghost use Rattle.theory_tables.specs.Matrix.{entry, IsMatrix};
ghost use Rattle.spl_matrix.specs.Elimination.{cleared_row, pivoted, IsStep, IsEliminated, identity_row, augmented};

use crate::matrix::Indices;
use crate::rows::{divide, identity_row, joined, reduce};
use spl_field::field::{Field, NoMemory};
use spl_field::list::{List, Vector};
use std::alloc::Global;
use std::mem;

/// The first row from r on whose item in column col is not 0.
fn find_pivot<F: Field>(
    alloc: Global,
    f: &F,
    n: usize,
    rows: &[Vector<F>],
    r: usize,
    col: usize,
) -> Result<Option<usize>, NoMemory>
    requires shape { IsMatrix (F.ops f.now) n rows.now }
    requires column { col < n }
    ensures { IfOk result (λ o. MatchOption o
        ((i : ℕ) → r ≤ i → i < length rows.now → entry (F.ops f.now) rows.now i col ≡ (F.ops f.now).zero)
        (λ p. (r ≤ p) × (p < length rows.now) × (entry (F.ops f.now) rows.now p col ≢ (F.ops f.now).zero))) }
{
    let zero = f.zero(alloc)?;
    for i in r..rows.len() {
        if !f.eq(&rows[i].as_slice()[col], &zero) {
            return Ok(Some(i));
        }
    }
    Ok(None)
}

/// Subtracts from each row but row r the multiple of the lead that clears column col.
fn clear_column<F: Field>(
    alloc: Global,
    f: &F,
    n: usize,
    rows: &mut [Vector<F>],
    r: usize,
    col: usize,
    lead: &[F::Elem],
) -> Result<(), NoMemory>
    requires shape { (i : ℕ) → i < length rows.old → i ≢ r → IsTuple (F.ops f.now) n (get_or rows.old i []) }
    requires lead { IsTuple (F.ops f.now) n lead.now }
    requires column { col < n }
    ensures { OnOk result (rows.new ≡ table (length rows.old) (cleared_row (F.ops f.now) n rows.old r col lead.now)) }
{
    let zero = f.zero(alloc)?;
    for i in 0..rows.len() {
        if i != r {
            reduce(alloc, f, &zero, &mut rows[i], col, lead)?;
        }
    }
    Ok(())
}

/// Makes the pivot in row p and column col 1, moves it to row r and clears it from the other rows.
fn pivot<F: Field>(
    alloc: Global,
    f: &F,
    n: usize,
    rows: &mut [Vector<F>],
    p: usize,
    r: usize,
    col: usize,
) -> Result<(), NoMemory>
    requires shape { IsMatrix (F.ops f.now) n rows.old }
    requires from_row { p < length rows.old }
    requires to_row { r < length rows.old }
    requires column { col < n }
    requires nonzero { entry (F.ops f.now) rows.old p col ≢ (F.ops f.now).zero }
    ensures { OnOk result (rows.new ≡ pivoted (F.ops f.now) (length rows.old) n rows.old p r col) }
{
    let zero = f.zero(alloc)?;
    rows.swap(p, r);
    let mut lead = mem::replace(&mut rows[r], List::new(alloc));
    divide(alloc, f, &zero, &mut lead, col)?;
    clear_column(alloc, f, n, rows, r, col, lead.as_slice())?;
    mem::swap(&mut rows[r], &mut lead);
    Ok(())
}

/// Clears column col.
fn advance<F: Field>(
    alloc: Global,
    f: &F,
    n: usize,
    rows: &mut [Vector<F>],
    pivots: &mut Indices,
    col: usize,
) -> Result<(), NoMemory>
    requires shape { IsMatrix (F.ops f.now) n rows.old }
    requires count { length pivots.old ≤ length rows.old }
    requires column { col < n }
    ensures { OnOk result (IsStep (F.ops f.now) (length rows.old) n col rows.old rows.new pivots.old pivots.new) }
{
    let r = pivots.len();
    match find_pivot(alloc, f, n, rows, r, col)? {
        None => Ok(()),
        Some(p) => {
            pivot(alloc, f, n, rows, p, r, col)?;
            pivots.push(col)?;
            Ok(())
        }
    }
}

/// Brings the first w of n columns into reduced row echelon form, and answers their pivots.
pub(crate) fn eliminate<F: Field>(
    alloc: Global,
    f: &F,
    n: usize,
    w: usize,
    rows: &mut [Vector<F>],
) -> Result<Indices, NoMemory>
    requires shape { IsMatrix (F.ops f.now) n rows.old }
    requires columns { w ≤ n }
    ensures { IfOk result (λ pivots. IsEliminated (F.ops f.now) (length rows.old) n w rows.old rows.new pivots) }
{
    let mut pivots = List::new(alloc);
    for col in 0..w {
        advance(alloc, f, n, rows, &mut pivots, col)?;
    }
    Ok(pivots)
}

/// The matrix with the identity after it.
pub(crate) fn augmented_of<F: Field>(
    alloc: Global,
    f: &F,
    w: usize,
    a: &[Vector<F>],
) -> Result<Vec<Vector<F>>, NoMemory>
    requires { IsMatrix (F.ops f.now) w a.now }
    ensures { IfOk result (λ r. r.items ≡ augmented (F.ops f.now) (length a.now) a.now) }
{
    let mut rows = Vec::with_capacity(alloc, a.len())?;
    for i in 0..a.len() {
        rows.push(augmented_row(alloc, f, a.len(), &a[i], i)?)?;
    }
    Ok(rows)
}

/// The row with row i of the h by h identity after it.
fn augmented_row<F: Field>(
    alloc: Global,
    f: &F,
    h: usize,
    row: &Vector<F>,
    i: usize,
) -> Result<Vector<F>, NoMemory>
    requires { All (IsElem (F.ops f.now)) row.now }
    ensures { IfOk result (λ r. r ≡ row.now ++ identity_row (F.ops f.now) h i) }
{
    let unit = identity_row(alloc, f, h, i)?;
    joined(alloc, f, row, unit.as_slice())
}

/// The number of columns of a matrix with w columns and the identity after it, which is read off its rows.
pub(crate) fn augmented_width<T: Drop>(w: usize, rows: &[List<T>]) -> usize
    requires { All (λ row. length row ≡ w + length rows.now) rows.now }
    ensures { result ≡ w + length rows.now }
{
    match rows.first() {
        Some(row) => row.len(),
        None => w,
    }
}
