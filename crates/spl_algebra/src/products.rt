// Products of lists of coordinates by structure constants.
ghost use Rattle.std.specs.Prelude.{◌≡◌, ℕ, ◌*◌, ◌+◌, ◌^◌, ◌<◌, ◌≤◌, ◌↔◌, length, IfOk, IsTrue, OnOk, All};
ghost use Rattle.theory_rings.specs.Ops.{IsElem};
ghost use Rattle.theory_rings.specs.Sum.{table, at};
ghost use Rattle.theory_spaces.specs.Tuples.{IsTuple, product};
ghost use Rattle.spl_algebra.specs.Products.{AddsEach, scaled_rows, sum_of_rows};
ghost use Rattle.spl_algebra.specs.Contractions.{contracted};

use spl_field::field::{Field, NoMemory};
use spl_field::list::Vector;
use spl_matrix::rows::{add_multiple, add_product, zeros};
use std::alloc::Global;

/// Adds x·c times the row to the sums. A zero c costs nothing.
fn add_row<F: Field>(
    alloc: Global,
    f: &F,
    zero: &F::Elem,
    sums: &mut Vector<F>,
    x: &F::Elem,
    c: &F::Elem,
    row: &[F::Elem],
) -> Result<(), NoMemory>
    requires zero { zero.now ≡ (F.ops f.now).zero }
    requires sums { All (IsElem (F.ops f.now)) sums.old }
    requires factor { IsElem (F.ops f.now) x.now }
    requires coordinate { IsElem (F.ops f.now) c.now }
    requires row { IsTuple (F.ops f.now) (length sums.old) row.now }
    ensures { OnOk result (AddsEach (F.ops f.now) sums.old sums.new
        (λ k. (F.ops f.now).mul ((F.ops f.now).mul x.now c.now) (at (F.ops f.now) row.now k))) }
{
    if f.eq(c, zero) {
        return Ok(());
    }
    let factor = f.mul(alloc, x, c)?;
    add_multiple(alloc, f, zero, sums, &factor, row)?;
    Ok(())
}

/// Adds to each sum k the sum over l of x·b_l times item k of row l, where a row begins each stride items. A zero of b
/// costs no row, and a zero x none at all.
fn add_rows<F: Field>(
    alloc: Global,
    f: &F,
    zero: &F::Elem,
    sums: &mut Vector<F>,
    x: &F::Elem,
    b: &[F::Elem],
    rows: &[F::Elem],
    stride: usize,
) -> Result<(), NoMemory>
    requires zero { zero.now ≡ (F.ops f.now).zero }
    requires sums { All (IsElem (F.ops f.now)) sums.old }
    requires factor { IsElem (F.ops f.now) x.now }
    requires coordinates { IsTuple (F.ops f.now) (length sums.old) b.now }
    requires rows { All (IsElem (F.ops f.now)) rows.now }
    requires within { (l : ℕ) → l < length sums.old → l * stride + length sums.old ≤ length rows.now }
    ensures { OnOk result (AddsEach (F.ops f.now) sums.old sums.new
        (scaled_rows (F.ops f.now) (length sums.old) x.now b.now rows.now stride)) }
{
    if f.eq(x, zero) {
        return Ok(());
    }
    let m = sums.len();
    for l in 0..m {
        let start = l * stride;
        add_row(alloc, f, zero, sums, x, &b[l], &rows[start..start + m])?;
    }
    Ok(())
}

/// The product of a and b in the algebra of dimension m with these constants.
pub(crate) fn product_of_slices<F: Field>(
    alloc: Global,
    f: &F,
    m: usize,
    constants: &[F::Elem],
    a: &[F::Elem],
    b: &[F::Elem],
) -> Result<Vector<F>, NoMemory>
    requires fits { m * m * m < 2 ^ 64 }
    requires over { IsTuple (F.ops f.now) (m * m * m) constants.now }
    requires left { IsTuple (F.ops f.now) m a.now }
    requires right { IsTuple (F.ops f.now) m b.now }
    ensures elem { IfOk result (IsTuple (F.ops f.now) m) }
    ensures value { IfOk result (λ r. r ≡ product (F.ops f.now) m constants.now a.now b.now) }
{
    let zero = f.zero(alloc)?;
    let mut sums = zeros(alloc, f, m)?;
    for i in 0..m {
        let rows = &constants[i * m * m..];
        add_rows(alloc, f, &zero, &mut sums, &a[i], b, rows, m)?;
    }
    Ok(sums)
}

/// The sum over l of b_l times the m items of row l, where a row begins each stride items.
pub(crate) fn combination<F: Field>(
    alloc: Global,
    f: &F,
    m: usize,
    b: &[F::Elem],
    rows: &[F::Elem],
    stride: usize,
) -> Result<Vector<F>, NoMemory>
    requires coordinates { IsTuple (F.ops f.now) m b.now }
    requires rows { All (IsElem (F.ops f.now)) rows.now }
    requires within { (l : ℕ) → l < m → l * stride + m ≤ length rows.now }
    ensures elem { IfOk result (IsTuple (F.ops f.now) m) }
    ensures value { IfOk result (λ v. v ≡ table m (sum_of_rows (F.ops f.now) m b.now rows.now stride)) }
{
    let zero = f.zero(alloc)?;
    let one = f.one(alloc)?;
    let mut sums = zeros(alloc, f, m)?;
    add_rows(alloc, f, &zero, &mut sums, &one, b, rows, stride)?;
    Ok(sums)
}

/// The sum over l of a_l times the constant at the place start + l·stride.
pub(crate) fn contracted_item<F: Field>(
    alloc: Global,
    f: &F,
    zero: &F::Elem,
    a: &[F::Elem],
    constants: &[F::Elem],
    start: usize,
    stride: usize,
) -> Result<F::Elem, NoMemory>
    requires zero { zero.now ≡ (F.ops f.now).zero }
    requires coordinates { All (IsElem (F.ops f.now)) a.now }
    requires constants { All (IsElem (F.ops f.now)) constants.now }
    requires within { (l : ℕ) → l < length a.now → start + l * stride < length constants.now }
    ensures elem { IfOk result (IsElem (F.ops f.now)) }
    ensures value { IfOk result (λ r. r ≡ contracted (F.ops f.now) (length a.now) a.now constants.now start stride) }
{
    let mut sum = f.zero(alloc)?;
    for l in 0..a.len() {
        sum = add_product(alloc, f, zero, sum, &a[l], &constants[start + l * stride])?;
    }
    Ok(sum)
}

/// Whether the lists are the same.
pub fn same<F: Field>(f: &F, a: &[F::Elem], b: &[F::Elem]) -> bool
    requires left { All (IsElem (F.ops f.now)) a.now }
    requires right { IsTuple (F.ops f.now) (length a.now) b.now }
    ensures { IsTrue result ↔ (a.now ≡ b.now) }
{
    for k in 0..a.len() {
        if !f.eq(&a[k], &b[k]) {
            return false;
        }
    }
    true
}
