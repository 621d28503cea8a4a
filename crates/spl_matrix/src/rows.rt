// Rows: rows one after the other, the sums of their products, and rows that are changed in place.
ghost use Rattle.std.specs.Prelude.{◌≡◌, ◌≢◌, ◌<◌, ◌++◌, length, cond, nat_eq, IfOk, OnOk, All};
ghost use Rattle.theory_rings.specs.Ops.{IsElem};
ghost use Rattle.theory_rings.specs.Sum.{table, at};
ghost use Rattle.theory_spaces.specs.Tuples.{IsTuple};
ghost use Rattle.theory_tables.specs.Matrix.{dot};
ghost use Rattle.spl_matrix.specs.Elimination.{divided, reduced_by, identity_row};

use spl_field::field::{Field, NoMemory};
use spl_field::list::{List, Vector};
use std::alloc::Global;

/// sum + a·b; a factor 0 costs no product.
pub fn add_product<F: Field>(
    alloc: Global,
    f: &F,
    zero: &F::Elem,
    sum: F::Elem,
    a: &F::Elem,
    b: &F::Elem,
) -> Result<F::Elem, NoMemory>
    requires zero_elem { IsElem (F.ops f.now) zero.now }
    requires zero { zero.now ≡ (F.ops f.now).zero }
    requires sum { IsElem (F.ops f.now) sum }
    requires left { IsElem (F.ops f.now) a.now }
    requires right { IsElem (F.ops f.now) b.now }
    ensures elem { IfOk result (IsElem (F.ops f.now)) }
    ensures value { IfOk result (λ r. r ≡ (F.ops f.now).add sum ((F.ops f.now).mul a.now b.now)) }
{
    if f.eq(a, zero) {
        return Ok(sum);
    }
    if f.eq(b, zero) {
        return Ok(sum);
    }
    let term = f.mul(alloc, a, b)?;
    f.add(alloc, &sum, &term)
}

/// The sum of the products of the items of two tuples of one length.
pub(crate) fn dot_of<F: Field>(
    alloc: Global,
    f: &F,
    a: &[F::Elem],
    b: &[F::Elem],
) -> Result<F::Elem, NoMemory>
    requires left { All (IsElem (F.ops f.now)) a.now }
    requires right { All (IsElem (F.ops f.now)) b.now }
    requires same { length a.now ≡ length b.now }
    ensures elem { IfOk result (IsElem (F.ops f.now)) }
    ensures value { IfOk result (λ r. r ≡ dot (F.ops f.now) (length a.now) a.now b.now) }
{
    let mut sum = f.zero(alloc)?;
    for i in 0..a.len() {
        let term = f.mul(alloc, &a[i], &b[i])?;
        sum = f.add(alloc, &sum, &term)?;
    }
    Ok(sum)
}

/// Two rows, one after the other.
pub(crate) fn joined<F: Field>(
    alloc: Global,
    f: &F,
    left: &Vector<F>,
    right: &[F::Elem],
) -> Result<Vector<F>, NoMemory>
    requires left { All (IsElem (F.ops f.now)) left.now }
    requires right { All (IsElem (F.ops f.now)) right.now }
    ensures { IfOk result (λ r. r ≡ left.now ++ right.now) }
{
    let mut items = left.copy(alloc, f)?;
    for j in 0..right.len() {
        items.push(f.copy(alloc, &right[j])?)?;
    }
    Ok(items)
}

/// Item l of the row with 1 at place j, and else 0.
pub(crate) fn unit_item<F: Field>(
    alloc: Global,
    f: &F,
    l: usize,
    j: usize,
) -> Result<F::Elem, NoMemory>
    ensures elem { IfOk result (IsElem (F.ops f.now)) }
    ensures value { IfOk result (λ r. r ≡ cond (nat_eq l j) (F.ops f.now).one (F.ops f.now).zero) }
{
    if l == j { f.one(alloc) } else { f.zero(alloc) }
}

/// The row of n items with 1 at place i, and else 0.
pub fn identity_row<F: Field>(
    alloc: Global,
    f: &F,
    n: usize,
    i: usize,
) -> Result<Vector<F>, NoMemory>
    ensures { IfOk result (λ r. r ≡ identity_row (F.ops f.now) n i) }
{
    let mut items = List::new(alloc);
    for l in 0..n {
        items.push(unit_item(alloc, f, l, i)?)?;
    }
    Ok(items)
}

/// The row of n zeros.
pub fn zeros<F: Field>(alloc: Global, f: &F, n: usize) -> Result<Vector<F>, NoMemory>
    ensures { IfOk result (λ r. r ≡ table n (λ _. (F.ops f.now).zero)) }
{
    let mut items = List::new(alloc);
    for _l in 0..n {
        items.push(f.zero(alloc)?)?;
    }
    Ok(items)
}

/// c·row
pub(crate) fn scaled<F: Field>(
    alloc: Global,
    f: &F,
    c: &F::Elem,
    row: &[F::Elem],
) -> Result<Vector<F>, NoMemory>
    requires factor { IsElem (F.ops f.now) c.now }
    requires row { All (IsElem (F.ops f.now)) row.now }
    ensures elem { IfOk result (IsTuple (F.ops f.now) (length row.now)) }
    ensures value { IfOk result (λ r. r ≡ table (length row.now) (λ j.
        (F.ops f.now).mul c.now (at (F.ops f.now) row.now j))) }
{
    let mut items = List::new(alloc);
    for j in 0..row.len() {
        items.push(f.mul(alloc, c, &row[j])?)?;
    }
    Ok(items)
}

/// row·c, in place. A zero of the row costs no multiplication.
fn scale<F: Field>(
    alloc: Global,
    f: &F,
    zero: &F::Elem,
    row: &mut Vector<F>,
    c: &F::Elem,
) -> Result<(), NoMemory>
    requires zero { zero.now ≡ (F.ops f.now).zero }
    requires row { All (IsElem (F.ops f.now)) row.old }
    requires factor { IsElem (F.ops f.now) c.now }
    ensures { OnOk result (row.new ≡ table (length row.old) (λ j.
        (F.ops f.now).mul c.now (at (F.ops f.now) row.old j))) }
{
    for j in 0..row.len() {
        let item = &row.as_slice()[j];
        if !f.eq(item, zero) {
            let product = f.mul(alloc, c, item)?;
            row.set(j, product);
        }
    }
    Ok(())
}

/// row + c·other, in place. A zero of the other row costs no multiplication.
pub fn add_multiple<F: Field>(
    alloc: Global,
    f: &F,
    zero: &F::Elem,
    row: &mut Vector<F>,
    c: &F::Elem,
    other: &[F::Elem],
) -> Result<(), NoMemory>
    requires zero { zero.now ≡ (F.ops f.now).zero }
    requires row { All (IsElem (F.ops f.now)) row.old }
    requires factor { IsElem (F.ops f.now) c.now }
    requires other { IsTuple (F.ops f.now) (length row.old) other.now }
    ensures { OnOk result (row.new ≡ table (length row.old) (λ j.
        (F.ops f.now).add (at (F.ops f.now) row.old j) ((F.ops f.now).mul c.now (at (F.ops f.now) other.now j)))) }
{
    for j in 0..row.len() {
        if !f.eq(&other[j], zero) {
            let term = f.mul(alloc, c, &other[j])?;
            let sum = f.add(alloc, &row.as_slice()[j], &term)?;
            row.set(j, sum);
        }
    }
    Ok(())
}

/// Divides the row by its item in column col.
pub(crate) fn divide<F: Field>(
    alloc: Global,
    f: &F,
    zero: &F::Elem,
    row: &mut Vector<F>,
    col: usize,
) -> Result<(), NoMemory>
    requires zero { zero.now ≡ (F.ops f.now).zero }
    requires row { All (IsElem (F.ops f.now)) row.old }
    requires column { col < length row.old }
    requires nonzero { at (F.ops f.now) row.old col ≢ (F.ops f.now).zero }
    ensures { OnOk result (row.new ≡ divided (F.ops f.now) (length row.old) row.old col) }
{
    let factor = match f.inv(alloc, &row.as_slice()[col])? {
        Some(factor) => factor,
        None => unreachable!(),
    };
    scale(alloc, f, zero, row, &factor)?;
    Ok(())
}

/// Subtracts the multiple of the lead that clears column col. A row that is 0 there stays as it is.
pub(crate) fn reduce<F: Field>(
    alloc: Global,
    f: &F,
    zero: &F::Elem,
    row: &mut Vector<F>,
    col: usize,
    lead: &[F::Elem],
) -> Result<(), NoMemory>
    requires zero { zero.now ≡ (F.ops f.now).zero }
    requires row { All (IsElem (F.ops f.now)) row.old }
    requires lead { IsTuple (F.ops f.now) (length row.old) lead.now }
    requires column { col < length row.old }
    ensures { OnOk result (row.new ≡ reduced_by (F.ops f.now) (length row.old) row.old col lead.now) }
{
    let item = &row.as_slice()[col];
    if f.eq(item, zero) {
        return Ok(());
    }
    let c = f.neg(alloc, item)?;
    add_multiple(alloc, f, zero, row, &c, lead)?;
    Ok(())
}
