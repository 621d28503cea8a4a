// Basis elements and their products, by structure constants.
ghost use Rattle.std.specs.Prelude.{◌≡◌, ◌≢◌, ◌+◌, ◌*◌, ◌^◌, ◌<◌, ◌↔◌, IfOk, IsTrue};
ghost use Rattle.theory_spaces.specs.Tuples.{IsTuple, basis, product};

use crate::products::{combination, contracted_item, same};
use spl_field::field::{Field, NoMemory};
use spl_field::list::Vector;
use std::alloc::Global;

/// The place of the constant for the basis elements i, j and k.
pub(crate) fn place(m: usize, i: usize, j: usize, k: usize) -> usize
    requires fits { m * m * m < 2 ^ 64 }
    requires first { i < m }
    requires second { j < m }
    requires third { k < m }
    ensures value { result ≡ (i * m + j) * m + k }
    ensures within { result < m * m * m }
{
    (i * m + j) * m + k
}

/// The product of the basis elements i and j, which is the row of their constants.
pub(crate) fn row_of<'a, F: Field>(
    f: &F,
    m: usize,
    constants: &'a [F::Elem],
    i: usize,
    j: usize,
) -> &'a [F::Elem]
    requires fits { m * m * m < 2 ^ 64 }
    requires over { IsTuple (F.ops f.now) (m * m * m) constants.now }
    requires left { i < m }
    requires right { j < m }
    ensures elem { IsTuple (F.ops f.now) m result.now }
    ensures value { result.now ≡
        product (F.ops f.now) m constants.now (basis (F.ops f.now) m i) (basis (F.ops f.now) m j) }
{
    let _ = f;
    let start = (i * m + j) * m;
    &constants[start..start + m]
}

/// Whether the first items of (b_i·b_j)·b_k and b_i·(b_j·b_k) differ.
fn first_items_differ<F: Field>(
    alloc: Global,
    f: &F,
    m: usize,
    constants: &[F::Elem],
    i: usize,
    j: usize,
    k: usize,
) -> Result<bool, NoMemory>
    requires fits { m * m * m < 2 ^ 64 }
    requires over { IsTuple (F.ops f.now) (m * m * m) constants.now }
    requires first { i < m }
    requires second { j < m }
    requires third { k < m }
    ensures { IfOk result (λ b. IsTrue b →
        product (F.ops f.now) m constants.now
        (product (F.ops f.now) m constants.now (basis (F.ops f.now) m i) (basis (F.ops f.now) m j))
        (basis (F.ops f.now) m k)
        ≢ product (F.ops f.now) m constants.now
        (basis (F.ops f.now) m i)
        (product (F.ops f.now) m constants.now (basis (F.ops f.now) m j) (basis (F.ops f.now) m k))) }
{
    let first = row_of(f, m, constants, i, j);
    let second = row_of(f, m, constants, j, k);
    let zero = f.zero(alloc)?;
    let left = contracted_item(alloc, f, &zero, first, constants, k * m, m * m)?;
    let right = contracted_item(alloc, f, &zero, second, constants, i * m * m, m)?;
    Ok(!f.eq(&left, &right))
}

/// The product b_i·a, for the basis element b_i.
pub(crate) fn left_multiple<F: Field>(
    alloc: Global,
    f: &F,
    m: usize,
    constants: &[F::Elem],
    i: usize,
    a: &[F::Elem],
) -> Result<Vector<F>, NoMemory>
    requires fits { m * m * m < 2 ^ 64 }
    requires over { IsTuple (F.ops f.now) (m * m * m) constants.now }
    requires index { i < m }
    requires element { IsTuple (F.ops f.now) m a.now }
    ensures elem { IfOk result (IsTuple (F.ops f.now) m) }
    ensures value { IfOk result (λ r. r ≡ product (F.ops f.now) m constants.now (basis (F.ops f.now) m i) a.now) }
{
    let items = combination(alloc, f, m, a, &constants[i * m * m..], m)?;
    Ok(items)
}

/// The product a·b_i.
pub(crate) fn right_multiple<F: Field>(
    alloc: Global,
    f: &F,
    m: usize,
    constants: &[F::Elem],
    i: usize,
    a: &[F::Elem],
) -> Result<Vector<F>, NoMemory>
    requires fits { m * m * m < 2 ^ 64 }
    requires over { IsTuple (F.ops f.now) (m * m * m) constants.now }
    requires index { i < m }
    requires element { IsTuple (F.ops f.now) m a.now }
    ensures elem { IfOk result (IsTuple (F.ops f.now) m) }
    ensures value { IfOk result (λ r. r ≡ product (F.ops f.now) m constants.now a.now (basis (F.ops f.now) m i)) }
{
    let items = combination(alloc, f, m, a, &constants[i * m..], m * m)?;
    Ok(items)
}

/// The same, by all items.
fn all_items_agree<F: Field>(
    alloc: Global,
    f: &F,
    m: usize,
    constants: &[F::Elem],
    i: usize,
    j: usize,
    k: usize,
) -> Result<bool, NoMemory>
    requires fits { m * m * m < 2 ^ 64 }
    requires over { IsTuple (F.ops f.now) (m * m * m) constants.now }
    requires first { i < m }
    requires second { j < m }
    requires third { k < m }
    ensures { IfOk result (λ b. IsTrue b ↔
        (product (F.ops f.now) m constants.now
        (product (F.ops f.now) m constants.now (basis (F.ops f.now) m i) (basis (F.ops f.now) m j))
        (basis (F.ops f.now) m k)
        ≡ product (F.ops f.now) m constants.now
        (basis (F.ops f.now) m i)
        (product (F.ops f.now) m constants.now (basis (F.ops f.now) m j) (basis (F.ops f.now) m k)))) }
{
    let left = right_multiple(alloc, f, m, constants, k, row_of(f, m, constants, i, j))?;
    let right = left_multiple(alloc, f, m, constants, i, row_of(f, m, constants, j, k))?;
    Ok(same(f, left.as_slice(), right.as_slice()))
}

/// Whether (b_i·b_j)·b_k and b_i·(b_j·b_k) are the same. The first items are compared first, as where the products
/// differ they mostly do.
pub(crate) fn associates<F: Field>(
    alloc: Global,
    f: &F,
    m: usize,
    constants: &[F::Elem],
    i: usize,
    j: usize,
    k: usize,
) -> Result<bool, NoMemory>
    requires fits { m * m * m < 2 ^ 64 }
    requires over { IsTuple (F.ops f.now) (m * m * m) constants.now }
    requires first { i < m }
    requires second { j < m }
    requires third { k < m }
    ensures { IfOk result (λ b. IsTrue b ↔
        (product (F.ops f.now) m constants.now
        (product (F.ops f.now) m constants.now (basis (F.ops f.now) m i) (basis (F.ops f.now) m j))
        (basis (F.ops f.now) m k)
        ≡ product (F.ops f.now) m constants.now
        (basis (F.ops f.now) m i)
        (product (F.ops f.now) m constants.now (basis (F.ops f.now) m j) (basis (F.ops f.now) m k)))) }
{
    if first_items_differ(alloc, f, m, constants, i, j, k)? {
        return Ok(false);
    }
    all_items_agree(alloc, f, m, constants, i, j, k)
}
