// Whether a triple of basis elements associates, by polynomials over one denominator.
ghost use Rattle.std.specs.Prelude.{◌≡◌, ◌*◌, ◌^◌, ◌<◌, ◌↔◌, ℕ, [], length, get_or, IfOk, IsTrue};
ghost use Rattle.spl_field.specs.SmallField.{small_ops, small_laws};
ghost use Rattle.theory_fractions.specs.PolynomialLists.{IsPolynomialList};
ghost use Rattle.spl_numerators.specs.Sums.{left_item, right_item};

use crate::products::{are_same, sum_of_products};
use spl_field::field::NoMemory;
use spl_field::small::SmallField;
use spl_poly::poly::Poly;
use std::alloc::Global;

/// Whether (b_i·b_j)·b_k and b_i·(b_j·b_k) have the same coefficient at b_t.
fn items_agree(
    alloc: Global,
    f: &SmallField,
    m: usize,
    entries: &[Poly],
    i: usize,
    j: usize,
    k: usize,
    t: usize,
) -> Result<bool, NoMemory>
    requires fits { m * m * m < 2 ^ 64 }
    requires count { length entries.now ≡ m * m * m }
    requires polynomials { (p : ℕ) → p < length entries.now
        → IsPolynomialList (small_ops f.now) (get_or entries.now p []) }
    requires first { i < m }
    requires second { j < m }
    requires third { k < m }
    requires item { t < m }
    ensures { IfOk result (λ b. IsTrue b
        ↔ (left_item (small_ops f.now) (small_laws f.now) entries.now m i j k t
        ≡ right_item (small_ops f.now) (small_laws f.now) entries.now m i j k t)) }
{
    let left = sum_of_products(
        alloc,
        f,
        m,
        entries,
        (i * m + j) * m,
        entries,
        k * m + t,
        m * m,
    )?;
    let right = sum_of_products(
        alloc,
        f,
        m,
        entries,
        (j * m + k) * m,
        entries,
        i * m * m + t,
        m,
    )?;
    Ok(are_same(&left, &right))
}

/// Whether (b_i·b_j)·b_k and b_i·(b_j·b_k) are the same.
pub(crate) fn associates(
    alloc: Global,
    f: &SmallField,
    m: usize,
    entries: &[Poly],
    i: usize,
    j: usize,
    k: usize,
) -> Result<bool, NoMemory>
    requires fits { m * m * m < 2 ^ 64 }
    requires count { length entries.now ≡ m * m * m }
    requires polynomials { (p : ℕ) → p < length entries.now
        → IsPolynomialList (small_ops f.now) (get_or entries.now p []) }
    requires first { i < m }
    requires second { j < m }
    requires third { k < m }
    ensures { IfOk result (λ b. IsTrue b ↔ ((t : ℕ) → t < m
        → left_item (small_ops f.now) (small_laws f.now) entries.now m i j k t
        ≡ right_item (small_ops f.now) (small_laws f.now) entries.now m i j k t)) }
{
    for t in 0..m {
        if !items_agree(alloc, f, m, entries, i, j, k, t)? {
            return Ok(false);
        }
    }
    Ok(true)
}
