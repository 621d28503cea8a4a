// Sums of products of polynomials that stand in lists.
ghost use Rattle.std.specs.Prelude.{◌≡◌, ◌*◌, ◌+◌, ◌<◌, ◌↔◌, ℕ, [], length, get_or, IfOk, IsTrue};
ghost use Rattle.spl_field.specs.SmallField.{small_ops, small_laws};
ghost use Rattle.theory_fractions.specs.PolynomialLists.{IsPolynomialList};
ghost use Rattle.theory_fractions.specs.CommonDenominator.{as_fraction};
ghost use Rattle.spl_fraction.specs.FractionsOver.{fractions_over};
ghost use Rattle.spl_numerators.specs.Sums.{sum_of_products};

use spl_field::field::NoMemory;
use spl_field::small::SmallField;
use spl_poly::order::{order_law, order_of};
use spl_poly::poly::Poly;
use std::alloc::Global;
use std::cmp::Ordering;

/// sum + a·b; a factor 0 costs no product.
pub fn add_product(
    alloc: Global,
    f: &SmallField,
    sum: Poly,
    a: &Poly,
    b: &Poly,
) -> Result<Poly, NoMemory>
    requires sum { IsPolynomialList (small_ops f.now) sum }
    requires left { IsPolynomialList (small_ops f.now) a.now }
    requires right { IsPolynomialList (small_ops f.now) b.now }
    ensures polynomial { IfOk result (IsPolynomialList (small_ops f.now)) }
    ensures value { IfOk result (λ r. as_fraction (small_ops f.now) r
        ≡ (fractions_over f.now).add (as_fraction (small_ops f.now) sum)
        ((fractions_over f.now).mul (as_fraction (small_ops f.now) a.now) (as_fraction (small_ops f.now) b.now))) }
{
    if a.is_zero() {
        return Ok(sum);
    }
    if b.is_zero() {
        return Ok(sum);
    }
    let term = a.mul(alloc, f, b)?;
    Ok(sum.add(alloc, f, &term)?)
}

/// The sum over l of the products of the polynomials at first + l of one list and at second + l·stride of another. The
/// one fault is want of memory.
pub fn sum_of_products(
    alloc: Global,
    f: &SmallField,
    m: usize,
    lefts: &[Poly],
    first: usize,
    rights: &[Poly],
    second: usize,
    stride: usize,
) -> Result<Poly, NoMemory>
    requires lefts { (p : ℕ) → p < length lefts.now
        → IsPolynomialList (small_ops f.now) (get_or lefts.now p []) }
    requires rights { (p : ℕ) → p < length rights.now
        → IsPolynomialList (small_ops f.now) (get_or rights.now p []) }
    requires first_within { (l : ℕ) → l < m → first + l < length lefts.now }
    requires second_within { (l : ℕ) → l < m → second + l * stride < length rights.now }
    ensures polynomial { IfOk result (IsPolynomialList (small_ops f.now)) }
    ensures value { IfOk result (λ r. as_fraction (small_ops f.now) r
        ≡ sum_of_products (small_ops f.now) (small_laws f.now) lefts.now rights.now m first second stride) }
{
    let mut sum = Poly::from_slice(alloc, &[])?;
    for l in 0..m {
        sum = add_product(
            alloc,
            f,
            sum,
            &lefts[first + l],
            &rights[second + l * stride],
        )?;
    }
    Ok(sum)
}

/// Whether the polynomials are the same.
pub fn are_same(a: &Poly, b: &Poly) -> bool
    ensures { IsTrue result ↔ (a.now ≡ b.now) }
{
    order_law();
    match order_of(a, b) {
        Ordering::Equal => true,
        Ordering::Less => false,
        Ordering::Greater => false,
    }
}
