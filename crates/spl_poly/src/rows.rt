// What is computed in place on slices of coefficients.
ghost use Rattle.std.specs.Prelude.{◌≡◌, ◌≢◌, ℕ, ◌+◌, ◌-◌, ◌<◌, ◌≤◌, length, reverse, slice_index};
ghost use Rattle.std.specs.Ordering.{nat_cmp};
ghost use Rattle.std.specs.Cmp.Lexicographic.{slice_cmp};
ghost use Rattle.theory_rings.specs.Ops.{IsElem};
ghost use Rattle.theory_rings.specs.Sum.{at};
ghost use Rattle.theory_rings.specs.Polynomial.{convolution_of};
ghost use Rattle.spl_field.specs.SmallField.{small_ops};
ghost use Rattle.spl_poly.specs.Operations.{IsOver};

use crate::elements::{know_laws, negative, product, sum};
use spl_field::small::SmallField;
use std::cmp::Ordering;

/// The number of coefficients without the zeros at the end.
pub(crate) fn len_without_zeros(c: &[u8]) -> usize
    ensures within { result ≤ length c.now }
    ensures past { (k : ℕ) → result ≤ k → slice_index c.now k ≡ 0 }
    ensures last { 0 < result → slice_index c.now (result - 1) ≢ 0 }
{
    let mut n = c.len();
    while n > 0 && c[n - 1] == 0 {
        n -= 1;
    }
    n
}

/// Adds by to r.
pub(crate) fn add_row(f: &SmallField, r: &mut [u8], by: &[u8])
    requires r_over { IsOver (small_ops f.now) r.old }
    requires by_over { IsOver (small_ops f.now) by.now }
    requires room { length by.now ≤ length r.old }
    ensures over { IsOver (small_ops f.now) r.new }
    ensures added { (k : ℕ) → at (small_ops f.now) r.new k
        ≡ (small_ops f.now).add (at (small_ops f.now) r.old k) (at (small_ops f.now) by.now k) }
{
    know_laws(f);
    for j in 0..by.len() {
        r[j] = sum(f, r[j], by[j]);
    }
}

/// Adds c times by to r, s places up.
pub(crate) fn add_scaled_row(f: &SmallField, r: &mut [u8], s: usize, c: u8, by: &[u8])
    requires r_over { IsOver (small_ops f.now) r.old }
    requires by_over { IsOver (small_ops f.now) by.now }
    requires c_elem { IsElem (small_ops f.now) c }
    requires room { s + length by.now ≤ length r.old }
    ensures over { IsOver (small_ops f.now) r.new }
    ensures kept { (k : ℕ) → k < s → slice_index r.new k ≡ slice_index r.old k }
    ensures added { (j : ℕ) → slice_index r.new (s + j) ≡ (small_ops f.now).add (slice_index r.old (s + j))
        ((small_ops f.now).mul c (slice_index by.now j)) }
{
    know_laws(f);
    for j in 0..by.len() {
        r[s + j] = sum(f, r[s + j], product(f, c, by[j]));
    }
}

/// Coefficient k of the product of x and y.
pub(crate) fn product_coefficient(f: &SmallField, x: &[u8], y: &[u8], k: usize) -> u8
    requires x_over { IsOver (small_ops f.now) x.now }
    requires y_over { IsOver (small_ops f.now) y.now }
    requires room { k < length x.now + length y.now }
    ensures elem { IsElem (small_ops f.now) result }
    ensures value { result
        ≡ convolution_of (small_ops f.now) (at (small_ops f.now) x.now) (at (small_ops f.now) y.now) k }
{
    know_laws(f);
    let low = if k >= y.len() { k - y.len() + 1 } else { 0 };
    let high = if k < x.len() { k + 1 } else { x.len() };
    let mut total = 0;
    for i in low..high {
        total = sum(f, total, product(f, x[i], y[k - i]));
    }
    total
}

/// Writes the first coefficients of the product of x and y.
pub(crate) fn write_product(f: &SmallField, out: &mut [u8], x: &[u8], y: &[u8])
    requires x_over { IsOver (small_ops f.now) x.now }
    requires y_over { IsOver (small_ops f.now) y.now }
    requires out_over { IsOver (small_ops f.now) out.old }
    requires room { length out.old ≤ length x.now + length y.now }
    ensures over { IsOver (small_ops f.now) out.new }
    ensures value { (k : ℕ) → k < length out.old → slice_index out.new k
        ≡ convolution_of (small_ops f.now) (at (small_ops f.now) x.now) (at (small_ops f.now) y.now) k }
{
    for k in 0..out.len() {
        out[k] = product_coefficient(f, x, y, k);
    }
}

/// Multiplies each coefficient by c.
pub(crate) fn scale_row(f: &SmallField, r: &mut [u8], c: u8)
    requires over { IsOver (small_ops f.now) r.old }
    requires c_elem { IsElem (small_ops f.now) c }
    ensures over { IsOver (small_ops f.now) r.new }
    ensures scaled { (k : ℕ) → k < length r.old → slice_index r.new k ≡ (small_ops f.now).mul c (slice_index r.old k) }
{
    for k in 0..r.len() {
        r[k] = product(f, c, r[k]);
    }
}

/// The long division of r by a divisor whose leading coefficient times unit is 1: what remains of r is of smaller
/// degree, and the quotient is written over the zeros of q.
pub(crate) fn divide_row(f: &SmallField, q: &mut [u8], r: &mut [u8], by: &[u8], unit: u8)
    requires r_over { IsOver (small_ops f.now) r.old }
    requires by_over { IsOver (small_ops f.now) by.now }
    requires nonzero { 0 < length by.now }
    requires unit_elem { IsElem (small_ops f.now) unit }
    requires is_unit { (small_ops f.now).mul (slice_index by.now (length by.now - 1)) unit ≡ (small_ops f.now).one }
    requires empty { (k : ℕ) → slice_index q.old k ≡ 0 }
    requires room { length q.old ≡ length r.old + 1 - length by.now }
    ensures q_over { IsOver (small_ops f.now) q.new }
    ensures r_over { IsOver (small_ops f.now) r.new }
    ensures whole { (k : ℕ) → (small_ops f.now).add
        (convolution_of (small_ops f.now) (at (small_ops f.now) q.new) (at (small_ops f.now) by.now) k)
        (at (small_ops f.now) r.new k) ≡ at (small_ops f.now) r.old k }
    ensures small { (k : ℕ) → length by.now - 1 ≤ k → slice_index r.new k ≡ 0 }
{
    know_laws(f);
    let top = by.len() - 1;
    for s in (0..q.len()).rev() {
        let c = product(f, r[s + top], unit);
        q[s] = c;
        add_scaled_row(f, r, s, negative(f, c), by);
    }
}

/// The order of rows of one length, by the numbers from the end down.
pub(crate) fn order_of_rows(x: &[u8], y: &[u8]) -> Ordering
    requires { length x.now ≡ length y.now }
    ensures { result ≡ slice_cmp nat_cmp (reverse x.now) (reverse y.now) }
{
    for i in (0..x.len()).rev() {
        if x[i] != y[i] {
            return x[i].cmp(&y[i]);
        }
    }
    Ordering::Equal
}
