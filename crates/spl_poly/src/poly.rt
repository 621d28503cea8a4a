// Polynomials over a small field.
ghost use Rattle.std.specs.Prelude.{◌≡◌, ◌≢◌, ◌↔◌, ℕ, suc, ◌<◌, ◌≤◌, [], length, replicate, IsOk, IfOk, IfSome, IsTrue};
ghost use Rattle.std.specs.Prelude.{MatchOption, slice_index, slice_index_or};
ghost use Rattle.theory_rings.specs.Ops.{Ops};
ghost use Rattle.theory_rings.specs.Polynomial.{IsTrimmed};
ghost use Rattle.spl_field.specs.SmallField.{small_ops};
ghost use Rattle.spl_poly.specs.Operations.{IsOver, IsSum, IsProduct, IsDivision, IsProductRemainder, IsPowerRemainder};
ghost use Rattle.spl_poly.specs.Operations.{IsMonicOf, without_zeros};
ghost use Rattle.spl_poly.specs.Order.{poly_cmp};

use crate::elements::{inverse, know_laws};
use crate::rows::{
    add_row, divide_row, len_without_zeros, order_of_rows, scale_row, write_product,
};
use smallvec::SmallVec;
use spl_field::field::NoMemory;
use spl_field::small::SmallField;
use std::alloc::Global;
use std::cmp::Ordering;
use std::marker::Model;

/// A polynomial: its coefficients, lowest first, of which the last is not 0; the polynomial 0 has none. Contracts see
/// it as that list. Whose elements the coefficients are is a condition of the calls that take a field. Up to 16 of them
/// need no memory.
pub struct Poly {
    coefficients: SmallVec<u8, 16>,
}

// (one proof for all functions that drop a polynomial, in place of the two cases of its coefficients in each)
impl Drop for Poly {
    fn drop(self) {
        let Poly { coefficients } = self;
    }
}

impl Model for Poly {
    ghost use Rattle.std.specs.Prelude.{List, ℕ};
    ghost use Rattle.theory_rings.specs.Polynomial.{IsTrimmed};

    ghost Value = { List ℕ };

    ghost view = { λ a. a.coefficients.items };

    ghost invariant = { λ a. IsTrimmed 0 a.coefficients.items };
}

/// A quotient and a remainder.
#[derive(Drop)]
pub struct Division {
    pub quotient: Poly,
    pub remainder: Poly,
}

/// Zeros.
fn zeros(alloc: Global, n: usize) -> Result<SmallVec<u8, 16>, NoMemory>
    ensures { IfOk result (λ v. v.items ≡ replicate n 0) }
{
    Ok(SmallVec::from_elem(alloc, 0, n)?)
}

/// The polynomial with these coefficients; zeros at the end are dropped.
fn without_zeros_at_end(mut c: SmallVec<u8, 16>) -> Poly
    ensures value { result ≡ without_zeros c.items }
    ensures trimmed { IsTrimmed 0 result }
    ensures same { (k : ℕ) → slice_index result k ≡ slice_index c.items k }
    ensures over { (o : Ops ℕ) → IsOver o c.items → IsOver o result }
{
    let n = len_without_zeros(c.as_slice());
    c.truncate(n);
    Poly { coefficients: c }
}

/// The sum of two rows of coefficients, the longer one first.
fn sum_of_rows(alloc: Global, f: &SmallField, long: &[u8], short: &[u8]) -> Result<Poly, NoMemory>
    requires long_over { IsOver (small_ops f.now) long.now }
    requires short_over { IsOver (small_ops f.now) short.now }
    requires longer { length short.now ≤ length long.now }
    ensures value { IfOk result (IsSum (small_ops f.now) long.now short.now) }
    ensures over { IfOk result (IsOver (small_ops f.now)) }
    ensures trimmed { IfOk result (IsTrimmed 0) }
{
    let mut c = SmallVec::from_slice(alloc, long)?;
    add_row(f, c.as_mut_slice(), short);
    Ok(without_zeros_at_end(c))
}

impl Poly {
    /// The polynomial with these coefficients, lowest first; zeros at the end are dropped. A slice of at most 16 takes
    /// no memory.
    pub fn from_slice(alloc: Global, c: &[u8]) -> Result<Poly, NoMemory>
        ensures short { length c.now ≤ 16 → IsOk result }
        ensures value { IfOk result (λ p. p ≡ without_zeros c.now) }
        ensures over { (o : Ops ℕ) → IsOver o c.now → IfOk result (IsOver o) }
        ensures trimmed { IfOk result (IsTrimmed 0) }
    {
        let n = len_without_zeros(c);
        Ok(Poly {
            coefficients: SmallVec::from_slice(alloc, &c[..n])?,
        })
    }

    /// The polynomial with these coefficients, lowest first; zeros at the end are dropped.
    pub fn from_list(_alloc: Global, f: &SmallField, mut c: Vec<u8>) -> Result<Poly, NoMemory>
        requires { IsOver (small_ops f.now) c.items }
        ensures value { IfOk result (λ p. p ≡ without_zeros c.items) }
        ensures over { IfOk result (IsOver (small_ops f.now)) }
        ensures trimmed { IfOk result (IsTrimmed 0) }
    {
        let n = len_without_zeros(c.as_slice());
        c.truncate(n);
        Ok(Poly {
            coefficients: SmallVec::from_vec(c),
        })
    }

    /// The sum.
    pub fn add(&self, alloc: Global, f: &SmallField, b: &Poly) -> Result<Poly, NoMemory>
        requires self_over { IsOver (small_ops f.now) self.now }
        requires b_over { IsOver (small_ops f.now) b.now }
        ensures value { IfOk result (IsSum (small_ops f.now) self.now b.now) }
        ensures over { IfOk result (IsOver (small_ops f.now)) }
        ensures trimmed { IfOk result (IsTrimmed 0) }
    {
        know_laws(f);
        let x = self.coefficients.as_slice();
        let y = b.coefficients.as_slice();
        if x.len() < y.len() {
            Ok(sum_of_rows(alloc, f, y, x)?)
        } else {
            Ok(sum_of_rows(alloc, f, x, y)?)
        }
    }

    /// The product.
    pub fn mul(&self, alloc: Global, f: &SmallField, b: &Poly) -> Result<Poly, NoMemory>
        requires self_over { IsOver (small_ops f.now) self.now }
        requires b_over { IsOver (small_ops f.now) b.now }
        ensures value { IfOk result (IsProduct (small_ops f.now) self.now b.now) }
        ensures over { IfOk result (IsOver (small_ops f.now)) }
        ensures trimmed { IfOk result (IsTrimmed 0) }
    {
        know_laws(f);
        let x = self.coefficients.as_slice();
        let y = b.coefficients.as_slice();
        let mut c = zeros(alloc, (x.len() + y.len()).saturating_sub(1))?;
        write_product(f, c.as_mut_slice(), x, y);
        Ok(without_zeros_at_end(c))
    }

    /// Quotient and remainder by a polynomial that is not 0.
    pub fn divide(&self, alloc: Global, f: &SmallField, by: &Poly) -> Result<Division, NoMemory>
        requires self_over { IsOver (small_ops f.now) self.now }
        requires by_over { IsOver (small_ops f.now) by.now }
        requires nonzero { by.now ≢ [] }
        ensures value { IfOk result (λ d. IsDivision (small_ops f.now) self.now by.now d.quotient d.remainder) }
        ensures quotient_over { IfOk result (λ d. IsOver (small_ops f.now) d.quotient) }
        ensures quotient_trimmed { IfOk result (λ d. IsTrimmed 0 d.quotient) }
        ensures remainder_over { IfOk result (λ d. IsOver (small_ops f.now) d.remainder) }
        ensures remainder_trimmed { IfOk result (λ d. IsTrimmed 0 d.remainder) }
    {
        know_laws(f);
        let divisor = by.coefficients.as_slice();
        let unit = inverse(f, divisor[divisor.len() - 1]);
        let mut rest = SmallVec::from_slice(alloc, self.coefficients.as_slice())?;
        let mut quotient = zeros(alloc, (rest.len() + 1).saturating_sub(divisor.len()))?;
        divide_row(
            f,
            quotient.as_mut_slice(),
            rest.as_mut_slice(),
            divisor,
            unit,
        );
        Ok(Division {
            quotient: without_zeros_at_end(quotient),
            remainder: without_zeros_at_end(rest),
        })
    }

    /// The polynomial divided by its leading coefficient.
    pub fn monic(&self, alloc: Global, f: &SmallField) -> Result<Poly, NoMemory>
        requires over { IsOver (small_ops f.now) self.now }
        requires nonzero { self.now ≢ [] }
        ensures value { IfOk result (IsMonicOf (small_ops f.now) self.now) }
        ensures over { IfOk result (IsOver (small_ops f.now)) }
        ensures trimmed { IfOk result (IsTrimmed 0) }
    {
        know_laws(f);
        let x = self.coefficients.as_slice();
        let unit = inverse(f, x[x.len() - 1]);
        let mut c = SmallVec::from_slice(alloc, x)?;
        scale_row(f, c.as_mut_slice(), unit);
        Ok(without_zeros_at_end(c))
    }

    /// The remainder of a power by a modulus of degree at least 1.
    pub fn pow_mod(
        &self,
        alloc: Global,
        f: &SmallField,
        exponent: u64,
        modulus: &Poly,
    ) -> Result<Poly, NoMemory>
        requires self_over { IsOver (small_ops f.now) self.now }
        requires modulus_over { IsOver (small_ops f.now) modulus.now }
        requires modulus_degree { 1 < length modulus.now }
        ensures value { IfOk result (IsPowerRemainder (small_ops f.now) self.now exponent modulus.now) }
        ensures over { IfOk result (IsOver (small_ops f.now)) }
        ensures trimmed { IfOk result (IsTrimmed 0) }
    {
        know_laws(f);
        if self.coefficients.len() < modulus.coefficients.len() {
            Ok(self.rest_of_power(alloc, f, exponent, modulus)?)
        } else {
            let base = self.divide(alloc, f, modulus)?.remainder;
            Ok(base.rest_of_power(alloc, f, exponent, modulus)?)
        }
    }

    /// The same, by squaring the power with half of the exponent.
    fn rest_of_power(
        &self,
        alloc: Global,
        f: &SmallField,
        exponent: u64,
        modulus: &Poly,
    ) -> Result<Poly, NoMemory>
        requires self_over { IsOver (small_ops f.now) self.now }
        requires self_trimmed { IsTrimmed 0 self.now }
        requires modulus_over { IsOver (small_ops f.now) modulus.now }
        requires modulus_trimmed { IsTrimmed 0 modulus.now }
        requires modulus_degree { 1 < length modulus.now }
        ensures value { IfOk result (IsPowerRemainder (small_ops f.now) self.now exponent modulus.now) }
        ensures over { IfOk result (IsOver (small_ops f.now)) }
        ensures trimmed { IfOk result (IsTrimmed 0) }
    {
        know_laws(f);
        if exponent == 0 {
            return Ok(Poly::from_slice(alloc, &[1])?);
        }
        let half = self.rest_of_power(alloc, f, exponent / 2, modulus)?;
        let square = half.product_rest(alloc, f, &half, modulus)?;
        if exponent % 2 == 0 {
            return Ok(square);
        }
        Ok(square.product_rest(alloc, f, self, modulus)?)
    }

    /// The remainder of a product.
    fn product_rest(
        &self,
        alloc: Global,
        f: &SmallField,
        b: &Poly,
        modulus: &Poly,
    ) -> Result<Poly, NoMemory>
        requires self_over { IsOver (small_ops f.now) self.now }
        requires self_trimmed { IsTrimmed 0 self.now }
        requires b_over { IsOver (small_ops f.now) b.now }
        requires b_trimmed { IsTrimmed 0 b.now }
        requires modulus_over { IsOver (small_ops f.now) modulus.now }
        requires modulus_trimmed { IsTrimmed 0 modulus.now }
        requires modulus_degree { 1 < length modulus.now }
        ensures value { IfOk result (IsProductRemainder (small_ops f.now) self.now b.now modulus.now) }
        ensures over { IfOk result (IsOver (small_ops f.now)) }
        ensures trimmed { IfOk result (IsTrimmed 0) }
    {
        let product = self.mul(alloc, f, b)?;
        Ok(product.divide(alloc, f, modulus)?.remainder)
    }

    /// An equal polynomial. The one fault is want of memory.
    pub fn copy(&self, alloc: Global, f: &SmallField) -> Result<Poly, NoMemory>
        requires { IsOver (small_ops f.now) self.now }
        ensures value { IfOk result (λ p. p ≡ self.now) }
        ensures over { IfOk result (IsOver (small_ops f.now)) }
        ensures trimmed { IfOk result (IsTrimmed 0) }
    {
        Ok(Poly {
            coefficients: SmallVec::from_slice(alloc, self.coefficients.as_slice())?,
        })
    }

    /// The degree; None exactly for 0.
    pub fn degree(&self) -> Option<usize>
        ensures degree { MatchOption result (self.now ≡ []) (λ d. suc d ≡ length self.now) }
        ensures trimmed { IsTrimmed 0 self.now }
    {
        self.coefficients.len().checked_sub(1)
    }

    /// The coefficient of the power i; None exactly where i is past the end.
    pub fn coefficient(&self, i: usize) -> Option<&u8>
        ensures none { (result ≡ None) ↔ (length self.now ≤ i) }
        ensures some { IfSome result (λ r. (i < length self.now) × (r.now ≡ slice_index_or self.now i r.now)) }
    {
        self.coefficients.as_slice().get(i)
    }

    /// The coefficients, lowest first. It takes no memory.
    pub fn as_slice(&self) -> &[u8]
        ensures { result.now ≡ self.now }
    {
        self.coefficients.as_slice()
    }

    /// Whether it is 0.
    pub fn is_zero(&self) -> bool
        ensures { IsTrue result ↔ (self.now ≡ []) }
    {
        self.coefficients.is_empty()
    }

    /// The order of polynomials.
    pub(crate) fn order_by_degree(&self, b: &Poly) -> Ordering
        ensures { result ≡ poly_cmp self.now b.now }
    {
        let x = self.coefficients.as_slice();
        let y = b.coefficients.as_slice();
        if x.len() != y.len() {
            return x.len().cmp(&y.len());
        }
        order_of_rows(x, y)
    }
}
