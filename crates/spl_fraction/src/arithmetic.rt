// The sum, the product, the negative and the inverse of fractions, by cases.
ghost use Rattle.std.specs.Prelude.{◌≡◌, ◌≢◌, ◌↔◌, [], length, IfOk, IsTrue};
ghost use Rattle.theory_rings.specs.Ops.{IsElem};
ghost use Rattle.spl_field.specs.SmallField.{small_ops};
ghost use Rattle.theory_fractions.specs.Fraction.{IsLowestTerms, IsFractionSum, IsFractionProduct, IsFractionNegative};
ghost use Rattle.theory_fractions.specs.Fraction.{IsFractionInverse};

use crate::fraction::Fraction;
use crate::reduction::{is_constant, one_poly, reduced, scaled, with_monic_denominator};
use spl_field::field::NoMemory;
use spl_field::small::SmallField;
use spl_poly::order::{order_law, order_of};
use spl_poly::poly::Poly;
use std::alloc::Global;
use std::cmp::Ordering;

/// An equal fraction.
pub(crate) fn copy_of(alloc: Global, f: &SmallField, a: &Fraction) -> Result<Fraction, NoMemory>
    requires { IsLowestTerms (small_ops f.now) a.now.0 a.now.1 }
    ensures { IfOk result (λ r. r ≡ a.now) }
{
    let numerator = a.numerator().copy(alloc, f)?;
    let denominator = a.denominator().copy(alloc, f)?;
    Ok(Fraction::of(numerator, denominator))
}

/// The sum of polynomials.
fn sum_of_polynomials(
    alloc: Global,
    f: &SmallField,
    a: &Fraction,
    b: &Fraction,
) -> Result<Fraction, NoMemory>
    requires left { IsLowestTerms (small_ops f.now) a.now.0 a.now.1 }
    requires right { IsLowestTerms (small_ops f.now) b.now.0 b.now.1 }
    requires left_polynomial { length a.now.1 ≡ 1 }
    requires right_polynomial { length b.now.1 ≡ 1 }
    ensures lowest { IfOk result (λ w. IsLowestTerms (small_ops f.now) w.0 w.1) }
    ensures sum { IfOk result (IsFractionSum (small_ops f.now) a.now b.now) }
{
    let numerator = a.numerator().add(alloc, f, b.numerator())?;
    let one = one_poly(alloc)?;
    Ok(Fraction::of(numerator, one))
}

/// The sum of a fraction and a polynomial.
fn sum_with_polynomial(
    alloc: Global,
    f: &SmallField,
    a: &Fraction,
    b: &Fraction,
) -> Result<Fraction, NoMemory>
    requires left { IsLowestTerms (small_ops f.now) a.now.0 a.now.1 }
    requires right { IsLowestTerms (small_ops f.now) b.now.0 b.now.1 }
    requires polynomial { length b.now.1 ≡ 1 }
    ensures lowest { IfOk result (λ w. IsLowestTerms (small_ops f.now) w.0 w.1) }
    ensures sum { IfOk result (IsFractionSum (small_ops f.now) a.now b.now) }
{
    if is_constant(a.denominator()) {
        return Ok(sum_of_polynomials(alloc, f, a, b)?);
    }
    let multiple = b.numerator().mul(alloc, f, a.denominator())?;
    let numerator = a.numerator().add(alloc, f, &multiple)?;
    let denominator = a.denominator().copy(alloc, f)?;
    Ok(Fraction::of(numerator, denominator))
}

/// The sum of fractions, from a numerator over the product of the denominators.
fn sum_of_fractions(
    alloc: Global,
    f: &SmallField,
    a: &Fraction,
    b: &Fraction,
) -> Result<Fraction, NoMemory>
    requires left { IsLowestTerms (small_ops f.now) a.now.0 a.now.1 }
    requires right { IsLowestTerms (small_ops f.now) b.now.0 b.now.1 }
    ensures lowest { IfOk result (λ w. IsLowestTerms (small_ops f.now) w.0 w.1) }
    ensures sum { IfOk result (IsFractionSum (small_ops f.now) a.now b.now) }
{
    let left = a.numerator().mul(alloc, f, b.denominator())?;
    let right = b.numerator().mul(alloc, f, a.denominator())?;
    let numerator = left.add(alloc, f, &right)?;
    let denominator = a.denominator().mul(alloc, f, b.denominator())?;
    Ok(reduced(alloc, f, numerator, denominator)?)
}

/// The sum. Where one is 0, or has the denominator 1, it takes no common divisor.
pub(crate) fn sum_of(
    alloc: Global,
    f: &SmallField,
    a: &Fraction,
    b: &Fraction,
) -> Result<Fraction, NoMemory>
    requires left { IsLowestTerms (small_ops f.now) a.now.0 a.now.1 }
    requires right { IsLowestTerms (small_ops f.now) b.now.0 b.now.1 }
    ensures lowest { IfOk result (λ w. IsLowestTerms (small_ops f.now) w.0 w.1) }
    ensures sum { IfOk result (IsFractionSum (small_ops f.now) a.now b.now) }
{
    if a.numerator().is_zero() {
        return Ok(copy_of(alloc, f, b)?);
    }
    if b.numerator().is_zero() {
        return Ok(copy_of(alloc, f, a)?);
    }
    if is_constant(b.denominator()) {
        return Ok(sum_with_polynomial(alloc, f, a, b)?);
    }
    if is_constant(a.denominator()) {
        return Ok(sum_with_polynomial(alloc, f, b, a)?);
    }
    Ok(sum_of_fractions(alloc, f, a, b)?)
}

/// Whether the fraction is a constant other than 0.
fn is_unit(a: &Fraction) -> bool
    ensures numerator { IsTrue result → length a.now.0 ≡ 1 }
    ensures denominator { IsTrue result → length a.now.1 ≡ 1 }
{
    is_constant(a.numerator()) && is_constant(a.denominator())
}

/// The product of a constant other than 0 and a fraction.
fn product_with_constant(
    alloc: Global,
    f: &SmallField,
    a: &Fraction,
    b: &Fraction,
) -> Result<Fraction, NoMemory>
    requires left { IsLowestTerms (small_ops f.now) a.now.0 a.now.1 }
    requires right { IsLowestTerms (small_ops f.now) b.now.0 b.now.1 }
    requires numerator { length a.now.0 ≡ 1 }
    requires denominator { length a.now.1 ≡ 1 }
    ensures lowest { IfOk result (λ w. IsLowestTerms (small_ops f.now) w.0 w.1) }
    ensures product { IfOk result (IsFractionProduct (small_ops f.now) a.now b.now) }
{
    let numerator = a.numerator().mul(alloc, f, b.numerator())?;
    let denominator = b.denominator().copy(alloc, f)?;
    Ok(Fraction::of(numerator, denominator))
}

/// The product of fractions, from the product of the numerators over that of the denominators.
fn product_of_fractions(
    alloc: Global,
    f: &SmallField,
    a: &Fraction,
    b: &Fraction,
) -> Result<Fraction, NoMemory>
    requires left { IsLowestTerms (small_ops f.now) a.now.0 a.now.1 }
    requires right { IsLowestTerms (small_ops f.now) b.now.0 b.now.1 }
    ensures lowest { IfOk result (λ w. IsLowestTerms (small_ops f.now) w.0 w.1) }
    ensures product { IfOk result (IsFractionProduct (small_ops f.now) a.now b.now) }
{
    let numerator = a.numerator().mul(alloc, f, b.numerator())?;
    let denominator = a.denominator().mul(alloc, f, b.denominator())?;
    Ok(reduced(alloc, f, numerator, denominator)?)
}

/// The product. Where one is a constant, or both have the denominator 1, it takes no common divisor.
pub(crate) fn product_of(
    alloc: Global,
    f: &SmallField,
    a: &Fraction,
    b: &Fraction,
) -> Result<Fraction, NoMemory>
    requires left { IsLowestTerms (small_ops f.now) a.now.0 a.now.1 }
    requires right { IsLowestTerms (small_ops f.now) b.now.0 b.now.1 }
    ensures lowest { IfOk result (λ w. IsLowestTerms (small_ops f.now) w.0 w.1) }
    ensures product { IfOk result (IsFractionProduct (small_ops f.now) a.now b.now) }
{
    if a.numerator().is_zero() {
        return Ok(copy_of(alloc, f, a)?);
    }
    if b.numerator().is_zero() {
        return Ok(copy_of(alloc, f, b)?);
    }
    if is_unit(a) {
        return Ok(product_with_constant(alloc, f, a, b)?);
    }
    if is_unit(b) {
        return Ok(product_with_constant(alloc, f, b, a)?);
    }
    Ok(product_of_fractions(alloc, f, a, b)?)
}

/// −1.
fn minus_one(f: &SmallField) -> u8
    ensures value { result ≡ (small_ops f.now).neg (small_ops f.now).one }
    ensures elem { IsElem (small_ops f.now) result }
    ensures nonzero { result ≢ 0 }
{
    f.negative(1)
}

/// The negative.
pub(crate) fn negative_of(alloc: Global, f: &SmallField, a: &Fraction) -> Result<Fraction, NoMemory>
    requires { IsLowestTerms (small_ops f.now) a.now.0 a.now.1 }
    ensures lowest { IfOk result (λ w. IsLowestTerms (small_ops f.now) w.0 w.1) }
    ensures negative { IfOk result (IsFractionNegative (small_ops f.now) a.now) }
{
    let numerator = scaled(alloc, f, minus_one(f), a.numerator())?;
    let denominator = a.denominator().copy(alloc, f)?;
    Ok(Fraction::of(numerator, denominator))
}

/// The inverse of a fraction that is not 0.
pub(crate) fn inverse_of(alloc: Global, f: &SmallField, a: &Fraction) -> Result<Fraction, NoMemory>
    requires lowest { IsLowestTerms (small_ops f.now) a.now.0 a.now.1 }
    requires nonzero { a.now.0 ≢ [] }
    ensures lowest { IfOk result (λ w. IsLowestTerms (small_ops f.now) w.0 w.1) }
    ensures inverse { IfOk result (IsFractionInverse (small_ops f.now) a.now) }
{
    let num = a.denominator().copy(alloc, f)?;
    let den = a.numerator().copy(alloc, f)?;
    Ok(with_monic_denominator(alloc, f, num, den)?)
}

/// Whether the polynomials are the same.
fn are_same_polynomials(a: &Poly, b: &Poly) -> bool
    ensures { IsTrue result ↔ (a.now ≡ b.now) }
{
    order_law();
    match order_of(a, b) {
        Ordering::Equal => true,
        Ordering::Less => false,
        Ordering::Greater => false,
    }
}

/// Whether the fractions are the same.
pub(crate) fn are_same(a: &Fraction, b: &Fraction) -> bool
    ensures { IsTrue result ↔ (a.now ≡ b.now) }
{
    if are_same_polynomials(a.numerator(), b.numerator()) {
        return are_same_polynomials(a.denominator(), b.denominator());
    }
    false
}
