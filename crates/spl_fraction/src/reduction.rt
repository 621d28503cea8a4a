// Lowest terms.
ghost use Rattle.std.specs.Prelude.{◌≡◌, ◌≢◌, ◌↔◌, ◌⊎◌, ℕ, [], ◌∷◌, length, IfOk, IsTrue, slice_index};
ghost use Rattle.theory_rings.specs.Ops.{Ops, IsElem};
ghost use Rattle.theory_rings.specs.Polynomial.{IsTrimmed, degree};
ghost use Rattle.spl_field.specs.SmallField.{small_ops};
ghost use Rattle.spl_poly.specs.Operations.{IsOver, IsProduct, IsZeroOrMonic};
ghost use Rattle.theory_fractions.specs.Fraction.{IsFraction, IsCoprime, IsLowestTerms};
ghost use Rattle.theory_fractions.specs.CommonDivisor.{IsCommonDivisor};

use crate::fraction::Fraction;
use spl_field::field::NoMemory;
use spl_field::small::SmallField;
use spl_lattice::generator::generator;
use spl_lattice::rows::PolyRow;
use spl_poly::poly::Poly;
use std::alloc::Global;

/// Whether the polynomial is a constant other than 0.
pub(crate) fn is_constant(a: &Poly) -> bool
    ensures { IsTrue result ↔ (length a.now ≡ 1) }
{
    match a.degree() {
        Some(degree) => degree == 0,
        None => false,
    }
}

/// Whether one of them is a constant other than 0.
fn has_constant(a: &Poly, b: &Poly) -> bool
    ensures { IsTrue result → (length a.now ≡ 1) ⊎ (length b.now ≡ 1) }
{
    is_constant(a) || is_constant(b)
}

/// The constant 1.
pub(crate) fn one_poly(alloc: Global) -> Result<Poly, NoMemory>
    ensures { IfOk result (λ p. p ≡ 1 ∷ []) }
{
    Ok(Poly::from_slice(alloc, &[1])?)
}

/// The product of a constant other than 0 and a polynomial.
pub(crate) fn scaled(alloc: Global, f: &SmallField, c: u8, a: &Poly) -> Result<Poly, NoMemory>
    requires elem { IsElem (small_ops f.now) c }
    requires nonzero { c ≢ 0 }
    requires over { IsOver (small_ops f.now) a.now }
    ensures value { IfOk result (IsProduct (small_ops f.now) (c ∷ []) a.now) }
    ensures over { IfOk result (IsOver (small_ops f.now)) }
    ensures trimmed { IfOk result (IsTrimmed 0) }
{
    let constant = Poly::from_slice(alloc, &[c])?;
    Ok(constant.mul(alloc, f, a)?)
}

/// The leading coefficient of a polynomial that is not 0.
fn lead(a: &Poly) -> u8
    requires { a.now ≢ [] }
    ensures value { result ≡ slice_index a.now (degree a.now) }
    ensures nonzero { result ≢ 0 }
    ensures elem { (o : Ops ℕ) → IsOver o a.now → IsElem o result }
{
    let degree = a.degree().unwrap();
    *a.coefficient(degree).unwrap()
}

/// Whether the leading coefficient of a polynomial that is not 0 is 1.
pub(crate) fn is_monic(a: &Poly) -> bool
    requires { a.now ≢ [] }
    ensures { IsTrue result ↔ (slice_index a.now (degree a.now) ≡ 1) }
{
    lead(a) == 1
}

/// The inverse of an element other than 0.
fn inverse(f: &SmallField, a: u8) -> u8
    requires elem { IsElem (small_ops f.now) a }
    requires nonzero { a ≢ 0 }
    ensures elem { IsElem (small_ops f.now) result }
    ensures nonzero { result ≢ 0 }
    ensures value { (small_ops f.now).mul result a ≡ (small_ops f.now).one }
{
    f.inverse(a).unwrap()
}

/// The fraction of coprime polynomials, both divided by the leading coefficient of the denominator.
pub(crate) fn with_monic_denominator(
    alloc: Global,
    f: &SmallField,
    num: Poly,
    den: Poly,
) -> Result<Fraction, NoMemory>
    requires num_over { IsOver (small_ops f.now) num }
    requires num_trimmed { IsTrimmed 0 num }
    requires den_over { IsOver (small_ops f.now) den }
    requires den_trimmed { IsTrimmed 0 den }
    requires den_nonzero { den ≢ [] }
    requires coprime { IsCoprime (small_ops f.now) num den }
    ensures lowest { IfOk result (λ w. IsLowestTerms (small_ops f.now) w.0 w.1) }
    ensures value { IfOk result (λ w. IsFraction (small_ops f.now) w num den) }
{
    let lead = lead(&den);
    if lead == 1 {
        return Ok(Fraction::of(num, den));
    }
    let unit = inverse(f, lead);
    Ok(Fraction::of(scaled(alloc, f, unit, &num)?, scaled(alloc, f, unit, &den)?))
}

/// The monic greatest common divisor of polynomials.
pub(crate) fn common_divisor(
    alloc: Global,
    f: &SmallField,
    a: &Poly,
    b: &Poly,
) -> Result<Poly, NoMemory>
    requires a_over { IsOver (small_ops f.now) a.now }
    requires b_over { IsOver (small_ops f.now) b.now }
    ensures divisor { IfOk result (IsCommonDivisor (small_ops f.now) a.now b.now) }
    ensures monic { IfOk result (IsZeroOrMonic (small_ops f.now)) }
    ensures over { IfOk result (IsOver (small_ops f.now)) }
    ensures trimmed { IfOk result (IsTrimmed 0) }
{
    let mut list = PolyRow::new(alloc);
    list.push(a.copy(alloc, f)?)?;
    list.push(b.copy(alloc, f)?)?;
    Ok(generator(alloc, f, &list)?.value)
}

/// The fraction of polynomials with a common divisor.
fn divided(
    alloc: Global,
    f: &SmallField,
    num: &Poly,
    den: &Poly,
    divisor: &Poly,
) -> Result<Fraction, NoMemory>
    requires num_over { IsOver (small_ops f.now) num.now }
    requires num_trimmed { IsTrimmed 0 num.now }
    requires den_over { IsOver (small_ops f.now) den.now }
    requires den_trimmed { IsTrimmed 0 den.now }
    requires den_nonzero { den.now ≢ [] }
    requires divisor_over { IsOver (small_ops f.now) divisor.now }
    requires divisor_trimmed { IsTrimmed 0 divisor.now }
    requires divisor_nonzero { divisor.now ≢ [] }
    requires divisor { IsCommonDivisor (small_ops f.now) num.now den.now divisor.now }
    ensures lowest { IfOk result (λ w. IsLowestTerms (small_ops f.now) w.0 w.1) }
    ensures value { IfOk result (λ w. IsFraction (small_ops f.now) w num.now den.now) }
{
    let left = num.divide(alloc, f, divisor)?;
    let right = den.divide(alloc, f, divisor)?;
    Ok(with_monic_denominator(alloc, f, left.quotient, right.quotient)?)
}

/// The fraction in lowest terms; constants take no common divisor.
pub(crate) fn reduced(
    alloc: Global,
    f: &SmallField,
    num: Poly,
    den: Poly,
) -> Result<Fraction, NoMemory>
    requires num_over { IsOver (small_ops f.now) num }
    requires num_trimmed { IsTrimmed 0 num }
    requires den_over { IsOver (small_ops f.now) den }
    requires den_trimmed { IsTrimmed 0 den }
    requires den_nonzero { den ≢ [] }
    ensures lowest { IfOk result (λ w. IsLowestTerms (small_ops f.now) w.0 w.1) }
    ensures value { IfOk result (λ w. IsFraction (small_ops f.now) w num den) }
{
    if num.is_zero() {
        return Ok(Fraction::of(num, one_poly(alloc)?));
    }
    if has_constant(&num, &den) {
        return Ok(with_monic_denominator(alloc, f, num, den)?);
    }
    let divisor = common_divisor(alloc, f, &num, &den)?;
    if is_constant(&divisor) {
        return Ok(with_monic_denominator(alloc, f, num, den)?);
    }
    Ok(divided(alloc, f, &num, &den, &divisor)?)
}

/// Whether only constants divide both, of which the second is not 0.
pub(crate) fn are_coprime(
    alloc: Global,
    f: &SmallField,
    a: &Poly,
    b: &Poly,
) -> Result<bool, NoMemory>
    requires a_over { IsOver (small_ops f.now) a.now }
    requires a_trimmed { IsTrimmed 0 a.now }
    requires b_over { IsOver (small_ops f.now) b.now }
    requires b_trimmed { IsTrimmed 0 b.now }
    requires b_nonzero { b.now ≢ [] }
    ensures { IfOk result (λ r. IsTrue r ↔ IsCoprime (small_ops f.now) a.now b.now) }
{
    if is_constant(a) {
        return Ok(true);
    }
    let divisor = common_divisor(alloc, f, a, b)?;
    Ok(is_constant(&divisor))
}
