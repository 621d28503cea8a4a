// The monic polynomial of least degree that makes each fraction of a list a polynomial.
ghost use Rattle.std.specs.Prelude.{◌≡◌, ◌≢◌, [], All, IfOk, IsTrue};
ghost use Rattle.theory_rings.specs.Sum.{at};
ghost use Rattle.theory_rings.specs.Polynomial.{IsTrimmed, degree};
ghost use Rattle.spl_field.specs.SmallField.{small_ops};
ghost use Rattle.spl_poly.specs.Operations.{IsOver, Divides};
ghost use Rattle.theory_fractions.specs.Fraction.{IsLowestTerms};
ghost use Rattle.theory_fractions.specs.CommonDenominator.{IsLeastMultiple, IsCommonDenominator};

use crate::fraction::Fraction;
use crate::reduction::{common_divisor, is_constant, one_poly};
use spl_field::field::NoMemory;
use spl_field::small::SmallField;
use spl_poly::poly::Poly;
use std::alloc::Global;

/// Whether b divides a, for a monic polynomial b.
fn is_multiple(alloc: Global, f: &SmallField, a: &Poly, b: &Poly) -> Result<bool, NoMemory>
    requires a_over { IsOver (small_ops f.now) a.now }
    requires b_over { IsOver (small_ops f.now) b.now }
    requires nonzero { b.now ≢ [] }
    requires monic { at (small_ops f.now) b.now (degree b.now) ≡ (small_ops f.now).one }
    ensures { IfOk result (λ t. IsTrue t → Divides (small_ops f.now) b.now a.now) }
{
    if is_constant(b) {
        return Ok(true);
    }
    let division = a.divide(alloc, f, b)?;
    Ok(division.remainder.is_zero())
}

/// The least common multiple of monic polynomials, from a greatest common divisor.
fn multiple_by_divisor(alloc: Global, f: &SmallField, a: &Poly, b: &Poly) -> Result<Poly, NoMemory>
    requires a_over { IsOver (small_ops f.now) a.now }
    requires a_trimmed { IsTrimmed 0 a.now }
    requires a_nonzero { a.now ≢ [] }
    requires a_monic { at (small_ops f.now) a.now (degree a.now) ≡ (small_ops f.now).one }
    requires b_over { IsOver (small_ops f.now) b.now }
    requires b_trimmed { IsTrimmed 0 b.now }
    requires b_nonzero { b.now ≢ [] }
    requires b_monic { at (small_ops f.now) b.now (degree b.now) ≡ (small_ops f.now).one }
    ensures value { IfOk result (IsLeastMultiple (small_ops f.now) a.now b.now) }
    ensures over { IfOk result (IsOver (small_ops f.now)) }
    ensures trimmed { IfOk result (IsTrimmed 0) }
{
    let divisor = common_divisor(alloc, f, a, b)?;
    let division = b.divide(alloc, f, &divisor)?;
    Ok(a.mul(alloc, f, &division.quotient)?)
}

/// The least common multiple of monic polynomials.
fn common_multiple(alloc: Global, f: &SmallField, a: Poly, b: &Poly) -> Result<Poly, NoMemory>
    requires a_over { IsOver (small_ops f.now) a }
    requires a_trimmed { IsTrimmed 0 a }
    requires a_nonzero { a ≢ [] }
    requires a_monic { at (small_ops f.now) a (degree a) ≡ (small_ops f.now).one }
    requires b_over { IsOver (small_ops f.now) b.now }
    requires b_trimmed { IsTrimmed 0 b.now }
    requires b_nonzero { b.now ≢ [] }
    requires b_monic { at (small_ops f.now) b.now (degree b.now) ≡ (small_ops f.now).one }
    ensures value { IfOk result (IsLeastMultiple (small_ops f.now) a b.now) }
    ensures over { IfOk result (IsOver (small_ops f.now)) }
    ensures trimmed { IfOk result (IsTrimmed 0) }
{
    if is_multiple(alloc, f, &a, b)? {
        return Ok(a);
    }
    Ok(multiple_by_divisor(alloc, f, &a, b)?)
}

/// The monic polynomial of least degree that makes each of the list a polynomial.
pub(crate) fn denominator_of(
    alloc: Global,
    f: &SmallField,
    list: &[Fraction],
) -> Result<Poly, NoMemory>
    requires { All (λ w. IsLowestTerms (small_ops f.now) w.0 w.1) list.now }
    ensures value { IfOk result (IsCommonDenominator (small_ops f.now) list.now) }
    ensures over { IfOk result (IsOver (small_ops f.now)) }
    ensures trimmed { IfOk result (IsTrimmed 0) }
{
    let mut found = one_poly(alloc)?;
    for i in 0..list.len() {
        found = common_multiple(alloc, f, found, list[i].denominator())?;
    }
    Ok(found)
}
