// The valuation of a fraction at a place.
ghost use Rattle.std.specs.Prelude.{◌≡◌, ◌≢◌, ◌↔◌, ◌<◌, ◌≤◌, [], length, pos, ◌-ℤ◌, IfOk, IfSome};
ghost use Rattle.theory_rings.specs.Polynomial.{IsTrimmed};
ghost use Rattle.spl_field.specs.SmallField.{small_ops};
ghost use Rattle.spl_poly.specs.Operations.{IsOver, IsProduct, Divides};
ghost use Rattle.theory_fractions.specs.Fraction.{IsLowestTerms};
ghost use Rattle.spl_fraction.specs.Valuation.{IsPlaceOver, HasValuation, HasValuationAtInfinity};
ghost use Rattle.spl_fraction.specs.Multiplicity.{HasMultiplicity};

use crate::fraction::Fraction;
use crate::place::Place;
use spl_field::field::NoMemory;
use spl_field::small::SmallField;
use spl_poly::poly::Poly;
use std::alloc::Global;

/// The quotient by m, where m divides a.
fn exact_quotient(
    alloc: Global,
    f: &SmallField,
    a: &Poly,
    m: &Poly,
) -> Result<Option<Poly>, NoMemory>
    requires a_over { IsOver (small_ops f.now) a.now }
    requires a_trimmed { IsTrimmed 0 a.now }
    requires m_over { IsOver (small_ops f.now) m.now }
    requires m_trimmed { IsTrimmed 0 m.now }
    requires nonzero { m.now ≢ [] }
    ensures none { IfOk result (λ o. o ≡ None → Divides (small_ops f.now) m.now a.now → ⊥) }
    ensures value { IfOk result (λ o. IfSome o (λ q. IsProduct (small_ops f.now) q m.now a.now)) }
    ensures over { IfOk result (λ o. IfSome o (IsOver (small_ops f.now))) }
    ensures trimmed { IfOk result (λ o. IfSome o (IsTrimmed 0)) }
{
    let division = a.divide(alloc, f, m)?;
    if division.remainder.is_zero() {
        return Ok(Some(division.quotient));
    }
    Ok(None)
}

/// How often m divides a, which is not 0.
fn multiplicity(alloc: Global, f: &SmallField, a: &Poly, m: &Poly) -> Result<usize, NoMemory>
    requires a_over { IsOver (small_ops f.now) a.now }
    requires a_trimmed { IsTrimmed 0 a.now }
    requires a_nonzero { a.now ≢ [] }
    requires m_over { IsOver (small_ops f.now) m.now }
    requires m_degree { 1 < length m.now }
    ensures value { IfOk result (HasMultiplicity (small_ops f.now) m.now a.now) }
    ensures small { IfOk result (λ n. n ≤ length a.now) }
{
    let _ = m.degree();
    let _ = a.as_slice().len();
    let mut rest = a.copy(alloc, f)?;
    let mut count = 0;
    'steps: while let Some(quotient) = exact_quotient(alloc, f, &rest, m)? {
        rest = quotient;
        count += 1;
    }
    Ok(count)
}

/// The difference of numbers that are at most the numbers of coefficients.
fn difference(a: &Fraction, above: usize, below: usize) -> i64
    requires above { above ≤ length a.now.0 }
    requires below { below ≤ length a.now.1 }
    ensures { result ≡ pos above -ℤ pos below }
{
    let _ = a.numerator().as_slice().len();
    let _ = a.denominator().as_slice().len();
    above as i64 - below as i64
}

/// The degree of the denominator less that of the numerator, of a fraction other than 0.
fn degree_difference(a: &Fraction) -> i64
    requires numerator { a.now.0 ≢ [] }
    requires denominator { a.now.1 ≢ [] }
    ensures { HasValuationAtInfinity a.now result }
{
    let above = a.numerator().as_slice().len() as i64;
    let below = a.denominator().as_slice().len() as i64;
    below - above
}

/// The valuation of the fraction at the place; None where the fraction is 0.
pub(crate) fn valuation_of(
    alloc: Global,
    f: &SmallField,
    a: &Fraction,
    place: &Place,
) -> Result<Option<i64>, NoMemory>
    requires lowest { IsLowestTerms (small_ops f.now) a.now.0 a.now.1 }
    requires place { IsPlaceOver (small_ops f.now) place.now }
    ensures none { IfOk result (λ o. (o ≡ None) ↔ (a.now.0 ≡ [])) }
    ensures value { IfOk result (λ o. IfSome o (HasValuation (small_ops f.now) place.now a.now)) }
{
    if a.numerator().is_zero() {
        return Ok(None);
    }
    match place {
        Place::Finite { poly } => {
            let above = multiplicity(alloc, f, a.numerator(), poly)?;
            let below = multiplicity(alloc, f, a.denominator(), poly)?;
            Ok(Some(difference(a, above, below)))
        }
        Place::Infinity => Ok(Some(degree_difference(a))),
    }
}
