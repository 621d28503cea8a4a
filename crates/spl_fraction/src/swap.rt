// The fraction with 1/x put for x.
ghost use Rattle.std.specs.Prelude.{◌≡◌, ◌<◌, ◌≤◌, length, IfOk};
ghost use Rattle.theory_rings.specs.Sum.{at};
ghost use Rattle.theory_rings.specs.Polynomial.{IsTrimmed};
ghost use Rattle.spl_field.specs.SmallField.{small_ops};
ghost use Rattle.spl_poly.specs.Operations.{IsOver, without_zeros};
ghost use Rattle.theory_fractions.specs.Fraction.{IsLowestTerms};
ghost use Rattle.spl_fraction.specs.Valuation.{reversed, IsSwapped};

use crate::fraction::Fraction;
use crate::reduction::reduced;
use spl_field::field::NoMemory;
use spl_field::small::SmallField;
use spl_poly::poly::Poly;
use std::alloc::Global;

/// The coefficient of the power i, and 0 past the end.
fn coefficient_or_zero(f: &SmallField, a: &Poly, i: usize) -> u8
    ensures { result ≡ at (small_ops f.now) a.now i }
{
    let _ = f;
    match a.coefficient(i) {
        Some(c) => *c,
        None => 0,
    }
}

/// The first n coefficients in the other order.
fn reversed_list(alloc: Global, f: &SmallField, a: &Poly, n: usize) -> Result<Vec<u8>, NoMemory>
    ensures { IfOk result (λ c. c.items ≡ reversed (small_ops f.now) n a.now) }
{
    let mut items = Vec::with_capacity(alloc, n)?;
    for k in 0..n {
        items.push(coefficient_or_zero(f, a, n - 1 - k))?;
    }
    Ok(items)
}

/// The polynomial with the first n coefficients in the other order.
fn reversed_poly(alloc: Global, f: &SmallField, a: &Poly, n: usize) -> Result<Poly, NoMemory>
    requires { IsOver (small_ops f.now) a.now }
    ensures value { IfOk result (λ r. r ≡ without_zeros (reversed (small_ops f.now) n a.now)) }
    ensures over { IfOk result (IsOver (small_ops f.now)) }
    ensures trimmed { IfOk result (IsTrimmed 0) }
{
    let items = reversed_list(alloc, f, a, n)?;
    Ok(Poly::from_list(alloc, f, items)?)
}

/// The number of coefficients of the longer one of numerator and denominator.
fn size_of(a: &Fraction) -> usize
    ensures numerator { length a.now.0 ≤ result }
    ensures denominator { length a.now.1 ≤ result }
{
    let above = a.numerator().as_slice().len();
    let below = a.denominator().as_slice().len();
    if above < below {
        return below;
    }
    above
}

/// The fraction with 1/x put for x, written in x again.
pub(crate) fn swapped(alloc: Global, f: &SmallField, a: &Fraction) -> Result<Fraction, NoMemory>
    requires { IsLowestTerms (small_ops f.now) a.now.0 a.now.1 }
    ensures lowest { IfOk result (λ w. IsLowestTerms (small_ops f.now) w.0 w.1) }
    ensures value { IfOk result (IsSwapped (small_ops f.now) a.now) }
{
    let size = size_of(a);
    let numerator = reversed_poly(alloc, f, a.numerator(), size)?;
    let denominator = reversed_poly(alloc, f, a.denominator(), size)?;
    Ok(reduced(alloc, f, numerator, denominator)?)
}
