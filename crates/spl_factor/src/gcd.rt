// Greatest common divisors, and division where it leaves no remainder.
ghost use Rattle.std.specs.Prelude.{◌≡◌, ◌≢◌, ◌+◌, ◌≤◌, [], length, IfOk, MatchOption};
ghost use Rattle.theory_rings.specs.Polynomial.{degree};
ghost use Rattle.theory_rings.specs.Power.{power};
ghost use Rattle.theory_fractions.specs.PolynomialLists.{IsPolynomialList};
ghost use Rattle.spl_field.specs.SmallField.{small_ops};
ghost use Rattle.spl_poly.specs.Operations.{IsOver};
ghost use Rattle.spl_factor.specs.Steps.{ring, poly, DividesList, IsMonicGcd, IsMonicList};

use spl_field::field::NoMemory;
use spl_field::small::SmallField;
use spl_poly::poly::Poly;
use std::alloc::Global;

/// The degree, and 0 for the polynomial 0.
pub(crate) fn degree_of(a: &Poly) -> usize
    ensures { result ≡ degree a.now }
{
    match a.degree() {
        Some(degree) => degree,
        None => 0,
    }
}

/// The monic greatest common divisor, by Euclid's algorithm.
pub(crate) fn gcd(alloc: Global, f: &SmallField, a: &Poly, b: &Poly) -> Result<Poly, NoMemory>
    requires a_over { IsOver (small_ops f.now) a.now }
    requires b_over { IsOver (small_ops f.now) b.now }
    requires nonzero { a.now ≢ [] }
    ensures { IfOk result (IsMonicGcd f.now a.now b.now) }
{
    let mut first = a.copy(alloc, f)?;
    let mut second = b.copy(alloc, f)?;
    'steps: while !second.is_zero() {
        let rest = first.divide(alloc, f, &second)?.remainder;
        first = second;
        second = rest;
    }
    Ok(first.monic(alloc, f)?)
}

/// The quotient; None exactly where b does not divide a.
pub(crate) fn exact_quotient(
    alloc: Global,
    f: &SmallField,
    a: &Poly,
    b: &Poly,
) -> Result<Option<Poly>, NoMemory>
    requires a_over { IsOver (small_ops f.now) a.now }
    requires b_list { IsMonicList f.now b.now }
    ensures { IfOk result (λ r. MatchOption r (DividesList f.now b.now a.now → ⊥)
        (λ q. IsPolynomialList (small_ops f.now) q
        × (poly f.now a.now ≡ (ring f.now).◌⊗◌ (poly f.now q) (poly f.now b.now)))) }
{
    let division = a.divide(alloc, f, b)?;
    if !division.remainder.is_zero() {
        return Ok(None);
    }
    Ok(Some(division.quotient))
}

/// How often a polynomial is divided, and what is left.
#[derive(Drop)]
pub(crate) struct Divided {
    pub(crate) exponent: usize,
    pub(crate) rest: Poly,
}

/// Divides a by b as often as it goes.
pub(crate) fn divide_out(
    alloc: Global,
    f: &SmallField,
    a: Poly,
    b: &Poly,
) -> Result<Divided, NoMemory>
    requires a_list { IsMonicList f.now a }
    requires b_list { IsMonicList f.now b.now }
    requires positive { 1 ≤ degree b.now }
    ensures rest { IfOk result (λ d. IsMonicList f.now d.rest) }
    ensures whole { IfOk result (λ d. poly f.now a
        ≡ (ring f.now).◌⊗◌ (power (ring f.now).ring (poly f.now b.now) d.exponent) (poly f.now d.rest)) }
    ensures no_more { IfOk result (λ d. DividesList f.now b.now d.rest → ⊥) }
    ensures fewer { IfOk result (λ d. d.exponent + length d.rest ≤ length a) }
{
    let _most = degree_of(&a);
    let mut rest = a;
    let mut exponent = 0;
    'steps: while let Some(quotient) = exact_quotient(alloc, f, &rest, b)? {
        rest = quotient;
        exponent += 1;
    }
    Ok(Divided { exponent, rest })
}
