// The inverse of a remainder by an irreducible polynomial.
ghost use Rattle.std.specs.Prelude.{◌≡◌, ◌≢◌, ℕ, [], ◌∷◌, length, IfOk, slice_index};
ghost use Rattle.theory_rings.specs.Ops.{IsElem};
ghost use Rattle.theory_rings.specs.Sum.{at};
ghost use Rattle.theory_rings.specs.Polynomial.{convolution_of};
ghost use Rattle.spl_field.specs.SmallField.{small_ops};
ghost use Rattle.spl_poly.specs.Operations.{IsOver};
ghost use Rattle.theory_fractions.specs.PolynomialLists.{IsPolynomialList};
ghost use Rattle.theory_remainders.specs.Irreducible.{IsIrreducible};
ghost use Rattle.theory_remainders.specs.RemainderLaws.{IsRemainder, IsRemainderOf};

use crate::remainder::{negated, rest_of, scaled};
use spl_field::field::NoMemory;
use spl_field::small::SmallField;
use spl_poly::poly::Poly;
use std::alloc::Global;

/// The polynomial 1.
pub(crate) fn one(alloc: Global) -> Result<Poly, NoMemory>
    ensures { IfOk result (λ p. p ≡ 1 ∷ []) }
{
    Ok(Poly::from_slice(alloc, &[1])?)
}

/// The polynomial 0.
pub(crate) fn zero(alloc: Global) -> Result<Poly, NoMemory>
    ensures { IfOk result (λ p. p ≡ []) }
{
    Ok(Poly::from_slice(alloc, &[])?)
}

/// s - q · t.
fn difference(alloc: Global, f: &SmallField, s: &Poly, q: &Poly, t: &Poly) -> Result<Poly, NoMemory>
    requires s_over { IsOver (small_ops f.now) s.now }
    requires q_over { IsOver (small_ops f.now) q.now }
    requires t_over { IsOver (small_ops f.now) t.now }
    ensures value { IfOk result (λ r. (k : ℕ)
        → at (small_ops f.now) r k ≡ (small_ops f.now).add (at (small_ops f.now) s.now k)
        ((small_ops f.now).neg (convolution_of (small_ops f.now) (at (small_ops f.now) q.now)
        (at (small_ops f.now) t.now) k))) }
    ensures over { IfOk result (IsOver (small_ops f.now)) }
{
    let product = q.mul(alloc, f, t)?;
    let negative = negated(alloc, f, &product)?;
    Ok(s.add(alloc, f, &negative)?)
}

/// The inverse of an element other than 0.
fn element_inverse(f: &SmallField, a: u8) -> u8
    requires elem { IsElem (small_ops f.now) a }
    requires nonzero { a ≢ 0 }
    ensures elem { IsElem (small_ops f.now) result }
    ensures value { result ≡ (small_ops f.now).inv a }
{
    f.inverse(a).unwrap()
}

/// The one coefficient of a constant other than 0.
fn constant_item(a: &Poly) -> u8
    requires { length a.now ≡ 1 }
    ensures { result ≡ slice_index a.now 0 }
{
    a.as_slice()[0]
}

/// The inverse of a constant other than 0.
fn constant_inverse(f: &SmallField, a: &Poly) -> u8
    requires polynomial { IsPolynomialList (small_ops f.now) a.now }
    requires constant { length a.now ≡ 1 }
    ensures elem { IsElem (small_ops f.now) result }
    ensures nonzero { result ≢ 0 }
    ensures value { (small_ops f.now).mul result (slice_index a.now 0) ≡ (small_ops f.now).one }
{
    let item = constant_item(a);
    element_inverse(f, item)
}

/// The inverse of a remainder other than 0, by Euclid's algorithm: each remainder comes with a factor, of which it is
/// the product with a, modulo the modulus.
pub(crate) fn inverse_of(
    alloc: Global,
    f: &SmallField,
    modulus: &Poly,
    a: &Poly,
) -> Result<Poly, NoMemory>
    requires irreducible { IsIrreducible (small_ops f.now) modulus.now }
    requires remainder { IsRemainder (small_ops f.now) modulus.now a.now }
    requires nonzero { a.now ≢ [] }
    ensures value { IfOk result (λ r. IsRemainderOf (small_ops f.now)
        (convolution_of (small_ops f.now) (at (small_ops f.now) r) (at (small_ops f.now) a.now)) modulus.now (1 ∷ [])) }
    ensures remainder { IfOk result (IsRemainder (small_ops f.now) modulus.now) }
{
    let mut first = modulus.copy(alloc, f)?;
    let mut first_factor = zero(alloc)?;
    let mut second = a.copy(alloc, f)?;
    let mut second_factor = one(alloc)?;
    'steps: while !second.is_zero() {
        let division = first.divide(alloc, f, &second)?;
        let factor = difference(alloc, f, &first_factor, &division.quotient, &second_factor)?;
        first = second;
        first_factor = second_factor;
        second = division.remainder;
        second_factor = factor;
    }
    let multiple = scaled(alloc, f, constant_inverse(f, &first), &first_factor)?;
    Ok(rest_of(alloc, f, modulus, multiple)?)
}
