// Products and divisions of polynomials.
ghost use Rattle.std.specs.Prelude.{◌≢◌, [], IfOk};
ghost use Rattle.theory_rings.specs.Polynomial.{IsTrimmed};
ghost use Rattle.spl_field.specs.SmallField.{small_ops};
ghost use Rattle.spl_poly.specs.Operations.{IsOver};

use crate::entries::{mixed, next, nonzero};
use anyhow::Result;
use spl_field::field::NoMemory;
use spl_field::small::SmallField;
use spl_poly::poly::{Division, Poly};
use std::alloc::Global;

/// The number of coefficients of a factor and of a divisor.
const SHORT: usize = 32;

/// The number of coefficients of what is divided.
const LONG: usize = 63;

/// A polynomial with n coefficients, none of which is 0.
pub(crate) fn poly(alloc: Global, f: &SmallField, n: usize, seed: u32) -> Result<Poly, NoMemory>
    ensures over { IfOk result (IsOver (small_ops f.now)) }
    ensures trimmed { IfOk result (IsTrimmed 0) }
{
    let mut items = Vec::new(alloc);
    let size = f.size();
    let mut state = seed;
    for _ in 0..n {
        state = next(state);
        items.push(nonzero(state, size))?;
    }
    Poly::from_list(alloc, f, items)
}

/// The checksum of the coefficients.
fn checksum(p: &Poly) -> u32 {
    let mut sum = 0;
    for i in 0..LONG {
        if let Some(c) = p.coefficient(i) {
            sum = mixed(sum, *c);
        }
    }
    sum
}

/// The line on the polynomial.
fn line(alloc: Global, p: &Poly) -> Result<String> {
    let sum = checksum(p);
    match p.degree() {
        Some(degree) => Ok(format!(in alloc; "degree {degree} checksum {sum}")?),
        None => Ok(format!(in alloc; "zero")?),
    }
}

/// The last of count products.
fn last_product(
    alloc: Global,
    f: &SmallField,
    a: &Poly,
    b: &Poly,
    count: u64,
) -> Result<Poly, NoMemory>
    requires left { IsOver (small_ops f.now) a.now }
    requires right { IsOver (small_ops f.now) b.now }
{
    for _ in 1..count {
        a.mul(alloc, f, b)?;
    }
    a.mul(alloc, f, b)
}

/// Multiplies count times, and answers the line on the last product.
pub(crate) fn multiply(alloc: Global, f: &SmallField, count: u64) -> Result<String> {
    let a = poly(alloc, f, SHORT, 1)?;
    let b = poly(alloc, f, SHORT, 2)?;
    let last = last_product(alloc, f, &a, &b, count)?;
    line(alloc, &last)
}

/// The last of count divisions.
fn last_division(
    alloc: Global,
    f: &SmallField,
    a: &Poly,
    b: &Poly,
    count: u64,
) -> Result<Division, NoMemory>
    requires left { IsOver (small_ops f.now) a.now }
    requires right { IsOver (small_ops f.now) b.now }
    requires nonzero { b.now ≢ [] }
{
    for _ in 1..count {
        a.divide(alloc, f, b)?;
    }
    a.divide(alloc, f, b)
}

/// Divides count times, and answers the line on the last remainder.
pub(crate) fn divide(alloc: Global, f: &SmallField, count: u64) -> Result<String> {
    let a = poly(alloc, f, LONG, 1)?;
    let b = poly(alloc, f, SHORT, 2)?;
    if b.is_zero() {
        return line(alloc, &b);
    }
    let last = last_division(alloc, f, &a, &b, count)?;
    line(alloc, &last.remainder)
}
