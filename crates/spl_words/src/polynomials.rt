// Calls on polynomials.
ghost use Rattle.std.specs.Prelude.{All};
ghost use Rattle.spl_field.specs.SmallField.{small_ops};
ghost use Rattle.spl_poly.specs.Operations.{IsOver};

use crate::fault::Fault;
use crate::{args, show};
use spl_factor::factors::factor;
use spl_field::small::SmallField;
use spl_lattice::generator::generator;
use spl_poly::order::order_of;
use spl_poly::poly::Poly;
use std::alloc::Global;

/// `from_slice C`: of numbers below 256.
fn from_slice(alloc: Global, c: &str, out: &mut Vec<u8>) -> Result<(), Fault> {
    let c = args::bytes(alloc, 256, c)?;
    show::poly_of(out, Poly::from_slice(alloc, c.as_slice()))
}

/// `coefficient A I`
fn coefficient(
    alloc: Global,
    f: &SmallField,
    words: &[&str],
    out: &mut Vec<u8>,
) -> Result<(), Fault> {
    let [a, i] = words else {
        return Err(Fault::BadLine);
    };
    let i = args::number(i)? as usize;
    let a = args::poly(alloc, f, a)?;
    match a.coefficient(i) {
        Some(c) => show::number(out, u32::from(*c)),
        None => show::word(out, "none"),
    }
}

/// `pow_mod A N B`: the remainder of the power by B.
fn pow_mod(alloc: Global, f: &SmallField, words: &[&str], out: &mut Vec<u8>) -> Result<(), Fault> {
    let [a, n, modulus] = words else {
        return Err(Fault::BadLine);
    };
    let n = u64::from(args::number(n)?);
    let a = args::poly(alloc, f, a)?;
    let modulus = args::poly(alloc, f, modulus)?;
    match modulus.degree() {
        Some(1..) => show::poly_of(out, a.pow_mod(alloc, f, n, &modulus)),
        _ => Err(Fault::BadLine),
    }
}

/// `factor A`: the leading coefficient, and each factor with its exponent.
fn factor_of(alloc: Global, f: &SmallField, a: &Poly, out: &mut Vec<u8>) -> Result<(), Fault>
    requires { IsOver (small_ops f.now) a.now }
{
    if a.is_zero() {
        return Err(Fault::BadLine);
    }
    let factors = factor(alloc, f, a)?;
    show::number(out, u32::from(factors.leading))?;
    show::factors(out, factors.list.as_slice())
}

/// The answer of a call on one polynomial.
fn on_one(
    alloc: Global,
    f: &SmallField,
    call: &str,
    a: &Poly,
    out: &mut Vec<u8>,
) -> Result<(), Fault>
    requires { IsOver (small_ops f.now) a.now }
{
    match call {
        "from_list" => show::poly_of(out, a.copy(alloc, f)),
        "copy" => show::poly_of(out, a.copy(alloc, f)),
        "degree" => show::place(out, a.degree()),
        "is_zero" => show::truth(out, a.is_zero()),
        "factor" => factor_of(alloc, f, a, out),
        "monic" => {
            if a.is_zero() {
                return Err(Fault::BadLine);
            }
            show::poly_of(out, a.monic(alloc, f))
        }
        _ => Err(Fault::BadLine),
    }
}

/// The answer of a call on two polynomials.
fn on_two(
    alloc: Global,
    f: &SmallField,
    call: &str,
    a: &Poly,
    b: &Poly,
    out: &mut Vec<u8>,
) -> Result<(), Fault>
    requires a_over { IsOver (small_ops f.now) a.now }
    requires b_over { IsOver (small_ops f.now) b.now }
{
    match call {
        "add" => show::poly_of(out, a.add(alloc, f, b)),
        "mul" => show::poly_of(out, a.mul(alloc, f, b)),
        "order_of" => show::ordering(out, order_of(a, b)),
        "divide" => {
            if b.is_zero() {
                return Err(Fault::BadLine);
            }
            show::division(out, &a.divide(alloc, f, b)?)
        }
        _ => Err(Fault::BadLine),
    }
}

/// The answer of a call on polynomials alone.
fn on_polys(
    alloc: Global,
    f: &SmallField,
    call: &str,
    words: &[&str],
    out: &mut Vec<u8>,
) -> Result<(), Fault> {
    let given = args::polys(alloc, f, words)?;
    match given.as_slice() {
        [a] => on_one(alloc, f, call, a, out),
        [a, b] => on_two(alloc, f, call, a, b, out),
        _ => Err(Fault::BadLine),
    }
}

/// The answer of a call on polynomials.
pub fn call(
    alloc: Global,
    f: &SmallField,
    call: &str,
    words: &[&str],
    out: &mut Vec<u8>,
) -> Result<(), Fault> {
    match (call, words) {
        ("from_slice", [c]) => from_slice(alloc, c, out),
        ("coefficient", _) => coefficient(alloc, f, words, out),
        ("pow_mod", _) => pow_mod(alloc, f, words, out),
        _ => on_polys(alloc, f, call, words, out),
    }
}

/// `generator A B ..`: the generator of the ideal, and the multipliers.
pub fn generator_call(
    alloc: Global,
    f: &SmallField,
    words: &[&str],
    out: &mut Vec<u8>,
) -> Result<(), Fault> {
    let given = args::polys(alloc, f, words)?;
    show::generator(out, &generator(alloc, f, &given)?)
}
