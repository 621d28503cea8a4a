// Calls on fractions and places.
ghost use Rattle.std.specs.Prelude.{IfOk};
ghost use Rattle.spl_field.specs.SmallField.{small_ops};
ghost use Rattle.spl_fraction.specs.Fractions.{field_of};
ghost use Rattle.spl_fraction.specs.Valuation.{IsPlaceOver};

use crate::fault::Fault;
use crate::{args, lists, show};
use spl_fraction::field::Fractions;
use spl_fraction::place::{Place, order_of_places};
use spl_poly::poly::Poly;
use std::alloc::Global;

/// `make A B`: the fraction in lowest terms; `none` over zero.
fn make(alloc: Global, k: &Fractions, words: &[&str], out: &mut Vec<u8>) -> Result<(), Fault> {
    let given = args::polys(alloc, k.field(), words)?;
    let [num, den] = given.as_slice() else {
        return Err(Fault::BadLine);
    };
    match k.make(alloc, num, den)? {
        Some(a) => show::element(alloc, out, k, &a),
        None => show::word(out, "none"),
    }
}

/// `read_fraction W`: the fraction, as it is written; `none` where the word is the canonical text of none.
fn read(alloc: Global, k: &Fractions, word: &str, out: &mut Vec<u8>) -> Result<(), Fault> {
    match k.read_fraction(alloc, word.as_bytes())? {
        Some(a) => show::element(alloc, out, k, &a),
        None => show::word(out, "none"),
    }
}

/// `parts F`: the numerator and the denominator.
fn parts(alloc: Global, k: &Fractions, word: &str, out: &mut Vec<u8>) -> Result<(), Fault> {
    let a = args::fraction(alloc, k, word)?;
    show::polynomial(out, a.numerator())?;
    show::polynomial(out, a.denominator())
}

/// `common_denominator L`: of a list of fractions.
fn denominator(alloc: Global, k: &Fractions, l: &str, out: &mut Vec<u8>) -> Result<(), Fault> {
    let fractions = lists::vector(alloc, k, l)?;
    show::poly_of(out, k.common_denominator(alloc, fractions.as_slice()))
}

/// A place: `infinity`, or a polynomial.
fn place(alloc: Global, word: &str) -> Result<Place, Fault> {
    if word == "infinity" {
        return Ok(Place::Infinity);
    }
    let c = args::bytes(alloc, 256, word)?;
    Ok(Place::Finite {
        poly: Poly::from_slice(alloc, c.as_slice())?,
    })
}

/// `infinity`, or a polynomial over the field of degree at least 1.
fn place_over(alloc: Global, k: &Fractions, word: &str) -> Result<Place, Fault>
    ensures { IfOk result (IsPlaceOver (small_ops (field_of k.now))) }
{
    if word == "infinity" {
        return Ok(Place::Infinity);
    }
    let poly = args::poly(alloc, k.field(), word)?;
    if poly.as_slice().len() < 2 {
        return Err(Fault::BadLine);
    }
    Ok(Place::Finite { poly })
}

/// `valuation F PLACE`; `none` of 0.
fn valuation(
    alloc: Global,
    k: &Fractions,
    word: &str,
    place: &str,
    out: &mut Vec<u8>,
) -> Result<(), Fault> {
    let a = args::fraction(alloc, k, word)?;
    let place = place_over(alloc, k, place)?;
    match k.valuation(alloc, &a, &place)? {
        Some(n) => show::word(out, format!(in alloc; "{n}")?.as_str()),
        None => show::word(out, "none"),
    }
}

/// `swap_infinity F`: the fraction with 1/x put for x.
fn swap(alloc: Global, k: &Fractions, word: &str, out: &mut Vec<u8>) -> Result<(), Fault> {
    let a = args::fraction(alloc, k, word)?;
    show::element_of(alloc, out, k, k.swap_infinity(alloc, &a))
}

/// `order_of_places P Q`
fn order(alloc: Global, p: &str, q: &str, out: &mut Vec<u8>) -> Result<(), Fault> {
    let p = place(alloc, p)?;
    let q = place(alloc, q)?;
    show::ordering(out, order_of_places(&p, &q))
}

/// The answer of a call on fractions.
pub fn call(
    alloc: Global,
    k: &Fractions,
    call: &str,
    words: &[&str],
    out: &mut Vec<u8>,
) -> Result<(), Fault> {
    match (call, words) {
        ("make", _) => make(alloc, k, words, out),
        ("read_fraction", [word]) => read(alloc, k, word, out),
        ("parts", [word]) => parts(alloc, k, word, out),
        ("common_denominator", [l]) => denominator(alloc, k, l, out),
        ("valuation", [word, place]) => valuation(alloc, k, word, place, out),
        ("swap_infinity", [word]) => swap(alloc, k, word, out),
        ("order_of_places", [p, q]) => order(alloc, p, q, out),
        _ => Err(Fault::BadLine),
    }
}
