// Reading arguments. What a call requires of its arguments, its reader ensures.
ghost use Rattle.std.specs.Prelude.{◌≡◌, ◌≤◌, ◌<◌, IfOk, All};
ghost use Rattle.theory_rings.specs.Ops.{IsElem};
ghost use Rattle.theory_rings.specs.Polynomial.{IsTrimmed};
ghost use Rattle.spl_field.specs.SmallField.{small_ops, size_of};
ghost use Rattle.spl_poly.specs.Operations.{IsOver};
ghost use Rattle.spl_fraction.specs.Fractions.{field_of};
ghost use Rattle.spl_fraction.specs.FractionsOver.{fractions_over};
ghost use Rattle.spl_residue.specs.Residue.{residue_ops};

use crate::fault::Fault;
use spl_field::small::SmallField;
use spl_fraction::field::Fractions;
use spl_fraction::fraction::Fraction;
use spl_lattice::rows::PolyRow;
use spl_poly::poly::Poly;
use spl_residue::elem::ResidueElem;
use spl_residue::field::ResidueField;
use spl_text::numbers::{Numbers, numbers_of};
use spl_text::word::number_of;
use std::alloc::Global;

/// A number below 10^9.
pub fn number(word: &str) -> Result<u32, Fault> {
    number_of(word.as_bytes()).ok_or(Fault::BadLine)
}

/// A number from 1 to the most.
pub fn positive(word: &str, most: usize) -> Result<usize, Fault>
    ensures least { IfOk result (λ n. 1 ≤ n) }
    ensures most { IfOk result (λ n. n ≤ most) }
{
    let n = number(word)? as usize;
    if n == 0 || n > most {
        return Err(Fault::BadLine);
    }
    Ok(n)
}

/// A number below the bound.
pub fn below(word: &str, bound: usize) -> Result<usize, Fault>
    ensures { IfOk result (λ n. n < bound) }
{
    let n = number(word)? as usize;
    if n >= bound {
        return Err(Fault::BadLine);
    }
    Ok(n)
}

/// Numbers, joined by commas.
pub fn numbers(alloc: Global, word: &str) -> Result<Numbers, Fault> {
    numbers_of(alloc, word.as_bytes())?.ok_or(Fault::BadLine)
}

/// Numbers, joined by commas, or `-` for none.
pub fn list(alloc: Global, word: &str) -> Result<Vec<u64>, Fault> {
    let mut items = Vec::new(alloc);
    if word != "-" {
        for n in numbers(alloc, word)?.as_slice() {
            items.push(u64::from(*n))?;
        }
    }
    Ok(items)
}

/// Numbers below the bound, which is at most 256, joined by commas, or `-` for none.
pub fn bytes(alloc: Global, bound: u32, word: &str) -> Result<Vec<u8>, Fault>
    requires { bound ≤ 256 }
    ensures { IfOk result (λ v. All (λ n. n < bound) v.items) }
{
    let mut items = Vec::new(alloc);
    if word == "-" {
        return Ok(items);
    }
    for n in numbers(alloc, word)?.as_slice() {
        if *n >= bound {
            return Err(Fault::BadLine);
        }
        items.push(*n as u8)?;
    }
    Ok(items)
}

/// An element of the field.
pub fn element(f: &SmallField, word: &str) -> Result<u8, Fault>
    ensures elem { IfOk result (IsElem (small_ops f.now)) }
    ensures below { IfOk result (λ a. a < size_of f.now) }
{
    Ok(below(word, usize::from(f.size()))? as u8)
}

/// Elements of the field, joined by commas.
fn elements(alloc: Global, f: &SmallField, word: &str) -> Result<Vec<u8>, Fault>
    ensures { IfOk result (λ v. All (IsElem (small_ops f.now)) v.items) }
{
    let mut items = Vec::new(alloc);
    for part in word.split(',') {
        items.push(element(f, part)?)?;
    }
    Ok(items)
}

/// A polynomial, by its coefficients, lowest first.
pub fn poly(alloc: Global, f: &SmallField, word: &str) -> Result<Poly, Fault>
    ensures over { IfOk result (IsOver (small_ops f.now)) }
    ensures trimmed { IfOk result (IsTrimmed 0) }
{
    let items = elements(alloc, f, word)?;
    Ok(Poly::from_list(alloc, f, items)?)
}

/// Polynomials, one a word.
pub fn polys(alloc: Global, f: &SmallField, words: &[&str]) -> Result<PolyRow, Fault>
    ensures over { IfOk result (All (IsOver (small_ops f.now))) }
    ensures trimmed { IfOk result (All (IsTrimmed 0)) }
{
    let mut row = PolyRow::new(alloc);
    for word in words {
        row.push(poly(alloc, f, word)?)?;
    }
    Ok(row)
}

/// A fraction, by its canonical text.
pub fn fraction(alloc: Global, k: &Fractions, word: &str) -> Result<Fraction, Fault>
    ensures { IfOk result (IsElem (fractions_over (field_of k.now))) }
{
    match k.read_fraction(alloc, word.as_bytes())? {
        Some(a) => Ok(a),
        None => Err(Fault::BadLine),
    }
}

/// An element of a residue field, by the polynomial of smaller degree than the modulus.
pub fn remainder(alloc: Global, k: &ResidueField, word: &str) -> Result<ResidueElem, Fault>
    ensures { IfOk result (IsElem (residue_ops k.now)) }
{
    let a = poly(alloc, k.field(), word)?;
    if a.degree() >= k.modulus().degree() {
        return Err(Fault::BadLine);
    }
    Ok(k.reduce_poly(alloc, &a)?)
}
