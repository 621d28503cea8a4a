// The identity by a guess, the solution of the equations at one basis element, that is verified on all of them.
ghost use Rattle.std.specs.Prelude.{◌≡◌, ◌≢◌, ◌*◌, ◌+◌, ◌^◌, ◌<◌, ℕ, [], length, get_or, IfOk, IfSome, IsTrue};
ghost use Rattle.spl_field.specs.SmallField.{small_ops, small_laws};
ghost use Rattle.theory_fractions.specs.PolynomialLists.{IsPolynomialList};
ghost use Rattle.theory_rows.specs.Rows.{IsPolynomialRow, IsPolynomialMatrix};
ghost use Rattle.theory_spaces.specs.Tuples.{IsTuple};
ghost use Rattle.theory_tables.specs.Structure.{IsOver};
ghost use Rattle.theory_tables.specs.Algebras.{IsIdentity};
ghost use Rattle.spl_fraction.specs.Fractions.{field_of};
ghost use Rattle.spl_fraction.specs.FractionsOver.{fractions_over};
ghost use Rattle.spl_numerators.specs.Numerators.{AreNumerators};
ghost use Rattle.spl_centre.specs.Guess.{unit, SolvesAt, IsQuotient, AreQuotients};

use crate::centre::KAlgebra;
use crate::equations::solutions;
use spl_field::field::NoMemory;
use spl_field::list::List;
use spl_field::small::SmallField;
use spl_fraction::field::Fractions;
use spl_fraction::fraction::Fraction;
use spl_fraction::tuples::Tuple;
use spl_numerators::numerators::{Numerators, numerators_of};
use spl_numerators::products::{are_same, sum_of_products};
use spl_poly::poly::Poly;
use std::alloc::Global;

/// Whether it is this polynomial, where `here`, and else 0.
fn is_unit_item(value: &Poly, scale: &Poly, here: bool) -> bool
    ensures { IsTrue result → value.now ≡ unit scale.now here }
{
    if here {
        return are_same(value, scale);
    }
    value.is_zero()
}

/// Whether the weights over their denominator are an identity at b_k in the products with b_j, on both sides.
fn solves_at(
    alloc: Global,
    f: &SmallField,
    m: usize,
    weights: &[Poly],
    entries: &[Poly],
    scale: &Poly,
    j: usize,
    k: usize,
) -> Result<bool, NoMemory>
    requires fits { m * m * m < 2 ^ 64 }
    requires weights { IsPolynomialRow (small_ops f.now) (m + 1) weights.now }
    requires count { length entries.now ≡ m * m * m }
    requires polynomials { (p : ℕ) → p < length entries.now
        → IsPolynomialList (small_ops f.now) (get_or entries.now p []) }
    requires first { j < m }
    requires second { k < m }
    ensures { IfOk result (λ b. IsTrue b
        → SolvesAt (small_ops f.now) (small_laws f.now) weights.now entries.now m scale.now j k) }
{
    let left = sum_of_products(alloc, f, m, weights, 0, entries, j * m + k, m * m)?;
    if !is_unit_item(&left, scale, k == j) {
        return Ok(false);
    }
    let right = sum_of_products(alloc, f, m, weights, 0, entries, j * m * m + k, m)?;
    Ok(is_unit_item(&right, scale, k == j))
}

/// Whether they are so in all products with b_j.
fn solves_all_at(
    alloc: Global,
    f: &SmallField,
    m: usize,
    weights: &[Poly],
    entries: &[Poly],
    scale: &Poly,
    j: usize,
) -> Result<bool, NoMemory>
    requires fits { m * m * m < 2 ^ 64 }
    requires weights { IsPolynomialRow (small_ops f.now) (m + 1) weights.now }
    requires count { length entries.now ≡ m * m * m }
    requires polynomials { (p : ℕ) → p < length entries.now
        → IsPolynomialList (small_ops f.now) (get_or entries.now p []) }
    requires first { j < m }
    ensures { IfOk result (λ b. IsTrue b → (k : ℕ) → k < m
        → SolvesAt (small_ops f.now) (small_laws f.now) weights.now entries.now m scale.now j k) }
{
    for k in 0..m {
        if !solves_at(alloc, f, m, weights, entries, scale, j, k)? {
            return Ok(false);
        }
    }
    Ok(true)
}

/// Whether they are so in all products.
fn solves(
    alloc: Global,
    f: &SmallField,
    m: usize,
    weights: &[Poly],
    entries: &[Poly],
    scale: &Poly,
) -> Result<bool, NoMemory>
    requires fits { m * m * m < 2 ^ 64 }
    requires weights { IsPolynomialRow (small_ops f.now) (m + 1) weights.now }
    requires count { length entries.now ≡ m * m * m }
    requires polynomials { (p : ℕ) → p < length entries.now
        → IsPolynomialList (small_ops f.now) (get_or entries.now p []) }
    ensures { IfOk result (λ b. IsTrue b → (j k : ℕ) → j < m → k < m
        → SolvesAt (small_ops f.now) (small_laws f.now) weights.now entries.now m scale.now j k) }
{
    for j in 0..m {
        if !solves_all_at(alloc, f, m, weights, entries, scale, j)? {
            return Ok(false);
        }
    }
    Ok(true)
}

/// The fraction of two polynomials.
fn quotient(alloc: Global, f: &Fractions, u: &Poly, v: &Poly) -> Result<Fraction, NoMemory>
    requires numerator { IsPolynomialList (small_ops (field_of f.now)) u.now }
    requires denominator { IsPolynomialList (small_ops (field_of f.now)) v.now }
    requires nonzero { v.now ≢ [] }
    ensures { IfOk result (IsQuotient (small_ops (field_of f.now)) (small_laws (field_of f.now)) u.now v.now) }
{
    match f.make(alloc, u, v)? {
        Some(w) => Ok(w),
        None => unreachable!(),
    }
}

/// The weights over their denominator.
fn quotients(alloc: Global, f: &Fractions, m: usize, weights: &[Poly]) -> Result<Tuple, NoMemory>
    requires weights { IsPolynomialRow (small_ops (field_of f.now)) (m + 1) weights.now }
    requires nonzero { get_or weights.now m [] ≢ [] }
    ensures { IfOk result (AreQuotients (small_ops (field_of f.now)) (small_laws (field_of f.now)) weights.now m) }
{
    let mut items = List::new(alloc);
    for l in 0..m {
        items.push(quotient(alloc, f, &weights[l], &weights[m])?)?;
    }
    Ok(items)
}

/// The weights over their denominator, where they are an identity.
fn verified(
    alloc: Global,
    f: &Fractions,
    a: &KAlgebra,
    n: &Numerators,
    weights: &[Poly],
) -> Result<Option<Tuple>, NoMemory>
    requires over { IsOver (fractions_over (field_of f.now)) a.now }
    requires numerators { AreNumerators (small_ops (field_of f.now)) (small_laws (field_of f.now)) n.now.denominator
        a.now n.now.entries }
    requires weights { IsPolynomialRow (small_ops (field_of f.now)) (a.now.dim + 1) weights.now }
    ensures { IfOk result (λ r. IfSome r (IsIdentity (fractions_over (field_of f.now)) a.now)) }
{
    let m = a.dim();
    let _count = a.constants().len();
    let denominator = &weights[m];
    if denominator.is_zero() {
        return Ok(None);
    }
    let scale = denominator.mul(alloc, f.field(), &n.denominator)?;
    if !solves(alloc, f.field(), m, weights, n.entries.as_slice(), &scale)? {
        return Ok(None);
    }
    Ok(Some(quotients(alloc, f, m, weights)?))
}

/// The one solution of e·b_i = b_i, where there is just one and it is an identity.
fn guessed_at(
    alloc: Global,
    f: &Fractions,
    a: &KAlgebra,
    n: &Numerators,
    i: usize,
) -> Result<Option<Tuple>, NoMemory>
    requires over { IsOver (fractions_over (field_of f.now)) a.now }
    requires numerators { AreNumerators (small_ops (field_of f.now)) (small_laws (field_of f.now)) n.now.denominator
        a.now n.now.entries }
    requires index { i < a.now.dim }
    ensures { IfOk result (λ r. IfSome r (IsIdentity (fractions_over (field_of f.now)) a.now)) }
{
    let _count = a.constants().len();
    let found = solutions(
        alloc,
        f.field(),
        a.dim(),
        n.entries.as_slice(),
        &n.denominator,
        i,
    )?;
    if found.len() != 1 {
        return Ok(None);
    }
    verified(alloc, f, a, n, found.as_slice()[0].as_slice())
}

/// The greatest number of coefficients of a denominator with which a guess is made.
const LONGEST: usize = 100;

/// The number of basis elements at which a guess is made.
const GUESSES: usize = 3;

/// An identity, if a guess at one of the first basis elements gives it.
pub(crate) fn guessed_identity(
    alloc: Global,
    f: &Fractions,
    a: &KAlgebra,
) -> Result<Option<Tuple>, NoMemory>
    requires { IsOver (fractions_over (field_of f.now)) a.now }
    ensures { IfOk result (λ r. IfSome r (IsIdentity (fractions_over (field_of f.now)) a.now)) }
{
    let n = numerators_of(alloc, f, a)?;
    if n.denominator.as_slice().len() > LONGEST {
        return Ok(None);
    }
    for i in 0..a.dim() {
        if i == GUESSES {
            return Ok(None);
        }
        match guessed_at(alloc, f, a, &n, i)? {
            Some(one) => return Ok(Some(one)),
            None => {}
        }
    }
    Ok(None)
}
