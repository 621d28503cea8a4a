// The first failed triple of an algebra over the rational functions, by polynomials over one denominator.
ghost use Rattle.std.specs.Prelude.{◌≡◌, ℕ, ◌+◌, ◌^◌, ◌<◌, ◌↔◌, length, get_or, IfOk, IsTrue, MatchOption};
ghost use Rattle.spl_field.specs.SmallField.{small_ops, small_laws};
ghost use Rattle.spl_fraction.specs.FractionsOver.{fractions_over};
ghost use Rattle.spl_fraction.specs.Fractions.{field_of};
ghost use Rattle.spl_residue.specs.Residue.{field_of as residue_field_of};
ghost use Rattle.theory_tables.specs.Structure.{IsOver, IsAssociative, AssociatesAt};
ghost use Rattle.spl_algebra.specs.Triple.{AssociatesAtPair, FailsFirstAt, FailsFirstAtPair, IsFirstFailed};
ghost use Rattle.theory_constants.specs.Generated.{MiddlesAssociate};
ghost use Rattle.spl_numerators.specs.Numerators.{AreNumerators};

use crate::associates::associates;
use crate::constants::{first_by_constants, small_algebra};
use crate::numerators::{Numerators, numerators_of};
use crate::residues::{generators_at, place};
use spl_algebra::algebra::Algebra;
use spl_algebra::triple::Triple;
use spl_field::field::NoMemory;
use spl_field::small::SmallField;
use spl_fraction::field::Fractions;
use spl_residue::field::ResidueField;
use std::alloc::Global;

/// Whether (b_i·b_j)·b_k and b_i·(b_j·b_k) are the same, by polynomials.
fn associates_by_numerators(
    alloc: Global,
    f: &SmallField,
    a: &Algebra<Fractions>,
    n: &Numerators,
    i: usize,
    j: usize,
    k: usize,
) -> Result<bool, NoMemory>
    requires over { IsOver (fractions_over f.now) a.now }
    requires numerators { AreNumerators (small_ops f.now) (small_laws f.now) n.now.denominator a.now n.now.entries }
    requires first { i < a.now.dim }
    requires second { j < a.now.dim }
    requires third { k < a.now.dim }
    ensures { IfOk result (λ b. IsTrue b ↔ AssociatesAt (fractions_over f.now) a.now i j k) }
{
    let _count = a.constants().len();
    Ok(associates(alloc, f, a.dim(), n.entries.as_slice(), i, j, k)?)
}

/// The greatest number of coefficients of a denominator by which the polynomials are taken: products of longer ones
/// take longer than sums of fractions do.
const LONGEST: usize = 100;

/// Whether (b_i·b_j)·b_k and b_i·(b_j·b_k) are the same, for an algebra with these constants: by polynomials, and by
/// fractions where the common denominator has more than 100 coefficients.
fn associates_at(
    alloc: Global,
    f: &Fractions,
    a: &Algebra<Fractions>,
    n: &Numerators,
    i: usize,
    j: usize,
    k: usize,
) -> Result<bool, NoMemory>
    requires over { IsOver (fractions_over (field_of f.now)) a.now }
    requires numerators { AreNumerators (small_ops (field_of f.now)) (small_laws (field_of f.now)) n.now.denominator
        a.now n.now.entries }
    requires first { i < a.now.dim }
    requires second { j < a.now.dim }
    requires third { k < a.now.dim }
    ensures { IfOk result (λ b. IsTrue b ↔ AssociatesAt (fractions_over (field_of f.now)) a.now i j k) }
{
    if n.denominator.as_slice().len() > LONGEST {
        return Ok(a.associates_at(alloc, f, i, j, k)?);
    }
    Ok(associates_by_numerators(alloc, f.field(), a, n, i, j, k)?)
}

/// The first k where (b_i·b_j)·b_k and b_i·(b_j·b_k) differ.
fn first_third(
    alloc: Global,
    f: &Fractions,
    a: &Algebra<Fractions>,
    n: &Numerators,
    i: usize,
    j: usize,
) -> Result<Option<usize>, NoMemory>
    requires over { IsOver (fractions_over (field_of f.now)) a.now }
    requires numerators { AreNumerators (small_ops (field_of f.now)) (small_laws (field_of f.now)) n.now.denominator
        a.now n.now.entries }
    requires first { i < a.now.dim }
    requires second { j < a.now.dim }
    ensures { IfOk result (λ r. MatchOption r (AssociatesAtPair (fractions_over (field_of f.now)) a.now i j)
        (FailsFirstAt (fractions_over (field_of f.now)) a.now i j)) }
{
    for k in 0..a.dim() {
        if !associates_at(alloc, f, a, n, i, j, k)? {
            return Ok(Some(k));
        }
    }
    Ok(None)
}

/// The first j and k where (b_i·b_j)·b_k and b_i·(b_j·b_k) differ.
fn first_pair(
    alloc: Global,
    f: &Fractions,
    a: &Algebra<Fractions>,
    n: &Numerators,
    i: usize,
) -> Result<Option<(usize, usize)>, NoMemory>
    requires over { IsOver (fractions_over (field_of f.now)) a.now }
    requires numerators { AreNumerators (small_ops (field_of f.now)) (small_laws (field_of f.now)) n.now.denominator
        a.now n.now.entries }
    requires first { i < a.now.dim }
    ensures { IfOk result (λ r. MatchOption r
        ((j : ℕ) → j < a.now.dim → AssociatesAtPair (fractions_over (field_of f.now)) a.now i j)
        (λ p. FailsFirstAtPair (fractions_over (field_of f.now)) a.now i p.0 p.1)) }
{
    for j in 0..a.dim() {
        match first_third(alloc, f, a, n, i, j)? {
            Some(k) => return Ok(Some((j, k))),
            None => {}
        }
    }
    Ok(None)
}

/// The triple at these places, which are counted from 0.
fn from_places(i: usize, j: usize, k: usize) -> Triple
    requires first { i + 1 < 2 ^ 64 }
    requires second { j + 1 < 2 ^ 64 }
    requires third { k + 1 < 2 ^ 64 }
    ensures { result ≡ record { i = i + 1; j = j + 1; k = k + 1 } }
{
    Triple {
        i: i + 1,
        j: j + 1,
        k: k + 1,
    }
}

/// The first failed triple, by these polynomials.
fn first_by_numerators(
    alloc: Global,
    f: &Fractions,
    a: &Algebra<Fractions>,
    n: &Numerators,
) -> Result<Option<Triple>, NoMemory>
    requires over { IsOver (fractions_over (field_of f.now)) a.now }
    requires numerators { AreNumerators (small_ops (field_of f.now)) (small_laws (field_of f.now)) n.now.denominator
        a.now n.now.entries }
    ensures { IfOk result (λ r. MatchOption r (IsAssociative (fractions_over (field_of f.now)) a.now)
        (IsFirstFailed (fractions_over (field_of f.now)) a.now)) }
{
    for i in 0..a.dim() {
        match first_pair(alloc, f, a, n, i)? {
            Some((j, k)) => return Ok(Some(from_places(i, j, k))),
            None => {}
        }
    }
    Ok(None)
}

/// Whether all triples with the basis element j in the middle associate.
fn middle_associates(
    alloc: Global,
    f: &Fractions,
    a: &Algebra<Fractions>,
    n: &Numerators,
    j: usize,
) -> Result<bool, NoMemory>
    requires over { IsOver (fractions_over (field_of f.now)) a.now }
    requires numerators { AreNumerators (small_ops (field_of f.now)) (small_laws (field_of f.now)) n.now.denominator
        a.now n.now.entries }
    requires middle { j < a.now.dim }
    ensures { IfOk result (λ b. IsTrue b
        → (i k : ℕ) → i < a.now.dim → k < a.now.dim → AssociatesAt (fractions_over (field_of f.now)) a.now i j k) }
{
    for first in 0..a.dim() {
        match first_third(alloc, f, a, n, first, j)? {
            Some(_) => return Ok(false),
            None => {}
        }
    }
    Ok(true)
}

/// Whether all triples with one of these basis elements in the middle associate.
fn middles_associate(
    alloc: Global,
    f: &Fractions,
    a: &Algebra<Fractions>,
    n: &Numerators,
    by: &[usize],
) -> Result<bool, NoMemory>
    requires over { IsOver (fractions_over (field_of f.now)) a.now }
    requires numerators { AreNumerators (small_ops (field_of f.now)) (small_laws (field_of f.now)) n.now.denominator
        a.now n.now.entries }
    requires within { (s : ℕ) → s < length by.now → get_or by.now s 0 < a.now.dim }
    ensures { IfOk result (λ b. IsTrue b → MiddlesAssociate (fractions_over (field_of f.now)) a.now by.now) }
{
    for s in 0..by.len() {
        if !middle_associates(alloc, f, a, n, by[s])? {
            return Ok(false);
        }
    }
    Ok(true)
}

/// Whether the algebra is seen to be associative by few triples: those whose middles generate the algebra of the
/// residues.
fn associates_by_generators(
    alloc: Global,
    f: &Fractions,
    a: &Algebra<Fractions>,
    n: &Numerators,
    k: &ResidueField,
) -> Result<bool, NoMemory>
    requires over { IsOver (fractions_over (field_of f.now)) a.now }
    requires numerators { AreNumerators (small_ops (field_of f.now)) (small_laws (field_of f.now)) n.now.denominator
        a.now n.now.entries }
    requires field { small_ops (residue_field_of k.now) ≡ small_ops (field_of f.now) }
    ensures { IfOk result (λ b. IsTrue b → IsAssociative (fractions_over (field_of f.now)) a.now) }
{
    let _count = a.constants().len();
    let _irreducible = k.modulus();
    let by = generators_at(alloc, k, a.dim(), n.entries.as_slice())?;
    Ok(middles_associate(alloc, f, a, n, by.as_slice())?)
}

/// Whether the algebra is seen to be associative by few triples, at the first place that is found.
fn associates_at_a_place(
    alloc: Global,
    f: &Fractions,
    a: &Algebra<Fractions>,
    n: &Numerators,
) -> Result<bool, NoMemory>
    requires over { IsOver (fractions_over (field_of f.now)) a.now }
    requires numerators { AreNumerators (small_ops (field_of f.now)) (small_laws (field_of f.now)) n.now.denominator
        a.now n.now.entries }
    ensures { IfOk result (λ b. IsTrue b → IsAssociative (fractions_over (field_of f.now)) a.now) }
{
    match place(alloc, f.field(), &n.denominator)? {
        Some(k) => Ok(associates_by_generators(alloc, f, a, n, &k)?),
        None => Ok(false),
    }
}

/// The first failed triple, by these polynomials: all triples are searched where few do not tell that there is none.
fn first_by_generators(
    alloc: Global,
    f: &Fractions,
    a: &Algebra<Fractions>,
    n: &Numerators,
) -> Result<Option<Triple>, NoMemory>
    requires over { IsOver (fractions_over (field_of f.now)) a.now }
    requires numerators { AreNumerators (small_ops (field_of f.now)) (small_laws (field_of f.now)) n.now.denominator
        a.now n.now.entries }
    ensures { IfOk result (λ r. MatchOption r (IsAssociative (fractions_over (field_of f.now)) a.now)
        (IsFirstFailed (fractions_over (field_of f.now)) a.now)) }
{
    if associates_at_a_place(alloc, f, a, n)? {
        return Ok(None);
    }
    Ok(first_by_numerators(alloc, f, a, n)?)
}

/// The first failed triple, by polynomials.
fn first_by_polynomials(
    alloc: Global,
    f: &Fractions,
    a: &Algebra<Fractions>,
) -> Result<Option<Triple>, NoMemory>
    requires { IsOver (fractions_over (field_of f.now)) a.now }
    ensures { IfOk result (λ r. MatchOption r (IsAssociative (fractions_over (field_of f.now)) a.now)
        (IsFirstFailed (fractions_over (field_of f.now)) a.now)) }
{
    let numerators = numerators_of(alloc, f, a)?;
    Ok(first_by_generators(alloc, f, a, &numerators)?)
}

/// The first triple (i, j, k) in lexicographic order where (b_i·b_j)·b_k and b_i·(b_j·b_k) differ; None exactly where
/// the algebra is associative. Where all constants lie in the field of the coefficients, it works in that field. Else it
/// works on polynomials over the common denominator of the constants, and on fractions where that has more than 100
/// coefficients. That there is none it mostly tells by few triples, whose middles generate
/// the algebra of the residues at a place (Schafer, An Introduction to Nonassociative Algebras, chapter II, on the
/// middle nucleus). The one fault is want of memory.
pub fn first_failed_triple(
    alloc: Global,
    f: &Fractions,
    a: &Algebra<Fractions>,
) -> Result<Option<Triple>, NoMemory>
    requires { IsOver (fractions_over (field_of f.now)) a.now }
    ensures { IfOk result (λ r. MatchOption r (IsAssociative (fractions_over (field_of f.now)) a.now)
        (IsFirstFailed (fractions_over (field_of f.now)) a.now)) }
{
    match small_algebra(alloc, f.field(), a)? {
        Some(b) => Ok(first_by_constants(alloc, f.field(), a, &b)?),
        None => first_by_polynomials(alloc, f, a),
    }
}
