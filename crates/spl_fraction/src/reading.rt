// Fractions read from their canonical texts.
ghost use Rattle.std.specs.Prelude.{◌≡◌, ◌≢◌, ◌↔◌, ℕ, ◌<◌, List, [], length, Some, IfOk, IfSome, IsTrue, MatchOption};
ghost use Rattle.theory_rings.specs.Polynomial.{IsTrimmed};
ghost use Rattle.spl_field.specs.SmallField.{small_ops};
ghost use Rattle.spl_poly.specs.Operations.{IsOver, without_zeros};
ghost use Rattle.spl_text.specs.Text.{IsNumberList, IsFractionText};
ghost use Rattle.spl_text.specs.FractionWords.{text_of};
ghost use Rattle.theory_fractions.specs.Fraction.{Pair, IsLowestTerms};
ghost use Rattle.spl_fraction.specs.CanonicalText.{IsCanonicalText};
ghost use Rattle.spl_fraction.specs.CanonicalWords.{denominator_of, words_of, IsProper};

use crate::fraction::Fraction;
use crate::reduction::{are_coprime, is_monic, one_poly};
use spl_field::field::NoMemory;
use spl_field::list::Codes;
use spl_field::small::SmallField;
use spl_poly::poly::Poly;
use spl_text::fraction::{FractionWords, fraction_of};
use spl_text::numbers::Numbers;
use std::alloc::Global;

/// The polynomial with these coefficients; None where a number is no element.
fn polynomial_of_numbers(
    alloc: Global,
    f: &SmallField,
    numbers: &Numbers,
) -> Result<Option<Poly>, NoMemory>
    ensures value { IfOk result (λ o. MatchOption o (IsOver (small_ops f.now) numbers.now
        → ⊥) (λ p. p ≡ without_zeros numbers.now)) }
    ensures over { IfOk result (λ o. IfSome o (IsOver (small_ops f.now))) }
    ensures trimmed { IfOk result (λ o. IfSome o (IsTrimmed 0)) }
{
    let size = u32::from(f.size());
    let items = numbers.as_slice();
    let mut coefficients = Codes::new(alloc);
    for number in items {
        if *number >= size {
            return Ok(None);
        }
        coefficients.push(*number as u8)?;
    }
    Ok(Some(Poly::from_slice(alloc, coefficients.as_slice())?))
}

/// Whether the polynomial has degree 1 or more.
fn has_degree(a: &Poly) -> bool
    ensures { IsTrue result ↔ (1 < length a.now) }
{
    match a.degree() {
        Some(degree) => degree > 0,
        None => false,
    }
}

/// Whether the fraction is in lowest terms, with a denominator other than 1.
fn is_proper(alloc: Global, f: &SmallField, num: &Poly, den: &Poly) -> Result<bool, NoMemory>
    requires num_over { IsOver (small_ops f.now) num.now }
    requires num_trimmed { IsTrimmed 0 num.now }
    requires den_over { IsOver (small_ops f.now) den.now }
    requires den_trimmed { IsTrimmed 0 den.now }
    ensures { IfOk result (λ b. IsTrue b ↔ IsProper (small_ops f.now) num.now den.now) }
{
    if !has_degree(den) {
        return Ok(false);
    }
    if !is_monic(den) {
        return Ok(false);
    }
    Ok(are_coprime(alloc, f, num, den)?)
}

/// The fraction with this numerator and these coefficients of the denominator, which is not 1.
fn over_numbers(
    alloc: Global,
    f: &SmallField,
    num: Poly,
    numbers: &Numbers,
) -> Result<Option<Fraction>, NoMemory>
    requires num_over { IsOver (small_ops f.now) num }
    requires num_trimmed { IsTrimmed 0 num }
    requires list { IsNumberList numbers.now }
    ensures { IfOk result (λ o. MatchOption o
        ((v : List ℕ) → IsLowestTerms (small_ops f.now) num v → Some numbers.now ≡ denominator_of v → ⊥)
        (λ w. IsLowestTerms (small_ops f.now) w.0 w.1 × (w.0 ≡ num) × (Some numbers.now ≡ denominator_of w.1))) }
{
    let Some(den) = polynomial_of_numbers(alloc, f, numbers)? else {
        return Ok(None);
    };
    if !is_proper(alloc, f, &num, &den)? {
        return Ok(None);
    }
    Ok(Some(Fraction::of(num, den)))
}

/// The fraction with these words, if there is one.
fn fraction_of_words(
    alloc: Global,
    f: &SmallField,
    words: &FractionWords,
) -> Result<Option<Fraction>, NoMemory>
    requires { IsFractionText (text_of words.now) }
    ensures { IfOk result (λ o. MatchOption o
        ((w : Pair ℕ) → IsLowestTerms (small_ops f.now) w.0 w.1 → text_of words.now ≡ words_of w → ⊥)
        (λ w. IsLowestTerms (small_ops f.now) w.0 w.1 × (text_of words.now ≡ words_of w))) }
{
    let Some(num) = polynomial_of_numbers(alloc, f, &words.numerator)? else {
        return Ok(None);
    };
    match &words.denominator {
        None => {
            let one = one_poly(alloc)?;
            Ok(Some(Fraction::of(num, one)))
        }
        Some(numbers) => Ok(over_numbers(alloc, f, num, numbers)?),
    }
}

/// The fraction with this canonical text, if there is one.
pub(crate) fn fraction_of_text(
    alloc: Global,
    f: &SmallField,
    text: &[u8],
) -> Result<Option<Fraction>, NoMemory>
    ensures { IfOk result (λ o. MatchOption o
        ((w : Pair ℕ) → IsCanonicalText (small_ops f.now) text.now w → ⊥)
        (IsCanonicalText (small_ops f.now) text.now)) }
{
    let Some(words) = fraction_of(alloc, text)? else {
        return Ok(None);
    };
    Ok(fraction_of_words(alloc, f, &words)?)
}
