// The fractions of a line of evidence.
ghost use Rattle.std.specs.Prelude.{◌≡◌, ◌≢◌, ◌⊎◌, ◌↔◌, ◌*◌, ◌<◌, ℕ, None, List, [], ◌∷◌, ◌++◌, length, map, IsTrue};
ghost use Rattle.std.specs.Prelude.{IfOk, MatchOption};
ghost use Rattle.std.specs.List.{All, AllByRecursion, flat_map};
ghost use Rattle.theory_rings.specs.Ops.{IsElem};
ghost use Rattle.theory_fractions.specs.Fraction.{Pair};
ghost use Rattle.theory_spaces.specs.Tuples.{IsTuple};
ghost use Rattle.theory_tables.specs.Split.{IsSquare};
ghost use Rattle.spl_text.specs.Text.{FractionText, IsFractionText};
ghost use Rattle.spl_fraction.specs.Fractions.{field_of};
ghost use Rattle.spl_fraction.specs.FractionsOver.{fractions_over};
ghost use Rattle.spl_fraction.specs.CanonicalWords.{words_of};
ghost use Rattle.spl_fraction.specs.declared.place.Place.TheVariants.{Finite};
ghost use Rattle.spl_evidence.specs.Line.{Line, HasForm, fraction_count, fractions_text};
ghost use Rattle.spl_evidence.specs.Evidence.{IsMonicOfPositiveDegree, PlaceFits, place_line};
ghost use Rattle.spl_evidence.specs.Refusal.{IsCanonical, HasTerms, zero_text};
ghost use Rattle.spl_evidence.specs.declared.word.Word.TheVariants.{Ramified, RamifiedInfinity};
ghost use Rattle.spl_evidence.specs.Reading.{EndsWord};

use crate::arguments::next_word;
use crate::due::{is_infinity, is_ramified};
use crate::word::Word;
use spl_field::field::NoMemory;
use spl_fraction::field::Fractions;
use spl_fraction::fraction::Fraction;
use spl_fraction::place::Place;
use spl_fraction::tuples::Tuple;
use spl_matrix::matrix::Matrix;
use spl_text::word::strip_prefix;
use std::alloc::Global;

/// So many fractions by their canonical texts, a space before each, and what follows them.
pub(crate) fn fractions_of<'a>(
    alloc: Global,
    f: &Fractions,
    text: &'a [u8],
    count: usize,
) -> Result<Option<(Tuple, &'a [u8])>, NoMemory>
    ensures { IfOk result (λ o. MatchOption o
        ((ts : List FractionText) (rest : List ℕ) → length ts ≡ count → AllByRecursion (IsCanonical (field_of f.now)) ts
        → EndsWord rest → text.now ≢ fractions_text ts ++ rest)
        (λ x. (length x.0 ≡ count) × All (IsElem (fractions_over (field_of f.now))) x.0
        × ((length x.0 ≡ 0) ⊎ EndsWord x.1.now) × (text.now ≡ fractions_text (map words_of x.0) ++ x.1.now))) }
{
    let mut fractions = Tuple::new(alloc);
    let mut rest = text;
    for _ in 0..count {
        let Some((word, after)) = next_word(rest) else {
            return Ok(None);
        };
        let Some(fraction) = f.read_fraction(alloc, word)? else {
            return Ok(None);
        };
        fractions.push(fraction)?;
        rest = after;
    }
    Ok(Some((fractions, rest)))
}

/// The tuple of fractions whose text this is, with a space before each. None exactly where one of them isn't canonical.
pub(crate) fn tuple_of(
    alloc: Global,
    f: &Fractions,
    text: &[u8],
    count: usize,
) -> Result<Option<Tuple>, NoMemory>
    ensures { IfOk result (λ o. (ts : List FractionText) → length ts ≡ count → AllByRecursion IsFractionText ts
        → text.now ≡ fractions_text ts → MatchOption o (AllByRecursion (IsCanonical (field_of f.now)) ts → ⊥)
        (λ a. IsTuple (fractions_over (field_of f.now)) count a × (ts ≡ map words_of a))) }
{
    match fractions_of(alloc, f, text, count)? {
        None => Ok(None),
        Some((tuple, _)) => Ok(Some(tuple)),
    }
}

/// The matrix of size n whose n² fractions, row by row, have this text. None exactly where one of them isn't canonical.
pub(crate) fn matrix_of(
    alloc: Global,
    f: &Fractions,
    text: &[u8],
    n: usize,
) -> Result<Option<Matrix<Fractions>>, NoMemory>
    requires { 0 < n }
    ensures { IfOk result (λ o. (ts : List FractionText) → length ts ≡ n * n → AllByRecursion IsFractionText ts
        → text.now ≡ fractions_text ts → MatchOption o (AllByRecursion (IsCanonical (field_of f.now)) ts → ⊥)
        (λ x. IsSquare (fractions_over (field_of f.now)) n x × (ts ≡ map words_of (flat_map (λ row. row) x)))) }
{
    let mut rows = Matrix::new(alloc);
    let mut rest = text;
    for _ in 0..n {
        let Some((row, after)) = fractions_of(alloc, f, rest, n)? else {
            return Ok(None);
        };
        rows.push(row)?;
        rest = after;
    }
    Ok(Some(rows))
}

/// The multiplier whose text this is, with a space before it. None exactly where it isn't canonical, or is 0.
pub(crate) fn multiplier_of(
    alloc: Global,
    f: &Fractions,
    text: &[u8],
) -> Result<Option<Fraction>, NoMemory>
    ensures { IfOk result (λ o. (ts : List FractionText) → length ts ≡ 1 → AllByRecursion IsFractionText ts
        → text.now ≡ fractions_text ts
        → MatchOption o (AllByRecursion (IsCanonical (field_of f.now)) ts → ts ≢ zero_text ∷ [] → ⊥)
        (λ x. IsElem (fractions_over (field_of f.now)) x × (ts ≡ words_of x ∷ []) × (ts ≢ zero_text ∷ []))) }
{
    let Some(word) = strip_prefix(text, b" ") else {
        return Ok(None);
    };
    let Some(x) = f.read_fraction(alloc, word)? else {
        return Ok(None);
    };
    if x.numerator().is_zero() {
        return Ok(None);
    }
    Ok(Some(x))
}

/// Whether the coefficients, of which the last is not 0, are those of a monic polynomial of degree at least 1.
fn is_monic_of_positive_degree(c: &[u8]) -> bool
    ensures { IsTrue result ↔ IsMonicOfPositiveDegree c.now }
{
    2 <= c.len() && c[c.len() - 1] == 1
}

/// The place of the polynomial whose text this is, with a space before it. None exactly where it isn't canonical, not
/// monic or of degree 0.
fn finite_place_of(alloc: Global, f: &Fractions, text: &[u8]) -> Result<Option<Place>, NoMemory>
    ensures { IfOk result (λ o. (ts : List FractionText) → length ts ≡ 1 → AllByRecursion IsFractionText ts
        → AllByRecursion (λ t. t.denominator ≡ None) ts → text.now ≡ fractions_text ts
        → MatchOption o (AllByRecursion (IsCanonical (field_of f.now)) ts
        → AllByRecursion (λ t. IsMonicOfPositiveDegree t.numerator) ts → ⊥)
        (λ place. (p : List ℕ) × (place ≡ Finite p) × IsElem (fractions_over (field_of f.now)) (p, 1 ∷ [])
        × IsMonicOfPositiveDegree p × (ts ≡ words_of (p, 1 ∷ []) ∷ []))) }
{
    let Some(word) = strip_prefix(text, b" ") else {
        return Ok(None);
    };
    let Some(fraction) = f.read_fraction(alloc, word)? else {
        return Ok(None);
    };
    if !is_monic_of_positive_degree(fraction.numerator().as_slice()) {
        return Ok(None);
    }
    let poly = fraction.numerator().copy(alloc, f.field())?;
    Ok(Some(Place::Finite { poly }))
}

/// The place that the line of a kind tells, where it is that of a ramified place. None exactly where its polynomial is
/// none of a place.
pub(crate) fn place_of_kind(
    alloc: Global,
    f: &Fractions,
    word: Word,
    text: &[u8],
) -> Result<Option<Option<Place>>, NoMemory>
    ensures { IfOk result (λ o. (m : ℕ) (l : Line) → HasForm m l → word ≡ l.word → text.now ≡ fractions_text l.fractions
        → (word ≢ Ramified → fraction_count m word ≡ 0) → MatchOption o (HasTerms (field_of f.now) l → ⊥)
        (λ p. HasTerms (field_of f.now) l
        × MatchOption p ((l.fractions ≡ []) × (word ≢ Ramified) × (word ≢ RamifiedInfinity))
        (λ place. PlaceFits (fractions_over (field_of f.now)) place × (l ≡ place_line place)))) }
{
    if is_infinity(word) {
        return Ok(Some(Some(Place::Infinity)));
    }
    if !is_ramified(word) {
        return Ok(Some(None));
    }
    let Some(place) = finite_place_of(alloc, f, text)? else {
        return Ok(None);
    };
    Ok(Some(Some(place)))
}
