// The numbers and the fractions behind the word of a line of evidence.
ghost use Rattle.std.specs.Prelude.{◌≡◌, ◌≢◌, ◌⊎◌, ◌↔◌, ◌<◌, ℕ, List, ◌∷◌, ◌++◌, length, IfOk, IsTrue, MatchOption};
ghost use Rattle.std.specs.Prelude.{None};
ghost use Rattle.std.specs.List.{AllByRecursion};
ghost use Rattle.spl_text.specs.Text.{Lacks, IsNumber, FractionText, IsFractionText, lists_of};
ghost use Rattle.spl_evidence.specs.Line.{numbers_text, fractions_text};
ghost use Rattle.spl_evidence.specs.Reading.{EndsWord};

use spl_field::field::NoMemory;
use spl_text::fraction::{fraction_of, has_elements};
use spl_text::numbers::Numbers;
use spl_text::word::{number_of, split_once, strip_prefix};
use std::alloc::Global;

/// The word behind a space, and what follows it: nothing, or a space. None exactly where no space stands there.
pub(crate) fn next_word(text: &[u8]) -> Option<(&[u8], &[u8])>
    ensures { MatchOption result ((rest : List ℕ) → text.now ≢ 32 ∷ rest)
        (λ x. Lacks 32 x.0.now × EndsWord x.1.now × (text.now ≡ 32 ∷ (x.0.now ++ x.1.now))) }
{
    let after = strip_prefix(text, b" ")?;
    match split_once(after, b' ') {
        Some((word, _)) => Some((word, &after[word.len()..])),
        None => Some((after, &after[after.len()..])),
    }
}

/// So many numbers, a space before each, and what follows them.
pub(crate) fn numbers_of<'a>(
    alloc: Global,
    text: &'a [u8],
    count: usize,
) -> Result<Option<(Numbers, &'a [u8])>, NoMemory>
    ensures { IfOk result (λ o. MatchOption o
        ((ns : List ℕ) (rest : List ℕ) → length ns ≡ count → AllByRecursion IsNumber ns → EndsWord rest
        → text.now ≢ numbers_text ns ++ rest)
        (λ x. (length x.0 ≡ count) × AllByRecursion IsNumber x.0 × ((length x.0 ≡ 0) ⊎ EndsWord x.1.now)
        × (text.now ≡ numbers_text x.0 ++ x.1.now))) }
{
    let mut numbers = Numbers::new(alloc);
    let mut rest = text;
    for _ in 0..count {
        let Some((word, after)) = next_word(rest) else {
            return Ok(None);
        };
        let Some(number) = number_of(word) else {
            return Ok(None);
        };
        numbers.push(number)?;
        rest = after;
    }
    Ok(Some((numbers, rest)))
}

/// Whether both hold.
pub(crate) fn both(first: bool, second: bool) -> bool
    ensures { IsTrue result ↔ IsTrue first × IsTrue second }
{
    first && second
}

/// Whether so many fractions stand there, a space before each, and nothing else: then, whether each number of a list is
/// below q.
pub(crate) fn are_fractions(
    alloc: Global,
    text: &[u8],
    count: usize,
    q: u32,
) -> Result<Option<bool>, NoMemory>
    ensures { IfOk result (λ o. MatchOption o
        ((ts : List FractionText) → length ts ≡ count → AllByRecursion IsFractionText ts
        → text.now ≢ fractions_text ts)
        (λ below. (ts : List FractionText) × (length ts ≡ count) × AllByRecursion IsFractionText ts
        × (text.now ≡ fractions_text ts)
        × (IsTrue below ↔ AllByRecursion (λ t. AllByRecursion (AllByRecursion (λ c. c < q)) (lists_of t)) ts))) }
{
    let mut below = true;
    let mut rest = text;
    for _ in 0..count {
        let Some((word, after)) = next_word(rest) else {
            return Ok(None);
        };
        let Some(value) = fraction_of(alloc, word)? else {
            return Ok(None);
        };
        below = both(below, has_elements(&value, q));
        rest = after;
    }
    if !rest.is_empty() {
        return Ok(None);
    }
    Ok(Some(below))
}

/// Whether each of the fractions whose text this is has no denominator.
pub(crate) fn are_lists(text: &[u8]) -> bool
    ensures { (ts : List FractionText) → AllByRecursion IsFractionText ts → text.now ≡ fractions_text ts
        → (IsTrue result ↔ AllByRecursion (λ t. t.denominator ≡ None) ts) }
{
    match split_once(text, b'/') {
        None => true,
        Some(_) => false,
    }
}
