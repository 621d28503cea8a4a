// The words that spell fractions.
ghost use Rattle.std.specs.Prelude.{◌≡◌, ◌≢◌, ◌↔◌, ◌<◌, IfOk, IsTrue, MatchOption};
ghost use Rattle.std.specs.List.{AllByRecursion};
ghost use Rattle.spl_text.specs.Text.{FractionText, fraction_text, IsFractionText, lists_of};
ghost use Rattle.spl_text.specs.FractionWords.{text_of};

use crate::numbers::{Numbers, number_list_of};
use crate::word::split_once;
use spl_field::field::NoMemory;
use std::alloc::Global;

/// The numbers of a fraction as a text has it: of its numerator, and of its denominator where it has one.
#[derive(Drop)]
pub struct FractionWords {
    pub numerator: Numbers,
    pub denominator: Option<Numbers>,
}

/// The fraction that the word spells: a list of numbers, or two of them with `/` between.
pub fn fraction_of(alloc: Global, word: &[u8]) -> Result<Option<FractionWords>, NoMemory>
    ensures { IfOk result (λ o. MatchOption o
        ((t : FractionText) → IsFractionText t → word.now ≢ fraction_text t)
        (λ f. IsFractionText (text_of f) × (word.now ≡ fraction_text (text_of f)))) }
{
    let Some((left, right)) = split_once(word, b'/') else {
        let Some(numerator) = number_list_of(alloc, word)? else {
            return Ok(None);
        };
        return Ok(Some(FractionWords {
            numerator,
            denominator: None,
        }));
    };
    let Some(numerator) = number_list_of(alloc, left)? else {
        return Ok(None);
    };
    let Some(denominator) = number_list_of(alloc, right)? else {
        return Ok(None);
    };
    Ok(Some(FractionWords {
        numerator,
        denominator: Some(denominator),
    }))
}

/// Whether each number is below q.
fn are_elements(numbers: &[u32], q: u32) -> bool
    ensures { IsTrue result ↔ AllByRecursion (λ c. c < q) numbers.now }
{
    numbers.iter().all(|number| *number < q)
}

/// Whether each number of a list is below q.
pub fn has_elements(value: &FractionWords, q: u32) -> bool
    ensures { IsTrue result ↔ AllByRecursion (AllByRecursion (λ c. c < q)) (lists_of (text_of value.now)) }
{
    are_elements(value.numerator.as_slice(), q)
        && match &value.denominator {
            Some(denominator) => are_elements(denominator.as_slice(), q),
            None => true,
        }
}
