// Lists of numbers, and the words that spell them.
ghost use Rattle.std.specs.Prelude.{◌≡◌, ◌≢◌, ◌↔◌, ℕ, ◌<◌, List, [], ◌∷◌, ◌++◌, length, slice_index, IfOk, IsTrue};
ghost use Rattle.std.specs.Prelude.{OnOk, OnErr, MatchOption};
ghost use Rattle.spl_text.specs.Text.{numbers_text, AreNumbers, IsNumberList};

use crate::word::{number_before, number_of};
use spl_field::field::NoMemory;
use spl_field::list::List;
use std::alloc::Global;

/// Numbers one after the other.
pub type Numbers = List<u32>;

/// The numbers that the word spells, joined by commas: at least one, each of at most nine digits.
pub fn numbers_of(alloc: Global, word: &[u8]) -> Result<Option<Numbers>, NoMemory>
    ensures { IfOk result (λ o. MatchOption o
        ((ns : List ℕ) → AreNumbers ns → word.now ≢ numbers_text ns)
        (λ ns. AreNumbers ns × (word.now ≡ numbers_text ns))) }
{
    let mut numbers = Numbers::new(alloc);
    let mut rest = word;
    while let Some((number, after)) = number_before(rest, b',') {
        numbers.push(number)?;
        rest = after;
    }
    let Some(last) = number_of(rest) else {
        return Ok(None);
    };
    numbers.push(last)?;
    Ok(Some(numbers))
}

/// Whether the last number is not 0, or there is no other.
fn is_number_list(numbers: &Numbers) -> bool
    requires { AreNumbers numbers.now }
    ensures { IsTrue result ↔ IsNumberList numbers.now }
{
    let count = numbers.len();
    count == 1 || numbers.as_slice()[count - 1] != 0
}

/// The list of numbers that the word spells: its last number is not 0, unless it is the only one.
pub fn number_list_of(alloc: Global, word: &[u8]) -> Result<Option<Numbers>, NoMemory>
    ensures { IfOk result (λ o. MatchOption o
        ((ns : List ℕ) → IsNumberList ns → word.now ≢ numbers_text ns)
        (λ ns. IsNumberList ns × (word.now ≡ numbers_text ns))) }
{
    let Some(numbers) = numbers_of(alloc, word)? else {
        return Ok(None);
    };
    if !is_number_list(&numbers) {
        return Ok(None);
    }
    Ok(Some(numbers))
}
