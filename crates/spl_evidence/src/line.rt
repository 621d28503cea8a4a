// A line of evidence, read as one of those that are due.
ghost use Rattle.std.specs.Prelude.{◌≡◌, ◌≢◌, ◌↔◌, ◌*◌, ◌<◌, ◌≤◌, ℕ, IfOk, IsTrue, MatchOption, Contains, List};
ghost use Rattle.std.specs.List.{AllByRecursion};
ghost use Rattle.spl_text.specs.Text.{FractionText, IsFractionText, lists_of};
ghost use Rattle.spl_evidence.specs.Line.{Line, HasForm, HasLists, fractions_text, line_text, number_count};
ghost use Rattle.spl_evidence.specs.Line.{fraction_count};
ghost use Rattle.spl_evidence.specs.Refusal.{greatest};
ghost use Rattle.spl_evidence.specs.Reading.{IsLineOf};

use crate::arguments::{are_fractions, are_lists, numbers_of};
use crate::due::is_ramified;
use crate::word::Word;
use spl_field::field::NoMemory;
use spl_text::numbers::Numbers;
use spl_text::word::strip_prefix;
use std::alloc::Global;

/// What a line says: its word, its numbers, the text of its fractions, and whether each number of their lists is an
/// element of the field.
#[derive(Drop)]
pub struct LineWords<'a> {
    pub word: Word,
    pub numbers: Numbers,
    pub fractions: &'a [u8],
    pub elements: bool,
}

/// Whether lists stand behind the word where it wants lists, and no quotients of two.
fn has_lists(word: Word, fractions: &[u8]) -> bool
    ensures { (ts : List FractionText) → AllByRecursion IsFractionText ts → fractions.now ≡ fractions_text ts
        → (IsTrue result ↔ HasLists word ts) }
{
    !is_ramified(word) || are_lists(fractions)
}

/// The line of this word that the text spells, over an algebra of dimension m and a field of q elements.
fn line_of<'a>(
    alloc: Global,
    m: usize,
    q: u32,
    word: Word,
    text: &'a [u8],
) -> Result<Option<LineWords<'a>>, NoMemory>
    ensures { IfOk result (λ o. MatchOption o
        ((l : Line) → l.word ≡ word → HasForm m l → text.now ≢ line_text l)
        (λ w. (l : Line) × (l.word ≡ word) × HasForm m l × (text.now ≡ line_text l) × IsLineOf q l w)) }
{
    let Some(arguments) = strip_prefix(text, word.text()) else {
        return Ok(None);
    };
    let Some((numbers, fractions)) = numbers_of(alloc, arguments, word.number_count())? else {
        return Ok(None);
    };
    let Some(elements) = are_fractions(alloc, fractions, word.fraction_count(m), q)? else {
        return Ok(None);
    };
    if !has_lists(word, fractions) {
        return Ok(None);
    }
    Ok(Some(LineWords {
        word,
        numbers,
        fractions,
        elements,
    }))
}

/// The line that the text spells, where its word is one of these.
pub(crate) fn line_of_words<'a>(
    alloc: Global,
    m: usize,
    q: u32,
    words: &[Word],
    text: &'a [u8],
) -> Result<Option<LineWords<'a>>, NoMemory>
    ensures { IfOk result (λ o. MatchOption o
        ((l : Line) → Contains words.now l.word → HasForm m l → text.now ≢ line_text l)
        (λ w. (l : Line) × Contains words.now l.word × HasForm m l × (text.now ≡ line_text l) × IsLineOf q l w)) }
{
    for word in words {
        if let Some(line) = line_of(alloc, m, q, *word, text)? {
            return Ok(Some(line));
        }
    }
    Ok(None)
}
