// An entry of a table text.
ghost use Rattle.std.specs.Prelude.{◌≡◌, ◌≢◌, ◌↔◌, ℕ, ◌*◌, ◌<◌, ◌≤◌, ◌++◌, Option, IfOk, IfErr, IsTrue, List};
ghost use Rattle.std.specs.Prelude.{MatchOption, codes};
ghost use Rattle.spl_text.specs.Text.{Lacks, line};
ghost use Rattle.spl_text.specs.FractionWords.{text_of};
ghost use Rattle.spl_table.specs.TableText.{Entry, IsEntry, IsInRange, IsOverZero, HasSmallDegrees, IsRightEntry};
ghost use Rattle.spl_table.specs.Refusal.{LineFault};
ghost use Rattle.spl_table.specs.Reading.{IfRefused, entry_text, entry_of, head_of, place_of, IsPrevious};
ghost use Rattle.spl_table.specs.Reading.{IsEntryFaultOf};

use crate::refusal::{Kind, TableFault};
use spl_field::field::NoMemory;
use spl_field::small::SmallField;
use spl_text::fraction::{FractionWords, fraction_of, has_elements};
use spl_text::word::number_before;
use std::alloc::Global;

/// The numbers of the line `I J K F`: the constant at (I, J, K), counted from 1, is F.
#[derive(Drop)]
pub struct EntryWords {
    pub i: u32,
    pub j: u32,
    pub k: u32,
    pub value: FractionWords,
}

/// The entry that the line spells, where it is of this form.
pub fn entry_words(alloc: Global, line: &[u8]) -> Result<Option<EntryWords>, NoMemory>
    ensures { IfOk result (λ o. MatchOption o
        ((e : Entry) → IsEntry e → line.now ≢ entry_text e)
        (λ w. IsEntry (entry_of w) × (line.now ≡ entry_text (entry_of w)))) }
{
    let Some((i, rest)) = number_before(line, b' ') else {
        return Ok(None);
    };
    let Some((j, rest)) = number_before(rest, b' ') else {
        return Ok(None);
    };
    let Some((k, rest)) = number_before(rest, b' ') else {
        return Ok(None);
    };
    let Some(value) = fraction_of(alloc, rest)? else {
        return Ok(None);
    };
    Ok(Some(EntryWords { i, j, k, value }))
}

/// Whether the denominator is `0`.
fn is_over_zero(value: &FractionWords) -> bool
    ensures { IsTrue result ↔ IsOverZero (text_of value.now) }
{
    match &value.denominator {
        Some(denominator) => denominator.len() == 1 && denominator.as_slice()[0] == 0,
        None => false,
    }
}

/// Whether each list has at most 33 numbers.
fn has_small_degrees(value: &FractionWords) -> bool
    ensures { IsTrue result ↔ HasSmallDegrees (text_of value.now) }
{
    value.numerator.len() <= 33
        && match &value.denominator {
            Some(denominator) => denominator.len() <= 33,
            None => true,
        }
}

impl EntryWords {
    /// Whether the triple is one of basis elements, and each number of a list an element of the field.
    fn is_in_range(&self, f: &SmallField, n: usize) -> bool
        requires { n ≤ 5 }
        ensures { IsTrue result ↔ IsInRange (head_of f.now n) (entry_of self.now) }
    {
        let m = (n * n) as u32;
        1 <= self.i
            && self.i <= m
            && 1 <= self.j
            && self.j <= m
            && 1 <= self.k
            && self.k <= m
            && has_elements(&self.value, u32::from(f.size()))
    }

    /// Where the constant of the triple stands among the n⁶.
    pub fn place(&self, f: &SmallField, n: usize) -> usize
        requires small { n ≤ 5 }
        requires range { IsInRange (head_of f.now n) (entry_of self.now) }
        ensures place { result ≡ place_of (n * n) (entry_of self.now) }
        ensures below { result < n * n * (n * n) * (n * n) }
    {
        let m = n * n;
        ((self.i as usize - 1) * m + (self.j as usize - 1)) * m + (self.k as usize - 1)
    }

    /// What is wrong with the entry, where the constants below the place `next` stand before it.
    pub fn fault(&self, f: &SmallField, n: usize, next: usize) -> Option<Kind>
        requires small { n ≤ 5 }
        requires form { IsEntry (entry_of self.now) }
        ensures { (previous : Option Entry) → IsPrevious (head_of f.now n) next previous
            → MatchOption result (IsRightEntry (head_of f.now n) previous (entry_of self.now))
            (IsEntryFaultOf (head_of f.now n) previous (entry_of self.now)) }
    {
        if !self.is_in_range(f, n) {
            return Some(Kind::EntryRange);
        }
        if self.place(f, n) < next {
            return Some(Kind::EntryOrder);
        }
        if is_over_zero(&self.value) {
            return Some(Kind::ZeroDenominator);
        }
        if !has_small_degrees(&self.value) {
            return Some(Kind::PolyDegree);
        }
        None
    }
}

/// The entry of a finished line other than `end`, where the constants below the place `next` stand before it.
pub fn read_entry(
    alloc: Global,
    f: &SmallField,
    n: usize,
    next: usize,
    text: &[u8],
    number: u32,
) -> Result<EntryWords, TableFault>
    requires small { n ≤ 5 }
    requires one_line { Lacks 10 text.now }
    requires no_end { text.now ≢ codes "end" }
    ensures spelled { IfOk result (λ w. text.now ≡ entry_text (entry_of w)) }
    ensures right { (previous : Option Entry) → IsPrevious (head_of f.now n) next previous
        → IfOk result (λ w. IsRightEntry (head_of f.now n) previous (entry_of w)) }
    ensures fault { (previous : Option Entry) (after : List ℕ) → IsPrevious (head_of f.now n) next previous
        → IfErr result (λ e. IfRefused e
        (λ at kind. (at ≡ number) × LineFault (head_of f.now n) previous (line text.now ++ after) kind)) }
{
    let Some(entry) = entry_words(alloc, text)? else {
        return Err(TableFault::at(number, Kind::EntryForm));
    };
    match entry.fault(f, n, next) {
        Some(kind) => Err(TableFault::at(number, kind)),
        None => Ok(entry),
    }
}
