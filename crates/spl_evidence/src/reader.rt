// A reader of lines of evidence, and the line that it stands at.
ghost use Rattle.std.specs.Prelude.{◌≡◌, ◌*◌, ◌+◌, ◌<◌, ◌≤◌, ◌↔◌, ◌++◌, ℕ, List, [], Some, IfOk, IfErr, IsTrue};
ghost use Rattle.spl_fraction.specs.Fractions.{field_of};
ghost use Rattle.spl_text.specs.Text.{line, Lacks};
ghost use Rattle.spl_evidence.specs.Line.{Line, HasForm};
ghost use Rattle.spl_evidence.specs.Refusal.{announced, behind, IsDue, IsInRange, IsInOrder, LineFault};
ghost use Rattle.spl_evidence.specs.Reading.{IfRefused, IsLineOf, IsReadAt, IsFaultFrom, HasRoom};
ghost use Rattle.spl_evidence.specs.declared.word.Word.{Word};
ghost use Rattle.spl_evidence.specs.declared.word.Before.{Before};

use crate::due::{due, is_in_order_behind, is_in_range, number_at};
use crate::line::{LineWords, line_of_words};
use crate::refusal::{EvidenceFault, EvidenceKind};
use crate::word::{Before, Word};
use spl_fraction::field::Fractions;
use spl_text::word::split_once;
use std::alloc::Global;

/// Where a reader stands: the rest of the text, the number of the line there, and what stands before it.
#[derive(Drop)]
pub struct Reader<'a> {
    pub rest: &'a [u8],
    pub number: u32,
    pub before: Option<Before>,
}

/// Whether the numbers of the line, which are in range, are in order.
fn is_in_order(before: &Option<Before>, n: u32, line: &LineWords) -> bool
    requires small { n ≤ 5 }
    ensures { (q : ℕ) (l : Line) → IsLineOf q l line.now → HasForm (n * n) l → IsInRange q n l
        → (IsTrue result ↔ IsInOrder n before.now l) }
{
    match before {
        None => true,
        Some(before) => {
            let numbers = line.numbers.as_slice();
            is_in_order_behind(
                before,
                n,
                line.word,
                number_at(numbers, 0),
                number_at(numbers, 1),
            )
        }
    }
}

/// The line of the text, which stands behind these lines and has this number, where it may stand there but for the
/// terms of its fractions.
pub(crate) fn read_line<'a>(
    alloc: Global,
    f: &Fractions,
    n: u32,
    before: &Option<Before>,
    text: &'a [u8],
    number: u32,
) -> Result<LineWords<'a>, EvidenceFault>
    requires low { 0 < n }
    requires high { n ≤ 5 }
    requires one_line { Lacks 10 text.now }
    requires some_due { (word : Word) × IsDue (n * n) before.now word }
    ensures ok { IfOk result (IsReadAt (field_of f.now) n before.now text.now) }
    ensures fault { (after : List ℕ) → IfErr result (λ e. IfRefused e
        (λ at kind. (at ≡ number) × LineFault (field_of f.now) n before.now (line text.now ++ after) kind)) }
{
    let m = n * n;
    let q = u32::from(f.field().size());
    let Some(line) = line_of_words(alloc, m as usize, q, due(before, m), text)? else {
        return Err(EvidenceFault::at(number, EvidenceKind::EvForm));
    };
    if !is_in_range(&line, n) {
        return Err(EvidenceFault::at(number, EvidenceKind::EvRange));
    }
    if !is_in_order(before, n, &line) {
        return Err(EvidenceFault::at(number, EvidenceKind::EvOrder));
    }
    Ok(line)
}

/// The line where the reader stands, where it may stand there but for the terms of its fractions, and what follows it.
pub(crate) fn line_at<'a>(
    alloc: Global,
    f: &Fractions,
    n: u32,
    reader: &Reader<'a>,
) -> Result<(LineWords<'a>, &'a [u8]), EvidenceFault>
    requires low { 0 < n }
    requires high { n ≤ 5 }
    requires some_due { (word : Word) × IsDue (n * n) reader.now.before word }
    ensures ok { IfOk result (λ x. (text : List ℕ) × IsReadAt (field_of f.now) n reader.now.before text x.0
        × (reader.now.rest.now ≡ line text ++ x.1.now)) }
    ensures fault { IfErr result (λ e. IfRefused e (IsFaultFrom (field_of f.now) n reader.now)) }
{
    let Some((text, after)) = split_once(reader.rest, b'\n') else {
        return Err(EvidenceFault::at(reader.number, EvidenceKind::EvNoEnd));
    };
    let words = read_line(alloc, f, n, &reader.before, text, reader.number)?;
    Ok((words, after))
}

/// How many tuples the line announces, where it is that of a kind.
fn announced(line: &LineWords) -> u32
    ensures { result ≡ announced (record { word = line.now.word; numbers = line.now.numbers; fractions = [] }) }
{
    match line.word {
        Word::Central => 1,
        Word::Ideal => number_at(line.numbers.as_slice(), 0),
        Word::Triple => 0,
        Word::NoIdentity => 0,
        Word::Split => 0,
        Word::Ramified => 0,
        Word::RamifiedInfinity => 0,
        Word::Left => 0,
        Word::Right => 0,
        Word::Tuple => 0,
        Word::Map => 0,
        Word::Unit => 0,
        Word::Order => 0,
        Word::Radical => 0,
        Word::End => 0,
    }
}

/// What stands before a line, where this one stands behind these.
fn behind(before: &Option<Before>, line: &LineWords) -> Before
    requires room { (b : Before) → before.now ≡ Some b → b.count < 4294967295 }
    ensures { Some result ≡ behind before.now
        (record { word = line.now.word; numbers = line.now.numbers; fractions = [] }) }
{
    match before {
        None => Before {
            kind: line.word,
            tuples: announced(line),
            count: 0,
            last: line.word,
            j: 0,
            k: 0,
        },
        Some(b) => {
            let numbers = line.numbers.as_slice();
            Before {
                kind: b.kind,
                tuples: b.tuples,
                count: b.count + 1,
                last: line.word,
                j: number_at(numbers, 0),
                k: number_at(numbers, 1),
            }
        }
    }
}

impl<'a> Reader<'a> {
    /// Goes on behind the line.
    pub(crate) fn pass(&mut self, line: &LineWords, after: &'a [u8])
        requires { HasRoom self.old }
        ensures rest { self.new.rest.now ≡ after.now }
        ensures number { self.new.number ≡ self.old.number + 1 }
        ensures before { self.new.before ≡ behind self.old.before
            (record { word = line.now.word; numbers = line.now.numbers; fractions = [] }) }
    {
        let before = behind(&self.before, line);
        self.rest = after;
        self.number += 1;
        self.before = Some(before);
    }
}
