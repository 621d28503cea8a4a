// The lines of evidence behind the first, one at a time.
ghost use Rattle.std.specs.Prelude.{◌≡◌, ◌≢◌, ◌⊎◌, ◌*◌, ◌<◌, ◌≤◌, ℕ, None, [], ◌∷◌, map, IfOk, IfErr, OnOk};
ghost use Rattle.std.specs.Prelude.{MatchOption};
ghost use Rattle.std.specs.List.{flat_map};
ghost use Rattle.theory_rings.specs.Ops.{IsElem};
ghost use Rattle.theory_spaces.specs.Tuples.{IsTuple};
ghost use Rattle.theory_tables.specs.Split.{IsSquare};
ghost use Rattle.spl_field.specs.declared.small.SmallField.{SmallField};
ghost use Rattle.spl_fraction.specs.Fractions.{field_of};
ghost use Rattle.spl_fraction.specs.FractionsOver.{fractions_over};
ghost use Rattle.spl_fraction.specs.CanonicalWords.{words_of};
ghost use Rattle.spl_evidence.specs.Line.{Line, fraction_count, lines_text};
ghost use Rattle.spl_evidence.specs.Evidence.{PlaceFits, place_line, multiplier_line, end_line};
ghost use Rattle.spl_evidence.specs.Refusal.{IsDue, NothingIsDue, due_words, behind};
ghost use Rattle.spl_evidence.specs.Reading.{IfRefused, IsLineOf, IsFaultFrom, Reads, HasRoom, TakesTuple};
ghost use Rattle.spl_evidence.specs.declared.word.Word.{Word};
ghost use Rattle.spl_evidence.specs.declared.word.Word.TheVariants.{Left, Right, Map, End};
ghost use Rattle.spl_evidence.specs.declared.word.Word.TheVariants.{Ramified, RamifiedInfinity};

use crate::due::{is_end, number_at};
use crate::line::LineWords;
use crate::reader::{Reader, line_at};
use crate::refusal::{EvidenceFault, EvidenceKind};
use crate::terms::{matrix_of, multiplier_of, place_of_kind, tuple_of};
use crate::word::Word;
use spl_fraction::field::Fractions;
use spl_fraction::fraction::Fraction;
use spl_fraction::place::Place;
use spl_fraction::tuples::Tuple;
use spl_matrix::matrix::Matrix;
use std::alloc::Global;

/// The words of a line without fractions, where all lines that are due are such.
pub(crate) fn read_plain<'a>(
    alloc: Global,
    f: &Fractions,
    n: u32,
    reader: &mut Reader<'a>,
) -> Result<LineWords<'a>, EvidenceFault>
    requires low { 0 < n }
    requires high { n ≤ 5 }
    requires room { HasRoom reader.old }
    requires some_due { (word : Word) × IsDue (n * n) reader.old.before word }
    requires plain { (word : Word) → IsDue (n * n) reader.old.before word → fraction_count (n * n) word ≡ 0 }
    ensures ok { IfOk result (λ w. (l : Line) × Reads (field_of f.now) n reader.old (l ∷ []) reader.new
        × (w.word ≡ l.word) × (w.numbers ≡ l.numbers) × (l.fractions ≡ [])) }
    ensures fault { IfErr result (λ e. IfRefused e (IsFaultFrom (field_of f.now) n reader.old)) }
{
    let (line, after) = line_at(alloc, f, n, reader)?;
    reader.pass(&line, after);
    Ok(line)
}

/// The words of the line of a kind, and the place where it is that of a ramified place.
pub(crate) fn read_kind<'a>(
    alloc: Global,
    f: &Fractions,
    n: u32,
    reader: &mut Reader<'a>,
) -> Result<(LineWords<'a>, Option<Place>), EvidenceFault>
    requires low { 0 < n }
    requires high { n ≤ 5 }
    requires room { HasRoom reader.old }
    requires start { reader.old.before ≡ None }
    ensures ok { IfOk result (λ x. (l : Line) × Reads (field_of f.now) n reader.old (l ∷ []) reader.new
        × (x.0.word ≡ l.word) × (x.0.numbers ≡ l.numbers)
        × MatchOption x.1 ((l.fractions ≡ []) × (x.0.word ≢ Ramified) × (x.0.word ≢ RamifiedInfinity))
        (λ place. PlaceFits (fractions_over (field_of f.now)) place × (l ≡ place_line place))) }
    ensures fault { IfErr result (λ e. IfRefused e (IsFaultFrom (field_of f.now) n reader.old)) }
{
    let (line, after) = line_at(alloc, f, n, reader)?;
    let Some(place) = place_of_kind(alloc, f, line.word, line.fractions)? else {
        return Err(EvidenceFault::at(reader.number, EvidenceKind::EvTerms));
    };
    reader.pass(&line, after);
    Ok((line, place))
}

/// The fractions of a line of n² fractions, the one line that is due.
pub(crate) fn read_tuple(
    alloc: Global,
    f: &Fractions,
    n: u32,
    reader: &mut Reader,
) -> Result<Tuple, EvidenceFault>
    requires low { 0 < n }
    requires high { n ≤ 5 }
    requires room { HasRoom reader.old }
    requires due { (word : Word) × (due_words (n * n) reader.old.before ≡ word ∷ []) × TakesTuple (n * n) word }
    ensures ok { IfOk result (λ a. IsTuple (fractions_over (field_of f.now)) (n * n) a
        × ((l : Line) × Reads (field_of f.now) n reader.old (l ∷ []) reader.new × (l.fractions ≡ map words_of a))) }
    ensures fault { IfErr result (λ e. IfRefused e (IsFaultFrom (field_of f.now) n reader.old)) }
{
    let (line, after) = line_at(alloc, f, n, reader)?;
    let Some(tuple) = tuple_of(alloc, f, line.fractions, (n * n) as usize)? else {
        return Err(EvidenceFault::at(reader.number, EvidenceKind::EvTerms));
    };
    reader.pass(&line, after);
    Ok(tuple)
}

/// The matrix of a line `map`, the one line that is due.
pub(crate) fn read_matrix(
    alloc: Global,
    f: &Fractions,
    n: u32,
    reader: &mut Reader,
) -> Result<Matrix<Fractions>, EvidenceFault>
    requires low { 0 < n }
    requires high { n ≤ 5 }
    requires room { HasRoom reader.old }
    requires due { due_words (n * n) reader.old.before ≡ Map ∷ [] }
    ensures ok { IfOk result (λ x. IsSquare (fractions_over (field_of f.now)) n x
        × ((l : Line) × Reads (field_of f.now) n reader.old (l ∷ []) reader.new
        × (l.fractions ≡ map words_of (flat_map (λ row. row) x)))) }
    ensures fault { IfErr result (λ e. IfRefused e (IsFaultFrom (field_of f.now) n reader.old)) }
{
    let (line, after) = line_at(alloc, f, n, reader)?;
    let Some(matrix) = matrix_of(alloc, f, line.fractions, n as usize)? else {
        return Err(EvidenceFault::at(reader.number, EvidenceKind::EvTerms));
    };
    reader.pass(&line, after);
    Ok(matrix)
}

/// The side and the multiplier of a line, where those and the line `end` are due; None where it is the line `end`.
pub(crate) fn read_side(
    alloc: Global,
    f: &Fractions,
    n: u32,
    reader: &mut Reader,
) -> Result<Option<(Word, (usize, usize, Fraction))>, EvidenceFault>
    requires low { 0 < n }
    requires high { n ≤ 5 }
    requires room { HasRoom reader.old }
    requires some_due { (word : Word) × IsDue (n * n) reader.old.before word }
    requires sides { (word : Word) → IsDue (n * n) reader.old.before word
        → (word ≡ Left) ⊎ (word ≡ Right) ⊎ (word ≡ End) }
    ensures ok { IfOk result (λ o. MatchOption o (Reads (field_of f.now) n reader.old (end_line ∷ []) reader.new)
        (λ x. Reads (field_of f.now) n reader.old (multiplier_line x.0 x.1 ∷ []) reader.new
        × IsElem (fractions_over (field_of f.now)) x.1.2 × ((x.0 ≡ Left) ⊎ (x.0 ≡ Right)))) }
    ensures fault { IfErr result (λ e. IfRefused e (IsFaultFrom (field_of f.now) n reader.old)) }
{
    let (line, after) = line_at(alloc, f, n, reader)?;
    if is_end(line.word) {
        reader.pass(&line, after);
        return Ok(None);
    }
    let Some(x) = multiplier_of(alloc, f, line.fractions)? else {
        return Err(EvidenceFault::at(reader.number, EvidenceKind::EvTerms));
    };
    reader.pass(&line, after);
    let numbers = line.numbers.as_slice();
    let j = number_at(numbers, 0) as usize;
    let k = number_at(numbers, 1) as usize;
    Ok(Some((line.word, (j, k, x))))
}

/// Whether the text ends where nothing is due.
pub(crate) fn read_nothing(n: u32, reader: &Reader) -> Result<(), EvidenceFault>
    requires small { n ≤ 5 }
    requires nothing { NothingIsDue (n * n) reader.now.before }
    ensures ok { OnOk result (reader.now.rest.now ≡ []) }
    ensures fault { (f : SmallField) → IfErr result (λ e. IfRefused e (IsFaultFrom f n reader.now)) }
{
    let _ = n;
    if !reader.rest.is_empty() {
        return Err(EvidenceFault::at(reader.number, EvidenceKind::EvAfterEnd));
    }
    Ok(())
}

/// Whether the text ends with the line `end`, the one line that is due, where nothing is due behind it.
pub(crate) fn read_end(
    alloc: Global,
    f: &Fractions,
    n: u32,
    reader: &mut Reader,
) -> Result<(), EvidenceFault>
    requires low { 0 < n }
    requires high { n ≤ 5 }
    requires room { HasRoom reader.old }
    requires due { due_words (n * n) reader.old.before ≡ End ∷ [] }
    requires nothing { NothingIsDue (n * n) (behind reader.old.before end_line) }
    ensures ok { OnOk result (reader.old.rest.now ≡ lines_text (end_line ∷ [])) }
    ensures fault { IfErr result (λ e. IfRefused e (IsFaultFrom (field_of f.now) n reader.old)) }
{
    read_plain(alloc, f, n, reader)?;
    read_nothing(n, reader)
}
