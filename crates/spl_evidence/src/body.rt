// The lines of evidence of each kind.
ghost use Rattle.std.specs.Prelude.{◌≡◌, ◌≢◌, ◌+◌, ◌*◌, ◌<◌, ◌≤◌, ℕ, None, Some, [], ◌∷◌, ◌++◌, length, map};
ghost use Rattle.std.specs.Prelude.{IfOk, IfErr, OnOk};
ghost use Rattle.std.specs.List.{All};
ghost use Rattle.theory_spaces.specs.Tuples.{IsTuple};
ghost use Rattle.theory_tables.specs.Claims.{TripleFits};
ghost use Rattle.theory_tables.specs.Split.{IsSquare};
ghost use Rattle.spl_fraction.specs.Fractions.{field_of};
ghost use Rattle.spl_fraction.specs.FractionsOver.{fractions_over};
ghost use Rattle.theory_tables.specs.Matrix.{IsMatrix};
ghost use Rattle.spl_evidence.specs.Line.{Line, number_count, lines_text};
ghost use Rattle.spl_evidence.specs.Evidence.{Fits, PlaceFits, fractions_line, map_lines, unit_lines, place_line};
ghost use Rattle.spl_evidence.specs.Evidence.{end_line, lines_of};
ghost use Rattle.spl_evidence.specs.Reading.{IfRefused, IsFaultFrom, IsBehindKind, Reads, StandsBehind, HasRoomFor};
ghost use Rattle.spl_evidence.specs.Reading.{TakesTuple, AreDue};
ghost use Rattle.spl_evidence.specs.declared.word.Word.TheVariants.{Triple as TripleWord, NoIdentity as NoIdentityWord};
ghost use Rattle.spl_evidence.specs.declared.word.Word.TheVariants.{Central as CentralWord, Ideal as IdealWord};
ghost use Rattle.spl_evidence.specs.declared.word.Word.TheVariants.{Split as SplitWord, Left};
ghost use Rattle.spl_evidence.specs.declared.word.Word.TheVariants.{Order as OrderWord, Radical as RadicalWord};

use crate::due::{is_left, number_at};
use crate::evidence::Evidence;
use crate::reader::Reader;
use crate::refusal::EvidenceFault;
use crate::steps::{read_end, read_kind, read_matrix, read_nothing, read_side, read_tuple};
use crate::word::Word;
use spl_field::field::NoMemory;
use spl_fraction::field::Fractions;
use spl_fraction::fraction::Fraction;
use spl_fraction::place::Place;
use spl_fraction::tuples::Tuples;
use spl_matrix::lists::{Maps, Multipliers};
use std::alloc::Global;

/// What follows the line `triple I J K`.
fn read_triple(
    alloc: Global,
    f: &Fractions,
    n: u32,
    reader: &mut Reader,
    i: u32,
    j: u32,
    k: u32,
) -> Result<Evidence, EvidenceFault>
    requires low { 0 < n }
    requires high { n ≤ 5 }
    requires number { reader.old.number ≤ 4000000010 }
    requires stands { StandsBehind TripleWord 0 0 reader.old.before }
    requires fits { TripleFits (n * n) i j k }
    ensures ok { IfOk result (IsBehindKind (field_of f.now) n
        (record { word = TripleWord; numbers = i ∷ j ∷ k ∷ []; fractions = [] }) reader.old.rest.now) }
    ensures fault { IfErr result (λ e. IfRefused e (IsFaultFrom (field_of f.now) n reader.old)) }
{
    read_end(alloc, f, n, reader)?;
    Ok(Evidence::Triple {
        i: i as usize,
        j: j as usize,
        k: k as usize,
    })
}

/// Appends the multiplier to those of its side.
fn push_side(
    left: &mut Multipliers<Fractions>,
    right: &mut Multipliers<Fractions>,
    side: Word,
    item: (usize, usize, Fraction),
) -> Result<(), NoMemory>
    ensures left { side ≡ Left → OnOk result ((left.new ≡ left.old ++ item ∷ []) × (right.new ≡ right.old)) }
    ensures right { side ≢ Left → OnOk result ((left.new ≡ left.old) × (right.new ≡ right.old ++ item ∷ [])) }
{
    if is_left(side) {
        left.push(item)?;
    } else {
        right.push(item)?;
    }
    Ok(())
}

/// What follows the line `noidentity`.
fn read_no_identity(
    alloc: Global,
    f: &Fractions,
    n: u32,
    reader: &mut Reader,
) -> Result<Evidence, EvidenceFault>
    requires low { 0 < n }
    requires high { n ≤ 5 }
    requires number { reader.old.number ≤ 4000000010 }
    requires stands { reader.old.before ≡ Some (record {
      kind = NoIdentityWord;
      tuples = 0;
      count = 0;
      last = NoIdentityWord;
      j = 0;
      k = 0;
    }) }
    ensures ok { IfOk result (IsBehindKind (field_of f.now) n
        (record { word = NoIdentityWord; numbers = []; fractions = [] }) reader.old.rest.now) }
    ensures fault { IfErr result (λ e. IfRefused e (IsFaultFrom (field_of f.now) n reader.old)) }
{
    let mut left = Multipliers::<Fractions>::new(alloc);
    let mut right = Multipliers::<Fractions>::new(alloc);
    while let Some((side, item)) = read_side(alloc, f, n, reader)? {
        push_side(&mut left, &mut right, side, item)?;
    }
    read_nothing(n, reader)?;
    Ok(Evidence::NoIdentity { left, right })
}

/// What follows the line `central`.
fn read_central(
    alloc: Global,
    f: &Fractions,
    n: u32,
    reader: &mut Reader,
) -> Result<Evidence, EvidenceFault>
    requires low { 0 < n }
    requires high { n ≤ 5 }
    requires number { reader.old.number ≤ 4000000010 }
    requires stands { StandsBehind CentralWord 1 0 reader.old.before }
    ensures ok { IfOk result (IsBehindKind (field_of f.now) n
        (record { word = CentralWord; numbers = []; fractions = [] }) reader.old.rest.now) }
    ensures fault { IfErr result (λ e. IfRefused e (IsFaultFrom (field_of f.now) n reader.old)) }
{
    let tuple = read_tuple(alloc, f, n, reader)?;
    read_end(alloc, f, n, reader)?;
    Ok(Evidence::Central { tuple })
}

/// The tuples of so many lines of this word, where no others are due.
fn read_tuples(
    alloc: Global,
    f: &Fractions,
    n: u32,
    reader: &mut Reader,
    word: Word,
    count: u32,
) -> Result<Tuples, EvidenceFault>
    requires low { 0 < n }
    requires high { n ≤ 5 }
    requires room { HasRoomFor count reader.old }
    requires tuple { TakesTuple (n * n) word }
    requires no_numbers { number_count word ≡ 0 }
    requires due { AreDue (field_of f.now) n word count reader.old.before }
    ensures ok { IfOk result (λ xs. (length xs ≡ count) × All (IsTuple (fractions_over (field_of f.now)) (n * n)) xs
        × Reads (field_of f.now) n reader.old (map (fractions_line word) xs) reader.new) }
    ensures fault { IfErr result (λ e. IfRefused e (IsFaultFrom (field_of f.now) n reader.old)) }
{
    let _ = word;
    let mut tuples = Tuples::new(alloc);
    for _ in 0..count {
        tuples.push(read_tuple(alloc, f, n, reader)?)?;
    }
    Ok(tuples)
}

/// What follows the line `ideal D`.
fn read_ideal(
    alloc: Global,
    f: &Fractions,
    n: u32,
    reader: &mut Reader,
    count: u32,
) -> Result<Evidence, EvidenceFault>
    requires low { 0 < n }
    requires high { n ≤ 5 }
    requires some { 1 ≤ count }
    requires fewer { count < n * n }
    requires number { reader.old.number ≤ 4000000010 }
    requires stands { StandsBehind IdealWord count 0 reader.old.before }
    ensures ok { IfOk result (IsBehindKind (field_of f.now) n
        (record { word = IdealWord; numbers = count ∷ []; fractions = [] }) reader.old.rest.now) }
    ensures fault { IfErr result (λ e. IfRefused e (IsFaultFrom (field_of f.now) n reader.old)) }
{
    let tuples = read_tuples(alloc, f, n, reader, Word::Tuple, count)?;
    read_end(alloc, f, n, reader)?;
    Ok(Evidence::Ideal { tuples })
}

/// The matrices of all basis elements.
fn read_maps(
    alloc: Global,
    f: &Fractions,
    n: u32,
    reader: &mut Reader,
) -> Result<Maps<Fractions>, EvidenceFault>
    requires low { 0 < n }
    requires high { n ≤ 5 }
    requires number { reader.old.number ≤ 4000000010 }
    requires stands { StandsBehind SplitWord 0 0 reader.old.before }
    ensures ok { IfOk result (λ xs. (length xs ≡ n * n) × All (IsSquare (fractions_over (field_of f.now)) n) xs
        × Reads (field_of f.now) n reader.old (map_lines 0 xs) reader.new
        × StandsBehind SplitWord 0 (n * n) reader.new.before) }
    ensures fault { IfErr result (λ e. IfRefused e (IsFaultFrom (field_of f.now) n reader.old)) }
{
    let mut maps = Maps::<Fractions>::new(alloc);
    for _ in 0..n * n {
        maps.push(read_matrix(alloc, f, n, reader)?)?;
    }
    Ok(maps)
}

/// The tuples of all matrix units.
fn read_units(
    alloc: Global,
    f: &Fractions,
    n: u32,
    reader: &mut Reader,
) -> Result<Tuples, EvidenceFault>
    requires low { 0 < n }
    requires high { n ≤ 5 }
    requires number { reader.old.number ≤ 4000000040 }
    requires stands { StandsBehind SplitWord 0 (n * n) reader.old.before }
    ensures ok { IfOk result (λ xs. (length xs ≡ n * n) × All (IsTuple (fractions_over (field_of f.now)) (n * n)) xs
        × Reads (field_of f.now) n reader.old (unit_lines n 0 xs) reader.new
        × StandsBehind SplitWord 0 (n * n + n * n) reader.new.before) }
    ensures fault { IfErr result (λ e. IfRefused e (IsFaultFrom (field_of f.now) n reader.old)) }
{
    let mut units = Tuples::new(alloc);
    for _ in 0..n * n {
        units.push(read_tuple(alloc, f, n, reader)?)?;
    }
    Ok(units)
}

/// What follows the line `split`.
fn read_split(
    alloc: Global,
    f: &Fractions,
    n: u32,
    reader: &mut Reader,
) -> Result<Evidence, EvidenceFault>
    requires low { 0 < n }
    requires high { n ≤ 5 }
    requires number { reader.old.number ≤ 4000000010 }
    requires stands { StandsBehind SplitWord 0 0 reader.old.before }
    ensures ok { IfOk result (IsBehindKind (field_of f.now) n
        (record { word = SplitWord; numbers = []; fractions = [] }) reader.old.rest.now) }
    ensures fault { IfErr result (λ e. IfRefused e (IsFaultFrom (field_of f.now) n reader.old)) }
{
    let maps = read_maps(alloc, f, n, reader)?;
    let units = read_units(alloc, f, n, reader)?;
    read_end(alloc, f, n, reader)?;
    Ok(Evidence::Split { maps, units })
}

/// The tuples of an order and of its radical, behind the line of a place; with them the text ends.
fn read_order_and_radical(
    alloc: Global,
    f: &Fractions,
    n: u32,
    reader: &mut Reader,
) -> Result<(Tuples, Tuples), EvidenceFault>
    requires low { 0 < n }
    requires high { n ≤ 5 }
    requires number { reader.old.number ≤ 4000000010 }
    requires stands { (place : Place) × StandsBehind (place_line place).word 0 0 reader.old.before }
    ensures ok { IfOk result (λ x. (length x.0 ≡ n * n) × IsMatrix (fractions_over (field_of f.now)) (n * n) x.0
        × (length x.1 ≡ n * n) × IsMatrix (fractions_over (field_of f.now)) (n * n) x.1
        × (reader.old.rest.now ≡ lines_text (map (fractions_line OrderWord) x.0
        ++ map (fractions_line RadicalWord) x.1 ++ end_line ∷ []))) }
    ensures fault { IfErr result (λ e. IfRefused e (IsFaultFrom (field_of f.now) n reader.old)) }
{
    let order = read_tuples(alloc, f, n, reader, Word::Order, n * n)?;
    let radical = read_tuples(alloc, f, n, reader, Word::Radical, n * n)?;
    read_end(alloc, f, n, reader)?;
    Ok((order, radical))
}

/// What follows the line of a ramified place.
fn read_ramified(
    alloc: Global,
    f: &Fractions,
    n: u32,
    reader: &mut Reader,
    place: Place,
) -> Result<Evidence, EvidenceFault>
    requires low { 0 < n }
    requires high { n ≤ 5 }
    requires number { reader.old.number ≤ 4000000010 }
    requires stands { StandsBehind (place_line place).word 0 0 reader.old.before }
    requires fits { PlaceFits (fractions_over (field_of f.now)) place }
    ensures ok { IfOk result (IsBehindKind (field_of f.now) n (place_line place) reader.old.rest.now) }
    ensures fault { IfErr result (λ e. IfRefused e (IsFaultFrom (field_of f.now) n reader.old)) }
{
    let (order, radical) = read_order_and_radical(alloc, f, n, reader)?;
    Ok(Evidence::Ramified {
        place,
        order,
        radical,
    })
}

/// The evidence of the lines behind the first.
pub(crate) fn read_lines(
    alloc: Global,
    f: &Fractions,
    n: u32,
    reader: &mut Reader,
) -> Result<Evidence, EvidenceFault>
    requires low { 2 ≤ n }
    requires high { n ≤ 5 }
    requires number { reader.old.number ≤ 4000000001 }
    requires start { reader.old.before ≡ None }
    ensures ok { IfOk result (λ e. Fits (fractions_over (field_of f.now)) n e
        × (reader.old.rest.now ≡ lines_text (lines_of n e))) }
    ensures fault { IfErr result (λ e. IfRefused e (IsFaultFrom (field_of f.now) n reader.old)) }
{
    let (line, place) = read_kind(alloc, f, n, reader)?;
    if let Some(place) = place {
        return read_ramified(alloc, f, n, reader, place);
    }
    let word = line.word;
    let numbers = line.numbers.as_slice();
    let i = number_at(numbers, 0);
    match word {
        Word::Triple => {
            read_triple(
                alloc,
                f,
                n,
                reader,
                i,
                number_at(numbers, 1),
                number_at(numbers, 2),
            )
        }
        Word::NoIdentity => read_no_identity(alloc, f, n, reader),
        Word::Central => read_central(alloc, f, n, reader),
        Word::Ideal => read_ideal(alloc, f, n, reader, i),
        _ => read_split(alloc, f, n, reader),
    }
}
