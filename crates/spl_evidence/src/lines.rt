// The lines of evidence, each written behind a text. Where memory is wanting, some of it is written.
ghost use Rattle.std.specs.Prelude.{◌≡◌, ℕ, ◌<◌, [], ◌∷◌, ◌++◌, map, codes, decimal, OnOk};
ghost use Rattle.std.specs.List.{All, flat_map};
ghost use Rattle.theory_rings.specs.Ops.{IsElem};
ghost use Rattle.spl_text.specs.Text.{line, fraction_text};
ghost use Rattle.theory_fractions.specs.Fraction.{Pair};
ghost use Rattle.spl_fraction.specs.Fractions.{field_of};
ghost use Rattle.spl_fraction.specs.FractionsOver.{fractions_over};
ghost use Rattle.spl_fraction.specs.CanonicalWords.{words_of};
ghost use Rattle.spl_evidence.specs.Line.{fractions_text, line_text, lines_text};
ghost use Rattle.spl_fraction.specs.declared.place.Place.TheVariants.{Finite};
ghost use Rattle.spl_evidence.specs.Evidence.{fractions_line, multiplier_line, map_line, map_lines, unit_line};
ghost use Rattle.spl_evidence.specs.Evidence.{unit_lines, place_line, kind_line};
ghost use Rattle.spl_evidence.specs.declared.evidence.Evidence.TheVariants.{Triple};
ghost use Rattle.spl_evidence.specs.declared.word.Word.TheVariants.{Ideal as IdealWord};

use crate::word::Word;
use itoa::Buffer;
use spl_field::field::NoMemory;
use spl_fraction::field::Fractions;
use spl_fraction::fraction::Fraction;
use spl_fraction::place::Place;
use spl_fraction::tuples::Tuple;
use spl_matrix::matrix::Matrix;
use spl_text::writing::push_coefficients;
use std::alloc::Global;

/// A space and the number.
fn push_number(out: &mut Vec<u8>, n: usize) -> Result<(), NoMemory>
    ensures { OnOk result (out.new.items ≡ out.old.items ++ (codes " " ++ decimal n)) }
{
    let mut buffer = Buffer::new();
    out.extend_from_slice(b" ")?;
    out.extend_from_slice(buffer.format(n).as_bytes())?;
    Ok(())
}

/// The word and the numbers of the basis elements.
pub(crate) fn push_triple(out: &mut Vec<u8>, i: usize, j: usize, k: usize) -> Result<(), NoMemory>
    ensures { OnOk result (out.new.items ≡ out.old.items ++ line (line_text (kind_line (Triple i j k)))) }
{
    out.extend_from_slice(b"triple")?;
    push_number(out, i)?;
    push_number(out, j)?;
    push_number(out, k)?;
    out.extend_from_slice(b"\n")?;
    Ok(())
}

/// The line of a ramified place.
pub(crate) fn push_place(place: &Place, out: &mut Vec<u8>) -> Result<(), NoMemory>
    ensures { OnOk result (out.new.items ≡ out.old.items ++ line (line_text (place_line place.now))) }
{
    match place {
        Place::Finite { poly } => push_polynomial(poly.as_slice(), out),
        Place::Infinity => {
            out.extend_from_slice(b"ramified infinity\n")?;
            Ok(())
        }
    }
}

/// The line of the place of a polynomial with these coefficients.
fn push_polynomial(c: &[u8], out: &mut Vec<u8>) -> Result<(), NoMemory>
    ensures { OnOk result (out.new.items ≡ out.old.items ++ line (line_text (place_line (Finite c.now)))) }
{
    out.extend_from_slice(b"ramified ")?;
    push_coefficients(out, c)?;
    out.extend_from_slice(b"\n")?;
    Ok(())
}

/// The word of an ideal and the number of its tuples.
pub(crate) fn push_ideal_count(out: &mut Vec<u8>, count: usize) -> Result<(), NoMemory>
    ensures { OnOk result (out.new.items
        ≡ out.old.items ++ line (line_text (record { word = IdealWord; numbers = count ∷ []; fractions = [] }))) }
{
    out.extend_from_slice(b"ideal")?;
    push_number(out, count)?;
    out.extend_from_slice(b"\n")?;
    Ok(())
}

/// A space and the canonical text of the fraction.
fn push_fraction(
    alloc: Global,
    f: &Fractions,
    x: &Fraction,
    out: &mut Vec<u8>,
) -> Result<(), NoMemory>
    requires { IsElem (fractions_over (field_of f.now)) x.now }
    ensures { OnOk result (out.new.items ≡ out.old.items ++ (codes " " ++ fraction_text (words_of x.now))) }
{
    out.extend_from_slice(b" ")?;
    f.write_fraction(alloc, x, out)?;
    Ok(())
}

/// The fractions, a space before each.
fn push_fractions(
    alloc: Global,
    f: &Fractions,
    a: &[Fraction],
    out: &mut Vec<u8>,
) -> Result<(), NoMemory>
    requires { All (IsElem (fractions_over (field_of f.now))) a.now }
    ensures { OnOk result (out.new.items ≡ out.old.items ++ fractions_text (map words_of a.now)) }
{
    for x in a {
        push_fraction(alloc, f, x, out)?;
    }
    Ok(())
}

/// The line of a tuple behind this word.
pub(crate) fn push_tuple(
    alloc: Global,
    f: &Fractions,
    word: Word,
    a: &Tuple,
    out: &mut Vec<u8>,
) -> Result<(), NoMemory>
    requires { All (IsElem (fractions_over (field_of f.now))) a.now }
    ensures { OnOk result (out.new.items ≡ out.old.items ++ line (line_text (fractions_line word a.now))) }
{
    out.extend_from_slice(word.text())?;
    push_fractions(alloc, f, a.as_slice(), out)?;
    out.extend_from_slice(b"\n")?;
    Ok(())
}

/// The lines of the tuples, each behind this word.
pub(crate) fn push_tuples(
    alloc: Global,
    f: &Fractions,
    word: Word,
    tuples: &[Tuple],
    out: &mut Vec<u8>,
) -> Result<(), NoMemory>
    requires { All (All (IsElem (fractions_over (field_of f.now)))) tuples.now }
    ensures { OnOk result (out.new.items
        ≡ out.old.items ++ flat_map (λ a. line (line_text (fractions_line word a))) tuples.now) }
{
    for a in tuples {
        push_tuple(alloc, f, word, a, out)?;
    }
    Ok(())
}

/// The line of a multiplier: the side, two numbers and a fraction.
fn push_multiplier(
    alloc: Global,
    f: &Fractions,
    side: Word,
    item: &(usize, usize, Fraction),
    out: &mut Vec<u8>,
) -> Result<(), NoMemory>
    requires { IsElem (fractions_over (field_of f.now)) item.now.2 }
    ensures { OnOk result (out.new.items ≡ out.old.items ++ line (line_text (multiplier_line side item.now))) }
{
    let (j, k, x) = item;
    out.extend_from_slice(side.text())?;
    push_number(out, *j)?;
    push_number(out, *k)?;
    push_fraction(alloc, f, x, out)?;
    out.extend_from_slice(b"\n")?;
    Ok(())
}

/// The lines of the multipliers of one side.
pub(crate) fn push_multipliers(
    alloc: Global,
    f: &Fractions,
    side: Word,
    list: &[(usize, usize, Fraction)],
    out: &mut Vec<u8>,
) -> Result<(), NoMemory>
    requires { All (λ (item : ℕ × ℕ × Pair ℕ). IsElem (fractions_over (field_of f.now)) item.2) list.now }
    ensures { OnOk result (out.new.items
        ≡ out.old.items ++ flat_map (λ item. line (line_text (multiplier_line side item))) list.now) }
{
    for item in list {
        push_multiplier(alloc, f, side, item, out)?;
    }
    Ok(())
}

/// The fractions of the rows, one row after the other.
fn push_rows(
    alloc: Global,
    f: &Fractions,
    rows: &[Tuple],
    out: &mut Vec<u8>,
) -> Result<(), NoMemory>
    requires { All (All (IsElem (fractions_over (field_of f.now)))) rows.now }
    ensures { OnOk result (out.new.items
        ≡ out.old.items ++ fractions_text (map words_of (flat_map (λ row. row) rows.now))) }
{
    for row in rows {
        push_fractions(alloc, f, row.as_slice(), out)?;
    }
    Ok(())
}

/// The line of the matrix of the basis element of this number.
fn push_map(
    alloc: Global,
    f: &Fractions,
    number: usize,
    x: &Matrix<Fractions>,
    out: &mut Vec<u8>,
) -> Result<(), NoMemory>
    requires { All (All (IsElem (fractions_over (field_of f.now)))) x.now }
    ensures { OnOk result (out.new.items ≡ out.old.items ++ line (line_text (map_line number x.now))) }
{
    out.extend_from_slice(b"map")?;
    push_number(out, number)?;
    push_rows(alloc, f, x.as_slice(), out)?;
    out.extend_from_slice(b"\n")?;
    Ok(())
}

/// The lines of the matrices of all basis elements.
pub(crate) fn push_maps(
    alloc: Global,
    f: &Fractions,
    maps: &[Matrix<Fractions>],
    out: &mut Vec<u8>,
) -> Result<(), NoMemory>
    requires { All (All (All (IsElem (fractions_over (field_of f.now))))) maps.now }
    ensures { OnOk result (out.new.items ≡ out.old.items ++ lines_text (map_lines 0 maps.now)) }
{
    for i in 0..maps.len() {
        push_map(alloc, f, i + 1, &maps[i], out)?;
    }
    Ok(())
}

/// The line of the tuple of the matrix unit at row r and column s.
fn push_unit(
    alloc: Global,
    f: &Fractions,
    r: usize,
    s: usize,
    a: &Tuple,
    out: &mut Vec<u8>,
) -> Result<(), NoMemory>
    requires { All (IsElem (fractions_over (field_of f.now))) a.now }
    ensures { OnOk result (out.new.items ≡ out.old.items ++ line (line_text (unit_line r s a.now))) }
{
    out.extend_from_slice(b"unit")?;
    push_number(out, r)?;
    push_number(out, s)?;
    push_fractions(alloc, f, a.as_slice(), out)?;
    out.extend_from_slice(b"\n")?;
    Ok(())
}

/// The lines of the tuples of the matrix units of size n, row by row.
pub(crate) fn push_units(
    alloc: Global,
    f: &Fractions,
    n: usize,
    units: &[Tuple],
    out: &mut Vec<u8>,
) -> Result<(), NoMemory>
    requires size { 0 < n }
    requires elems { All (All (IsElem (fractions_over (field_of f.now)))) units.now }
    ensures { OnOk result (out.new.items ≡ out.old.items ++ lines_text (unit_lines n 0 units.now)) }
{
    for i in 0..units.len() {
        push_unit(alloc, f, i / n + 1, i % n + 1, &units[i], out)?;
    }
    Ok(())
}
