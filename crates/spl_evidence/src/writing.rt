// Writing evidence.
ghost use Rattle.std.specs.Prelude.{◌≡◌, ℕ, ◌<◌, ◌≤◌, List, ◌∷◌, ◌++◌, IfOk, OnOk};
ghost use Rattle.std.specs.List.{All};
ghost use Rattle.theory_rings.specs.Ops.{IsElem};
ghost use Rattle.theory_fractions.specs.Fraction.{Pair};
ghost use Rattle.spl_fraction.specs.Fractions.{field_of};
ghost use Rattle.spl_fraction.specs.FractionsOver.{fractions_over};
ghost use Rattle.spl_evidence.specs.Line.{lines_text};
ghost use Rattle.spl_evidence.specs.Evidence.{Fits, IsEvidenceText, kind_line, body_lines};
ghost use Rattle.spl_evidence.specs.declared.evidence.Evidence.TheVariants.{NoIdentity, Ideal, Split, Ramified};

use crate::evidence::Evidence;
use crate::lines::{
    push_ideal_count, push_maps, push_multipliers, push_place, push_triple, push_tuple,
    push_tuples, push_units,
};
use crate::word::Word;
use spl_field::field::NoMemory;
use spl_fraction::field::Fractions;
use spl_fraction::place::Place;
use spl_fraction::tuples::Tuples;
use spl_matrix::lists::{Maps, Multipliers};
use std::alloc::Global;

/// Multipliers of equations of an identity: those of the left ones, then those of the right ones.
fn push_no_identity(
    alloc: Global,
    f: &Fractions,
    left: &Multipliers<Fractions>,
    right: &Multipliers<Fractions>,
    out: &mut Vec<u8>,
) -> Result<(), NoMemory>
    requires left { All (λ (item : ℕ × ℕ × Pair ℕ). IsElem (fractions_over (field_of f.now)) item.2) left.now }
    requires right { All (λ (item : ℕ × ℕ × Pair ℕ). IsElem (fractions_over (field_of f.now)) item.2) right.now }
    ensures { OnOk result (out.new.items
        ≡ out.old.items ++ lines_text (kind_line (NoIdentity left.now right.now) ∷ body_lines 0
        (NoIdentity left.now right.now))) }
{
    out.extend_from_slice(b"noidentity\n")?;
    push_multipliers(alloc, f, Word::Left, left.as_slice(), out)?;
    push_multipliers(alloc, f, Word::Right, right.as_slice(), out)?;
    Ok(())
}

/// The number of tuples, and the tuples.
fn push_ideal(
    alloc: Global,
    f: &Fractions,
    tuples: &Tuples,
    out: &mut Vec<u8>,
) -> Result<(), NoMemory>
    requires { All (All (IsElem (fractions_over (field_of f.now)))) tuples.now }
    ensures { OnOk result (out.new.items
        ≡ out.old.items ++ lines_text (kind_line (Ideal tuples.now) ∷ body_lines 0 (Ideal tuples.now))) }
{
    push_ideal_count(out, tuples.len())?;
    push_tuples(alloc, f, Word::Tuple, tuples.as_slice(), out)?;
    Ok(())
}

/// The matrices of the basis elements, and the tuples of the matrix units.
fn push_split(
    alloc: Global,
    f: &Fractions,
    n: usize,
    maps: &Maps<Fractions>,
    units: &Tuples,
    out: &mut Vec<u8>,
) -> Result<(), NoMemory>
    requires size { 0 < n }
    requires maps { All (All (All (IsElem (fractions_over (field_of f.now))))) maps.now }
    requires units { All (All (IsElem (fractions_over (field_of f.now)))) units.now }
    ensures { OnOk result (out.new.items
        ≡ out.old.items ++ lines_text (kind_line (Split maps.now units.now) ∷ body_lines n
        (Split maps.now units.now))) }
{
    out.extend_from_slice(b"split\n")?;
    push_maps(alloc, f, maps.as_slice(), out)?;
    push_units(alloc, f, n, units.as_slice(), out)?;
    Ok(())
}

/// The place, the tuples of the order, and those of its radical.
fn push_ramified(
    alloc: Global,
    f: &Fractions,
    place: &Place,
    order: &Tuples,
    radical: &Tuples,
    out: &mut Vec<u8>,
) -> Result<(), NoMemory>
    requires order { All (All (IsElem (fractions_over (field_of f.now)))) order.now }
    requires radical { All (All (IsElem (fractions_over (field_of f.now)))) radical.now }
    ensures { OnOk result (out.new.items
        ≡ out.old.items ++ lines_text (kind_line (Ramified place.now order.now radical.now) ∷ body_lines 0
        (Ramified place.now order.now radical.now))) }
{
    push_place(place, out)?;
    push_tuples(alloc, f, Word::Order, order.as_slice(), out)?;
    push_tuples(alloc, f, Word::Radical, radical.as_slice(), out)?;
    Ok(())
}

/// The lines of the evidence between the first and `end`.
fn push_body(
    alloc: Global,
    f: &Fractions,
    n: usize,
    e: &Evidence,
    out: &mut Vec<u8>,
) -> Result<(), NoMemory>
    requires size { 0 < n }
    requires fits { Fits (fractions_over (field_of f.now)) n e.now }
    ensures { OnOk result (out.new.items ≡ out.old.items ++ lines_text (kind_line e.now ∷ body_lines n e.now)) }
{
    match e {
        Evidence::Triple { i, j, k } => push_triple(out, *i, *j, *k),
        Evidence::NoIdentity { left, right } => push_no_identity(alloc, f, left, right, out),
        Evidence::Central { tuple } => {
            out.extend_from_slice(b"central\n")?;
            push_tuple(alloc, f, Word::Tuple, tuple, out)
        }
        Evidence::Ideal { tuples } => push_ideal(alloc, f, tuples, out),
        Evidence::Split { maps, units } => push_split(alloc, f, n, maps, units, out),
        Evidence::Ramified {
            place,
            order,
            radical,
        } => push_ramified(alloc, f, place, order, radical, out),
    }
}

/// The text of the evidence on an algebra of degree n, which is of dimension n². The one fault is want of memory. The
/// bytes that were read as the evidence are written again.
pub fn write_evidence(
    alloc: Global,
    f: &Fractions,
    n: usize,
    e: &Evidence,
) -> Result<Vec<u8>, NoMemory>
    requires low { 2 ≤ n }
    requires high { n ≤ 5 }
    requires fits { Fits (fractions_over (field_of f.now)) n e.now }
    ensures text { IfOk result (λ text. IsEvidenceText (fractions_over (field_of f.now)) n text.items e.now) }
    ensures again { (bytes : List ℕ) → IsEvidenceText (fractions_over (field_of f.now)) n bytes e.now
        → IfOk result (λ text. text.items ≡ bytes) }
{
    let mut text = Vec::from_slice(alloc, b"spl-evidence 1\n")?;
    push_body(alloc, f, n, e, &mut text)?;
    text.extend_from_slice(b"end\n")?;
    Ok(text)
}
