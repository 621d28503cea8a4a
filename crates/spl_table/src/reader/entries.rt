// The entries of a table text, up to the line `end`.
ghost use Rattle.std.specs.Prelude.{◌≡◌, ◌≢◌, ℕ, ◌+◌, ◌≤◌, ◌-◌, ◌*◌, ◌++◌, ◌∷◌, [], List, length};
ghost use Rattle.std.specs.Prelude.{replicate, codes, All};
ghost use Rattle.std.specs.Prelude.{IfOk, IfErr, OnOk, Some};
ghost use Rattle.theory_rings.specs.Ops.{IsElem};
ghost use Rattle.spl_field.specs.SmallField.{small_ops};
ghost use Rattle.spl_text.specs.Text.{Lacks, line, IsFractionText};
ghost use Rattle.spl_text.specs.FractionWords.{text_of};
ghost use Rattle.theory_fractions.specs.Fraction.{Pair};
ghost use Rattle.spl_fraction.specs.Fractions.{field_of};
ghost use Rattle.spl_fraction.specs.FractionsOver.{fractions_over};
ghost use Rattle.spl_table.specs.TableText.{IsInRange, IsOverZero};
ghost use Rattle.spl_table.specs.Table.{IsConstant};
ghost use Rattle.spl_table.specs.Reading.{IfRefused, entry_of, place_of, head_of, AreEntries, IsFaultAfter, SoFar};

use crate::reader::constants::{constant_of, push_zeros};
use crate::reader::entry::{EntryWords, read_entry};
use crate::refusal::{Kind, TableFault};
use spl_algebra::algebra::Constants;
use spl_field::field::NoMemory;
use spl_field::list::List;
use spl_fraction::field::Fractions;
use spl_text::word::split_once;
use std::alloc::Global;

/// The constants that the entries give, the number of the line `end`, and what follows it.
#[derive(Drop)]
pub struct Entries<'a> {
    pub constants: Constants<Fractions>,
    pub number: u32,
    pub rest: &'a [u8],
}

/// Appends zeros up to the place of the entry, and the constant of the entry.
fn push_entry(
    alloc: Global,
    k: &Fractions,
    n: usize,
    constants: &mut Constants<Fractions>,
    entry: EntryWords,
) -> Result<(), NoMemory>
    requires small { n ≤ 5 }
    requires form { IsFractionText (text_of entry.value) }
    requires range { IsInRange (head_of (field_of k.now) n) (entry_of entry) }
    requires denominator { IsOverZero (text_of entry.value) → ⊥ }
    requires free { length constants.old ≤ place_of (n * n) (entry_of entry) }
    ensures items { OnOk result ((w : Pair ℕ) × IsConstant (small_ops (field_of k.now)) (Some (text_of entry.value)) w
        × (constants.new ≡ constants.old ++ replicate (place_of (n * n) (entry_of entry) - length constants.old)
        ([], 1 ∷ []) ++ w ∷ [])) }
    ensures over { All (IsElem (fractions_over (field_of k.now))) constants.old
        → OnOk result (All (IsElem (fractions_over (field_of k.now))) constants.new) }
{
    push_zeros(alloc, k, constants, entry.place(k.field(), n))?;
    let constant = constant_of(alloc, k, &entry.value)?;
    constants.push(constant)?;
    Ok(())
}

/// Reads the entry of a finished line other than `end`, and appends its constant behind those of the entries before it.
fn read_line(
    alloc: Global,
    k: &Fractions,
    n: usize,
    constants: &mut Constants<Fractions>,
    text: &[u8],
    number: u32,
) -> Result<(), TableFault>
    requires small { n ≤ 5 }
    requires one_line { Lacks 10 text.now }
    requires no_end { text.now ≢ codes "end" }
    requires so_far { (bytes : List ℕ) × (rest : List ℕ)
        × SoFar (small_ops (field_of k.now)) (head_of (field_of k.now) n) bytes rest number constants.old }
    ensures read { (bytes after : List ℕ)
        → SoFar (small_ops (field_of k.now)) (head_of (field_of k.now) n) bytes (line text.now ++ after) number
        constants.old → OnOk result
        (SoFar (small_ops (field_of k.now)) (head_of (field_of k.now) n) bytes after (number + 1) constants.new) }
    ensures over { All (IsElem (fractions_over (field_of k.now))) constants.old
        → OnOk result (All (IsElem (fractions_over (field_of k.now))) constants.new) }
    ensures fault { (bytes after : List ℕ)
        → SoFar (small_ops (field_of k.now)) (head_of (field_of k.now) n) bytes (line text.now ++ after) number
        constants.old → IfErr result (λ e. IfRefused e (IsFaultAfter (head_of (field_of k.now) n) bytes)) }
{
    let entry = read_entry(alloc, k.field(), n, constants.len(), text, number)?;
    push_entry(alloc, k, n, constants, entry)?;
    Ok(())
}

/// The constants of the lines up to the line `end`, of which the first is line 4.
pub fn read_entries<'a>(
    alloc: Global,
    k: &Fractions,
    n: usize,
    bytes: &'a [u8],
) -> Result<Entries<'a>, TableFault>
    requires { n ≤ 5 }
    ensures entries { IfOk result
        (λ r. AreEntries (small_ops (field_of k.now))
        (head_of (field_of k.now) n) bytes.now r.rest.now r.number r.constants) }
    ensures over { IfOk result (λ r. All (IsElem (fractions_over (field_of k.now))) r.constants) }
    ensures few { IfOk result (λ r. r.number ≤ 15629) }
    ensures fault { IfErr result (λ e. IfRefused e (IsFaultAfter (head_of (field_of k.now) n) bytes.now)) }
{
    let mut constants = List::new(alloc);
    let mut rest = bytes;
    let mut number = 4;
    while let Some((text, after)) = split_once(rest, b'\n') {
        if text == b"end".as_slice() {
            push_zeros(alloc, k, &mut constants, n * n * (n * n) * (n * n))?;
            return Ok(Entries {
                constants,
                number,
                rest: after,
            });
        }
        read_line(alloc, k, n, &mut constants, text, number)?;
        rest = after;
        number += 1;
    }
    Err(TableFault::at(number, Kind::NoEnd))
}
