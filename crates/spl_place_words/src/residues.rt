// Calls over residue fields.
use crate::{blocks, calls, lifts, radicals};
use spl_field::small::SmallField;
use spl_residue::field::ResidueField;
use spl_words::fault::Fault;
use spl_words::{args, show};
use std::alloc::Global;

/// The answer of a call over a residue field that is named by its kind and a dot.
fn call_of_kind(
    alloc: Global,
    k: &ResidueField,
    word: &str,
    words: &[&str],
    out: &mut Vec<u8>,
) -> Result<(), Fault> {
    let (kind, call) = word.split_once('.').ok_or(Fault::BadLine)?;
    match kind {
        "lift_ring" => lifts::call(alloc, k, call, words, out),
        _ => calls::over_field(alloc, k, kind, call, words, out),
    }
}

/// The answer of a call over a residue field of f.
fn call(
    alloc: Global,
    f: &SmallField,
    k: &ResidueField,
    word: &str,
    words: &[&str],
    out: &mut Vec<u8>,
) -> Result<(), Fault> {
    match (word, words) {
        ("radical", [algebra]) => radicals::radical(alloc, k, algebra, out),
        ("is_simple", [algebra]) => blocks::is_simple(alloc, f, k, algebra, out),
        ("maximal_ideals", [algebra]) => blocks::maximal_ideals(alloc, f, k, algebra, out),
        ("trace_power", [level, algebra, a, i]) => {
            lifts::trace_power(alloc, k, level, algebra, a, i, out)
        }
        _ => call_of_kind(alloc, k, word, words, out),
    }
}

/// `residue MODULUS WORD ..`: the answer of a call over the remainders by the modulus; `none` where it isn't
/// irreducible.
pub fn over_residues(
    alloc: Global,
    f: &SmallField,
    words: &[&str],
    out: &mut Vec<u8>,
) -> Result<(), Fault> {
    let [modulus, word, rest @ ..] = words else {
        return Err(Fault::BadLine);
    };
    let modulus = args::poly(alloc, f, modulus)?;
    match ResidueField::new(alloc, f, &modulus)? {
        None => show::word(out, "none"),
        Some(k) => call(alloc, f, &k, word, rest, out),
    }
}
