// The calls by their kind, where this crate has some of the kind; the others are those of spl_words.
use crate::{algebras, orders};
use spl_fraction::field::Fractions;
use spl_words::calls;
use spl_words::fault::Fault;
use spl_words::scalars::Scalars;
use std::alloc::Global;

/// The answer of a call over one field or the other.
pub fn over_field<F: Scalars>(
    alloc: Global,
    f: &F,
    kind: &str,
    call: &str,
    words: &[&str],
    out: &mut Vec<u8>,
) -> Result<(), Fault> {
    match kind {
        "algebra" => algebras::call(alloc, f, call, words, out),
        _ => calls::over_field(alloc, f, kind, call, words, out),
    }
}

/// The answer of a call over the fractions' field of few elements.
pub fn call(
    alloc: Global,
    k: &Fractions,
    kind: &str,
    call: &str,
    words: &[&str],
    out: &mut Vec<u8>,
) -> Result<(), Fault> {
    match kind {
        "algebra" => algebras::call(alloc, k.field(), call, words, out),
        "order" => orders::call(alloc, k, call, words, out),
        _ => calls::call(alloc, k, kind, call, words, out),
    }
}
