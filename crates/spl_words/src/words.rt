// Calls on the words of texts.
use crate::fault::Fault;
use crate::{args, show, texts};
use spl_text::fraction::fraction_of;
use spl_text::numbers::{Numbers, number_list_of, numbers_of};
use spl_text::scan::{first_no_text, newlines};
use spl_text::word::{number_before, number_of, split_once, strip_prefix};
use std::alloc::Global;

/// The numbers; `none` where there is no list.
fn numbers(out: &mut Vec<u8>, list: Option<Numbers>) -> Result<(), Fault> {
    match list {
        None => show::word(out, "none"),
        Some(numbers) => {
            for n in numbers.as_slice() {
                show::number(out, *n)?;
            }
            Ok(())
        }
    }
}

/// The numbers of the numerator, and those of the denominator behind a slash; `none` where there is no fraction.
fn fraction(alloc: Global, word: &[u8], out: &mut Vec<u8>) -> Result<(), Fault> {
    let Some(parts) = fraction_of(alloc, word)? else {
        return show::word(out, "none");
    };
    numbers(out, Some(parts.numerator))?;
    if let Some(denominator) = parts.denominator {
        show::word(out, "/")?;
        numbers(out, Some(denominator))?;
    }
    Ok(())
}

/// Two parts of a text, with a slash between.
fn two(out: &mut Vec<u8>, first: &[u8], second: &[u8]) -> Result<(), Fault> {
    show::text(out, first)?;
    show::word(out, "/")?;
    show::text(out, second)
}

/// The answer of a call on a text and a separator, which is one letter, or a prefix.
fn on_two(call: &str, text: &[u8], by: &[u8], out: &mut Vec<u8>) -> Result<(), Fault> {
    match (call, by) {
        ("strip_prefix", _) => match strip_prefix(text, by) {
            Some(rest) => show::text(out, rest),
            None => show::word(out, "none"),
        },
        ("split_once", [separator]) => match split_once(text, *separator) {
            Some((first, second)) => two(out, first, second),
            None => show::word(out, "none"),
        },
        ("number_before", [separator]) => {
            if *separator >= 48 {
                return Err(Fault::BadLine);
            }
            match number_before(text, *separator) {
                Some((n, rest)) => {
                    show::number(out, n)?;
                    show::text(out, rest)
                }
                None => show::word(out, "none"),
            }
        }
        _ => Err(Fault::BadLine),
    }
}

/// The answer of a call on one text.
fn on_one(alloc: Global, call: &str, text: &[u8], out: &mut Vec<u8>) -> Result<(), Fault> {
    match call {
        "number" => match number_of(text) {
            Some(n) => show::number(out, n),
            None => show::word(out, "none"),
        },
        "numbers" => numbers(out, numbers_of(alloc, text)?),
        "number_list" => numbers(out, number_list_of(alloc, text)?),
        "fraction" => fraction(alloc, text, out),
        "first_no_text" => show::place(out, first_no_text(text)),
        "newlines" => show::count(out, newlines(text)),
        _ => Err(Fault::BadLine),
    }
}

/// `coefficients C`: of numbers below 256.
fn coefficients(alloc: Global, c: &str, out: &mut Vec<u8>) -> Result<(), Fault> {
    show::codes(out, args::bytes(alloc, 256, c)?.as_slice())
}

/// The answer of a call on the texts of two words.
fn on_texts(
    alloc: Global,
    call: &str,
    text: &str,
    by: &str,
    out: &mut Vec<u8>,
) -> Result<(), Fault> {
    let text = texts::bytes_of(alloc, text)?;
    let by = texts::bytes_of(alloc, by)?;
    on_two(call, text.as_slice(), by.as_slice(), out)
}

/// The answer of a call on texts.
pub fn call(alloc: Global, call: &str, words: &[&str], out: &mut Vec<u8>) -> Result<(), Fault> {
    match (call, words) {
        ("coefficients", [c]) => coefficients(alloc, c, out),
        (_, [text]) => on_one(alloc, call, texts::bytes_of(alloc, text)?.as_slice(), out),
        (_, [text, by]) => on_texts(alloc, call, text, by, out),
        _ => Err(Fault::BadLine),
    }
}
