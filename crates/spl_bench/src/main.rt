// What is measured: products and divisions of polynomials, kernels and linear systems, reductions of matrices of
// polynomials and kernels of wide ones, and the steps of the decision on a table that is read from a file, each
// computed as often as asked.
//
// It prints what it computed last, and never a time: that is taken from outside, at a large count, as by
// `time spl_bench mul 256 100000`. The words are in `USAGE`; `bench/README.md` says how to compare it with plain Rust.
#![tactic(auto)]

mod entries;
mod lattices;
mod matrices;
mod polynomials;
mod tables;

use anyhow::Result;
use spl_field::small::SmallField;
use spl_table::reader::read_table;
use std::alloc::Global;
use std::{env, fs};

/// What is printed where the words are others.
const USAGE: &str = "\
usage: mul Q COUNT | divide Q COUNT | kernel COUNT | solve COUNT | reduce COUNT | wide COUNT, Q = 5 or 256
       triples FILE COUNT | identity FILE COUNT | centre FILE COUNT | traces FILE COUNT";

/// The field with as many elements as the word says; None where it is none that is measured.
fn field(alloc: Global, size: &str) -> Result<Option<SmallField>> {
    match size {
        "5" => Ok(Some(SmallField::new(alloc, 5, &[0])?)),
        "256" => Ok(Some(SmallField::new(alloc, 2, &[1, 1, 0, 1, 1, 0, 0, 0])?)),
        _ => Ok(None),
    }
}

/// The line on what the word names, computed count times over f; None where the word is another.
fn line(alloc: Global, word: &str, f: &SmallField, count: u64) -> Result<Option<String>> {
    match word {
        "mul" => Ok(Some(polynomials::multiply(alloc, f, count)?)),
        "divide" => Ok(Some(polynomials::divide(alloc, f, count)?)),
        "kernel" => Ok(Some(matrices::kernel(alloc, f, count)?)),
        "solve" => Ok(Some(matrices::solve(alloc, f, count)?)),
        "reduce" => Ok(Some(lattices::reduction(alloc, f, count)?)),
        "wide" => Ok(Some(lattices::wide_kernel(alloc, f, count)?)),
        _ => Ok(None),
    }
}

/// The line for a word, a field and a count, which is at least 1.
fn answer(alloc: Global, word: &str, size: &str, count: &str) -> Result<Option<String>> {
    let Ok(count) = count.parse::<u64>() else {
        return Ok(None);
    };
    match field(alloc, size)? {
        Some(f) if count > 0 => line(alloc, word, &f, count),
        _ => Ok(None),
    }
}

/// The line on the step that the word names, taken count times on the table of the file; None where the word is
/// another.
fn step(rt: &HostRuntime, word: &str, file: &str, count: u64) -> Result<Option<String>> {
    let alloc = rt.alloc();
    let bytes = fs::read(rt, file)?;
    let table = read_table(rt.alloc(), bytes.as_slice())?;
    match word {
        "triples" => Ok(Some(tables::triples(alloc, &table, count)?)),
        "identity" => Ok(Some(tables::identity(alloc, &table, count)?)),
        "centre" => Ok(Some(tables::centre(alloc, &table, count)?)),
        "traces" => Ok(Some(tables::traces(alloc, &table, count)?)),
        _ => Ok(None),
    }
}

/// The line for a step, a file and a count, which is at least 1.
fn step_answer(rt: &HostRuntime, word: &str, file: &str, count: &str) -> Result<Option<String>> {
    match count.parse::<u64>() {
        Ok(count) if count > 0 => step(rt, word, file, count),
        _ => Ok(None),
    }
}

/// The line for these words; None where they are of no form.
fn report(rt: &HostRuntime, words: &[String]) -> Result<Option<String>> {
    let alloc = rt.alloc();
    match words {
        [word, size, count] if word.as_str() == "mul" || word.as_str() == "divide" => {
            answer(alloc, word.as_str(), size.as_str(), count.as_str())
        }
        [word, count] if word.as_str() == "kernel" || word.as_str() == "solve" => {
            answer(alloc, word.as_str(), "256", count.as_str())
        }
        [word, count] if word.as_str() == "reduce" || word.as_str() == "wide" => {
            answer(alloc, word.as_str(), "5", count.as_str())
        }
        [word, file, count] => step_answer(rt, word.as_str(), file.as_str(), count.as_str()),
        _ => Ok(None),
    }
}

fn main(rt: HostRuntime) -> Result<()> {
    let alloc = rt.alloc();
    let mut words = Vec::new(alloc);
    for word in env::args(&rt)?.skip(1) {
        words.push(String::from_str(alloc, word.as_str())?)?;
    }
    match report(&rt, &words)? {
        Some(line) => println!(rt; "{line}")?,
        None => println!(rt; "{USAGE}")?,
    }
    Ok(())
}
