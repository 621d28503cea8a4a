// Calls on algebras over any field that spl_words doesn't have.
use crate::unital;
use spl_algebra::algebra::Algebra;
use spl_algebra::nilpotent;
use spl_words::fault::Fault;
use spl_words::scalars::Scalars;
use spl_words::{algebras, lists, show};
use std::alloc::Global;

/// `is_nilpotent_ideal A M`: of the ideal of an associative algebra with identity that the rows generate.
fn is_nilpotent_ideal<F: Scalars>(
    alloc: Global,
    f: &F,
    algebra: &str,
    rows: &str,
    out: &mut Vec<u8>,
) -> Result<(), Fault> {
    let algebra = unital::algebra(alloc, f, algebra)?;
    let by = lists::space(alloc, f, algebra.dim(), rows)?;
    let ideal = algebra.ideal_generated(alloc, f, &by)?;
    show::truth(
        out,
        nilpotent::is_nilpotent_ideal(alloc, f, &algebra, &ideal)?,
    )
}

/// `two_sided_rank A`
fn two_sided_rank<F: Scalars>(
    alloc: Global,
    f: &F,
    algebra: &str,
    out: &mut Vec<u8>,
) -> Result<(), Fault> {
    let algebra = lists::algebra(alloc, f, algebra)?;
    show::count(out, algebra.two_sided_rank(alloc, f)?)
}

/// The answer of a call on an algebra.
pub fn call<F: Scalars>(
    alloc: Global,
    f: &F,
    call: &str,
    words: &[&str],
    out: &mut Vec<u8>,
) -> Result<(), Fault> {
    match (call, words) {
        ("is_nilpotent_ideal", [algebra, rows]) => is_nilpotent_ideal(alloc, f, algebra, rows, out),
        ("two_sided_rank", [algebra]) => two_sided_rank(alloc, f, algebra, out),
        _ => algebras::call(alloc, f, call, words, out),
    }
}
