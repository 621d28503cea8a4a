// The calls by their kind, which is the word before the dot.
use crate::fault::Fault;
use crate::scalars::Scalars;
use crate::{algebras, fields, fractions, lattices, matrices, polynomials, residues, small, words};
use spl_fraction::field::Fractions;
use std::alloc::Global;

/// The answer of a call over one field or the other.
pub fn over_field<F: Scalars>(
    alloc: Global,
    f: &F,
    kind: &str,
    call: &str,
    words: &[&str],
    out: &mut Vec<u8>,
) -> Result<(), Fault> {
    match kind {
        "field" => fields::call(alloc, f, call, words, out),
        "vector" => matrices::on_vectors(alloc, f, call, words, out),
        "matrix" => matrices::call(alloc, f, call, words, out),
        "subspace" => matrices::on_spaces(alloc, f, call, words, out),
        "algebra" => algebras::call(alloc, f, call, words, out),
        _ => Err(Fault::BadLine),
    }
}

/// The answer of a call over the fractions' field of few elements.
pub fn call(
    alloc: Global,
    k: &Fractions,
    kind: &str,
    call: &str,
    words: &[&str],
    out: &mut Vec<u8>,
) -> Result<(), Fault> {
    match kind {
        "small" => small::call(alloc, k.field(), call, words, out),
        "poly" => polynomials::call(alloc, k.field(), call, words, out),
        "lattice" => lattices::call(alloc, k.field(), call, words, out),
        "residue" => residues::call(alloc, k.field(), call, words, out),
        "fractions" => fractions::call(alloc, k, call, words, out),
        "text" => words::call(alloc, call, words, out),
        _ => over_field(alloc, k.field(), kind, call, words, out),
    }
}
