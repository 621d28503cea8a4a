// Calls on lattices of rows of polynomials: a matrix of them is given by rows as any other, each item a polynomial.
ghost use Rattle.std.specs.Prelude.{IfOk};
ghost use Rattle.theory_rows.specs.Rows.{IsPolynomialRow, IsPolynomialMatrix};
ghost use Rattle.spl_field.specs.SmallField.{small_ops};

use crate::fault::Fault;
use crate::{args, lists, show};
use spl_field::small::SmallField;
use spl_lattice::matrix::PolyMatrix;
use spl_lattice::rows::PolyRow;
use spl_lattice::{lattices, members, reduced};
use std::alloc::Global;

/// A row of this many polynomials.
fn row(alloc: Global, f: &SmallField, width: usize, word: &str) -> Result<PolyRow, Fault>
    ensures { IfOk result (IsPolynomialRow (small_ops f.now) width) }
{
    let row = args::polys(alloc, f, lists::parts(alloc, word, ':')?.as_slice())?;
    if row.len() != width {
        return Err(Fault::BadLine);
    }
    Ok(row)
}

/// The rows of a matrix with this many columns.
fn rows(alloc: Global, f: &SmallField, width: usize, word: &str) -> Result<PolyMatrix, Fault>
    ensures { IfOk result (IsPolynomialMatrix (small_ops f.now) width) }
{
    let mut rows = PolyMatrix::new(alloc);
    if word == "none" {
        return Ok(rows);
    }
    for part in word.split(';') {
        rows.push(row(alloc, f, width, part)?)?;
    }
    Ok(rows)
}

/// `reduce M`: the degrees, the rows and the transform.
fn reduce(alloc: Global, f: &SmallField, m: &str, out: &mut Vec<u8>) -> Result<(), Fault> {
    let m = rows(alloc, f, lists::width(m), m)?;
    let reduced = reduced::reduce(alloc, f, &m)?;
    show::degrees(out, reduced.degrees().as_slice())?;
    show::poly_rows(out, reduced.basis().as_slice())?;
    show::poly_rows(out, reduced.transform().as_slice())
}

/// `member M V`, where M has rows: the coordinates of V in the reduced rows of M; `none` where it is not in their
/// lattice.
fn member(alloc: Global, f: &SmallField, m: &str, v: &str, out: &mut Vec<u8>) -> Result<(), Fault> {
    let width = lists::width(m);
    let m = rows(alloc, f, width, m)?;
    let v = row(alloc, f, width, v)?;
    let [first, ..] = m.as_slice() else {
        return Err(Fault::BadLine);
    };
    if first.len() != v.len() {
        return Err(Fault::BadLine);
    }
    let reduced = reduced::reduce(alloc, f, &m)?;
    match members::member(alloc, f, &reduced, &v)? {
        None => show::word(out, "none"),
        Some(coordinates) => show::coordinates(out, coordinates.as_slice()),
    }
}

/// `kernel M`: a basis.
fn kernel(alloc: Global, f: &SmallField, m: &str, out: &mut Vec<u8>) -> Result<(), Fault> {
    let m = rows(alloc, f, lists::width(m), m)?;
    show::poly_rows(out, lattices::kernel(alloc, f, &m)?.as_slice())
}

/// `sum M N` and `meet M N`: a basis.
fn on_two(
    alloc: Global,
    f: &SmallField,
    call: &str,
    a: &str,
    b: &str,
    out: &mut Vec<u8>,
) -> Result<(), Fault> {
    let width = lists::width(if a == "none" { b } else { a });
    let a = rows(alloc, f, width, a)?;
    let b = rows(alloc, f, width, b)?;
    let basis = match call {
        "sum" => lattices::sum(alloc, f, &a, &b)?,
        "meet" => lattices::meet(alloc, f, &a, &b)?,
        _ => return Err(Fault::BadLine),
    };
    show::poly_rows(out, basis.as_slice())
}

/// The answer of a call on lattices, each of which is given by rows that span it.
pub fn call(
    alloc: Global,
    f: &SmallField,
    call: &str,
    words: &[&str],
    out: &mut Vec<u8>,
) -> Result<(), Fault> {
    match (call, words) {
        ("reduce", [m]) => reduce(alloc, f, m, out),
        ("kernel", [m]) => kernel(alloc, f, m, out),
        ("member", [m, v]) => member(alloc, f, m, v, out),
        (_, [a, b]) => on_two(alloc, f, call, a, b, out),
        _ => Err(Fault::BadLine),
    }
}
