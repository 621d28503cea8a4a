// Writing answers, in one line each: what is written comes behind a space where something stands before it.
ghost use Rattle.std.specs.Prelude.{All, IfOk};
ghost use Rattle.theory_rings.specs.Ops.{IsElem};
ghost use Rattle.theory_tables.specs.Subspace.{IsSubspace};

use crate::fault::Fault;
use crate::scalars::Scalars;
use spl_field::field::NoMemory;
use spl_field::list::Vector;
use spl_lattice::generator::IdealGenerator;
use spl_lattice::rows::PolyRow;
use spl_matrix::matrix::Matrix;
use spl_matrix::subspace::Subspace;
use spl_poly::poly::{Division, Poly};
use spl_text::writing::{push_coefficients, push_number};
use std::alloc::Global;
use std::cmp::Ordering;

/// A space, but at the line's begin.
fn gap(out: &mut Vec<u8>) -> Result<(), Fault> {
    if !out.is_empty() {
        out.push(b' ')?;
    }
    Ok(())
}

/// A word.
pub fn word(out: &mut Vec<u8>, word: &str) -> Result<(), Fault> {
    gap(out)?;
    out.extend_from_slice(word.as_bytes())?;
    Ok(())
}

/// A number.
pub fn number(out: &mut Vec<u8>, n: u32) -> Result<(), Fault> {
    gap(out)?;
    Ok(push_number(out, n)?)
}

/// A count, of which the last 32 binary digits.
pub fn count(out: &mut Vec<u8>, n: usize) -> Result<(), Fault> {
    number(out, (n % 4294967296) as u32)
}

/// `yes` or `no`.
pub fn truth(out: &mut Vec<u8>, holds: bool) -> Result<(), Fault> {
    word(out, if holds { "yes" } else { "no" })
}

/// `less`, `equal` or `greater`.
pub fn ordering(out: &mut Vec<u8>, order: Ordering) -> Result<(), Fault> {
    word(
        out,
        match order {
            Ordering::Less => "less",
            Ordering::Equal => "equal",
            Ordering::Greater => "greater",
        },
    )
}

/// A place in a list; `none` where there is none.
pub fn place(out: &mut Vec<u8>, at: Option<usize>) -> Result<(), Fault> {
    match at {
        Some(n) => count(out, n),
        None => word(out, "none"),
    }
}

/// Places in a list, joined by commas; `-` where there is none.
pub fn places(out: &mut Vec<u8>, places: &[usize]) -> Result<(), Fault> {
    gap(out)?;
    if places.is_empty() {
        return Ok(out.push(b'-')?);
    }
    for place in places {
        push_number(out, (*place % 4294967296) as u32)?;
        out.push(b',')?;
    }
    out.pop();
    Ok(())
}

/// Degrees of rows other than 0, joined by commas; `-` where there is none.
pub fn degrees(out: &mut Vec<u8>, degrees: &[i64]) -> Result<(), Fault> {
    gap(out)?;
    if degrees.is_empty() {
        return Ok(out.push(b'-')?);
    }
    for degree in degrees {
        push_number(out, (degree.unsigned_abs() % 4294967296) as u32)?;
        out.push(b',')?;
    }
    out.pop();
    Ok(())
}

/// Numbers below 256, joined by commas; `0` where there is none.
pub fn codes(out: &mut Vec<u8>, items: &[u8]) -> Result<(), Fault> {
    gap(out)?;
    Ok(push_coefficients(out, items)?)
}

/// A polynomial's coefficients, lowest first, joined by commas; `0` where there is none.
pub fn polynomial(out: &mut Vec<u8>, p: &Poly) -> Result<(), Fault> {
    codes(out, p.as_slice())
}

/// The polynomials.
pub fn polys(out: &mut Vec<u8>, items: &[Poly]) -> Result<(), Fault> {
    for item in items {
        polynomial(out, item)?;
    }
    Ok(())
}

/// The polynomial that a call answers.
pub fn poly_of(out: &mut Vec<u8>, p: Result<Poly, NoMemory>) -> Result<(), Fault> {
    polynomial(out, &p?)
}

/// The quotient and the remainder.
pub fn division(out: &mut Vec<u8>, d: &Division) -> Result<(), Fault> {
    polynomial(out, &d.quotient)?;
    polynomial(out, &d.remainder)
}

/// The generator and the multipliers.
pub fn generator(out: &mut Vec<u8>, g: &IdealGenerator) -> Result<(), Fault> {
    polynomial(out, &g.value)?;
    polys(out, g.multipliers.as_slice())
}

/// The polynomials of a row, joined by colons; `-` where there is none.
fn poly_row(out: &mut Vec<u8>, row: &[Poly]) -> Result<(), Fault> {
    if row.is_empty() {
        return Ok(out.push(b'-')?);
    }
    for item in row {
        push_coefficients(out, item.as_slice())?;
        out.push(b':')?;
    }
    out.pop();
    Ok(())
}

/// A row of polynomials.
pub fn coordinates(out: &mut Vec<u8>, row: &[Poly]) -> Result<(), Fault> {
    gap(out)?;
    poly_row(out, row)
}

/// Factors with their exponents: a colon stands between the two.
pub fn factors(out: &mut Vec<u8>, factors: &[(Poly, usize)]) -> Result<(), Fault> {
    for factor in factors {
        polynomial(out, &factor.0)?;
        out.push(b':')?;
        push_number(out, (factor.1 % 4294967296) as u32)?;
    }
    Ok(())
}

/// Rows of polynomials, joined by semicolons; `none` where there is none.
pub fn poly_rows(out: &mut Vec<u8>, rows: &[PolyRow]) -> Result<(), Fault> {
    if rows.is_empty() {
        return word(out, "none");
    }
    gap(out)?;
    for row in rows {
        poly_row(out, row.as_slice())?;
        out.push(b';')?;
    }
    out.pop();
    Ok(())
}

/// The elements, joined by colons; `-` where there is none.
fn items<F: Scalars>(
    alloc: Global,
    out: &mut Vec<u8>,
    f: &F,
    items: &[F::Elem],
) -> Result<(), Fault>
    requires { All (IsElem (F.ops f.now)) items.now }
{
    if items.is_empty() {
        return Ok(out.push(b'-')?);
    }
    for item in items {
        f.write(alloc, item, out)?;
        out.push(b':')?;
    }
    out.pop();
    Ok(())
}

/// A list of elements.
pub fn vector<F: Scalars>(
    alloc: Global,
    out: &mut Vec<u8>,
    f: &F,
    list: &[F::Elem],
) -> Result<(), Fault>
    requires { All (IsElem (F.ops f.now)) list.now }
{
    gap(out)?;
    items(alloc, out, f, list)
}

/// A list of elements behind a word.
pub fn named<F: Scalars>(
    alloc: Global,
    out: &mut Vec<u8>,
    f: &F,
    name: &str,
    list: &[F::Elem],
) -> Result<(), Fault>
    requires { All (IsElem (F.ops f.now)) list.now }
{
    word(out, name)?;
    vector(alloc, out, f, list)
}

/// A list of elements behind their number.
pub fn counted<F: Scalars>(
    alloc: Global,
    out: &mut Vec<u8>,
    f: &F,
    list: &[F::Elem],
) -> Result<(), Fault>
    requires { All (IsElem (F.ops f.now)) list.now }
{
    count(out, list.len())?;
    vector(alloc, out, f, list)
}

/// An element.
pub fn element<F: Scalars>(
    alloc: Global,
    out: &mut Vec<u8>,
    f: &F,
    a: &F::Elem,
) -> Result<(), Fault>
    requires { IsElem (F.ops f.now) a.now }
{
    gap(out)?;
    Ok(f.write(alloc, a, out)?)
}

/// The element that a call answers.
pub fn element_of<F: Scalars>(
    alloc: Global,
    out: &mut Vec<u8>,
    f: &F,
    a: Result<F::Elem, NoMemory>,
) -> Result<(), Fault>
    requires { IfOk a (IsElem (F.ops f.now)) }
{
    element(alloc, out, f, &a?)
}

/// The rows, joined by semicolons; `none` where there is none.
pub fn rows<F: Scalars>(
    alloc: Global,
    out: &mut Vec<u8>,
    f: &F,
    rows: &[Vector<F>],
) -> Result<(), Fault>
    requires { All (All (IsElem (F.ops f.now))) rows.now }
{
    if rows.is_empty() {
        return word(out, "none");
    }
    gap(out)?;
    for row in rows {
        items(alloc, out, f, row.as_slice())?;
        out.push(b';')?;
    }
    out.pop();
    Ok(())
}

/// The rows of a matrix. It takes it, so that no caller has to drop one.
pub fn matrix<F: Scalars>(
    alloc: Global,
    out: &mut Vec<u8>,
    f: &F,
    m: Matrix<F>,
) -> Result<(), Fault>
    requires { All (All (IsElem (F.ops f.now))) m }
{
    rows(alloc, out, f, m.as_slice())
}

/// The dimension and the basis of a subspace.
pub fn space<F: Scalars>(
    alloc: Global,
    out: &mut Vec<u8>,
    f: &F,
    s: &Subspace<F>,
) -> Result<(), Fault>
    requires { IsSubspace (F.ops f.now) s.now }
{
    count(out, s.dim())?;
    rows(alloc, out, f, s.rows().as_slice())
}

/// The dimension and the basis of the subspace that a call answers.
pub fn space_of<F: Scalars>(
    alloc: Global,
    out: &mut Vec<u8>,
    f: &F,
    s: Result<Subspace<F>, NoMemory>,
) -> Result<(), Fault>
    requires { IfOk s (IsSubspace (F.ops f.now)) }
{
    space(alloc, out, f, &s?)
}

/// A text in one line: `|` for each newline, `^` for each carriage return and `~` for each tab.
pub fn text(out: &mut Vec<u8>, bytes: &[u8]) -> Result<(), Fault> {
    if bytes.is_empty() {
        return Ok(());
    }
    gap(out)?;
    for byte in bytes {
        out.push(match *byte {
            b'\n' => b'|',
            b'\r' => b'^',
            b'\t' => b'~',
            other => other,
        })?;
    }
    Ok(())
}
