// Calls on lists of elements, matrices and subspaces.
ghost use Rattle.std.specs.Prelude.{◌≡◌, All};
ghost use Rattle.theory_rings.specs.Ops.{IsElem};
ghost use Rattle.theory_tables.specs.Subspace.{IsSubspace};

use crate::fault::Fault;
use crate::scalars::Scalars;
use crate::{args, lists, show};
use spl_matrix::matrix::Matrix;
use spl_matrix::solve::Solution;
use spl_matrix::subspace::Subspace;
use std::alloc::Global;

/// `copy V`
fn copy_vector<F: Scalars>(alloc: Global, f: &F, v: &str, out: &mut Vec<u8>) -> Result<(), Fault> {
    let v = lists::vector(alloc, f, v)?;
    show::counted(alloc, out, f, v.copy(alloc, f)?.as_slice())
}

/// `at V I`; `none` past the end.
fn at<F: Scalars>(alloc: Global, f: &F, v: &str, i: &str, out: &mut Vec<u8>) -> Result<(), Fault> {
    let v = lists::vector(alloc, f, v)?;
    let i = args::number(i)? as usize;
    match v.at(i) {
        Some(a) => show::element(alloc, out, f, a),
        None => show::word(out, "none"),
    }
}

/// The answer of a call on a list.
pub fn on_vectors<F: Scalars>(
    alloc: Global,
    f: &F,
    call: &str,
    words: &[&str],
    out: &mut Vec<u8>,
) -> Result<(), Fault> {
    match (call, words) {
        ("copy", [v]) => copy_vector(alloc, f, v, out),
        ("at", [v, i]) => at(alloc, f, v, i, out),
        _ => Err(Fault::BadLine),
    }
}

/// `echelon M`: the reduced rows, the pivots and the transform.
fn echelon<F: Scalars>(alloc: Global, f: &F, m: &Matrix<F>, out: &mut Vec<u8>) -> Result<(), Fault>
    requires { All (All (IsElem (F.ops f.now))) m.now }
{
    let e = m.echelon(alloc, f)?;
    show::rows(alloc, out, f, e.rows.as_slice())?;
    show::places(out, e.pivots.as_slice())?;
    show::rows(alloc, out, f, e.transform.as_slice())
}

/// `inverse M`; `none` of a matrix that has none.
fn inverse<F: Scalars>(alloc: Global, f: &F, m: &Matrix<F>, out: &mut Vec<u8>) -> Result<(), Fault>
    requires { All (All (IsElem (F.ops f.now))) m.now }
{
    if m.width() != m.len() {
        return Err(Fault::BadLine);
    }
    match m.inverse(alloc, f)? {
        Some(inverse) => show::matrix(alloc, out, f, inverse),
        None => show::word(out, "singular"),
    }
}

/// `trace M`
fn trace<F: Scalars>(alloc: Global, f: &F, m: &Matrix<F>, out: &mut Vec<u8>) -> Result<(), Fault>
    requires { All (All (IsElem (F.ops f.now))) m.now }
{
    if m.width() != m.len() {
        return Err(Fault::BadLine);
    }
    show::element_of(alloc, out, f, m.trace(alloc, f))
}

/// `kernel M`: its dimension and its basis.
fn kernel<F: Scalars>(alloc: Global, f: &F, m: &Matrix<F>, out: &mut Vec<u8>) -> Result<(), Fault>
    requires { All (All (IsElem (F.ops f.now))) m.now }
{
    if m.len() == 0 {
        return Err(Fault::BadLine);
    }
    show::space_of(alloc, out, f, m.kernel(alloc, f))
}

/// `solve M V`: `solved` and a solution, or `refuted` and multipliers of the rows.
fn solve<F: Scalars>(
    alloc: Global,
    f: &F,
    m: &Matrix<F>,
    right: &str,
    out: &mut Vec<u8>,
) -> Result<(), Fault>
    requires { All (All (IsElem (F.ops f.now))) m.now }
{
    if m.len() == 0 {
        return Err(Fault::BadLine);
    }
    let right = lists::tuple(alloc, f, m.len(), right)?;
    match m.solve(alloc, f, right.as_slice())? {
        Solution::Solved { vector } => show::named(alloc, out, f, "solved", vector.as_slice()),
        Solution::Refuted { multipliers } => {
            show::named(alloc, out, f, "refuted", multipliers.as_slice())
        }
    }
}

/// The answer of a call on a matrix and what stands behind it.
fn on_matrix<F: Scalars>(
    alloc: Global,
    f: &F,
    call: &str,
    m: &Matrix<F>,
    words: &[&str],
    out: &mut Vec<u8>,
) -> Result<(), Fault>
    requires { All (All (IsElem (F.ops f.now))) m.now }
{
    match (call, words) {
        ("echelon", []) => echelon(alloc, f, m, out),
        ("inverse", []) => inverse(alloc, f, m, out),
        ("trace", []) => trace(alloc, f, m, out),
        ("kernel", []) => kernel(alloc, f, m, out),
        ("solve", [right]) => solve(alloc, f, m, right, out),
        ("copy", []) => show::matrix(alloc, out, f, m.copy(alloc, f)?),
        _ => Err(Fault::BadLine),
    }
}

/// The answer of a call on a matrix.
pub fn call<F: Scalars>(
    alloc: Global,
    f: &F,
    call: &str,
    words: &[&str],
    out: &mut Vec<u8>,
) -> Result<(), Fault> {
    let [m, rest @ ..] = words else {
        return Err(Fault::BadLine);
    };
    let m = lists::matrix(alloc, f, m)?;
    on_matrix(alloc, f, call, &m, rest, out)
}

/// `contains W M V`
fn contains<F: Scalars>(
    alloc: Global,
    f: &F,
    a: &Subspace<F>,
    width: usize,
    v: &str,
    out: &mut Vec<u8>,
) -> Result<(), Fault>
    requires basis { IsSubspace (F.ops f.now) a.now }
    requires width { a.now.width ≡ width }
{
    let v = lists::tuple(alloc, f, width, v)?;
    show::truth(out, a.contains(alloc, f, v.as_slice())?)
}

/// `sum W M N` and `meet W M N`
fn on_two<F: Scalars>(
    alloc: Global,
    f: &F,
    call: &str,
    a: &Subspace<F>,
    width: usize,
    b: &str,
    out: &mut Vec<u8>,
) -> Result<(), Fault>
    requires basis { IsSubspace (F.ops f.now) a.now }
    requires width { a.now.width ≡ width }
{
    let b = lists::space(alloc, f, width, b)?;
    match call {
        "sum" => show::space_of(alloc, out, f, a.sum(alloc, f, &b)),
        "meet" => show::space_of(alloc, out, f, a.meet(alloc, f, &b)),
        _ => Err(Fault::BadLine),
    }
}

/// The answer of a call on a subspace of lists of so many elements, and what stands behind it.
fn on_space<F: Scalars>(
    alloc: Global,
    f: &F,
    call: &str,
    a: &Subspace<F>,
    width: usize,
    words: &[&str],
    out: &mut Vec<u8>,
) -> Result<(), Fault>
    requires basis { IsSubspace (F.ops f.now) a.now }
    requires width { a.now.width ≡ width }
{
    match (call, words) {
        ("span", []) => show::space(alloc, out, f, a),
        ("copy", []) => show::space(alloc, out, f, &a.copy(alloc, f)?),
        ("contains", [v]) => contains(alloc, f, a, width, v, out),
        (_, [b]) => on_two(alloc, f, call, a, width, b, out),
        _ => Err(Fault::BadLine),
    }
}

/// The answer of a call on subspaces of lists of so many elements: each is given by rows that span it.
pub fn on_spaces<F: Scalars>(
    alloc: Global,
    f: &F,
    call: &str,
    words: &[&str],
    out: &mut Vec<u8>,
) -> Result<(), Fault> {
    let [width, a, rest @ ..] = words else {
        return Err(Fault::BadLine);
    };
    let width = args::number(width)? as usize;
    let a = lists::space(alloc, f, width, a)?;
    on_space(alloc, f, call, &a, width, rest, out)
}
