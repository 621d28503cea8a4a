// Calls on algebras.
ghost use Rattle.std.specs.Prelude.{◌≡◌, All, IfOk, IsTrue};
ghost use Rattle.theory_rings.specs.Ops.{IsElem};
ghost use Rattle.theory_tables.specs.Structure.{IsOver};
ghost use Rattle.theory_tables.specs.Subspace.{IsSubspace};
ghost use Rattle.theory_tables.specs.Algebras.{SpansAll};
ghost use Rattle.theory_tables.specs.Quotient.{IsQuotient};
ghost use Rattle.theory_tables.specs.Claims.{AreMultipliers};
ghost use Rattle.spl_algebra.specs.Identity.{IsOne};

use crate::fault::Fault;
use crate::scalars::Scalars;
use crate::{args, lists, show};
use spl_algebra::algebra::Algebra;
use spl_algebra::identity::One;
use spl_algebra::quotient::Quotient;
use spl_matrix::subspace::Subspace;
use std::alloc::Global;

/// `mul A a b`
fn mul<F: Scalars>(
    alloc: Global,
    f: &F,
    algebra: &Algebra<F>,
    a: &str,
    b: &str,
    out: &mut Vec<u8>,
) -> Result<(), Fault>
    requires { IsOver (F.ops f.now) algebra.now }
{
    let a = lists::tuple(alloc, f, algebra.dim(), a)?;
    let b = lists::tuple(alloc, f, algebra.dim(), b)?;
    let product = algebra.mul(alloc, f, &a, &b)?;
    show::vector(alloc, out, f, product.as_slice())
}

/// `basis_element A i`, counted from 0 as all places.
fn basis_element<F: Scalars>(
    alloc: Global,
    f: &F,
    algebra: &Algebra<F>,
    i: &str,
    out: &mut Vec<u8>,
) -> Result<(), Fault>
    requires { IsOver (F.ops f.now) algebra.now }
{
    let i = args::below(i, algebra.dim())?;
    let element = algebra.basis_element(alloc, f, i)?;
    show::vector(alloc, out, f, element.as_slice())
}

/// `basis_product A i j`
fn basis_product<F: Scalars>(
    alloc: Global,
    f: &F,
    algebra: &Algebra<F>,
    i: &str,
    j: &str,
    out: &mut Vec<u8>,
) -> Result<(), Fault>
    requires { IsOver (F.ops f.now) algebra.now }
{
    let i = args::below(i, algebra.dim())?;
    let j = args::below(j, algebra.dim())?;
    show::vector(alloc, out, f, algebra.basis_product(f, i, j))
}

/// Places counted from 1, each with its element; `none` where there is none.
fn pairs<F: Scalars>(
    alloc: Global,
    f: &F,
    list: &[(usize, F::Elem)],
    out: &mut Vec<u8>,
) -> Result<(), Fault>
    requires { All (λ pair. IsElem (F.ops f.now) pair.1) list.now }
{
    if list.is_empty() {
        return show::word(out, "none");
    }
    for (k, c) in list {
        show::count(out, *k)?;
        show::element(alloc, out, f, c)?;
    }
    Ok(())
}

/// `entries A i j`: the constants of the product of two basis elements that are not 0, each behind the number of its
/// basis element, all counted from 1; `none` where the product is 0.
fn entries<F: Scalars>(
    alloc: Global,
    f: &F,
    algebra: &Algebra<F>,
    i: &str,
    j: &str,
    out: &mut Vec<u8>,
) -> Result<(), Fault>
    requires { IsOver (F.ops f.now) algebra.now }
{
    let i = args::positive(i, algebra.dim())?;
    let j = args::positive(j, algebra.dim())?;
    pairs(alloc, f, algebra.entries(i, j).as_slice(), out)
}

/// `associates_at A i j k`
fn associates_at<F: Scalars>(
    alloc: Global,
    f: &F,
    algebra: &Algebra<F>,
    i: &str,
    j: &str,
    k: &str,
    out: &mut Vec<u8>,
) -> Result<(), Fault>
    requires { IsOver (F.ops f.now) algebra.now }
{
    let i = args::below(i, algebra.dim())?;
    let j = args::below(j, algebra.dim())?;
    let k = args::below(k, algebra.dim())?;
    show::truth(out, algebra.associates_at(alloc, f, i, j, k)?)
}

/// The products of basis elements, row i·m + j that of i and j.
pub fn products<F: Scalars>(
    alloc: Global,
    f: &F,
    algebra: &Algebra<F>,
    out: &mut Vec<u8>,
) -> Result<(), Fault>
    requires { IsOver (F.ops f.now) algebra.now }
{
    show::count(out, algebra.dim())?;
    for i in 0..algebra.dim() {
        for j in 0..algebra.dim() {
            show::vector(alloc, out, f, algebra.basis_product(f, i, j))?;
        }
    }
    Ok(())
}

/// `copy A`: the dimension of a copy, and its products.
fn copy<F: Scalars>(
    alloc: Global,
    f: &F,
    algebra: &Algebra<F>,
    out: &mut Vec<u8>,
) -> Result<(), Fault>
    requires { IsOver (F.ops f.now) algebra.now }
{
    let copy = algebra.copy(alloc, f)?;
    products(alloc, f, &copy, out)
}

/// Multipliers, each by its side, its pair and its value.
fn multipliers<F: Scalars>(
    alloc: Global,
    f: &F,
    m: usize,
    side: &str,
    list: &[(usize, usize, F::Elem)],
    out: &mut Vec<u8>,
) -> Result<(), Fault>
    requires { AreMultipliers (F.ops f.now) m list.now }
{
    let _ = m;
    for (j, k, x) in list {
        show::word(out, side)?;
        show::count(out, *j)?;
        show::count(out, *k)?;
        show::element(alloc, out, f, x)?;
    }
    Ok(())
}

/// `here` and the identity, or `refuted` and the multipliers of its equations.
pub fn one<F: Scalars>(
    alloc: Global,
    f: &F,
    algebra: &Algebra<F>,
    one: One<F>,
    out: &mut Vec<u8>,
) -> Result<(), Fault>
    requires { IsOne (F.ops f.now) algebra.now one }
{
    match one {
        One::Here { tuple } => show::named(alloc, out, f, "here", tuple.as_slice()),
        One::Refuted { left, right } => {
            show::word(out, "refuted")?;
            multipliers(alloc, f, algebra.dim(), "left", left.as_slice(), out)?;
            multipliers(alloc, f, algebra.dim(), "right", right.as_slice(), out)
        }
    }
}

/// `identity A`: `here` and the identity, or `refuted` and multipliers of its equations.
fn identity<F: Scalars>(
    alloc: Global,
    f: &F,
    algebra: &Algebra<F>,
    out: &mut Vec<u8>,
) -> Result<(), Fault>
    requires { IsOver (F.ops f.now) algebra.now }
{
    one(alloc, f, algebra, algebra.identity(alloc, f)?, out)
}

/// `first_failed_triple A`: the triple, counted from 1, or `none`.
fn first_failed_triple<F: Scalars>(
    alloc: Global,
    f: &F,
    algebra: &Algebra<F>,
    out: &mut Vec<u8>,
) -> Result<(), Fault>
    requires { IsOver (F.ops f.now) algebra.now }
{
    match algebra.first_failed_triple(alloc, f)? {
        None => show::word(out, "none"),
        Some(t) => {
            show::count(out, t.i)?;
            show::count(out, t.j)?;
            show::count(out, t.k)
        }
    }
}

/// `left_matrix A a`
fn left_matrix<F: Scalars>(
    alloc: Global,
    f: &F,
    algebra: &Algebra<F>,
    a: &str,
    out: &mut Vec<u8>,
) -> Result<(), Fault>
    requires { IsOver (F.ops f.now) algebra.now }
{
    let a = lists::tuple(alloc, f, algebra.dim(), a)?;
    show::matrix(alloc, out, f, algebra.left_matrix(alloc, f, &a)?)
}

/// `ideal_generated A M`: the dimension and the basis of the ideal that the rows generate.
fn ideal_generated<F: Scalars>(
    alloc: Global,
    f: &F,
    algebra: &Algebra<F>,
    rows: &str,
    out: &mut Vec<u8>,
) -> Result<(), Fault>
    requires { IsOver (F.ops f.now) algebra.now }
{
    let by = lists::space(alloc, f, algebra.dim(), rows)?;
    show::space_of(alloc, out, f, algebra.ideal_generated(alloc, f, &by))
}

/// `power_of_ideal A M N`: the dimension and the basis of the power N of the ideal that the rows generate.
fn power_of_ideal<F: Scalars>(
    alloc: Global,
    f: &F,
    algebra: &Algebra<F>,
    rows: &str,
    exponent: &str,
    out: &mut Vec<u8>,
) -> Result<(), Fault>
    requires { IsOver (F.ops f.now) algebra.now }
{
    let exponent = args::number(exponent)?;
    if exponent == 0 {
        return Err(Fault::BadLine);
    }
    let by = lists::space(alloc, f, algebra.dim(), rows)?;
    let ideal = algebra.ideal_generated(alloc, f, &by)?;
    show::space_of(
        alloc,
        out,
        f,
        algebra.power_of_ideal(alloc, f, &ideal, exponent),
    )
}

/// Whether some basis element is outside of a subspace.
fn is_proper<F: Scalars>(
    alloc: Global,
    f: &F,
    algebra: &Algebra<F>,
    space: &Subspace<F>,
) -> Result<bool, Fault>
    requires over { IsOver (F.ops f.now) algebra.now }
    requires basis { IsSubspace (F.ops f.now) space.now }
    requires width { space.now.width ≡ algebra.now.dim }
    ensures { IfOk result (λ b. IsTrue b → SpansAll (F.ops f.now) algebra.now space.now.rows → ⊥) }
{
    for i in 0..algebra.dim() {
        let element = algebra.basis_element(alloc, f, i)?;
        if !space.contains(alloc, f, element.as_slice())? {
            return Ok(true);
        }
    }
    Ok(false)
}

/// The dimension of a quotient and its products, the matrix that sends an element to its class, and the lifts.
fn show_quotient<F: Scalars>(
    alloc: Global,
    f: &F,
    algebra: &Algebra<F>,
    ideal: &Subspace<F>,
    quotient: Quotient<F>,
    out: &mut Vec<u8>,
) -> Result<(), Fault>
    requires { IsQuotient (F.ops f.now) algebra.now ideal.now.rows quotient.algebra quotient.project quotient.lifts }
{
    let _ = algebra;
    let _ = ideal;
    let Quotient {
        algebra,
        project,
        lifts,
    } = quotient;
    products(alloc, f, &algebra, out)?;
    show::matrix(alloc, out, f, project)?;
    show::matrix(alloc, out, f, lifts)
}

/// `quotient A M`: of the quotient by the ideal that the rows generate the dimension and the products, the matrix that
/// sends an element to its class, and the lifts of the basis.
fn quotient<F: Scalars>(
    alloc: Global,
    f: &F,
    algebra: &Algebra<F>,
    rows: &str,
    out: &mut Vec<u8>,
) -> Result<(), Fault>
    requires { IsOver (F.ops f.now) algebra.now }
{
    let by = lists::space(alloc, f, algebra.dim(), rows)?;
    let ideal = algebra.ideal_generated(alloc, f, &by)?;
    if !is_proper(alloc, f, algebra, &ideal)? {
        return Err(Fault::BadLine);
    }
    let quotient = algebra.quotient(alloc, f, &ideal)?;
    show_quotient(alloc, f, algebra, &ideal, quotient, out)
}

/// The answer of a call on an algebra alone.
fn on_algebra<F: Scalars>(
    alloc: Global,
    f: &F,
    call: &str,
    algebra: &Algebra<F>,
    out: &mut Vec<u8>,
) -> Result<(), Fault>
    requires { IsOver (F.ops f.now) algebra.now }
{
    match call {
        "new" => products(alloc, f, algebra, out),
        "copy" => copy(alloc, f, algebra, out),
        "first_failed_triple" => first_failed_triple(alloc, f, algebra, out),
        "identity" => identity(alloc, f, algebra, out),
        "centre" => show::space_of(alloc, out, f, algebra.centre(alloc, f)),
        "trace_form" => show::matrix(alloc, out, f, algebra.trace_form(alloc, f)?),
        _ => Err(Fault::BadLine),
    }
}

/// The answer of a call on an algebra and one word.
fn on_one<F: Scalars>(
    alloc: Global,
    f: &F,
    call: &str,
    algebra: &Algebra<F>,
    a: &str,
    out: &mut Vec<u8>,
) -> Result<(), Fault>
    requires { IsOver (F.ops f.now) algebra.now }
{
    match call {
        "basis_element" => basis_element(alloc, f, algebra, a, out),
        "left_matrix" => left_matrix(alloc, f, algebra, a, out),
        "ideal_generated" => ideal_generated(alloc, f, algebra, a, out),
        "quotient" => quotient(alloc, f, algebra, a, out),
        _ => Err(Fault::BadLine),
    }
}

/// The answer of a call on an algebra and two words.
fn on_two<F: Scalars>(
    alloc: Global,
    f: &F,
    call: &str,
    algebra: &Algebra<F>,
    a: &str,
    b: &str,
    out: &mut Vec<u8>,
) -> Result<(), Fault>
    requires { IsOver (F.ops f.now) algebra.now }
{
    match call {
        "mul" => mul(alloc, f, algebra, a, b, out),
        "basis_product" => basis_product(alloc, f, algebra, a, b, out),
        "entries" => entries(alloc, f, algebra, a, b, out),
        "power_of_ideal" => power_of_ideal(alloc, f, algebra, a, b, out),
        _ => Err(Fault::BadLine),
    }
}

/// The answer of a call on an algebra and what stands behind it.
fn on_more<F: Scalars>(
    alloc: Global,
    f: &F,
    call: &str,
    algebra: &Algebra<F>,
    words: &[&str],
    out: &mut Vec<u8>,
) -> Result<(), Fault>
    requires { IsOver (F.ops f.now) algebra.now }
{
    match words {
        [] => on_algebra(alloc, f, call, algebra, out),
        [a] => on_one(alloc, f, call, algebra, a, out),
        [a, b] => on_two(alloc, f, call, algebra, a, b, out),
        [i, j, k] if call == "associates_at" => associates_at(alloc, f, algebra, i, j, k, out),
        _ => Err(Fault::BadLine),
    }
}

/// The answer of a call on an algebra.
pub fn call<F: Scalars>(
    alloc: Global,
    f: &F,
    call: &str,
    words: &[&str],
    out: &mut Vec<u8>,
) -> Result<(), Fault> {
    let [algebra, rest @ ..] = words else {
        return Err(Fault::BadLine);
    };
    let algebra = lists::algebra(alloc, f, algebra)?;
    on_more(alloc, f, call, &algebra, rest, out)
}
