// Calls on orders in algebras over the rational functions, and on bases of their lattices.

use crate::{bases, central, orders_at};
use spl_fraction::field::Fractions;
use spl_order::{bad_places, forms, start, swap, within};
use spl_words::fault::Fault;
use spl_words::{algebras, lists, show};
use std::alloc::Global;

/// `of M`: the tuples of the basis, its denominator, and its rows over it; `none` where the rows of M are dependent.
fn of(alloc: Global, k: &Fractions, m: &str, out: &mut Vec<u8>) -> Result<(), Fault> {
    let n = bases::size(m);
    match bases::independent(alloc, k, n, m)? {
        None => show::word(out, "none"),
        Some(basis) => {
            bases::show_tuples(alloc, k, n, &basis, out)?;
            show::polynomial(out, basis.denominator())?;
            show::poly_rows(out, basis.numerators().as_slice())
        }
    }
}

/// `copy M`: the tuples of a copy of the basis.
fn copy(alloc: Global, k: &Fractions, m: &str, out: &mut Vec<u8>) -> Result<(), Fault> {
    let n = bases::size(m);
    let basis = bases::basis(alloc, k, n, m)?;
    bases::show_tuples(alloc, k, n, &basis.copy(alloc, k)?, out)
}

/// `is_within M N`: whether the lattice of the rows of M over the polynomials lies in that of the rows of N.
fn is_within(
    alloc: Global,
    k: &Fractions,
    m: &str,
    n: &str,
    out: &mut Vec<u8>,
) -> Result<(), Fault> {
    let width = bases::size(m);
    let a = bases::basis(alloc, k, width, m)?;
    let b = bases::basis(alloc, k, width, n)?;
    show::truth(out, within::is_within(alloc, k, &a, &b)?)
}

/// `start_order A N`, where A is associative with identity: whether the first order has the lattice of the rows of N
/// over the polynomials.
fn start_order(
    alloc: Global,
    k: &Fractions,
    algebra: &str,
    n: &str,
    out: &mut Vec<u8>,
) -> Result<(), Fault> {
    let a = central::with_identity(alloc, k, algebra)?;
    let order = start::start_order(alloc, k, &a.algebra, &a.one)?;
    let expected = bases::basis(alloc, k, a.algebra.dim(), n)?;
    show::truth(
        out,
        bases::is_same(alloc, k, a.algebra.dim(), &order, &expected)?,
    )
}

/// `dual A M`, where A has a nondegenerate trace form: the tuples of the dual basis.
fn dual(
    alloc: Global,
    k: &Fractions,
    algebra: &str,
    m: &str,
    out: &mut Vec<u8>,
) -> Result<(), Fault> {
    let a = central::nondegenerate(alloc, k, algebra)?;
    let basis = bases::basis(alloc, k, a.algebra.dim(), m)?;
    let dual = forms::dual(alloc, k, &a.algebra, &basis)?;
    bases::show_tuples(alloc, k, a.algebra.dim(), &dual, out)
}

/// `bad_places A`, where A has a nondegenerate trace form: the polynomial of the finite places at which the first order
/// is not its own dual.
fn bad(alloc: Global, k: &Fractions, algebra: &str, out: &mut Vec<u8>) -> Result<(), Fault> {
    let a = central::nondegenerate(alloc, k, algebra)?;
    let order = start::start_order(alloc, k, &a.algebra, &a.one)?;
    show::poly_of(out, bad_places::bad_places(alloc, k, &a.algebra, &order))
}

/// `swap_algebra A`: the products of the basis elements of the algebra in which 1/x stands for x.
fn swap_algebra(
    alloc: Global,
    k: &Fractions,
    algebra: &str,
    out: &mut Vec<u8>,
) -> Result<(), Fault> {
    let a = lists::algebra(alloc, k, algebra)?;
    let b = swap::swap_algebra(alloc, k, &a)?;
    algebras::products(alloc, k, &b, out)
}

/// `swap_order M`: the tuples of the basis in which 1/x stands for x.
fn swap_order(alloc: Global, k: &Fractions, m: &str, out: &mut Vec<u8>) -> Result<(), Fault> {
    let n = bases::size(m);
    let basis = bases::basis(alloc, k, n, m)?;
    bases::show_tuples(alloc, k, n, &swap::swap_order(alloc, k, &basis)?, out)
}

/// The answer of a call on orders and bases of lattices.
pub fn call(
    alloc: Global,
    k: &Fractions,
    call: &str,
    words: &[&str],
    out: &mut Vec<u8>,
) -> Result<(), Fault> {
    match (call, words) {
        ("of", [m]) => of(alloc, k, m, out),
        ("copy", [m]) => copy(alloc, k, m, out),
        ("is_within", [m, n]) => is_within(alloc, k, m, n, out),
        ("start_order", [algebra, n]) => start_order(alloc, k, algebra, n, out),
        ("dual", [algebra, m]) => dual(alloc, k, algebra, m, out),
        ("bad_places", [algebra]) => bad(alloc, k, algebra, out),
        ("swap_algebra", [algebra]) => swap_algebra(alloc, k, algebra, out),
        ("swap_order", [m]) => swap_order(alloc, k, m, out),
        _ => orders_at::call(alloc, k, call, words, out),
    }
}
