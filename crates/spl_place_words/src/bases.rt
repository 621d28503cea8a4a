// Bases of lattices of tuples, as arguments and answers: a matrix of fractions whose rows are the tuples.
ghost use Rattle.std.specs.Prelude.{IfOk, IfSome};
ghost use Rattle.spl_field.specs.SmallField.{small_ops, small_laws};
ghost use Rattle.spl_fraction.specs.Fractions.{field_of};
ghost use Rattle.theory_places.specs.FractionPlaces.{IsMonicIrreducible};
ghost use Rattle.theory_bases.specs.Bases.{IsBasis};

use spl_field::field::NoMemory;
use spl_fraction::field::Fractions;
use spl_order::basis::Basis;
use spl_order::within::is_within;
use spl_order::within_at::is_within_at;
use spl_poly::poly::Poly;
use spl_words::fault::Fault;
use spl_words::{lists, show};
use std::alloc::Global;

/// The number of rows of a matrix.
pub(crate) fn size(word: &str) -> usize {
    word.split(';').count()
}

/// The basis of n tuples, the rows; None where they are dependent.
pub(crate) fn independent(
    alloc: Global,
    k: &Fractions,
    n: usize,
    word: &str,
) -> Result<Option<Basis>, Fault>
    ensures { IfOk result (λ r.
        IfSome r (IsBasis (small_ops (field_of k.now)) (small_laws (field_of k.now)) n)) }
{
    let rows = lists::rows(alloc, k, n, word)?;
    if rows.len() != n {
        return Err(Fault::BadLine);
    }
    Ok(Basis::of(alloc, k, &rows.into_list())?)
}

/// The basis of n independent tuples, the rows.
pub(crate) fn basis(alloc: Global, k: &Fractions, n: usize, word: &str) -> Result<Basis, Fault>
    ensures { IfOk result (IsBasis (small_ops (field_of k.now)) (small_laws (field_of k.now)) n) }
{
    independent(alloc, k, n, word)?.ok_or(Fault::BadLine)
}

/// The n tuples of a basis.
pub(crate) fn show_tuples(
    alloc: Global,
    k: &Fractions,
    n: usize,
    basis: &Basis,
    out: &mut Vec<u8>,
) -> Result<(), Fault>
    requires { IsBasis (small_ops (field_of k.now)) (small_laws (field_of k.now)) n basis.now }
{
    let _ = n;
    let tuples = basis.tuples(alloc, k)?;
    show::rows(alloc, out, k, tuples.as_slice())
}

/// Whether two bases of n tuples have the same lattice over the polynomials.
pub(crate) fn is_same(
    alloc: Global,
    k: &Fractions,
    n: usize,
    a: &Basis,
    b: &Basis,
) -> Result<bool, NoMemory>
    requires a { IsBasis (small_ops (field_of k.now)) (small_laws (field_of k.now)) n a.now }
    requires b { IsBasis (small_ops (field_of k.now)) (small_laws (field_of k.now)) n b.now }
{
    let _ = n;
    Ok(is_within(alloc, k, a, b)? && is_within(alloc, k, b, a)?)
}

/// Whether two bases of n tuples have the same lattice at a finite place.
pub(crate) fn is_same_at(
    alloc: Global,
    k: &Fractions,
    n: usize,
    a: &Basis,
    b: &Basis,
    place: &Poly,
) -> Result<bool, NoMemory>
    requires a { IsBasis (small_ops (field_of k.now)) (small_laws (field_of k.now)) n a.now }
    requires b { IsBasis (small_ops (field_of k.now)) (small_laws (field_of k.now)) n b.now }
    requires place { IsMonicIrreducible (small_ops (field_of k.now)) place.now }
{
    let _ = n;
    Ok(is_within_at(alloc, k, a, b, place)? && is_within_at(alloc, k, b, a, place)?)
}
