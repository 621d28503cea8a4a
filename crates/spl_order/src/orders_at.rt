// Whether products of lattices of bases, at a place, lie in the lattice of a basis, and whether that is an order.
ghost use Rattle.std.specs.Prelude.{◌≡◌, ◌≢◌, ◌↔◌, ◌<◌, ◌≤◌, ◌+◌, ◌*◌, ◌^◌, ℕ, List, [], length, get_or, IfOk, IsTrue};
ghost use Rattle.spl_field.specs.SmallField.{small_ops, small_laws};
ghost use Rattle.spl_fraction.specs.Fractions.{field_of};
ghost use Rattle.spl_fraction.specs.FractionsOver.{fractions_over};
ghost use Rattle.theory_fractions.specs.PolynomialLists.{IsPolynomialList};
ghost use Rattle.theory_fractions.specs.Fraction.{Pair};
ghost use Rattle.theory_rows.specs.Rows.{IsPolynomialMatrix};
ghost use Rattle.theory_places.specs.Places.{Finite, Infinite};
ghost use Rattle.theory_places.specs.FractionPlaces.{IsPlace, IsIntegralAt, IsMonicIrreducible};
ghost use Rattle.theory_tables.specs.Structure.{IsOver, product_of};
ghost use Rattle.theory_tables.specs.Algebras.{IsIdentity};
ghost use Rattle.theory_bases.specs.TupleLattices.{TupleLattice, SpanOrder};
ghost use Rattle.theory_bases.specs.Bases.{IsBasis, tuples_of};
ghost use Rattle.spl_order.specs.Coordinates.{row_at};
ghost use Rattle.spl_order.specs.Members.{HasDividedProduct};
ghost use Rattle.spl_fraction.specs.Place.{place_of};

use crate::basis::Basis;
use crate::coordinates::products_over;
use crate::members_at::{MemberTest, holds_at, member_test, passes};
use crate::swap::{swap_algebra, swap_order};
use spl_algebra::algebra::Algebra;
use spl_algebra::identity::One;
use spl_centre::centre::identity_or_refutation;
use spl_field::field::NoMemory;
use spl_field::small::SmallField;
use spl_fraction::field::Fractions;
use spl_fraction::place::Place;
use spl_fraction::tuples::Tuple;
use spl_numerators::numerators::numerators_of;
use spl_poly::poly::Poly;
use std::alloc::Global;

/// The n items in the row i.
fn row_of(items: &[Poly], n: usize, i: usize) -> &[Poly]
    requires fits { i * n + n < 2 ^ 64 }
    requires within { i * n + n ≤ length items.now }
    ensures { result.now ≡ row_at n items.now i }
{
    let start = i * n;
    &items[start..start + n]
}

/// Whether h rows of n polynomials, which stand one after the other, pass the test.
fn all_pass(
    alloc: Global,
    f: &SmallField,
    test: &MemberTest,
    n: usize,
    h: usize,
    rows: &[Poly],
) -> Result<bool, NoMemory>
    requires count { length test.now.columns ≡ n }
    requires matrix { IsPolynomialMatrix (small_ops f.now) n test.now.columns }
    requires part { IsPolynomialList (small_ops f.now) test.now.part }
    requires nonzero { test.now.part ≢ [] }
    requires fits { h * n < 2 ^ 64 }
    requires rows_count { length rows.now ≡ h * n }
    requires rows { (p : ℕ) → p < length rows.now → IsPolynomialList (small_ops f.now) (get_or rows.now p []) }
    ensures { IfOk result (λ r. IsTrue r ↔ ((i : ℕ) → i < h → HasDividedProduct (small_ops f.now)
        (small_laws f.now) test.now.part n test.now.columns (row_at n rows.now i))) }
{
    for i in 0..h {
        if !passes(alloc, f, test, n, row_of(rows, n, i))? {
            return Ok(false);
        }
    }
    Ok(true)
}

/// Whether the products of the lattices of two bases at a finite place lie in the lattice of a third one there. The
/// algebra need not be associative. The one fault is want of memory. (Reiner, Maximal Orders, section 8.)
pub fn are_products_within_at(
    alloc: Global,
    f: &Fractions,
    a: &Algebra<Fractions>,
    left: &Basis,
    right: &Basis,
    inside: &Basis,
    place: &Poly,
) -> Result<bool, NoMemory>
    requires over { IsOver (fractions_over (field_of f.now)) a.now }
    requires place { IsMonicIrreducible (small_ops (field_of f.now)) place.now }
    requires left { IsBasis (small_ops (field_of f.now)) (small_laws (field_of f.now)) a.now.dim left.now }
    requires right { IsBasis (small_ops (field_of f.now)) (small_laws (field_of f.now)) a.now.dim right.now }
    requires inside { IsBasis (small_ops (field_of f.now)) (small_laws (field_of f.now)) a.now.dim inside.now }
    ensures { IfOk result (λ r. IsTrue r ↔ ((x y : List (Pair ℕ))
        → TupleLattice (fractions_over (field_of f.now))
        (IsIntegralAt (small_ops (field_of f.now)) (Finite place.now)) a.now.dim
        (tuples_of (small_ops (field_of f.now)) (small_laws (field_of f.now)) left.now) x
        → TupleLattice (fractions_over (field_of f.now))
        (IsIntegralAt (small_ops (field_of f.now)) (Finite place.now)) a.now.dim
        (tuples_of (small_ops (field_of f.now)) (small_laws (field_of f.now)) right.now) y
        → TupleLattice (fractions_over (field_of f.now))
        (IsIntegralAt (small_ops (field_of f.now)) (Finite place.now)) a.now.dim
        (tuples_of (small_ops (field_of f.now)) (small_laws (field_of f.now)) inside.now)
        (product_of (fractions_over (field_of f.now)) a.now x y))) }
{
    let _ = a.constants();
    let n = a.dim();
    let numerators = numerators_of(alloc, f, a)?;
    let products = products_over(alloc, f.field(), a, &numerators, left, right)?;
    let test = member_test(alloc, f.field(), inside, n, &products.scale, place)?;
    let passed = all_pass(alloc, f.field(), &test, n, n * n, products.items.as_slice())?;
    Ok(passed)
}

/// Whether the lattice at a finite place holds the identity, which is handed in, and is closed under products.
fn is_order_with(
    alloc: Global,
    f: &Fractions,
    a: &Algebra<Fractions>,
    one: &Tuple,
    order: &Basis,
    place: &Poly,
) -> Result<bool, NoMemory>
    requires over { IsOver (fractions_over (field_of f.now)) a.now }
    requires one { IsIdentity (fractions_over (field_of f.now)) a.now one.now }
    requires order { IsBasis (small_ops (field_of f.now)) (small_laws (field_of f.now)) a.now.dim order.now }
    requires place { IsMonicIrreducible (small_ops (field_of f.now)) place.now }
    ensures { IfOk result (λ r. IsTrue r ↔ SpanOrder (fractions_over (field_of f.now)) a.now
        (IsIntegralAt (small_ops (field_of f.now)) (Finite place.now))
        (tuples_of (small_ops (field_of f.now)) (small_laws (field_of f.now)) order.now)) }
{
    let _ = a.constants();
    if !holds_at(alloc, f, order, one.as_slice(), place)? {
        return Ok(false);
    }
    let closed = are_products_within_at(alloc, f, a, order, order, order, place)?;
    Ok(closed)
}

/// Whether the algebra has an identity, and the lattice at a finite place holds it and is closed under products.
pub fn is_order_at_finite(
    alloc: Global,
    f: &Fractions,
    a: &Algebra<Fractions>,
    order: &Basis,
    place: &Poly,
) -> Result<bool, NoMemory>
    requires over { IsOver (fractions_over (field_of f.now)) a.now }
    requires order { IsBasis (small_ops (field_of f.now)) (small_laws (field_of f.now)) a.now.dim order.now }
    requires place { IsMonicIrreducible (small_ops (field_of f.now)) place.now }
    ensures { IfOk result (λ r. IsTrue r ↔ SpanOrder (fractions_over (field_of f.now)) a.now
        (IsIntegralAt (small_ops (field_of f.now)) (Finite place.now))
        (tuples_of (small_ops (field_of f.now)) (small_laws (field_of f.now)) order.now)) }
{
    match identity_or_refutation(alloc, f, a)? {
        One::Here { tuple } => is_order_with(alloc, f, a, &tuple, order, place),
        One::Refuted { .. } => Ok(false),
    }
}

/// Whether the lattice at infinity holds an identity and is closed under products: whether that with 1/x put for x does
/// at the place x.
fn is_order_at_infinity(
    alloc: Global,
    f: &Fractions,
    a: &Algebra<Fractions>,
    order: &Basis,
) -> Result<bool, NoMemory>
    requires over { IsOver (fractions_over (field_of f.now)) a.now }
    requires order { IsBasis (small_ops (field_of f.now)) (small_laws (field_of f.now)) a.now.dim order.now }
    ensures { IfOk result (λ r. IsTrue r ↔ SpanOrder (fractions_over (field_of f.now)) a.now
        (IsIntegralAt (small_ops (field_of f.now)) Infinite)
        (tuples_of (small_ops (field_of f.now)) (small_laws (field_of f.now)) order.now)) }
{
    let algebra = swap_algebra(alloc, f, a)?;
    let swapped = swap_order(alloc, f, order)?;
    let place = Poly::from_slice(alloc, &[0, 1])?;
    let answer = is_order_at_finite(alloc, f, &algebra, &swapped, &place)?;
    Ok(answer)
}

/// Whether the algebra, which need not be associative, has an identity, and the lattice of the basis at the place holds
/// it and is closed under products. The one fault is want of memory. (Reiner, Maximal Orders, section 8.)
pub fn is_order_at(
    alloc: Global,
    f: &Fractions,
    a: &Algebra<Fractions>,
    order: &Basis,
    place: &Place,
) -> Result<bool, NoMemory>
    requires over { IsOver (fractions_over (field_of f.now)) a.now }
    requires order { IsBasis (small_ops (field_of f.now)) (small_laws (field_of f.now)) a.now.dim order.now }
    requires place { IsPlace (small_ops (field_of f.now)) (place_of place.now) }
    ensures { IfOk result (λ r. IsTrue r ↔ SpanOrder (fractions_over (field_of f.now)) a.now
        (IsIntegralAt (small_ops (field_of f.now)) (place_of place.now))
        (tuples_of (small_ops (field_of f.now)) (small_laws (field_of f.now)) order.now)) }
{
    match place {
        Place::Finite { poly } => is_order_at_finite(alloc, f, a, order, poly),
        Place::Infinity => is_order_at_infinity(alloc, f, a, order),
    }
}
