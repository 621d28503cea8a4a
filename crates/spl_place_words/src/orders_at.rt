// Calls on orders at places: whether a lattice is one, the order modulo the place with its ideals, left orders, and
// growth.
ghost use Rattle.std.specs.Prelude.{◌≡◌, ◌↔◌, IfOk, IsTrue};
ghost use Rattle.theory_rings.specs.Ops.{IsElem};
ghost use Rattle.theory_tables.specs.Structure.{IsOver};
ghost use Rattle.theory_tables.specs.Subspace.{IsSubspace};
ghost use Rattle.theory_tables.specs.Algebras.{SpansIdeal};
ghost use Rattle.spl_field.specs.SmallField.{small_ops, small_laws};
ghost use Rattle.spl_fraction.specs.Fractions.{field_of};
ghost use Rattle.spl_fraction.specs.FractionsOver.{fractions_over};
ghost use Rattle.spl_residue.specs.Residue.{residue_ops};
ghost use Rattle.theory_places.specs.Places.{Finite};
ghost use Rattle.theory_places.specs.FractionPlaces.{IsIntegralAt, IsMonicIrreducible};
ghost use Rattle.theory_bases.specs.TupleLattices.{SpanOrder};
ghost use Rattle.theory_bases.specs.Bases.{IsBasis, tuples_of};
ghost use Rattle.spl_order.specs.LeftOrders.{SpansIdealOver};
ghost use Rattle.spl_local.specs.Growth.{IsState};

use crate::{bases, central, places};
use spl_algebra::algebra::Algebra;
use spl_field::field::NoMemory;
use spl_fraction::field::Fractions;
use spl_fraction::fraction::Fraction;
use spl_local::settle::{self, Settled, State};
use spl_matrix::subspace::Subspace;
use spl_order::basis::Basis;
use spl_order::orders_at::{are_products_within_at, is_order_at, is_order_at_finite};
use spl_order::residue_algebra::{Residue, residue_algebra};
use spl_order::within_at::{is_multiple_within_at, is_within_at};
use spl_order::{left_order, lift_ideal, powers, reduction, start};
use spl_poly::poly::Poly;
use spl_residue::field::ResidueField;
use spl_words::fault::Fault;
use spl_words::{algebras, args, lists, show};
use std::alloc::Global;

/// A finite place, and the basis of a lattice that is an order there.
struct OrderAt {
    place: Poly,
    order: Basis,
}

impl Drop for OrderAt {
    fn drop(self) {
        let OrderAt { place, order } = self;
    }
}

/// The place, and the basis of an order of the algebra there.
fn order_at(
    alloc: Global,
    k: &Fractions,
    a: &Algebra<Fractions>,
    m: &str,
    place: &str,
) -> Result<OrderAt, Fault>
    requires { IsOver (fractions_over (field_of k.now)) a.now }
    ensures place { IfOk result (λ r. IsMonicIrreducible (small_ops (field_of k.now)) r.place) }
    ensures basis { IfOk result (λ r.
        IsBasis (small_ops (field_of k.now)) (small_laws (field_of k.now)) a.now.dim r.order) }
    ensures order { IfOk result (λ r. SpanOrder (fractions_over (field_of k.now)) a.now
        (IsIntegralAt (small_ops (field_of k.now)) (Finite r.place))
        (tuples_of (small_ops (field_of k.now)) (small_laws (field_of k.now)) r.order)) }
{
    let place = places::finite(alloc, k, place)?;
    let order = bases::basis(alloc, k, a.dim(), m)?;
    if !is_order_at_finite(alloc, k, a, &order, &place)? {
        return Err(Fault::BadLine);
    }
    Ok(OrderAt { place, order })
}

/// Whether all four hold.
fn all_of(a: bool, b: bool, c: bool, d: bool) -> bool
    ensures { IsTrue result ↔ (IsTrue a × IsTrue b × IsTrue c × IsTrue d) }
{
    a && b && c && d
}

/// Whether a lattice at a place is a two-sided ideal of an order there, and holds its multiples by the place's
/// polynomial.
fn is_ideal_at(
    alloc: Global,
    k: &Fractions,
    a: &Algebra<Fractions>,
    at: &OrderAt,
    ideal: &Basis,
) -> Result<bool, NoMemory>
    requires over { IsOver (fractions_over (field_of k.now)) a.now }
    requires place { IsMonicIrreducible (small_ops (field_of k.now)) at.now.place }
    requires basis { IsBasis (small_ops (field_of k.now)) (small_laws (field_of k.now)) a.now.dim at.now.order }
    requires order { SpanOrder (fractions_over (field_of k.now)) a.now
        (IsIntegralAt (small_ops (field_of k.now)) (Finite at.now.place))
        (tuples_of (small_ops (field_of k.now)) (small_laws (field_of k.now)) at.now.order) }
    requires ideal { IsBasis (small_ops (field_of k.now)) (small_laws (field_of k.now)) a.now.dim ideal.now }
    ensures { IfOk result (λ r. IsTrue r ↔ SpansIdealOver (small_ops (field_of k.now)) (small_laws (field_of k.now))
        (IsIntegralAt (small_ops (field_of k.now)) (Finite at.now.place)) a.now at.now.place
        (tuples_of (small_ops (field_of k.now)) (small_laws (field_of k.now)) at.now.order)
        (tuples_of (small_ops (field_of k.now)) (small_laws (field_of k.now)) ideal.now)) }
{
    let place = &at.place;
    let order = &at.order;
    let inside = is_within_at(alloc, k, ideal, order, place)?;
    let over = is_multiple_within_at(alloc, k, place, order, ideal, place)?;
    let left = are_products_within_at(alloc, k, a, order, ideal, ideal, place)?;
    let right = are_products_within_at(alloc, k, a, ideal, order, ideal, place)?;
    Ok(all_of(inside, over, left, right))
}

/// The basis of a two-sided ideal of the order at the place, which holds the multiples of the order by the place's
/// polynomial.
fn ideal_at(
    alloc: Global,
    k: &Fractions,
    a: &Algebra<Fractions>,
    at: &OrderAt,
    n: &str,
) -> Result<Basis, Fault>
    requires over { IsOver (fractions_over (field_of k.now)) a.now }
    requires place { IsMonicIrreducible (small_ops (field_of k.now)) at.now.place }
    requires basis { IsBasis (small_ops (field_of k.now)) (small_laws (field_of k.now)) a.now.dim at.now.order }
    requires order { SpanOrder (fractions_over (field_of k.now)) a.now
        (IsIntegralAt (small_ops (field_of k.now)) (Finite at.now.place))
        (tuples_of (small_ops (field_of k.now)) (small_laws (field_of k.now)) at.now.order) }
    ensures basis { IfOk result (IsBasis (small_ops (field_of k.now)) (small_laws (field_of k.now)) a.now.dim) }
    ensures ideal { IfOk result (λ r. SpansIdealOver (small_ops (field_of k.now)) (small_laws (field_of k.now))
        (IsIntegralAt (small_ops (field_of k.now)) (Finite at.now.place)) a.now at.now.place
        (tuples_of (small_ops (field_of k.now)) (small_laws (field_of k.now)) at.now.order)
        (tuples_of (small_ops (field_of k.now)) (small_laws (field_of k.now)) r)) }
{
    let ideal = bases::basis(alloc, k, a.dim(), n)?;
    if !is_ideal_at(alloc, k, a, at, &ideal)? {
        return Err(Fault::BadLine);
    }
    Ok(ideal)
}

/// Whether a lattice is the expected one over the polynomials, and whether it is at the place.
fn show_lattice(
    alloc: Global,
    k: &Fractions,
    n: usize,
    lattice: &Basis,
    expected: &str,
    place: &Poly,
    out: &mut Vec<u8>,
) -> Result<(), Fault>
    requires lattice { IsBasis (small_ops (field_of k.now)) (small_laws (field_of k.now)) n lattice.now }
    requires place { IsMonicIrreducible (small_ops (field_of k.now)) place.now }
{
    let expected = bases::basis(alloc, k, n, expected)?;
    show::truth(out, bases::is_same(alloc, k, n, lattice, &expected)?)?;
    show::truth(
        out,
        bases::is_same_at(alloc, k, n, lattice, &expected, place)?,
    )
}

/// `is_order_at A M PLACE`: whether the lattice of the rows of M at the place, which may be `infinity`, is an order of A.
fn is_order(
    alloc: Global,
    k: &Fractions,
    algebra: &str,
    m: &str,
    place: &str,
    out: &mut Vec<u8>,
) -> Result<(), Fault> {
    let a = lists::algebra(alloc, k, algebra)?;
    let order = bases::basis(alloc, k, a.dim(), m)?;
    let place = places::place(alloc, k, place)?;
    show::truth(out, is_order_at(alloc, k, &a, &order, &place)?)
}

/// `residue_algebra A M P`: of the order with the basis M modulo the finite place P: the dimension and the products.
fn residue_products(
    alloc: Global,
    k: &Fractions,
    algebra: &str,
    m: &str,
    place: &str,
    out: &mut Vec<u8>,
) -> Result<(), Fault> {
    let a = lists::algebra(alloc, k, algebra)?;
    let at = order_at(alloc, k, &a, m, place)?;
    let residue = residue_algebra(alloc, k, &a, &at.order, &at.place)?;
    algebras::products(alloc, &residue.field, &residue.algebra, out)
}

/// `left_order A M N P L`, where M is the basis of an order at P, and N that of a two-sided ideal of it which holds its
/// multiples by P: whether the left order of the ideal has the lattice of the rows of L over the polynomials, and at P.
fn left(
    alloc: Global,
    k: &Fractions,
    algebra: &str,
    words: [&str; 4],
    out: &mut Vec<u8>,
) -> Result<(), Fault> {
    let [m, n, place, expected] = words;
    let a = central::with_identity(alloc, k, algebra)?;
    let at = order_at(alloc, k, &a.algebra, m, place)?;
    let ideal = ideal_at(alloc, k, &a.algebra, &at, n)?;
    let left = left_order::left_order(alloc, k, &a.algebra, &at.order, &ideal, &at.place)?;
    show_lattice(alloc, k, a.algebra.dim(), &left, expected, &at.place, out)
}

/// The two-sided ideal of an order modulo a place that the rows generate.
fn generated(alloc: Global, residue: &Residue, rows: &str) -> Result<Subspace<ResidueField>, Fault>
    requires { IsOver (residue_ops residue.now.field) residue.now.algebra }
    ensures basis { IfOk result (IsSubspace (residue_ops residue.now.field)) }
    ensures width { IfOk result (λ s. s.width ≡ residue.now.algebra.dim) }
    ensures ideal { IfOk result (λ s. SpansIdeal (residue_ops residue.now.field) residue.now.algebra s.rows) }
{
    let by = lists::space(alloc, &residue.field, residue.algebra.dim(), rows)?;
    Ok(residue.algebra.ideal_generated(alloc, &residue.field, &by)?)
}

/// `lift_ideal A M P V L`: whether the preimage in the order with the basis M of the ideal that the rows of V generate
/// modulo P has the lattice of the rows of L over the polynomials, and at P.
fn lift(
    alloc: Global,
    k: &Fractions,
    algebra: &str,
    words: [&str; 4],
    out: &mut Vec<u8>,
) -> Result<(), Fault> {
    let [m, place, rows, expected] = words;
    let a = central::with_identity(alloc, k, algebra)?;
    let at = order_at(alloc, k, &a.algebra, m, place)?;
    let residue = residue_algebra(alloc, k, &a.algebra, &at.order, &at.place)?;
    let ideal = generated(alloc, &residue, rows)?;
    let preimage = lift_ideal::lift_ideal(alloc, k, &at.order, &residue, &ideal)?;
    show_lattice(
        alloc,
        k,
        a.algebra.dim(),
        &preimage,
        expected,
        &at.place,
        out,
    )
}

/// `power_in_place A M P V`: whether some power of the ideal that the rows of V generate in the order with the basis M
/// modulo P is 0.
fn power(
    alloc: Global,
    k: &Fractions,
    algebra: &str,
    m: &str,
    place: &str,
    rows: &str,
    out: &mut Vec<u8>,
) -> Result<(), Fault> {
    let a = central::with_identity(alloc, k, algebra)?;
    let at = order_at(alloc, k, &a.algebra, m, place)?;
    let residue = residue_algebra(alloc, k, &a.algebra, &at.order, &at.place)?;
    let ideal = generated(alloc, &residue, rows)?;
    show::truth(out, powers::power_in_place(alloc, &residue, &ideal)?)
}

/// A fraction that is integral at the place.
fn integral(alloc: Global, k: &Fractions, place: &Poly, word: &str) -> Result<Fraction, Fault>
    requires { IsMonicIrreducible (small_ops (field_of k.now)) place.now }
    ensures elem { IfOk result (IsElem (fractions_over (field_of k.now))) }
    ensures integral { IfOk result (IsIntegralAt (small_ops (field_of k.now)) (Finite place.now)) }
{
    let a = args::fraction(alloc, k, word)?;
    let division = a.denominator().divide(alloc, k.field(), place)?;
    if division.remainder.is_zero() {
        return Err(Fault::BadLine);
    }
    Ok(a)
}

/// `reduce F P`: the residue of a fraction that is integral at P.
fn reduce(
    alloc: Global,
    k: &Fractions,
    a: &str,
    place: &str,
    out: &mut Vec<u8>,
) -> Result<(), Fault> {
    let place = places::finite(alloc, k, place)?;
    let a = integral(alloc, k, &place, a)?;
    let Some(field) = ResidueField::new(alloc, k.field(), &place)? else {
        return Err(Fault::BadLine);
    };
    let residue = reduction::reduce(alloc, k, &field, &a)?;
    show::element(alloc, out, &field, &residue)
}

/// What a settled order is, whether it has the expected lattice at the place, and, where it is ramified, whether its
/// radical has.
fn show_settled(
    alloc: Global,
    k: &Fractions,
    a: &Algebra<Fractions>,
    found: &Settled,
    place: &Poly,
    order: &str,
    radical: &str,
    out: &mut Vec<u8>,
) -> Result<(), Fault>
    requires place { IsMonicIrreducible (small_ops (field_of k.now)) place.now }
    requires order { IsBasis (small_ops (field_of k.now)) (small_laws (field_of k.now)) a.now.dim found.now.order }
    requires state { IsState (field_of k.now) a.now place.now found.now.order found.now.state }
{
    let n = a.dim();
    let expected = bases::basis(alloc, k, n, order)?;
    let same = bases::is_same_at(alloc, k, n, &found.order, &expected, place)?;
    match &found.state {
        State::Unimodular => {
            show::word(out, "unimodular")?;
            show::truth(out, same)
        }
        State::Ramified { radical: j } => {
            show::word(out, "ramified")?;
            show::truth(out, same)?;
            let expected = bases::basis(alloc, k, n, radical)?;
            show::truth(out, bases::is_same_at(alloc, k, n, j, &expected, place)?)
        }
    }
}

/// `settle A P L R`, where A is central with a nondegenerate trace form: of the first order after growth at P:
/// `unimodular` or `ramified`, whether it has the lattice of the rows of L at P, and, where it is ramified, whether its
/// radical has that of the rows of R there.
fn settle(
    alloc: Global,
    k: &Fractions,
    algebra: &str,
    words: [&str; 3],
    out: &mut Vec<u8>,
) -> Result<(), Fault> {
    let [place, order, radical] = words;
    let a = central::with_small_centre(alloc, k, algebra)?;
    let place = places::finite(alloc, k, place)?;
    let first = start::start_order(alloc, k, &a.algebra, &a.one)?;
    let found = settle::settle(alloc, k, &a.algebra, &first, &place)?;
    show_settled(alloc, k, &a.algebra, &found, &place, order, radical, out)
}

/// The answer of a call on orders at places.
pub(crate) fn call(
    alloc: Global,
    k: &Fractions,
    call: &str,
    words: &[&str],
    out: &mut Vec<u8>,
) -> Result<(), Fault> {
    match (call, words) {
        ("is_order_at", [algebra, m, place]) => is_order(alloc, k, algebra, m, place, out),
        ("residue_algebra", [algebra, m, place]) => {
            residue_products(alloc, k, algebra, m, place, out)
        }
        ("left_order", [algebra, m, n, place, l]) => left(alloc, k, algebra, [m, n, place, l], out),
        ("lift_ideal", [algebra, m, place, v, l]) => lift(alloc, k, algebra, [m, place, v, l], out),
        ("power_in_place", [algebra, m, place, v]) => power(alloc, k, algebra, m, place, v, out),
        ("reduce", [a, place]) => reduce(alloc, k, a, place, out),
        ("settle", [algebra, place, l, r]) => settle(alloc, k, algebra, [place, l, r], out),
        _ => Err(Fault::BadLine),
    }
}
