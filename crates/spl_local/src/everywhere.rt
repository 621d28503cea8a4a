// Growth of first orders at all places, one after the other.
ghost use Rattle.std.specs.Prelude.{◌≡◌, ◌≢◌, ◌%◌, ℕ, IfOk};
ghost use Rattle.theory_tables.specs.Structure.{IsOver, IsAssociative};
ghost use Rattle.theory_tables.specs.Algebras.{HasSmallCentre, IsIdentity};
ghost use Rattle.theory_tables.specs.Traces.{IsNondegenerate};
ghost use Rattle.theory_places.specs.FractionPlaces.{IsMonicIrreducible};
ghost use Rattle.theory_bases.specs.TupleLattices.{SpanOrder};
ghost use Rattle.theory_bases.specs.Bases.{IsBasis, IsPolynomialFraction};
ghost use Rattle.spl_field.specs.SmallField.{small_ops, small_laws, characteristic};
ghost use Rattle.spl_factor.specs.Factorisation.{AreFactors};
ghost use Rattle.spl_fraction.specs.Fractions.{field_of};
ghost use Rattle.spl_fraction.specs.FractionsOver.{fractions_over};
ghost use Rattle.spl_fraction.specs.declared.place.Place.TheVariants.{Infinity};
ghost use Rattle.spl_local.specs.Growth.{small_tuples};
ghost use Rattle.spl_local.specs.Everywhere.{IsEverywhere, IsAtFinitePlaces, IsSettledAt, IsUnimodularOff};
ghost use Rattle.spl_local.specs.Everywhere.{IsStateAtInfinity, HoldsStartsAt, HoldFirstOrders, HoldsFiniteStarts};
ghost use Rattle.spl_local.specs.Everywhere.{HoldsLattice, IsSettledAtX, AreSwapped, HasBasis, joined};

use crate::settle::{Settled, State, settle};
use spl_algebra::algebra::Algebra;
use spl_factor::factors::factor;
use spl_field::field::NoMemory;
use spl_fraction::field::Fractions;
use spl_fraction::place::Place;
use spl_fraction::tuples::Tuple;
use spl_order::bad_places::bad_places;
use spl_order::basis::Basis;
use spl_order::start::start_order;
use spl_order::swap::{swap_algebra, swap_order, swapped_tuple};
use spl_poly::order::order_law;
use spl_poly::poly::Poly;
use std::alloc::Global;

/// Bases of orders that are their own duals for the trace at all places, one over the polynomials and one at infinity;
/// or else the first place that is ramified, with bases of an order and of its radical there.
#[derive(Drop)]
pub enum Everywhere {
    Ramified {
        place: Place,
        order: Basis,
        radical: Basis,
    },
    Unimodular {
        finite: Basis,
        infinite: Basis,
    },
}

/// The same of finite places alone.
#[derive(Drop)]
pub(crate) enum FinitePlaces {
    Ramified {
        place: Poly,
        order: Basis,
        radical: Basis,
    },
    Unimodular {
        order: Basis,
    },
}

/// Growth of an order at one finite place.
fn settle_at(
    alloc: Global,
    f: &Fractions,
    a: &Algebra<Fractions>,
    order: &Basis,
    place: &Poly,
) -> Result<FinitePlaces, NoMemory>
    requires over { IsOver (fractions_over (field_of f.now)) a.now }
    requires associative { IsAssociative (fractions_over (field_of f.now)) a.now }
    requires centre { HasSmallCentre (fractions_over (field_of f.now)) a.now }
    requires form { IsNondegenerate (fractions_over (field_of f.now)) a.now }
    requires apart { a.now.dim % characteristic (field_of f.now) ≢ 0 }
    requires place { IsMonicIrreducible (small_ops (field_of f.now)) place.now }
    requires basis { IsBasis (small_ops (field_of f.now)) (small_laws (field_of f.now)) a.now.dim order.now }
    requires order { SpanOrder (fractions_over (field_of f.now)) a.now
        (IsPolynomialFraction (small_ops (field_of f.now))) (small_tuples (field_of f.now) order.now) }
    ensures { IfOk result (IsSettledAt (field_of f.now) a.now place.now order.now) }
{
    let Settled {
        order: larger,
        state,
    } = settle(alloc, f, a, order, place)?;
    match state {
        State::Unimodular => Ok(FinitePlaces::Unimodular { order: larger }),
        State::Ramified { radical } => {
            let place = place.copy(alloc, f.field())?;
            Ok(FinitePlaces::Ramified {
                place,
                order: larger,
                radical,
            })
        }
    }
}

/// Growth of an order at each of the factors, in their order, until one is ramified, where the order is its own dual at
/// all other finite places.
fn settle_factors(
    alloc: Global,
    f: &Fractions,
    a: &Algebra<Fractions>,
    order: &Basis,
    factors: &[(Poly, usize)],
) -> Result<FinitePlaces, NoMemory>
    requires over { IsOver (fractions_over (field_of f.now)) a.now }
    requires associative { IsAssociative (fractions_over (field_of f.now)) a.now }
    requires centre { HasSmallCentre (fractions_over (field_of f.now)) a.now }
    requires form { IsNondegenerate (fractions_over (field_of f.now)) a.now }
    requires apart { a.now.dim % characteristic (field_of f.now) ≢ 0 }
    requires basis { IsBasis (small_ops (field_of f.now)) (small_laws (field_of f.now)) a.now.dim order.now }
    requires order { SpanOrder (fractions_over (field_of f.now)) a.now
        (IsPolynomialFraction (small_ops (field_of f.now))) (small_tuples (field_of f.now) order.now) }
    requires factors { AreFactors (small_ops (field_of f.now)) factors.now }
    requires off { IsUnimodularOff (field_of f.now) a.now 0 factors.now order.now }
    ensures places { IfOk result (IsAtFinitePlaces (field_of f.now) a.now) }
    ensures holds { IfOk result (HoldsLattice (field_of f.now) a.now order.now) }
{
    order_law();
    let mut grown = order.copy(alloc, f)?;
    for i in 0..factors.len() {
        match settle_at(alloc, f, a, &grown, &factors[i].0)? {
            FinitePlaces::Unimodular { order: larger } => {
                grown = larger;
            }
            FinitePlaces::Ramified {
                place,
                order: larger,
                radical,
            } => {
                return Ok(FinitePlaces::Ramified {
                    place,
                    order: larger,
                    radical,
                });
            }
        }
    }
    Ok(FinitePlaces::Unimodular { order: grown })
}

/// Growth of a first order over the polynomials at the finite places, in their order, until one is ramified.
fn settle_finite(
    alloc: Global,
    f: &Fractions,
    a: &Algebra<Fractions>,
    one: &Tuple,
) -> Result<FinitePlaces, NoMemory>
    requires over { IsOver (fractions_over (field_of f.now)) a.now }
    requires associative { IsAssociative (fractions_over (field_of f.now)) a.now }
    requires one { IsIdentity (fractions_over (field_of f.now)) a.now one.now }
    requires centre { HasSmallCentre (fractions_over (field_of f.now)) a.now }
    requires form { IsNondegenerate (fractions_over (field_of f.now)) a.now }
    requires apart { a.now.dim % characteristic (field_of f.now) ≢ 0 }
    ensures places { IfOk result (IsAtFinitePlaces (field_of f.now) a.now) }
    ensures first { IfOk result (HoldsFiniteStarts (field_of f.now) a.now one.now) }
{
    let start = start_order(alloc, f, a, one)?;
    let bad = bad_places(alloc, f, a, &start)?;
    let factors = factor(alloc, f.field(), &bad)?;
    let found = settle_factors(alloc, f, a, &start, factors.list.as_slice())?;
    Ok(found)
}

/// Growth of a first order over the polynomials at the place x.
fn settle_at_x(
    alloc: Global,
    f: &Fractions,
    a: &Algebra<Fractions>,
    one: &Tuple,
) -> Result<Settled, NoMemory>
    requires over { IsOver (fractions_over (field_of f.now)) a.now }
    requires associative { IsAssociative (fractions_over (field_of f.now)) a.now }
    requires one { IsIdentity (fractions_over (field_of f.now)) a.now one.now }
    requires centre { HasSmallCentre (fractions_over (field_of f.now)) a.now }
    requires form { IsNondegenerate (fractions_over (field_of f.now)) a.now }
    requires apart { a.now.dim % characteristic (field_of f.now) ≢ 0 }
    ensures { IfOk result (λ r. IsSettledAtX (field_of f.now) a.now one.now r.order r.state) }
{
    let start = start_order(alloc, f, a, one)?;
    let x = Poly::from_slice(alloc, &[0, 1])?;
    let found = settle(alloc, f, a, &start, &x)?;
    Ok(found)
}

/// What an order is at its place, with 1/x put for x.
fn swapped_state(alloc: Global, f: &Fractions, n: usize, state: &State) -> Result<State, NoMemory>
    requires { HasBasis (field_of f.now) n state.now }
    ensures { IfOk result (AreSwapped (field_of f.now) state.now) }
{
    let _ = n;
    match state {
        State::Unimodular => Ok(State::Unimodular),
        State::Ramified { radical } => {
            let radical = swap_order(alloc, f, radical)?;
            Ok(State::Ramified { radical })
        }
    }
}

/// Growth of a first order at infinity: that of the algebra with 1/x put for x at the place x, with 1/x put for x
/// again.
fn settle_at_infinity(
    alloc: Global,
    f: &Fractions,
    a: &Algebra<Fractions>,
    one: &Tuple,
) -> Result<Settled, NoMemory>
    requires over { IsOver (fractions_over (field_of f.now)) a.now }
    requires associative { IsAssociative (fractions_over (field_of f.now)) a.now }
    requires one { IsIdentity (fractions_over (field_of f.now)) a.now one.now }
    requires centre { HasSmallCentre (fractions_over (field_of f.now)) a.now }
    requires form { IsNondegenerate (fractions_over (field_of f.now)) a.now }
    requires apart { a.now.dim % characteristic (field_of f.now) ≢ 0 }
    ensures basis { IfOk result (λ r.
        IsBasis (small_ops (field_of f.now)) (small_laws (field_of f.now)) a.now.dim r.order) }
    ensures state { IfOk result (λ r. IsStateAtInfinity (field_of f.now) a.now r.order r.state) }
    ensures first { IfOk result (λ r. HoldsStartsAt (field_of f.now) a.now one.now Infinity r.order) }
{
    let b = swap_algebra(alloc, f, a)?;
    let swapped = swapped_tuple(alloc, f, one.as_slice())?;
    let found = settle_at_x(alloc, f, &b, &swapped)?;
    let order = swap_order(alloc, f, &found.order)?;
    let state = swapped_state(alloc, f, b.dim(), &found.state)?;
    Ok(Settled { order, state })
}

/// The answer by an order over the polynomials that is its own dual at all finite places, and one at infinity.
fn with_infinity(finite: Basis, order: Basis, state: State) -> Everywhere
    ensures { result ≡ joined finite order state }
{
    match state {
        State::Unimodular => Everywhere::Unimodular {
            finite,
            infinite: order,
        },
        State::Ramified { radical } => Everywhere::Ramified {
            place: Place::Infinity,
            order,
            radical,
        },
    }
}

/// Growth of first orders at all places, in an algebra whose centre is the multiples of its identity and whose trace
/// form is nondegenerate, in a characteristic that does not divide the dimension: a first order over the polynomials
/// grows at the finite places where it is not its own dual for the trace, in the order of their polynomials, and then
/// one at infinity, each until nothing grows, and up to the first place that is ramified. The orders hold the first
/// orders. The one fault is want of memory. (Reiner, Maximal Orders, sections 8, 25 and 39.)
pub fn settle_everywhere(
    alloc: Global,
    f: &Fractions,
    a: &Algebra<Fractions>,
    one: &Tuple,
) -> Result<Everywhere, NoMemory>
    requires over { IsOver (fractions_over (field_of f.now)) a.now }
    requires associative { IsAssociative (fractions_over (field_of f.now)) a.now }
    requires one { IsIdentity (fractions_over (field_of f.now)) a.now one.now }
    requires centre { HasSmallCentre (fractions_over (field_of f.now)) a.now }
    requires form { IsNondegenerate (fractions_over (field_of f.now)) a.now }
    requires apart { a.now.dim % characteristic (field_of f.now) ≢ 0 }
    ensures everywhere { IfOk result (IsEverywhere (field_of f.now) a.now) }
    ensures first { IfOk result (HoldFirstOrders (field_of f.now) a.now one.now) }
{
    match settle_finite(alloc, f, a, one)? {
        FinitePlaces::Ramified {
            place,
            order,
            radical,
        } => Ok(Everywhere::Ramified {
            place: Place::Finite { poly: place },
            order,
            radical,
        }),
        FinitePlaces::Unimodular { order: finite } => {
            let Settled { order, state } = settle_at_infinity(alloc, f, a, one)?;
            Ok(with_infinity(finite, order, state))
        }
    }
}
