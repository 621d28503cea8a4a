// The check of the tuples of an order and its radical at a place: the first of the conditions that fails.
ghost use Rattle.std.specs.Prelude.{◌≡◌, ℕ, List, length, IfOk};
ghost use Rattle.spl_field.specs.SmallField.{small_ops, small_laws};
ghost use Rattle.spl_fraction.specs.Fractions.{field_of};
ghost use Rattle.spl_fraction.specs.FractionsOver.{fractions_over};
ghost use Rattle.theory_fractions.specs.PolynomialLists as polynomials;
ghost use Rattle.theory_tables.specs.Matrix.{IsMatrix};
ghost use Rattle.theory_tables.specs.Structure.{IsOver, IsAssociative};
ghost use Rattle.theory_tables.specs.Algebras.{IsIdentity};
ghost use Rattle.theory_places.specs.Places.{Infinite};
ghost use Rattle.theory_places.specs.FractionPlaces.{IsPlace};
ghost use Rattle.spl_fraction.specs.declared.place.Place.TheVariants.{Finite};
ghost use Rattle.spl_fraction.specs.Place.{place_of};
ghost use Rattle.spl_ramified.specs.Faults.{IsFirstFault, tuple_conditions, identity_conditions, algebra_conditions};
ghost use Rattle.spl_ramified.specs.Faults.{ramified_conditions};

use crate::fault::RamifiedFault;
use crate::order_fault::tuple_fault;
use crate::place::is_place;
use spl_algebra::algebra::Algebra;
use spl_algebra::identity::One;
use spl_centre::centre::identity_or_refutation;
use spl_field::field::NoMemory;
use spl_fraction::field::Fractions;
use spl_fraction::place::Place;
use spl_fraction::tuples::{Tuple, Tuples};
use spl_numerators::triple::first_failed_triple;
use spl_order::swap::{swap_algebra, swapped_tuple, swapped_tuples};
use spl_poly::poly::Poly;
use std::alloc::Global;

/// The first condition on the tuples that fails at infinity: that of the tuples with 1/x put for x at the place x.
fn fault_at_infinity(
    alloc: Global,
    f: &Fractions,
    a: &Algebra<Fractions>,
    one: &Tuple,
    order: &Tuples,
    radical: &Tuples,
) -> Result<Option<RamifiedFault>, NoMemory>
    requires over { IsOver (fractions_over (field_of f.now)) a.now }
    requires associative { IsAssociative (fractions_over (field_of f.now)) a.now }
    requires one { IsIdentity (fractions_over (field_of f.now)) a.now one.now }
    requires order_count { length order.now ≡ a.now.dim }
    requires order { IsMatrix (fractions_over (field_of f.now)) a.now.dim order.now }
    requires radical_count { length radical.now ≡ a.now.dim }
    requires radical { IsMatrix (fractions_over (field_of f.now)) a.now.dim radical.now }
    ensures { IfOk result (IsFirstFault (tuple_conditions (small_ops (field_of f.now)) (small_laws (field_of f.now))
        a.now Infinite order.now radical.now)) }
{
    let algebra = swap_algebra(alloc, f, a)?;
    let one = swapped_tuple(alloc, f, one.as_slice())?;
    let order = swapped_tuples(alloc, f, order.as_slice())?;
    let radical = swapped_tuples(alloc, f, radical.as_slice())?;
    let place = Poly::from_slice(alloc, &[0, 1])?;
    let fault = tuple_fault(alloc, f, &algebra, &one, &order, &radical, &place)?;
    Ok(fault)
}

/// The first condition on the tuples that fails, in an associative algebra with this identity.
fn fault_at_place(
    alloc: Global,
    f: &Fractions,
    a: &Algebra<Fractions>,
    one: &Tuple,
    place: &Place,
    order: &Tuples,
    radical: &Tuples,
) -> Result<Option<RamifiedFault>, NoMemory>
    requires over { IsOver (fractions_over (field_of f.now)) a.now }
    requires associative { IsAssociative (fractions_over (field_of f.now)) a.now }
    requires one { IsIdentity (fractions_over (field_of f.now)) a.now one.now }
    requires place { IsPlace (small_ops (field_of f.now)) (place_of place.now) }
    requires order_count { length order.now ≡ a.now.dim }
    requires order { IsMatrix (fractions_over (field_of f.now)) a.now.dim order.now }
    requires radical_count { length radical.now ≡ a.now.dim }
    requires radical { IsMatrix (fractions_over (field_of f.now)) a.now.dim radical.now }
    ensures { IfOk result (IsFirstFault (tuple_conditions (small_ops (field_of f.now)) (small_laws (field_of f.now))
        a.now (place_of place.now) order.now radical.now)) }
{
    match place {
        Place::Finite { poly } => tuple_fault(alloc, f, a, one, order, radical, poly),
        Place::Infinity => fault_at_infinity(alloc, f, a, one, order, radical),
    }
}

/// The first condition that fails in an associative algebra.
fn identity_fault(
    alloc: Global,
    f: &Fractions,
    a: &Algebra<Fractions>,
    place: &Place,
    order: &Tuples,
    radical: &Tuples,
) -> Result<Option<RamifiedFault>, NoMemory>
    requires over { IsOver (fractions_over (field_of f.now)) a.now }
    requires associative { IsAssociative (fractions_over (field_of f.now)) a.now }
    requires place { IsPlace (small_ops (field_of f.now)) (place_of place.now) }
    requires order_count { length order.now ≡ a.now.dim }
    requires order { IsMatrix (fractions_over (field_of f.now)) a.now.dim order.now }
    requires radical_count { length radical.now ≡ a.now.dim }
    requires radical { IsMatrix (fractions_over (field_of f.now)) a.now.dim radical.now }
    ensures { IfOk result (IsFirstFault (identity_conditions (small_ops (field_of f.now)) (small_laws (field_of f.now))
        a.now (place_of place.now) order.now radical.now)) }
{
    match identity_or_refutation(alloc, f, a)? {
        One::Here { tuple } => {
            let fault = fault_at_place(alloc, f, a, &tuple, place, order, radical)?;
            Ok(fault)
        }
        One::Refuted { .. } => Ok(Some(RamifiedFault::NoIdentity)),
    }
}

/// The first condition that fails at a place.
fn algebra_fault(
    alloc: Global,
    f: &Fractions,
    a: &Algebra<Fractions>,
    place: &Place,
    order: &Tuples,
    radical: &Tuples,
) -> Result<Option<RamifiedFault>, NoMemory>
    requires over { IsOver (fractions_over (field_of f.now)) a.now }
    requires place { IsPlace (small_ops (field_of f.now)) (place_of place.now) }
    requires order_count { length order.now ≡ a.now.dim }
    requires order { IsMatrix (fractions_over (field_of f.now)) a.now.dim order.now }
    requires radical_count { length radical.now ≡ a.now.dim }
    requires radical { IsMatrix (fractions_over (field_of f.now)) a.now.dim radical.now }
    ensures { IfOk result (IsFirstFault (algebra_conditions (small_ops (field_of f.now)) (small_laws (field_of f.now))
        a.now (place_of place.now) order.now radical.now)) }
{
    match first_failed_triple(alloc, f, a)? {
        Some(_) => Ok(Some(RamifiedFault::NotAssociative)),
        None => {
            let fault = identity_fault(alloc, f, a, place, order, radical)?;
            Ok(fault)
        }
    }
}

/// The first of the conditions on the tuples of an order Λ and of its radical J at a place that fails, in the order of
/// `RamifiedFault`; None exactly where all hold, and then the place is ramified in the algebra with this order and this
/// radical. What holds at infinity is tested at the place x, where 1/x is put for x. The one fault is want of memory.
/// (Reiner, Maximal Orders, section 39.)
pub fn first_fault(
    alloc: Global,
    f: &Fractions,
    a: &Algebra<Fractions>,
    place: &Place,
    order: &Tuples,
    radical: &Tuples,
) -> Result<Option<RamifiedFault>, NoMemory>
    requires over { IsOver (fractions_over (field_of f.now)) a.now }
    requires place { (p : List ℕ) → place.now ≡ Finite p → polynomials.IsOver (small_ops (field_of f.now)) p }
    requires order_count { length order.now ≡ a.now.dim }
    requires order { IsMatrix (fractions_over (field_of f.now)) a.now.dim order.now }
    requires radical_count { length radical.now ≡ a.now.dim }
    requires radical { IsMatrix (fractions_over (field_of f.now)) a.now.dim radical.now }
    ensures { IfOk result (IsFirstFault (ramified_conditions (small_ops (field_of f.now)) (small_laws (field_of f.now))
        a.now (place_of place.now) order.now radical.now)) }
{
    if !is_place(alloc, f.field(), place)? {
        return Ok(Some(RamifiedFault::NoPlace));
    }
    let fault = algebra_fault(alloc, f, a, place, order, radical)?;
    Ok(fault)
}
