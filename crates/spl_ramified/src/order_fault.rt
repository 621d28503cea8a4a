// The conditions on the tuples of an order at a finite place, and behind them those on the tuples of its radical.
ghost use Rattle.std.specs.Prelude.{◌≡◌, ◌↔◌, length, IfOk, IsTrue};
ghost use Rattle.spl_field.specs.SmallField.{small_ops, small_laws};
ghost use Rattle.spl_fraction.specs.Fractions.{field_of};
ghost use Rattle.spl_fraction.specs.FractionsOver.{fractions_over};
ghost use Rattle.theory_tables.specs.Matrix.{IsMatrix};
ghost use Rattle.theory_tables.specs.Structure.{IsOver, IsAssociative};
ghost use Rattle.theory_tables.specs.Algebras.{IsIdentity};
ghost use Rattle.theory_places.specs.Places.{Finite};
ghost use Rattle.theory_places.specs.FractionPlaces.{IsIntegralAt, IsMonicIrreducible};
ghost use Rattle.theory_bases.specs.TupleLattices.{SpanOrder};
ghost use Rattle.theory_bases.specs.Bases.{IsBasis, tuples_of};
ghost use Rattle.theory_ramified.specs.Conditions.{HoldsIdentity};
ghost use Rattle.spl_ramified.specs.Faults.{IsFirstFault, radical_conditions, order_conditions, tuple_conditions};

use crate::fault::RamifiedFault;
use crate::radical_fault::lattice_fault;
use spl_algebra::algebra::Algebra;
use spl_field::field::NoMemory;
use spl_fraction::field::Fractions;
use spl_fraction::tuples::{Tuple, Tuples};
use spl_order::basis::Basis;
use spl_order::members_at::holds_at;
use spl_order::orders_at::are_products_within_at;
use spl_poly::poly::Poly;
use std::alloc::Global;

/// The first condition on the tuples of the radical of an order that fails.
fn radical_fault(
    alloc: Global,
    f: &Fractions,
    a: &Algebra<Fractions>,
    order: &Basis,
    radical: &Tuples,
    place: &Poly,
) -> Result<Option<RamifiedFault>, NoMemory>
    requires over { IsOver (fractions_over (field_of f.now)) a.now }
    requires associative { IsAssociative (fractions_over (field_of f.now)) a.now }
    requires place { IsMonicIrreducible (small_ops (field_of f.now)) place.now }
    requires basis { IsBasis (small_ops (field_of f.now)) (small_laws (field_of f.now)) a.now.dim order.now }
    requires order { SpanOrder (fractions_over (field_of f.now)) a.now
        (IsIntegralAt (small_ops (field_of f.now)) (Finite place.now))
        (tuples_of (small_ops (field_of f.now)) (small_laws (field_of f.now)) order.now) }
    requires radical_count { length radical.now ≡ a.now.dim }
    requires radical { IsMatrix (fractions_over (field_of f.now)) a.now.dim radical.now }
    ensures { IfOk result (IsFirstFault (radical_conditions (small_ops (field_of f.now)) (small_laws (field_of f.now))
        a.now (Finite place.now) (tuples_of (small_ops (field_of f.now)) (small_laws (field_of f.now)) order.now)
        radical.now)) }
{
    match Basis::of(alloc, f, radical)? {
        None => Ok(Some(RamifiedFault::RadicalDependent)),
        Some(basis) => {
            let fault = lattice_fault(alloc, f, a, order, &basis, place)?;
            Ok(fault)
        }
    }
}

/// Whether the lattice of a basis at the place holds the identity, which is handed in.
fn holds_identity(
    alloc: Global,
    f: &Fractions,
    a: &Algebra<Fractions>,
    one: &Tuple,
    order: &Basis,
    place: &Poly,
) -> Result<bool, NoMemory>
    requires over { IsOver (fractions_over (field_of f.now)) a.now }
    requires one { IsIdentity (fractions_over (field_of f.now)) a.now one.now }
    requires place { IsMonicIrreducible (small_ops (field_of f.now)) place.now }
    requires basis { IsBasis (small_ops (field_of f.now)) (small_laws (field_of f.now)) a.now.dim order.now }
    ensures { IfOk result (λ r. IsTrue r ↔ HoldsIdentity (small_ops (field_of f.now)) (small_laws (field_of f.now))
        a.now (Finite place.now) (tuples_of (small_ops (field_of f.now)) (small_laws (field_of f.now)) order.now)) }
{
    let _ = a.constants();
    let held = holds_at(alloc, f, order, one.as_slice(), place)?;
    Ok(held)
}

/// The first condition that fails from those on the lattice of the order on.
fn order_fault(
    alloc: Global,
    f: &Fractions,
    a: &Algebra<Fractions>,
    one: &Tuple,
    order: &Basis,
    radical: &Tuples,
    place: &Poly,
) -> Result<Option<RamifiedFault>, NoMemory>
    requires over { IsOver (fractions_over (field_of f.now)) a.now }
    requires associative { IsAssociative (fractions_over (field_of f.now)) a.now }
    requires one { IsIdentity (fractions_over (field_of f.now)) a.now one.now }
    requires place { IsMonicIrreducible (small_ops (field_of f.now)) place.now }
    requires basis { IsBasis (small_ops (field_of f.now)) (small_laws (field_of f.now)) a.now.dim order.now }
    requires radical_count { length radical.now ≡ a.now.dim }
    requires radical { IsMatrix (fractions_over (field_of f.now)) a.now.dim radical.now }
    ensures { IfOk result (IsFirstFault (order_conditions (small_ops (field_of f.now)) (small_laws (field_of f.now))
        a.now (Finite place.now) (tuples_of (small_ops (field_of f.now)) (small_laws (field_of f.now)) order.now)
        radical.now)) }
{
    if !holds_identity(alloc, f, a, one, order, place)? {
        return Ok(Some(RamifiedFault::OrderWithoutIdentity));
    }
    if !are_products_within_at(alloc, f, a, order, order, order, place)? {
        return Ok(Some(RamifiedFault::OrderNotClosed));
    }
    let fault = radical_fault(alloc, f, a, order, radical, place)?;
    Ok(fault)
}

/// The first condition on the tuples that fails at a finite place, in an associative algebra with this identity. The
/// one fault is want of memory.
pub(crate) fn tuple_fault(
    alloc: Global,
    f: &Fractions,
    a: &Algebra<Fractions>,
    one: &Tuple,
    order: &Tuples,
    radical: &Tuples,
    place: &Poly,
) -> Result<Option<RamifiedFault>, NoMemory>
    requires over { IsOver (fractions_over (field_of f.now)) a.now }
    requires associative { IsAssociative (fractions_over (field_of f.now)) a.now }
    requires one { IsIdentity (fractions_over (field_of f.now)) a.now one.now }
    requires place { IsMonicIrreducible (small_ops (field_of f.now)) place.now }
    requires order_count { length order.now ≡ a.now.dim }
    requires order { IsMatrix (fractions_over (field_of f.now)) a.now.dim order.now }
    requires radical_count { length radical.now ≡ a.now.dim }
    requires radical { IsMatrix (fractions_over (field_of f.now)) a.now.dim radical.now }
    ensures { IfOk result (IsFirstFault (tuple_conditions (small_ops (field_of f.now)) (small_laws (field_of f.now))
        a.now (Finite place.now) order.now radical.now)) }
{
    match Basis::of(alloc, f, order)? {
        None => Ok(Some(RamifiedFault::OrderDependent)),
        Some(basis) => {
            let fault = order_fault(alloc, f, a, one, &basis, radical, place)?;
            Ok(fault)
        }
    }
}
