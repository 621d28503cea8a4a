// The conditions on a lattice at a finite place that is to be the radical of an order there.
ghost use Rattle.std.specs.Prelude.{◌≡◌, ◌↔◌, IfOk, IsTrue};
ghost use Rattle.spl_field.specs.SmallField.{small_ops, small_laws};
ghost use Rattle.spl_fraction.specs.Fractions.{field_of};
ghost use Rattle.spl_fraction.specs.FractionsOver.{fractions_over};
ghost use Rattle.spl_residue.specs.Residue.{residue_ops};
ghost use Rattle.theory_tables.specs.Subspace.{IsSubspace};
ghost use Rattle.theory_tables.specs.Structure.{IsOver, IsAssociative};
ghost use Rattle.theory_places.specs.Places.{Finite};
ghost use Rattle.theory_places.specs.FractionPlaces.{IsIntegralAt, IsMonicIrreducible};
ghost use Rattle.theory_bases.specs.TupleLattices.{SpanOrder};
ghost use Rattle.theory_bases.specs.Bases.{IsBasis, tuples_of};
ghost use Rattle.theory_ramified.specs.Conditions.{IsInside, AbsorbsProducts, HoldsMultiple, IsLeftOrder};
ghost use Rattle.theory_ramified.specs.ConditionLaws.{IsSimpleRadical};
ghost use Rattle.theory_ramified.specs.RowConditions.{ConditionsAreOnRows};
ghost use Rattle.spl_blocks.specs.Blocks.{IsUnital};
ghost use Rattle.spl_ramified.specs.Faults.{IsFirstFault, left_order_conditions, ideal_conditions, lattice_conditions};

use crate::fault::RamifiedFault;
use crate::maximal::is_maximal_ideal;
use spl_algebra::algebra::Algebra;
use spl_field::field::NoMemory;
use spl_fraction::field::Fractions;
use spl_matrix::subspace::Subspace;
use spl_order::basis::Basis;
use spl_order::images::image_of;
use spl_order::left_order::left_order;
use spl_order::orders_at::are_products_within_at;
use spl_order::powers::power_in_place;
use spl_order::residue_algebra::{Residue, residue_algebra};
use spl_order::within_at::{is_multiple_within_at, is_within_at};
use spl_poly::poly::Poly;
use spl_residue::field::ResidueField;
use std::alloc::Global;

/// Whether the left order of the radical of an order is this order. (The order sends the radical into itself.)
fn is_own_left_order(
    alloc: Global,
    f: &Fractions,
    a: &Algebra<Fractions>,
    order: &Basis,
    radical: &Basis,
    place: &Poly,
) -> Result<bool, NoMemory>
    requires over { IsOver (fractions_over (field_of f.now)) a.now }
    requires associative { IsAssociative (fractions_over (field_of f.now)) a.now }
    requires place { IsMonicIrreducible (small_ops (field_of f.now)) place.now }
    requires basis { IsBasis (small_ops (field_of f.now)) (small_laws (field_of f.now)) a.now.dim order.now }
    requires order { SpanOrder (fractions_over (field_of f.now)) a.now
        (IsIntegralAt (small_ops (field_of f.now)) (Finite place.now))
        (tuples_of (small_ops (field_of f.now)) (small_laws (field_of f.now)) order.now) }
    requires radical_basis { IsBasis (small_ops (field_of f.now)) (small_laws (field_of f.now)) a.now.dim radical.now }
    requires radical { IsSimpleRadical (small_ops (field_of f.now)) (small_laws (field_of f.now)) a.now
        (Finite place.now) (tuples_of (small_ops (field_of f.now)) (small_laws (field_of f.now)) order.now)
        (tuples_of (small_ops (field_of f.now)) (small_laws (field_of f.now)) radical.now) }
    ensures { IfOk result (λ r. IsTrue r ↔ IsLeftOrder (small_ops (field_of f.now)) (small_laws (field_of f.now)) a.now
        (Finite place.now) (tuples_of (small_ops (field_of f.now)) (small_laws (field_of f.now)) order.now)
        (tuples_of (small_ops (field_of f.now)) (small_laws (field_of f.now)) radical.now)) }
{
    let left = left_order(alloc, f, a, order, radical, place)?;
    let within = is_within_at(alloc, f, &left, order, place)?;
    Ok(within)
}

/// The first condition that fails from that on the left order on; the image is that of the radical modulo the place.
fn left_order_fault(
    alloc: Global,
    f: &Fractions,
    a: &Algebra<Fractions>,
    order: &Basis,
    radical: &Basis,
    place: &Poly,
    residue: &Residue,
    image: &Subspace<ResidueField>,
) -> Result<Option<RamifiedFault>, NoMemory>
    requires over { IsOver (fractions_over (field_of f.now)) a.now }
    requires associative { IsAssociative (fractions_over (field_of f.now)) a.now }
    requires place { IsMonicIrreducible (small_ops (field_of f.now)) place.now }
    requires basis { IsBasis (small_ops (field_of f.now)) (small_laws (field_of f.now)) a.now.dim order.now }
    requires order { SpanOrder (fractions_over (field_of f.now)) a.now
        (IsIntegralAt (small_ops (field_of f.now)) (Finite place.now))
        (tuples_of (small_ops (field_of f.now)) (small_laws (field_of f.now)) order.now) }
    requires radical_basis { IsBasis (small_ops (field_of f.now)) (small_laws (field_of f.now)) a.now.dim radical.now }
    requires radical { IsSimpleRadical (small_ops (field_of f.now)) (small_laws (field_of f.now)) a.now
        (Finite place.now) (tuples_of (small_ops (field_of f.now)) (small_laws (field_of f.now)) order.now)
        (tuples_of (small_ops (field_of f.now)) (small_laws (field_of f.now)) radical.now) }
    requires image { IsSubspace (residue_ops residue.now.field) image.now }
    requires width { image.now.width ≡ residue.now.algebra.dim }
    requires conditions { ConditionsAreOnRows (small_ops (field_of f.now)) (small_laws (field_of f.now)) a.now place.now
        (tuples_of (small_ops (field_of f.now)) (small_laws (field_of f.now)) order.now)
        (tuples_of (small_ops (field_of f.now)) (small_laws (field_of f.now)) radical.now)
        (residue_ops residue.now.field) residue.now.algebra image.now.rows }
    ensures { IfOk result (IsFirstFault (left_order_conditions (small_ops (field_of f.now))
        (small_laws (field_of f.now)) a.now (Finite place.now)
        (tuples_of (small_ops (field_of f.now)) (small_laws (field_of f.now)) order.now)
        (tuples_of (small_ops (field_of f.now)) (small_laws (field_of f.now)) radical.now))) }
{
    let _ = residue;
    if !is_own_left_order(alloc, f, a, order, radical, place)? {
        return Ok(Some(RamifiedFault::OtherLeftOrder));
    }
    if image.dim() == 0 {
        return Ok(Some(RamifiedFault::RadicalIsMultiple));
    }
    Ok(None)
}

/// The first condition on an ideal of an order over its multiples that fails; the image is that of the ideal in the
/// order modulo the place.
fn image_fault(
    alloc: Global,
    f: &Fractions,
    a: &Algebra<Fractions>,
    order: &Basis,
    radical: &Basis,
    place: &Poly,
    residue: &Residue,
    image: &Subspace<ResidueField>,
) -> Result<Option<RamifiedFault>, NoMemory>
    requires over { IsOver (fractions_over (field_of f.now)) a.now }
    requires associative { IsAssociative (fractions_over (field_of f.now)) a.now }
    requires place { IsMonicIrreducible (small_ops (field_of f.now)) place.now }
    requires basis { IsBasis (small_ops (field_of f.now)) (small_laws (field_of f.now)) a.now.dim order.now }
    requires order { SpanOrder (fractions_over (field_of f.now)) a.now
        (IsIntegralAt (small_ops (field_of f.now)) (Finite place.now))
        (tuples_of (small_ops (field_of f.now)) (small_laws (field_of f.now)) order.now) }
    requires radical_basis { IsBasis (small_ops (field_of f.now)) (small_laws (field_of f.now)) a.now.dim radical.now }
    requires inside { IsInside (small_ops (field_of f.now)) (small_laws (field_of f.now)) a.now (Finite place.now)
        (tuples_of (small_ops (field_of f.now)) (small_laws (field_of f.now)) order.now)
        (tuples_of (small_ops (field_of f.now)) (small_laws (field_of f.now)) radical.now) }
    requires absorbs { AbsorbsProducts (small_ops (field_of f.now)) (small_laws (field_of f.now)) a.now
        (Finite place.now) (tuples_of (small_ops (field_of f.now)) (small_laws (field_of f.now)) order.now)
        (tuples_of (small_ops (field_of f.now)) (small_laws (field_of f.now)) radical.now) }
    requires over_multiple { HoldsMultiple (small_ops (field_of f.now)) (small_laws (field_of f.now)) a.now
        (Finite place.now) (tuples_of (small_ops (field_of f.now)) (small_laws (field_of f.now)) order.now)
        (tuples_of (small_ops (field_of f.now)) (small_laws (field_of f.now)) radical.now) }
    requires unital { IsUnital (residue_ops residue.now.field) residue.now.algebra }
    requires image { IsSubspace (residue_ops residue.now.field) image.now }
    requires width { image.now.width ≡ residue.now.algebra.dim }
    requires conditions { ConditionsAreOnRows (small_ops (field_of f.now)) (small_laws (field_of f.now)) a.now place.now
        (tuples_of (small_ops (field_of f.now)) (small_laws (field_of f.now)) order.now)
        (tuples_of (small_ops (field_of f.now)) (small_laws (field_of f.now)) radical.now)
        (residue_ops residue.now.field) residue.now.algebra image.now.rows }
    ensures { IfOk result (IsFirstFault (ideal_conditions (small_ops (field_of f.now)) (small_laws (field_of f.now))
        a.now (Finite place.now) (tuples_of (small_ops (field_of f.now)) (small_laws (field_of f.now)) order.now)
        (tuples_of (small_ops (field_of f.now)) (small_laws (field_of f.now)) radical.now))) }
{
    if !power_in_place(alloc, residue, image)? {
        return Ok(Some(RamifiedFault::NotNilpotent));
    }
    if !is_maximal_ideal(alloc, &residue.field, &residue.algebra, image)? {
        return Ok(Some(RamifiedFault::QuotientNotSimple));
    }
    let fault = left_order_fault(alloc, f, a, order, radical, place, residue, image)?;
    Ok(fault)
}

/// The first condition on an ideal of an order over its multiples that fails.
fn ideal_fault(
    alloc: Global,
    f: &Fractions,
    a: &Algebra<Fractions>,
    order: &Basis,
    radical: &Basis,
    place: &Poly,
) -> Result<Option<RamifiedFault>, NoMemory>
    requires over { IsOver (fractions_over (field_of f.now)) a.now }
    requires associative { IsAssociative (fractions_over (field_of f.now)) a.now }
    requires place { IsMonicIrreducible (small_ops (field_of f.now)) place.now }
    requires basis { IsBasis (small_ops (field_of f.now)) (small_laws (field_of f.now)) a.now.dim order.now }
    requires order { SpanOrder (fractions_over (field_of f.now)) a.now
        (IsIntegralAt (small_ops (field_of f.now)) (Finite place.now))
        (tuples_of (small_ops (field_of f.now)) (small_laws (field_of f.now)) order.now) }
    requires radical_basis { IsBasis (small_ops (field_of f.now)) (small_laws (field_of f.now)) a.now.dim radical.now }
    requires inside { IsInside (small_ops (field_of f.now)) (small_laws (field_of f.now)) a.now (Finite place.now)
        (tuples_of (small_ops (field_of f.now)) (small_laws (field_of f.now)) order.now)
        (tuples_of (small_ops (field_of f.now)) (small_laws (field_of f.now)) radical.now) }
    requires absorbs { AbsorbsProducts (small_ops (field_of f.now)) (small_laws (field_of f.now)) a.now
        (Finite place.now) (tuples_of (small_ops (field_of f.now)) (small_laws (field_of f.now)) order.now)
        (tuples_of (small_ops (field_of f.now)) (small_laws (field_of f.now)) radical.now) }
    requires over_multiple { HoldsMultiple (small_ops (field_of f.now)) (small_laws (field_of f.now)) a.now
        (Finite place.now) (tuples_of (small_ops (field_of f.now)) (small_laws (field_of f.now)) order.now)
        (tuples_of (small_ops (field_of f.now)) (small_laws (field_of f.now)) radical.now) }
    ensures { IfOk result (IsFirstFault (ideal_conditions (small_ops (field_of f.now)) (small_laws (field_of f.now))
        a.now (Finite place.now) (tuples_of (small_ops (field_of f.now)) (small_laws (field_of f.now)) order.now)
        (tuples_of (small_ops (field_of f.now)) (small_laws (field_of f.now)) radical.now))) }
{
    let residue = residue_algebra(alloc, f, a, order, place)?;
    let image = image_of(alloc, f, &residue.field, order, radical, place)?;
    let fault = image_fault(alloc, f, a, order, radical, place, &residue, &image)?;
    Ok(fault)
}

/// Whether a lattice at the place absorbs products with the members of an order from both sides.
fn absorbs_products(
    alloc: Global,
    f: &Fractions,
    a: &Algebra<Fractions>,
    order: &Basis,
    radical: &Basis,
    place: &Poly,
) -> Result<bool, NoMemory>
    requires over { IsOver (fractions_over (field_of f.now)) a.now }
    requires place { IsMonicIrreducible (small_ops (field_of f.now)) place.now }
    requires basis { IsBasis (small_ops (field_of f.now)) (small_laws (field_of f.now)) a.now.dim order.now }
    requires radical_basis { IsBasis (small_ops (field_of f.now)) (small_laws (field_of f.now)) a.now.dim radical.now }
    ensures { IfOk result (λ r. IsTrue r ↔ AbsorbsProducts (small_ops (field_of f.now)) (small_laws (field_of f.now))
        a.now (Finite place.now) (tuples_of (small_ops (field_of f.now)) (small_laws (field_of f.now)) order.now)
        (tuples_of (small_ops (field_of f.now)) (small_laws (field_of f.now)) radical.now)) }
{
    if !are_products_within_at(alloc, f, a, order, radical, radical, place)? {
        return Ok(false);
    }
    let right = are_products_within_at(alloc, f, a, radical, order, radical, place)?;
    Ok(right)
}

/// The first condition on a lattice at the place that fails, which is to be the radical of an order there. The one
/// fault is want of memory.
pub(crate) fn lattice_fault(
    alloc: Global,
    f: &Fractions,
    a: &Algebra<Fractions>,
    order: &Basis,
    radical: &Basis,
    place: &Poly,
) -> Result<Option<RamifiedFault>, NoMemory>
    requires over { IsOver (fractions_over (field_of f.now)) a.now }
    requires associative { IsAssociative (fractions_over (field_of f.now)) a.now }
    requires place { IsMonicIrreducible (small_ops (field_of f.now)) place.now }
    requires basis { IsBasis (small_ops (field_of f.now)) (small_laws (field_of f.now)) a.now.dim order.now }
    requires order { SpanOrder (fractions_over (field_of f.now)) a.now
        (IsIntegralAt (small_ops (field_of f.now)) (Finite place.now))
        (tuples_of (small_ops (field_of f.now)) (small_laws (field_of f.now)) order.now) }
    requires radical_basis { IsBasis (small_ops (field_of f.now)) (small_laws (field_of f.now)) a.now.dim radical.now }
    ensures { IfOk result (IsFirstFault (lattice_conditions (small_ops (field_of f.now)) (small_laws (field_of f.now))
        a.now (Finite place.now) (tuples_of (small_ops (field_of f.now)) (small_laws (field_of f.now)) order.now)
        (tuples_of (small_ops (field_of f.now)) (small_laws (field_of f.now)) radical.now))) }
{
    if !is_within_at(alloc, f, radical, order, place)? {
        return Ok(Some(RamifiedFault::RadicalOutside));
    }
    if !absorbs_products(alloc, f, a, order, radical, place)? {
        return Ok(Some(RamifiedFault::NoIdeal));
    }
    if !is_multiple_within_at(alloc, f, place, order, radical, place)? {
        return Ok(Some(RamifiedFault::RadicalWithoutMultiple));
    }
    let fault = ideal_fault(alloc, f, a, order, radical, place)?;
    Ok(fault)
}
