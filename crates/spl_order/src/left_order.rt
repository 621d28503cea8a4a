// Left orders.
ghost use Rattle.std.specs.Prelude.{◌≡◌, ◌*◌, ◌<◌, ◌≤◌, ◌^◌, IfOk};
ghost use Rattle.spl_field.specs.SmallField.{small_ops, small_laws};
ghost use Rattle.spl_fraction.specs.Fractions.{field_of};
ghost use Rattle.spl_fraction.specs.FractionsOver.{fractions_over};
ghost use Rattle.spl_residue.specs.Residue.{residue_ops};
ghost use Rattle.theory_places.specs.Places.{Finite};
ghost use Rattle.theory_places.specs.FractionPlaces.{IsIntegralAt, IsMonicIrreducible};
ghost use Rattle.theory_spaces.specs.Tuples.{IsTuple};
ghost use Rattle.theory_tables.specs.Structure.{IsOver, IsAssociative};
ghost use Rattle.theory_bases.specs.Bases.{IsBasis, IsPolynomialFraction, tuples_of};
ghost use Rattle.spl_order.specs.LeftOrders.{SpansIdealOver, SpansLeftOrder, GivesLeftOrders};
ghost use Rattle.spl_order.specs.Residues.{IsResidueField};

use crate::basis::Basis;
use crate::lifts::basis_of_lifts;
use crate::product_matrices::kernel_lifts;
use crate::residue_algebra::residue_constants;
use spl_algebra::algebra::Algebra;
use spl_field::field::NoMemory;
use spl_field::small::SmallField;
use spl_fraction::field::Fractions;
use spl_poly::poly::Poly;
use spl_residue::elem::ResidueElem;
use spl_residue::field::ResidueField;
use std::alloc::Global;

/// The field of the remainders by the polynomial of a place.
fn place_field(alloc: Global, f: &SmallField, place: &Poly) -> Result<ResidueField, NoMemory>
    requires { IsMonicIrreducible (small_ops f.now) place.now }
    ensures { IfOk result (IsResidueField f.now place.now) }
{
    let found = ResidueField::new(alloc, f, place)?;
    Ok(found.unwrap())
}

/// The left order of an ideal by the residues of the coordinates of the products of its n tuples.
pub(crate) fn left_order_by_residues(
    alloc: Global,
    f: &SmallField,
    k: &ResidueField,
    residues: &[ResidueElem],
    ideal: &Basis,
    place: &Poly,
    n: usize,
) -> Result<Basis, NoMemory>
    requires place { IsMonicIrreducible (small_ops f.now) place.now }
    requires field { IsResidueField f.now place.now k.now }
    requires residues { IsTuple (residue_ops k.now) (n * n * n) residues.now }
    requires fits { n * n * n < 2 ^ 64 }
    requires positive { 1 ≤ n }
    requires ideal { IsBasis (small_ops f.now) (small_laws f.now) n ideal.now }
    ensures basis { IfOk result (IsBasis (small_ops f.now) (small_laws f.now) n) }
    ensures left { IfOk result (GivesLeftOrders (small_ops f.now) (small_laws f.now) place.now (residue_ops k.now) n
        residues.now ideal.now) }
{
    let lifts = kernel_lifts(alloc, k, residues, n)?;
    let c = place.mul(alloc, f, ideal.denominator())?;
    let found = basis_of_lifts(alloc, f, &c, place, &lifts, ideal, n)?;
    Ok(found)
}

/// The left order of an ideal M of an order that holds the place's polynomial times the order: the elements x for which
/// x·M lies in M.
///
/// At the place the answer spans this left order. Where the order and the ideal are what the condition says over the
/// polynomials too, it spans the left order over the polynomials. The one fault is want of memory. (Reiner, Maximal
/// Orders, section 8; Cohen, A Course in Computational Algebraic Number Theory, section 6.1.)
pub fn left_order(
    alloc: Global,
    f: &Fractions,
    a: &Algebra<Fractions>,
    order: &Basis,
    ideal: &Basis,
    place: &Poly,
) -> Result<Basis, NoMemory>
    requires over { IsOver (fractions_over (field_of f.now)) a.now }
    requires associative { IsAssociative (fractions_over (field_of f.now)) a.now }
    requires place { IsMonicIrreducible (small_ops (field_of f.now)) place.now }
    requires order { IsBasis (small_ops (field_of f.now)) (small_laws (field_of f.now)) a.now.dim order.now }
    requires ideal { IsBasis (small_ops (field_of f.now)) (small_laws (field_of f.now)) a.now.dim ideal.now }
    requires over_place { SpansIdealOver (small_ops (field_of f.now)) (small_laws (field_of f.now))
        (IsIntegralAt (small_ops (field_of f.now)) (Finite place.now)) a.now place.now
        (tuples_of (small_ops (field_of f.now)) (small_laws (field_of f.now)) order.now)
        (tuples_of (small_ops (field_of f.now)) (small_laws (field_of f.now)) ideal.now) }
    ensures basis { IfOk result (IsBasis (small_ops (field_of f.now)) (small_laws (field_of f.now)) a.now.dim) }
    ensures at_place { IfOk result (λ r. SpansLeftOrder (small_ops (field_of f.now)) (small_laws (field_of f.now))
        (IsIntegralAt (small_ops (field_of f.now)) (Finite place.now)) a.now
        (tuples_of (small_ops (field_of f.now)) (small_laws (field_of f.now)) ideal.now)
        (tuples_of (small_ops (field_of f.now)) (small_laws (field_of f.now)) r)) }
    ensures over_polynomials { IfOk result (λ r.
        SpansIdealOver (small_ops (field_of f.now)) (small_laws (field_of f.now))
        (IsPolynomialFraction (small_ops (field_of f.now))) a.now place.now
        (tuples_of (small_ops (field_of f.now)) (small_laws (field_of f.now)) order.now)
        (tuples_of (small_ops (field_of f.now)) (small_laws (field_of f.now)) ideal.now)
        → SpansLeftOrder (small_ops (field_of f.now)) (small_laws (field_of f.now))
        (IsPolynomialFraction (small_ops (field_of f.now))) a.now
        (tuples_of (small_ops (field_of f.now)) (small_laws (field_of f.now)) ideal.now)
        (tuples_of (small_ops (field_of f.now)) (small_laws (field_of f.now)) r)) }
{
    let _ = order;
    let _ = a.constants();
    let n = a.dim();
    let k = place_field(alloc, f.field(), place)?;
    let residues = residue_constants(alloc, f, &k, a, ideal)?;
    let left = left_order_by_residues(alloc, f.field(), &k, residues.as_slice(), ideal, place, n)?;
    Ok(left)
}
