// Orders at a finite place modulo the place's polynomial.
ghost use Rattle.std.specs.Prelude.{◌≡◌, ◌≢◌, ◌<◌, ℕ, [], length, get_or, IfOk};
ghost use Rattle.theory_tables.specs.Structure.{IsOver, IsAssociative, product_of};
ghost use Rattle.theory_tables.specs.Algebras.{HasIdentity};
ghost use Rattle.spl_field.specs.SmallField.{small_ops, small_laws};
ghost use Rattle.spl_fraction.specs.Fractions.{field_of};
ghost use Rattle.spl_fraction.specs.FractionsOver.{fractions_over};
ghost use Rattle.spl_residue.specs.Residue.{field_of as residue_field_of, polynomial_of, residue_ops};
ghost use Rattle.theory_fractions.specs.PolynomialLists.{IsPolynomialList};
ghost use Rattle.theory_places.specs.Places.{Finite};
ghost use Rattle.theory_places.specs.FractionPlaces.{IsIntegralAt, IsMonicIrreducible};
ghost use Rattle.theory_bases.specs.TupleLattices.{TupleLattice, SpanOrder};
ghost use Rattle.theory_bases.specs.Bases.{IsBasis, fraction_over, tuples_of};
ghost use Rattle.spl_order.specs.Residues.{AreProductResidues, AreResiduesOver, IsResidueAlgebra};

use crate::basis::Basis;
use crate::coordinates::product_coordinates;
use crate::place_parts::place_part;
use spl_algebra::algebra::Algebra;
use spl_field::field::{Field, NoMemory};
use spl_field::list::{List, Vector};
use spl_fraction::field::Fractions;
use spl_numerators::numerators::numerators_of;
use spl_poly::poly::Poly;
use spl_residue::field::ResidueField;
use std::alloc::Global;

/// The residues of the polynomials over the denominator, which are integral: the part of the denominator at the place
/// divides each, and what it leaves of the denominator is a unit there.
pub(crate) fn residues_over(
    alloc: Global,
    f: &Fractions,
    k: &ResidueField,
    d: &Poly,
    items: &[Poly],
) -> Result<Vector<ResidueField>, NoMemory>
    requires field { small_ops (residue_field_of k.now) ≡ small_ops (field_of f.now) }
    requires place { IsMonicIrreducible (small_ops (field_of f.now)) (polynomial_of k.now) }
    requires d { IsPolynomialList (small_ops (field_of f.now)) d.now }
    requires nonzero { d.now ≢ [] }
    requires items { (p : ℕ) → p < length items.now
        → IsPolynomialList (small_ops (field_of f.now)) (get_or items.now p []) }
    requires integral { (p : ℕ) → p < length items.now
        → IsIntegralAt (small_ops (field_of f.now)) (Finite (polynomial_of k.now))
        (fraction_over (small_ops (field_of f.now)) (small_laws (field_of f.now)) d.now (get_or items.now p [])) }
    ensures { IfOk result (AreResiduesOver (small_ops (field_of f.now)) (small_laws (field_of f.now))
        (polynomial_of k.now) (residue_ops k.now) d.now items.now (length items.now)) }
{
    let part = place_part(alloc, f.field(), k.modulus(), d)?;
    let unit = d.divide(alloc, f.field(), &part)?.quotient;
    let lower = k.reduce_poly(alloc, &unit)?;
    let inverse = k.inv(alloc, &lower)?.unwrap();
    let mut residues = List::new(alloc);
    for p in 0..items.len() {
        let quotient = items[p].divide(alloc, f.field(), &part)?.quotient;
        let upper = k.reduce_poly(alloc, &quotient)?;
        residues.push(k.mul(alloc, &upper, &inverse)?)?;
    }
    Ok(residues)
}

/// The residues of the coordinates of the products of a basis, whose lattice at the place holds these products. The
/// one fault is want of memory.
pub(crate) fn residue_constants(
    alloc: Global,
    f: &Fractions,
    k: &ResidueField,
    a: &Algebra<Fractions>,
    order: &Basis,
) -> Result<Vector<ResidueField>, NoMemory>
    requires field { small_ops (residue_field_of k.now) ≡ small_ops (field_of f.now) }
    requires over { IsOver (fractions_over (field_of f.now)) a.now }
    requires place { IsMonicIrreducible (small_ops (field_of f.now)) (polynomial_of k.now) }
    requires basis { IsBasis (small_ops (field_of f.now)) (small_laws (field_of f.now)) a.now.dim order.now }
    requires products { (i j : ℕ) → i < a.now.dim → j < a.now.dim
        → TupleLattice (fractions_over (field_of f.now))
        (IsIntegralAt (small_ops (field_of f.now)) (Finite (polynomial_of k.now))) a.now.dim
        (tuples_of (small_ops (field_of f.now)) (small_laws (field_of f.now)) order.now)
        (product_of (fractions_over (field_of f.now)) a.now
        (get_or (tuples_of (small_ops (field_of f.now)) (small_laws (field_of f.now)) order.now) i [])
        (get_or (tuples_of (small_ops (field_of f.now)) (small_laws (field_of f.now)) order.now) j [])) }
    ensures { IfOk result (AreProductResidues (small_ops (field_of f.now)) (small_laws (field_of f.now))
        (polynomial_of k.now) (residue_ops k.now) a.now
        (tuples_of (small_ops (field_of f.now)) (small_laws (field_of f.now)) order.now)) }
{
    let numerators = numerators_of(alloc, f, a)?;
    let found = product_coordinates(alloc, f.field(), a, &numerators, order, k.modulus())?;
    let constants = residues_over(alloc, f, k, &found.scale, found.items.as_slice())?;
    Ok(constants)
}

/// An order modulo the polynomial of a place: the residue field, and the algebra over it, on the images of the order's
/// basis.
#[derive(Drop)]
pub struct Residue {
    pub field: ResidueField,
    pub algebra: Algebra<ResidueField>,
}

/// An order at a finite place modulo the place's polynomial, on the images of its basis: the constants of the algebra
/// are the residues of the coordinates of the products of the tuples. The one fault is want of memory. (Reiner, Maximal
/// Orders, sections 6 and 39.)
pub fn residue_algebra(
    alloc: Global,
    f: &Fractions,
    a: &Algebra<Fractions>,
    order: &Basis,
    place: &Poly,
) -> Result<Residue, NoMemory>
    requires over { IsOver (fractions_over (field_of f.now)) a.now }
    requires place { IsMonicIrreducible (small_ops (field_of f.now)) place.now }
    requires basis { IsBasis (small_ops (field_of f.now)) (small_laws (field_of f.now)) a.now.dim order.now }
    requires order { SpanOrder (fractions_over (field_of f.now)) a.now
        (IsIntegralAt (small_ops (field_of f.now)) (Finite place.now))
        (tuples_of (small_ops (field_of f.now)) (small_laws (field_of f.now)) order.now) }
    ensures residue { IfOk result (λ r. IsResidueAlgebra (field_of f.now) a.now
        (tuples_of (small_ops (field_of f.now)) (small_laws (field_of f.now)) order.now) place.now r.field r.algebra) }
    ensures over { IfOk result (λ r. IsOver (residue_ops r.field) r.algebra) }
    ensures associative { IfOk result (λ r. IsAssociative (fractions_over (field_of f.now)) a.now
        → IsAssociative (residue_ops r.field) r.algebra) }
    ensures identity { IfOk result (λ r. IsAssociative (fractions_over (field_of f.now)) a.now
        → HasIdentity (residue_ops r.field) r.algebra) }
{
    let m = a.dim();
    let field = ResidueField::new(alloc, f.field(), place)?.unwrap();
    let constants = residue_constants(alloc, f, &field, a, order)?;
    let algebra = Algebra::new(alloc, &field, m, constants)?;
    Ok(Residue { field, algebra })
}
