// The finite places at which a lattice is not its own dual for the trace.
ghost use Rattle.std.specs.Prelude.{◌↔◌, ℕ, List, IfOk};
ghost use Rattle.spl_field.specs.SmallField.{small_ops, small_laws};
ghost use Rattle.spl_fraction.specs.Fractions.{field_of};
ghost use Rattle.spl_fraction.specs.FractionsOver.{fractions_over};
ghost use Rattle.theory_spaces.specs.Sets.{Within, Product};
ghost use Rattle.theory_fractions.specs.PolynomialLists.{IsPolynomialList, Divides};
ghost use Rattle.theory_places.specs.Places.{Finite};
ghost use Rattle.theory_places.specs.FractionPlaces.{IsPlace, IsIntegralAt};
ghost use Rattle.theory_tables.specs.Structure.{IsOver, IsAssociative, tuple_ops};
ghost use Rattle.theory_tables.specs.Traces.{IsNondegenerate};
ghost use Rattle.theory_bases.specs.TupleLattices.{TupleLattice, IsTraceDualOfItself};
ghost use Rattle.theory_bases.specs.Bases.{IsBasis, IsPolynomialFraction, tuples_of};
ghost use Rattle.theory_bases.specs.Grams.{IsGramDenominator};
ghost use Rattle.spl_order.specs.Forms.{IsClearedForm, IsClearedGram};

use crate::basis::Basis;
use crate::denominators::least_denominator;
use crate::forms::{Form, cleared_form, dual_by_form};
use crate::matrices::{product, transposed};
use spl_algebra::algebra::Algebra;
use spl_field::field::NoMemory;
use spl_field::small::SmallField;
use spl_fraction::field::Fractions;
use spl_poly::poly::Poly;
use std::alloc::Global;

/// The Gram matrix of a basis for the trace form, by the matrix of the form.
fn gram_by_form(
    alloc: Global,
    f: &SmallField,
    a: &Algebra<Fractions>,
    form: &Form,
    order: &Basis,
) -> Result<Form, NoMemory>
    requires over { IsOver (fractions_over f.now) a.now }
    requires associative { IsAssociative (fractions_over f.now) a.now }
    requires form { IsClearedForm (small_ops f.now) (small_laws f.now) a.now form.now.denominator form.now.numerators }
    requires order { IsBasis (small_ops f.now) (small_laws f.now) a.now.dim order.now }
    ensures { IfOk result (λ r. IsClearedGram (small_ops f.now) (small_laws f.now) a.now
        (tuples_of (small_ops f.now) (small_laws f.now) order.now) r.denominator r.numerators) }
{
    let m = a.dim();
    let rows = order.numerators();
    let values = product(alloc, f, rows.as_slice(), form.numerators.as_slice(), m)?;
    let columns = transposed(alloc, f, rows.as_slice(), m)?;
    let numerators = product(alloc, f, values.as_slice(), columns.as_slice(), m)?;
    let scale = order.denominator().mul(alloc, f, &form.denominator)?;
    let denominator = order.denominator().mul(alloc, f, &scale)?;
    Ok(Form {
        denominator,
        numerators,
    })
}

/// The common denominator of the inverse Gram matrix of a basis, which is the Gram matrix of the dual basis.
fn gram_denominator(
    alloc: Global,
    f: &SmallField,
    a: &Algebra<Fractions>,
    form: &Form,
    order: &Basis,
) -> Result<Poly, NoMemory>
    requires over { IsOver (fractions_over f.now) a.now }
    requires associative { IsAssociative (fractions_over f.now) a.now }
    requires nondegenerate { IsNondegenerate (fractions_over f.now) a.now }
    requires form { IsClearedForm (small_ops f.now) (small_laws f.now) a.now form.now.denominator form.now.numerators }
    requires order { IsBasis (small_ops f.now) (small_laws f.now) a.now.dim order.now }
    ensures polynomial { IfOk result (IsPolynomialList (small_ops f.now)) }
    ensures denominator { IfOk result (IsGramDenominator (small_ops f.now) (small_laws f.now) a.now
        (tuples_of (small_ops f.now) (small_laws f.now) order.now)) }
{
    let dual = dual_by_form(alloc, f, a, form, order)?;
    let gram = gram_by_form(alloc, f, a, form, &dual)?;
    let found = least_denominator(
        alloc,
        f,
        &gram.denominator,
        gram.numerators.as_slice(),
        a.dim(),
    )?;
    Ok(found)
}

/// The common denominator of the inverse Gram matrix of the basis of a lattice over the polynomials that is closed under
/// products. Its monic irreducible factors are exactly the finite places at which the lattice is not its own dual for
/// the trace. The one fault is want of memory. (Reiner, Maximal Orders, sections 10 and 25.)
pub fn bad_places(
    alloc: Global,
    f: &Fractions,
    a: &Algebra<Fractions>,
    order: &Basis,
) -> Result<Poly, NoMemory>
    requires over { IsOver (fractions_over (field_of f.now)) a.now }
    requires associative { IsAssociative (fractions_over (field_of f.now)) a.now }
    requires nondegenerate { IsNondegenerate (fractions_over (field_of f.now)) a.now }
    requires order { IsBasis (small_ops (field_of f.now)) (small_laws (field_of f.now)) a.now.dim order.now }
    requires closed { (let L : List (List ℕ × List ℕ) → Type 0 = TupleLattice (fractions_over (field_of f.now))
        (IsPolynomialFraction (small_ops (field_of f.now))) a.now.dim
        (tuples_of (small_ops (field_of f.now)) (small_laws (field_of f.now)) order.now) in
        Within (Product (tuple_ops (fractions_over (field_of f.now)) a.now) L L) L) }
    ensures polynomial { IfOk result (IsPolynomialList (small_ops (field_of f.now))) }
    ensures denominator { IfOk result (IsGramDenominator (small_ops (field_of f.now)) (small_laws (field_of f.now))
        a.now (tuples_of (small_ops (field_of f.now)) (small_laws (field_of f.now)) order.now)) }
    ensures places { IfOk result (λ d. (m : List ℕ) → IsPlace (small_ops (field_of f.now)) (Finite m)
        → Divides (small_ops (field_of f.now)) m d
        ↔ (IsTraceDualOfItself (fractions_over (field_of f.now)) a.now
        (IsIntegralAt (small_ops (field_of f.now)) (Finite m))
        (tuples_of (small_ops (field_of f.now)) (small_laws (field_of f.now)) order.now) → ⊥)) }
{
    let form = cleared_form(alloc, f, a)?;
    let places = gram_denominator(alloc, f.field(), a, &form, order)?;
    Ok(places)
}
