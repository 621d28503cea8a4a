// The matrix of the trace form as polynomials, and dual bases.
ghost use Rattle.std.specs.Prelude.{◌≡◌, [], length, IfOk};
ghost use Rattle.spl_field.specs.SmallField.{small_ops, small_laws};
ghost use Rattle.spl_fraction.specs.Fractions.{field_of};
ghost use Rattle.spl_fraction.specs.FractionsOver.{fractions_over};
ghost use Rattle.theory_tables.specs.Structure.{IsOver, IsAssociative};
ghost use Rattle.theory_tables.specs.Traces.{IsNondegenerate};
ghost use Rattle.theory_bases.specs.TupleLattices.{AreTraceDual};
ghost use Rattle.theory_bases.specs.Bases.{IsBasis, tuples_of};
ghost use Rattle.spl_order.specs.Forms.{IsClearedForm};

use crate::basis::Basis;
use crate::inverse::inverse_rows;
use crate::lattice_bases::basis_from_rows;
use crate::matrices::{product, row_multiples, transposed};
use crate::numerators::{joined_fractions, numerator_rows};
use spl_algebra::algebra::Algebra;
use spl_field::field::NoMemory;
use spl_field::small::SmallField;
use spl_fraction::field::Fractions;
use spl_lattice::matrix::PolyMatrix;
use spl_poly::poly::Poly;
use std::alloc::Global;

/// The matrix of a trace form, as rows of polynomials over a denominator.
#[derive(Drop)]
pub(crate) struct Form {
    pub(crate) denominator: Poly,
    pub(crate) numerators: PolyMatrix,
}

/// The matrix of the trace form over the common denominator of its entries.
pub(crate) fn cleared_form(
    alloc: Global,
    f: &Fractions,
    a: &Algebra<Fractions>,
) -> Result<Form, NoMemory>
    requires { IsOver (fractions_over (field_of f.now)) a.now }
    ensures { IfOk result (λ r. IsClearedForm (small_ops (field_of f.now)) (small_laws (field_of f.now)) a.now
        r.denominator r.numerators) }
{
    let form = a.trace_form(alloc, f)?;
    let list = joined_fractions(alloc, f, form.as_slice())?;
    let denominator = f.common_denominator(alloc, list.as_slice())?;
    let numerators = numerator_rows(alloc, f.field(), &denominator, form.as_slice())?;
    Ok(Form {
        denominator,
        numerators,
    })
}

/// The dual basis for the trace form, by its matrix.
pub(crate) fn dual_by_form(
    alloc: Global,
    f: &SmallField,
    a: &Algebra<Fractions>,
    form: &Form,
    order: &Basis,
) -> Result<Basis, NoMemory>
    requires over { IsOver (fractions_over f.now) a.now }
    requires associative { IsAssociative (fractions_over f.now) a.now }
    requires nondegenerate { IsNondegenerate (fractions_over f.now) a.now }
    requires form { IsClearedForm (small_ops f.now) (small_laws f.now) a.now form.now.denominator form.now.numerators }
    requires order { IsBasis (small_ops f.now) (small_laws f.now) a.now.dim order.now }
    ensures basis { IfOk result (IsBasis (small_ops f.now) (small_laws f.now) a.now.dim) }
    ensures dual { IfOk result (λ b. AreTraceDual (fractions_over f.now) a.now
        (tuples_of (small_ops f.now) (small_laws f.now) order.now) (tuples_of (small_ops f.now) (small_laws f.now) b)) }
{
    let m = a.dim();
    let values = product(
        alloc,
        f,
        order.numerators().as_slice(),
        form.numerators.as_slice(),
        m,
    )?;
    let columns = transposed(alloc, f, values.as_slice(), m)?;
    let inverse = inverse_rows(alloc, f, &columns)?;
    let c = order.denominator().mul(alloc, f, &form.denominator)?;
    let rows = row_multiples(alloc, f, &c, inverse.rows.as_slice(), m)?;
    let found = basis_from_rows(alloc, f, &inverse.scale, &rows)?;
    Ok(found)
}

/// The dual basis for the trace form: the trace of the product of a tuple of the basis and the tuple at its place is 1,
/// and that of other pairs is 0. The one fault is want of memory. (Reiner, Maximal Orders, sections 4 and 10.)
pub fn dual(
    alloc: Global,
    f: &Fractions,
    a: &Algebra<Fractions>,
    order: &Basis,
) -> Result<Basis, NoMemory>
    requires over { IsOver (fractions_over (field_of f.now)) a.now }
    requires associative { IsAssociative (fractions_over (field_of f.now)) a.now }
    requires nondegenerate { IsNondegenerate (fractions_over (field_of f.now)) a.now }
    requires order { IsBasis (small_ops (field_of f.now)) (small_laws (field_of f.now)) a.now.dim order.now }
    ensures basis { IfOk result (IsBasis (small_ops (field_of f.now)) (small_laws (field_of f.now)) a.now.dim) }
    ensures dual { IfOk result (λ b. AreTraceDual (fractions_over (field_of f.now)) a.now
        (tuples_of (small_ops (field_of f.now)) (small_laws (field_of f.now)) order.now)
        (tuples_of (small_ops (field_of f.now)) (small_laws (field_of f.now)) b)) }
{
    let form = cleared_form(alloc, f, a)?;
    let found = dual_by_form(alloc, f.field(), a, &form, order)?;
    Ok(found)
}
