// Centre and trace form, told modulo a few irreducible polynomials.
ghost use Rattle.std.specs.Prelude.{◌≡◌, IfOk, IfSome, IsTrue};
ghost use Rattle.theory_tables.specs.Structure.{IsOver, IsAssociative};
ghost use Rattle.theory_tables.specs.Traces.{trace_matrix};
ghost use Rattle.theory_constants.specs.Residues.{KernelIsZero};
ghost use Rattle.spl_field.specs.SmallField.{small_ops, small_laws};
ghost use Rattle.spl_fraction.specs.Fractions.{field_of};
ghost use Rattle.spl_fraction.specs.FractionsOver.{fractions_over};
ghost use Rattle.spl_residue.specs.Residue.{field_of as residue_field_of};
ghost use Rattle.spl_numerators.specs.Numerators.{AreNumerators};
ghost use Rattle.spl_centre.specs.Line.{CentreIsOnLine};
ghost use Rattle.spl_centre.specs.Shown.{Holds};

use crate::centre::KAlgebra;
use spl_algebra::algebra::Algebra;
use spl_field::field::{Field, NoMemory};
use spl_fraction::field::Fractions;
use spl_numerators::numerators::{Numerators, numerators_of};
use spl_numerators::residues::{algebra_at, place_at};
use spl_residue::field::ResidueField;
use std::alloc::Global;

/// What the algebra of residues may show of an algebra over the rational functions.
#[derive(Clone, Copy)]
pub(crate) enum Property {
    /// The centre is the multiples of an identity.
    SmallCentre,
    /// The trace form is nondegenerate.
    Nondegenerate,
}

/// The number of polynomials that are tried as moduli, of which not all are irreducible.
const POLYNOMIALS: u16 = 40;

/// The number of algebras of residues that are looked at.
const REDUCTIONS: u16 = 6;

/// Whether the centre has a basis of at most one element.
fn centre_is_on_line<F: Field>(alloc: Global, f: &F, a: &Algebra<F>) -> Result<bool, NoMemory>
    requires { IsOver (F.ops f.now) a.now }
    ensures { IfOk result (λ b. IsTrue b → CentreIsOnLine (F.ops f.now) a.now) }
{
    let centre = a.centre(alloc, f)?;
    Ok(centre.dim() < 2)
}

/// Whether the matrix of the trace form sends 0 alone to 0.
fn form_is_regular<F: Field>(alloc: Global, f: &F, a: &Algebra<F>) -> Result<bool, NoMemory>
    requires { IsOver (F.ops f.now) a.now }
    ensures { IfOk result (λ b. IsTrue b
        → KernelIsZero (F.ops f.now) a.now.dim a.now.dim (trace_matrix (F.ops f.now) a.now)) }
{
    let _ = a.dim();
    let form = a.trace_form(alloc, f)?;
    let kernel = form.kernel(alloc, f)?;
    Ok(kernel.dim() == 0)
}

/// Whether the algebra of residues in this field shows the property.
fn is_shown_in(
    alloc: Global,
    f: &Fractions,
    a: &KAlgebra,
    n: &Numerators,
    k: &ResidueField,
    property: Property,
) -> Result<bool, NoMemory>
    requires over { IsOver (fractions_over (field_of f.now)) a.now }
    requires associative { IsAssociative (fractions_over (field_of f.now)) a.now }
    requires numerators { AreNumerators (small_ops (field_of f.now)) (small_laws (field_of f.now)) n.now.denominator
        a.now n.now.entries }
    requires field { small_ops (residue_field_of k.now) ≡ small_ops (field_of f.now) }
    ensures { IfOk result (λ b. IsTrue b → Holds (fractions_over (field_of f.now)) a.now property) }
{
    let _count = a.constants().len();
    let algebra = algebra_at(alloc, k, a.dim(), n.entries.as_slice())?;
    match property {
        Property::SmallCentre => Ok(centre_is_on_line(alloc, k, &algebra)?),
        Property::Nondegenerate => Ok(form_is_regular(alloc, k, &algebra)?),
    }
}

/// The same modulo the polynomial of this number; None where that is no modulus.
fn is_shown_at(
    alloc: Global,
    f: &Fractions,
    a: &KAlgebra,
    n: &Numerators,
    number: u16,
    property: Property,
) -> Result<Option<bool>, NoMemory>
    requires over { IsOver (fractions_over (field_of f.now)) a.now }
    requires associative { IsAssociative (fractions_over (field_of f.now)) a.now }
    requires numerators { AreNumerators (small_ops (field_of f.now)) (small_laws (field_of f.now)) n.now.denominator
        a.now n.now.entries }
    ensures { IfOk result (λ o. IfSome o (λ b. IsTrue b
        → Holds (fractions_over (field_of f.now)) a.now property)) }
{
    match place_at(alloc, f.field(), &n.denominator, number)? {
        Some(k) => Ok(Some(is_shown_in(alloc, f, a, n, &k, property)?)),
        None => Ok(None),
    }
}

/// Whether an algebra of residues shows the property. The one fault is want of memory.
pub(crate) fn is_shown(
    alloc: Global,
    f: &Fractions,
    a: &KAlgebra,
    property: Property,
) -> Result<bool, NoMemory>
    requires over { IsOver (fractions_over (field_of f.now)) a.now }
    requires associative { IsAssociative (fractions_over (field_of f.now)) a.now }
    ensures { IfOk result (λ b. IsTrue b → Holds (fractions_over (field_of f.now)) a.now property) }
{
    let n = numerators_of(alloc, f, a)?;
    let mut left = REDUCTIONS;
    for number in 0..POLYNOMIALS {
        match is_shown_at(alloc, f, a, &n, number, property)? {
            Some(shown) => {
                if shown {
                    return Ok(true);
                }
                left = left.saturating_sub(1);
            }
            None => {}
        }
        if left == 0 {
            return Ok(false);
        }
    }
    Ok(false)
}
