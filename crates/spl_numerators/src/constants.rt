// Algebras over the rational functions whose constants lie in the field of the coefficients: in these the small field's
// own operations tell what associates.
ghost use Rattle.std.specs.Prelude.{◌≡◌, ◌↔◌, ◌<◌, IsTrue, All, IfOk, IfSome, MatchOption, length};
ghost use Rattle.theory_rings.specs.Ops.{IsElem};
ghost use Rattle.spl_field.specs.SmallField.{small_ops, small_laws};
ghost use Rattle.spl_fraction.specs.FractionsOver.{fractions_over};
ghost use Rattle.theory_tables.specs.Structure.{IsOver, IsAssociative};
ghost use Rattle.spl_algebra.specs.Triple.{IsFirstFailed};
ghost use Rattle.spl_numerators.specs.Constants.{IsShort, constant_fraction, AreConstantFractions, IsExtensionOf};

use spl_algebra::algebra::Algebra;
use spl_algebra::triple::Triple;
use spl_field::field::NoMemory;
use spl_field::list::{List, Vector};
use spl_field::small::SmallField;
use spl_fraction::field::Fractions;
use spl_fraction::fraction::Fraction;
use std::alloc::Global;

/// Whether the fraction is a constant.
fn is_constant(w: &Fraction) -> bool
    ensures { IsTrue result ↔ IsShort w.now }
{
    w.numerator().as_slice().len() <= 1 && w.denominator().as_slice().len() <= 1
}

/// The constant.
fn constant(f: &SmallField, w: &Fraction) -> u8
    requires elem { IsElem (fractions_over f.now) w.now }
    requires short { IsShort w.now }
    ensures elem { IsElem (small_ops f.now) result }
    ensures value { w.now ≡ constant_fraction (small_ops f.now) result }
{
    let _ = f;
    let numerator = w.numerator().as_slice();
    if numerator.len() == 0 {
        return 0;
    }
    numerator[0]
}

/// The fractions as constants, where they all are.
fn constants_of(
    alloc: Global,
    f: &SmallField,
    list: &[Fraction],
) -> Result<Option<Vector<SmallField>>, NoMemory>
    requires { All (IsElem (fractions_over f.now)) list.now }
    ensures { IfOk result (λ r. IfSome r (AreConstantFractions (small_ops f.now) list.now (length list.now))) }
{
    let mut items = List::new(alloc);
    for i in 0..list.len() {
        if !is_constant(&list[i]) {
            return Ok(None);
        }
        items.push(constant(f, &list[i]))?;
    }
    Ok(Some(items))
}

/// The algebra over the small field with the same constants, where they all lie in it.
pub(crate) fn small_algebra(
    alloc: Global,
    f: &SmallField,
    a: &Algebra<Fractions>,
) -> Result<Option<Algebra<SmallField>>, NoMemory>
    requires { IsOver (fractions_over f.now) a.now }
    ensures { IfOk result (λ r. IfSome r (IsExtensionOf (small_ops f.now) (small_laws f.now) a.now)) }
{
    match constants_of(alloc, f, a.constants())? {
        Some(items) => Ok(Some(Algebra::new(alloc, f, a.dim(), items)?)),
        None => Ok(None),
    }
}

/// The first failed triple of the algebra with these constants, over the small field.
pub(crate) fn first_by_constants(
    alloc: Global,
    f: &SmallField,
    a: &Algebra<Fractions>,
    b: &Algebra<SmallField>,
) -> Result<Option<Triple>, NoMemory>
    requires { IsExtensionOf (small_ops f.now) (small_laws f.now) a.now b.now }
    ensures { IfOk result (λ r. MatchOption r (IsAssociative (fractions_over f.now) a.now)
        (IsFirstFailed (fractions_over f.now) a.now)) }
{
    let _ = a;
    Ok(b.first_failed_triple(alloc, f)?)
}
