// The monic generator of an ideal of polynomials.
ghost use Rattle.std.specs.Prelude.{◌≡◌, ◌≢◌, [], All, IfOk};
ghost use Rattle.theory_rings.specs.Polynomial.{IsTrimmed};
ghost use Rattle.spl_field.specs.SmallField.{small_ops};
ghost use Rattle.spl_poly.specs.Operations.{IsOver, Divides, IsZeroOrMonic};
ghost use Rattle.spl_lattice.specs.Ideal.{IsGenerator};
ghost use Rattle.spl_lattice.specs.Steps.{AreMultiples, IsExtension, IsMultiple};

use crate::euclid::{
    Combination, constant, divides, greatest_divisor, know_laws, know_trimmed, lead_inverse, one,
    zero,
};
use crate::rows::PolyRow;
use spl_field::field::NoMemory;
use spl_field::small::SmallField;
use spl_poly::poly::Poly;
use std::alloc::Global;

/// A generator of an ideal, and multipliers that combine it from the polynomials of a list.
#[derive(Drop)]
pub struct IdealGenerator {
    pub value: Poly,
    pub multipliers: PolyRow,
}

/// The products of u and each item.
fn multiples(alloc: Global, f: &SmallField, u: &Poly, items: &[Poly]) -> Result<PolyRow, NoMemory>
    requires u_over { IsOver (small_ops f.now) u.now }
    requires items_over { All (IsOver (small_ops f.now)) items.now }
    ensures value { IfOk result (AreMultiples (small_ops f.now) u.now items.now) }
    ensures over { IfOk result (All (IsOver (small_ops f.now))) }
    ensures trimmed { IfOk result (All (IsTrimmed 0)) }
{
    let mut products = PolyRow::new(alloc);
    for item in items {
        products.push(u.mul(alloc, f, item)?)?;
    }
    Ok(products)
}

/// The generator for a further polynomial b, where the earlier one is 0: it is b.
fn first_value(
    alloc: Global,
    f: &SmallField,
    found: IdealGenerator,
    b: &Poly,
) -> Result<IdealGenerator, NoMemory>
    requires value_over { IsOver (small_ops f.now) found.value }
    requires multipliers_over { All (IsOver (small_ops f.now)) found.multipliers }
    requires multipliers_trimmed { All (IsTrimmed 0) found.multipliers }
    requires b_over { IsOver (small_ops f.now) b.now }
    requires zero { found.value ≡ [] }
    ensures value { IfOk result
        (λ g. IsExtension (small_ops f.now) found.value found.multipliers b.now g.value g.multipliers) }
    ensures over { IfOk result (λ g. IsOver (small_ops f.now) g.value) }
    ensures multipliers_over { IfOk result (λ g. All (IsOver (small_ops f.now)) g.multipliers) }
    ensures multipliers_trimmed { IfOk result (λ g. All (IsTrimmed 0) g.multipliers) }
{
    know_laws(f);
    let IdealGenerator {
        value,
        mut multipliers,
    } = found;
    multipliers.push(one(alloc, f)?)?;
    Ok(IdealGenerator {
        value: b.copy(alloc, f)?,
        multipliers,
    })
}

/// The generator for a further polynomial b that the earlier one divides: it stays.
fn same_value(
    alloc: Global,
    f: &SmallField,
    found: IdealGenerator,
    b: &Poly,
) -> Result<IdealGenerator, NoMemory>
    requires value_over { IsOver (small_ops f.now) found.value }
    requires multipliers_over { All (IsOver (small_ops f.now)) found.multipliers }
    requires multipliers_trimmed { All (IsTrimmed 0) found.multipliers }
    requires b_over { IsOver (small_ops f.now) b.now }
    requires divides { Divides (small_ops f.now) found.value b.now }
    ensures value { IfOk result
        (λ g. IsExtension (small_ops f.now) found.value found.multipliers b.now g.value g.multipliers) }
    ensures over { IfOk result (λ g. IsOver (small_ops f.now) g.value) }
    ensures multipliers_over { IfOk result (λ g. All (IsOver (small_ops f.now)) g.multipliers) }
    ensures multipliers_trimmed { IfOk result (λ g. All (IsTrimmed 0) g.multipliers) }
{
    know_laws(f);
    let IdealGenerator {
        value,
        mut multipliers,
    } = found;
    multipliers.push(zero(alloc)?)?;
    Ok(IdealGenerator { value, multipliers })
}

/// The generator for a further polynomial b: a greatest common divisor of it and the earlier one.
fn new_value(
    alloc: Global,
    f: &SmallField,
    found: IdealGenerator,
    b: &Poly,
) -> Result<IdealGenerator, NoMemory>
    requires value_over { IsOver (small_ops f.now) found.value }
    requires multipliers_over { All (IsOver (small_ops f.now)) found.multipliers }
    requires multipliers_trimmed { All (IsTrimmed 0) found.multipliers }
    requires b_over { IsOver (small_ops f.now) b.now }
    ensures value { IfOk result
        (λ g. IsExtension (small_ops f.now) found.value found.multipliers b.now g.value g.multipliers) }
    ensures over { IfOk result (λ g. IsOver (small_ops f.now) g.value) }
    ensures multipliers_over { IfOk result (λ g. All (IsOver (small_ops f.now)) g.multipliers) }
    ensures multipliers_trimmed { IfOk result (λ g. All (IsTrimmed 0) g.multipliers) }
{
    let Combination { value, left, right } = greatest_divisor(alloc, f, &found.value, b)?;
    let mut multipliers = multiples(alloc, f, &left, found.multipliers.as_slice())?;
    know_trimmed(&right);
    multipliers.push(right)?;
    Ok(IdealGenerator { value, multipliers })
}

/// The generator for a further polynomial b.
fn extended(
    alloc: Global,
    f: &SmallField,
    found: IdealGenerator,
    b: &Poly,
) -> Result<IdealGenerator, NoMemory>
    requires value_over { IsOver (small_ops f.now) found.value }
    requires multipliers_over { All (IsOver (small_ops f.now)) found.multipliers }
    requires multipliers_trimmed { All (IsTrimmed 0) found.multipliers }
    requires b_over { IsOver (small_ops f.now) b.now }
    ensures value { IfOk result
        (λ g. IsExtension (small_ops f.now) found.value found.multipliers b.now g.value g.multipliers) }
    ensures over { IfOk result (λ g. IsOver (small_ops f.now) g.value) }
    ensures multipliers_over { IfOk result (λ g. All (IsOver (small_ops f.now)) g.multipliers) }
    ensures multipliers_trimmed { IfOk result (λ g. All (IsTrimmed 0) g.multipliers) }
{
    if found.value.is_zero() {
        return Ok(first_value(alloc, f, found, b)?);
    }
    if divides(alloc, f, &found.value, b)? {
        return Ok(same_value(alloc, f, found, b)?);
    }
    Ok(new_value(alloc, f, found, b)?)
}

/// The generator divided by its leading coefficient, where it is not 0.
fn divided_by_lead(
    alloc: Global,
    f: &SmallField,
    found: &IdealGenerator,
) -> Result<IdealGenerator, NoMemory>
    requires nonzero { found.now.value ≢ [] }
    requires value_over { IsOver (small_ops f.now) found.now.value }
    requires multipliers_over { All (IsOver (small_ops f.now)) found.now.multipliers }
    ensures value { IfOk result
        (λ g. IsMultiple (small_ops f.now) found.now.value found.now.multipliers g.value g.multipliers) }
    ensures monic { IfOk result (λ g. IsZeroOrMonic (small_ops f.now) g.value) }
    ensures over { IfOk result (λ g. IsOver (small_ops f.now) g.value) }
    ensures trimmed { IfOk result (λ g. IsTrimmed 0 g.value) }
    ensures multipliers_over { IfOk result (λ g. All (IsOver (small_ops f.now)) g.multipliers) }
    ensures multipliers_trimmed { IfOk result (λ g. All (IsTrimmed 0) g.multipliers) }
{
    know_laws(f);
    let unit = constant(alloc, f, lead_inverse(f, &found.value))?;
    Ok(IdealGenerator {
        value: found.value.monic(alloc, f)?,
        multipliers: multiples(alloc, f, &unit, found.multipliers.as_slice())?,
    })
}

/// The monic generator of the ideal that the polynomials generate, and multipliers that combine it from them; 0 where
/// all are 0, or there is none. The one fault is want of memory. (Cox, Little, O'Shea, Ideals, Varieties, and
/// Algorithms, chapter 1, section 5; Lang, Algebra, chapter IV.)
pub fn generator(alloc: Global, f: &SmallField, list: &PolyRow) -> Result<IdealGenerator, NoMemory>
    requires over { All (IsOver (small_ops f.now)) list.now }
    ensures value { IfOk result (λ g. IsGenerator (small_ops f.now) list.now g.multipliers g.value) }
    ensures over { IfOk result (λ g. IsOver (small_ops f.now) g.value) }
    ensures trimmed { IfOk result (λ g. IsTrimmed 0 g.value) }
    ensures multipliers_over { IfOk result (λ g. All (IsOver (small_ops f.now)) g.multipliers) }
    ensures multipliers_trimmed { IfOk result (λ g. All (IsTrimmed 0) g.multipliers) }
{
    know_laws(f);
    let mut found = IdealGenerator {
        value: zero(alloc)?,
        multipliers: PolyRow::new(alloc),
    };
    let items = list.as_slice();
    for item in items {
        found = extended(alloc, f, found, item)?;
    }
    if found.value.is_zero() {
        return Ok(found);
    }
    Ok(divided_by_lead(alloc, f, &found)?)
}
