// The constants of a table text.
ghost use Rattle.std.specs.Prelude.{◌≡◌, ◌<◌, ◌≤◌, ◌-◌, [], ◌∷◌, ◌++◌, length, replicate, All, Some, IfOk, OnOk};
ghost use Rattle.std.specs.List.{AllByRecursion};
ghost use Rattle.theory_rings.specs.Ops.{IsElem};
ghost use Rattle.spl_field.specs.SmallField.{small_ops, size_of};
ghost use Rattle.spl_text.specs.Text.{IsNumberList, IsFractionText, lists_of};
ghost use Rattle.spl_text.specs.FractionWords.{text_of};
ghost use Rattle.spl_poly.specs.Operations.{IsOver, without_zeros};
ghost use Rattle.theory_fractions.specs.Fraction.{IsLowestTerms, IsFraction};
ghost use Rattle.spl_fraction.specs.Fractions.{field_of};
ghost use Rattle.spl_fraction.specs.FractionsOver.{fractions_over};
ghost use Rattle.spl_table.specs.TableText.{IsOverZero};
ghost use Rattle.spl_table.specs.Table.{IsConstant, denominator_of};

use smallvec::SmallVec;
use spl_algebra::algebra::Constants;
use spl_field::field::{Field, NoMemory};
use spl_field::small::SmallField;
use spl_fraction::field::Fractions;
use spl_fraction::fraction::Fraction;
use spl_poly::poly::Poly;
use spl_text::fraction::FractionWords;
use spl_text::numbers::Numbers;
use std::alloc::Global;

/// The polynomial with these coefficients.
fn poly_of(alloc: Global, f: &SmallField, numbers: &[u32]) -> Result<Poly, NoMemory>
    requires { AllByRecursion (λ c. c < size_of f.now) numbers.now }
    ensures value { IfOk result (λ p. p ≡ without_zeros numbers.now) }
    ensures over { IfOk result (IsOver (small_ops f.now)) }
{
    let q = f.size();
    let mut bytes: SmallVec<u8, 16> = SmallVec::new(alloc);
    for number in numbers {
        prove!(*number < u32::from(q));
        bytes.push(*number as u8)?;
    }
    Poly::from_slice(alloc, bytes.as_slice())
}

/// The polynomial of the denominator, 1 where there is none.
fn denominator_poly(
    alloc: Global,
    f: &SmallField,
    denominator: &Option<Numbers>,
) -> Result<Poly, NoMemory>
    requires { AllByRecursion (λ c. c < size_of f.now) (denominator_of denominator.now) }
    ensures value { IfOk result (λ p. p ≡ without_zeros (denominator_of denominator.now)) }
    ensures over { IfOk result (IsOver (small_ops f.now)) }
{
    match denominator {
        Some(numbers) => poly_of(alloc, f, numbers.as_slice()),
        None => poly_of(alloc, f, &[1]),
    }
}

/// The fraction in lowest terms that a text has.
pub fn constant_of(
    alloc: Global,
    k: &Fractions,
    value: &FractionWords,
) -> Result<Fraction, NoMemory>
    requires form { IsFractionText (text_of value.now) }
    requires elements { AllByRecursion (AllByRecursion (λ c. c < size_of (field_of k.now)))
        (lists_of (text_of value.now)) }
    requires denominator { IsOverZero (text_of value.now) → ⊥ }
    ensures elem { IfOk result (IsElem (fractions_over (field_of k.now))) }
    ensures value { IfOk result (IsConstant (small_ops (field_of k.now)) (Some (text_of value.now))) }
{
    let numerator = poly_of(alloc, k.field(), value.numerator.as_slice())?;
    let denominator = denominator_poly(alloc, k.field(), &value.denominator)?;
    match k.make(alloc, &numerator, &denominator)? {
        Some(fraction) => Ok(fraction),
        None => k.zero(alloc),
    }
}

/// Appends zeros until there are so many constants.
pub fn push_zeros(
    alloc: Global,
    k: &Fractions,
    constants: &mut Constants<Fractions>,
    count: usize,
) -> Result<(), NoMemory>
    requires { length constants.old ≤ count }
    ensures items { OnOk result
        (constants.new ≡ constants.old ++ replicate (count - length constants.old) ([], 1 ∷ [])) }
    ensures over { All (IsElem (fractions_over (field_of k.now))) constants.old
        → OnOk result (All (IsElem (fractions_over (field_of k.now))) constants.new) }
{
    while constants.len() < count {
        constants.push(k.zero(alloc)?)?;
    }
    Ok(())
}
