// The constants of an algebra as polynomials over one denominator.
ghost use Rattle.std.specs.Prelude.{◌≡◌, length, All, IfOk};
ghost use Rattle.theory_rings.specs.Ops.{IsElem};
ghost use Rattle.theory_rings.specs.Polynomial.{IsTrimmed};
ghost use Rattle.spl_field.specs.SmallField.{small_ops, small_laws};
ghost use Rattle.spl_poly.specs.Operations.{IsOver, Divides};
ghost use Rattle.theory_fractions.specs.CommonDenominator.{as_fraction, Clears};
ghost use Rattle.spl_fraction.specs.Fractions.{field_of};
ghost use Rattle.spl_fraction.specs.FractionsOver.{fractions_over};
ghost use Rattle.theory_tables.specs.Structure.{IsOver as IsStructureOver};
ghost use Rattle.spl_numerators.specs.Numerators.{AreNumerators, HasMultiples};

use spl_algebra::algebra::Algebra;
use spl_field::field::NoMemory;
use spl_field::list::List;
use spl_field::small::SmallField;
use spl_fraction::field::Fractions;
use spl_fraction::fraction::Fraction;
use spl_poly::poly::Poly;
use std::alloc::Global;

/// The constants of an algebra: polynomials, and the one monic denominator of least degree.
#[derive(Drop)]
pub struct Numerators {
    pub denominator: Poly,
    pub entries: List<Poly>,
}

/// The product of a polynomial and a fraction whose denominator divides it, which is a polynomial. The one fault is want
/// of memory.
pub fn multiple_of(alloc: Global, f: &SmallField, c: &Poly, w: &Fraction) -> Result<Poly, NoMemory>
    requires c_over { IsOver (small_ops f.now) c.now }
    requires c_trimmed { IsTrimmed 0 c.now }
    requires elem { IsElem (fractions_over f.now) w.now }
    requires divides { Divides (small_ops f.now) w.now.1 c.now }
    ensures value { IfOk result (λ p. as_fraction (small_ops f.now) p
        ≡ (fractions_over f.now).mul (as_fraction (small_ops f.now) c.now) w.now) }
    ensures over { IfOk result (IsOver (small_ops f.now)) }
    ensures trimmed { IfOk result (IsTrimmed 0) }
{
    let division = c.divide(alloc, f, w.denominator())?;
    Ok(division.quotient.mul(alloc, f, w.numerator())?)
}

/// The products of a polynomial and each fraction, which are polynomials. The one fault is want of memory.
pub fn multiples_of(
    alloc: Global,
    f: &SmallField,
    c: &Poly,
    list: &[Fraction],
) -> Result<List<Poly>, NoMemory>
    requires c_over { IsOver (small_ops f.now) c.now }
    requires c_trimmed { IsTrimmed 0 c.now }
    requires elems { All (IsElem (fractions_over f.now)) list.now }
    requires clears { All (Clears (small_ops f.now) c.now) list.now }
    ensures { IfOk result (HasMultiples (small_ops f.now) (small_laws f.now) c.now list.now (length list.now)) }
{
    let mut items = List::new(alloc);
    for i in 0..list.len() {
        items.push(multiple_of(alloc, f, c, &list[i])?)?;
    }
    Ok(items)
}

/// The constants of the algebra as polynomials over the one monic denominator of least degree. The one fault is want of
/// memory.
pub fn numerators_of(
    alloc: Global,
    f: &Fractions,
    a: &Algebra<Fractions>,
) -> Result<Numerators, NoMemory>
    requires { IsStructureOver (fractions_over (field_of f.now)) a.now }
    ensures { IfOk result (λ n. AreNumerators (small_ops (field_of f.now)) (small_laws (field_of f.now)) n.denominator
        a.now n.entries) }
{
    let list = a.constants();
    let denominator = f.common_denominator(alloc, list)?;
    let entries = multiples_of(alloc, f.field(), &denominator, list)?;
    Ok(Numerators {
        denominator,
        entries,
    })
}
