// Tuples of fractions as rows of polynomials over one denominator.
ghost use Rattle.std.specs.Prelude.{◌≡◌, ◌++◌, [], length, get_or, IfOk, All};
ghost use Rattle.theory_rings.specs.Ops.{IsElem};
ghost use Rattle.theory_rings.specs.Polynomial.{IsTrimmed};
ghost use Rattle.spl_field.specs.SmallField.{small_ops, small_laws};
ghost use Rattle.spl_poly.specs.Operations.{IsOver};
ghost use Rattle.theory_fractions.specs.CommonDenominator.{Clears};
ghost use Rattle.spl_fraction.specs.Fractions.{field_of};
ghost use Rattle.spl_fraction.specs.FractionsOver.{fractions_over};
ghost use Rattle.theory_bases.specs.Joined.{joined};
ghost use Rattle.spl_order.specs.Rows.{AreNumeratorRows};

use spl_field::field::{Field, NoMemory};
use spl_field::small::SmallField;
use spl_fraction::field::Fractions;
use spl_fraction::fraction::Fraction;
use spl_fraction::tuples::Tuple;
use spl_lattice::matrix::PolyMatrix;
use spl_numerators::numerators::multiples_of;
use spl_poly::poly::Poly;
use std::alloc::Global;

/// The list, and then copies of the items.
fn with_fractions(
    alloc: Global,
    f: &Fractions,
    mut list: Tuple,
    items: &[Fraction],
) -> Result<Tuple, NoMemory>
    requires { All (IsElem (fractions_over (field_of f.now))) items.now }
    ensures { IfOk result (λ r. r ≡ list ++ items.now) }
{
    for item in items {
        list.push(f.copy(alloc, item)?)?;
    }
    Ok(list)
}

/// The fractions of all tuples, one tuple after the other.
pub(crate) fn joined_fractions(
    alloc: Global,
    f: &Fractions,
    tuples: &[Tuple],
) -> Result<Tuple, NoMemory>
    requires { All (All (IsElem (fractions_over (field_of f.now)))) tuples.now }
    ensures { IfOk result (λ r. r ≡ joined (length tuples.now) (λ i. get_or tuples.now i [])) }
{
    let mut list = Tuple::new(alloc);
    for i in 0..tuples.len() {
        list = with_fractions(alloc, f, list, tuples[i].as_slice())?;
    }
    Ok(list)
}

/// The products of c, which each of the fractions times is a polynomial, and the fractions of each tuple.
pub(crate) fn numerator_rows(
    alloc: Global,
    f: &SmallField,
    c: &Poly,
    tuples: &[Tuple],
) -> Result<PolyMatrix, NoMemory>
    requires c_over { IsOver (small_ops f.now) c.now }
    requires c_trimmed { IsTrimmed 0 c.now }
    requires elems { All (All (IsElem (fractions_over f.now))) tuples.now }
    requires clears { All (All (Clears (small_ops f.now) c.now)) tuples.now }
    ensures { IfOk result (AreNumeratorRows (small_ops f.now) (small_laws f.now) c.now tuples.now
        (length tuples.now)) }
{
    let mut rows = PolyMatrix::new(alloc);
    for i in 0..tuples.len() {
        rows.push(multiples_of(alloc, f, c, tuples[i].as_slice())?)?;
    }
    Ok(rows)
}
