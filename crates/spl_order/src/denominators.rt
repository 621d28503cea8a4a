// The least denominator of rows of polynomials over a denominator.
ghost use Rattle.std.specs.Prelude.{◌≡◌, ◌≢◌, [], ◌∷◌, ◌++◌, length, get_or, IfOk, All};
ghost use Rattle.spl_field.specs.SmallField.{small_ops, small_laws};
ghost use Rattle.spl_poly.specs.Operations.{IsOver};
ghost use Rattle.theory_fractions.specs.PolynomialLists.{IsPolynomialList};
ghost use Rattle.theory_rows.specs.Rows.{IsPolynomialMatrix};
ghost use Rattle.theory_bases.specs.Bases.{IsDenominatorOf, tuples_of};
ghost use Rattle.theory_bases.specs.Joined.{joined};

use spl_field::field::NoMemory;
use spl_field::small::SmallField;
use spl_lattice::generator::generator;
use spl_lattice::rows::PolyRow;
use spl_poly::poly::Poly;
use std::alloc::Global;

/// The list, and then copies of the items.
fn with_polynomials(
    alloc: Global,
    f: &SmallField,
    mut list: PolyRow,
    items: &[Poly],
) -> Result<PolyRow, NoMemory>
    requires { All (IsOver (small_ops f.now)) items.now }
    ensures { IfOk result (λ r. r ≡ list ++ items.now) }
{
    for item in items {
        list.push(item.copy(alloc, f)?)?;
    }
    Ok(list)
}

/// A polynomial, and then all of the rows, one row after the other.
fn joined_polynomials(
    alloc: Global,
    f: &SmallField,
    c: &Poly,
    rows: &[PolyRow],
) -> Result<PolyRow, NoMemory>
    requires c { IsOver (small_ops f.now) c.now }
    requires rows { All (All (IsOver (small_ops f.now))) rows.now }
    ensures { IfOk result (λ r. r ≡ c.now ∷ joined (length rows.now) (λ i. get_or rows.now i [])) }
{
    let mut list = PolyRow::new(alloc);
    list.push(c.copy(alloc, f)?)?;
    for i in 0..rows.len() {
        list = with_polynomials(alloc, f, list, rows[i].as_slice())?;
    }
    Ok(list)
}

/// The monic polynomial of least degree that makes each fraction of the tuples of the rows over c a polynomial.
pub(crate) fn least_denominator(
    alloc: Global,
    f: &SmallField,
    c: &Poly,
    rows: &[PolyRow],
    w: usize,
) -> Result<Poly, NoMemory>
    requires c { IsPolynomialList (small_ops f.now) c.now }
    requires nonzero { c.now ≢ [] }
    requires rows { IsPolynomialMatrix (small_ops f.now) w rows.now }
    ensures polynomial { IfOk result (IsPolynomialList (small_ops f.now)) }
    ensures least { IfOk result (IsDenominatorOf (small_ops f.now)
        (tuples_of (small_ops f.now) (small_laws f.now) (record { denominator = c.now; numerators = rows.now }))) }
{
    let _ = w;
    let list = joined_polynomials(alloc, f, c, rows)?;
    let divisor = generator(alloc, f, &list)?.value;
    let quotient = c.divide(alloc, f, &divisor)?.quotient;
    Ok(quotient.monic(alloc, f)?)
}
