// Polynomials over a denominator as fractions.
ghost use Rattle.std.specs.Prelude.{◌≡◌, ◌≢◌, [], length, get_or, IfOk, All};
ghost use Rattle.theory_rings.specs.Sum.{table};
ghost use Rattle.theory_fractions.specs.PolynomialLists.{IsPolynomialList};
ghost use Rattle.spl_field.specs.SmallField.{small_ops, small_laws};
ghost use Rattle.spl_fraction.specs.Fractions.{field_of};
ghost use Rattle.theory_bases.specs.Bases.{fraction_over};

use spl_field::field::NoMemory;
use spl_fraction::field::Fractions;
use spl_fraction::fraction::Fraction;
use spl_fraction::tuples::{Tuple, Tuples};
use spl_lattice::rows::PolyRow;
use spl_poly::poly::Poly;
use std::alloc::Global;

/// The fraction num / den.
fn fraction(alloc: Global, f: &Fractions, num: &Poly, den: &Poly) -> Result<Fraction, NoMemory>
    requires num { IsPolynomialList (small_ops (field_of f.now)) num.now }
    requires den { IsPolynomialList (small_ops (field_of f.now)) den.now }
    requires nonzero { den.now ≢ [] }
    ensures { IfOk result (λ w.
        w ≡ fraction_over (small_ops (field_of f.now)) (small_laws (field_of f.now)) den.now num.now) }
{
    Ok(f.make(alloc, num, den)?.unwrap())
}

/// The fractions of the polynomials over the denominator.
fn tuple_over(alloc: Global, f: &Fractions, den: &Poly, row: &[Poly]) -> Result<Tuple, NoMemory>
    requires den { IsPolynomialList (small_ops (field_of f.now)) den.now }
    requires nonzero { den.now ≢ [] }
    requires row { All (IsPolynomialList (small_ops (field_of f.now))) row.now }
    ensures { IfOk result (λ r.
        r ≡ table (length row.now) (λ j.
        fraction_over (small_ops (field_of f.now)) (small_laws (field_of f.now)) den.now (get_or row.now j []))) }
{
    let mut tuple = Tuple::new(alloc);
    for j in 0..row.len() {
        tuple.push(fraction(alloc, f, &row[j], den)?)?;
    }
    Ok(tuple)
}

/// The tuples of the rows of polynomials over the denominator.
pub(crate) fn tuples_over(
    alloc: Global,
    f: &Fractions,
    den: &Poly,
    rows: &[PolyRow],
) -> Result<Tuples, NoMemory>
    requires den { IsPolynomialList (small_ops (field_of f.now)) den.now }
    requires nonzero { den.now ≢ [] }
    requires rows { All (All (IsPolynomialList (small_ops (field_of f.now)))) rows.now }
    ensures { IfOk result (λ r. r ≡ table (length rows.now) (λ i. table (length (get_or rows.now i [])) (λ j.
        fraction_over (small_ops (field_of f.now)) (small_laws (field_of f.now)) den.now
        (get_or (get_or rows.now i []) j [])))) }
{
    let mut tuples = Tuples::new(alloc);
    for i in 0..rows.len() {
        tuples.push(tuple_over(alloc, f, den, rows[i].as_slice())?)?;
    }
    Ok(tuples)
}
