// Whether the lattice of a basis, over the polynomials, lies in that of another.
ghost use Rattle.std.specs.Prelude.{◌≡◌, ◌≢◌, ◌↔◌, ℕ, List, [], length, get_or, map, IfOk, IfSome, None, IsTrue, All};
ghost use Rattle.spl_field.specs.SmallField.{small_ops, small_laws};
ghost use Rattle.spl_fraction.specs.Fractions.{field_of};
ghost use Rattle.spl_fraction.specs.FractionsOver.{fractions_over};
ghost use Rattle.theory_spaces.specs.Sets.{Within};
ghost use Rattle.theory_fractions.specs.PolynomialLists.{IsPolynomialList};
ghost use Rattle.theory_fractions.specs.CommonDenominator.{as_fraction};
ghost use Rattle.theory_rows.specs.Rows.{IsPolynomialMatrix};
ghost use Rattle.theory_bases.specs.TupleLattices.{TupleLattice};
ghost use Rattle.theory_bases.specs.Bases.{IsBasis, IsPolynomialFraction, fraction_over, tuples_of};
ghost use Rattle.spl_order.specs.Values.{HasRow, multiple_over};

use crate::basis::Basis;
use spl_field::field::NoMemory;
use spl_field::small::SmallField;
use spl_fraction::field::Fractions;
use spl_lattice::members::member;
use spl_lattice::reduced::{Reduced, reduce};
use spl_lattice::rows::PolyRow;
use spl_poly::poly::Poly;
use std::alloc::Global;

/// The polynomial that is d times this one over c; None exactly where there is none.
fn item_over(
    alloc: Global,
    f: &SmallField,
    d: &Poly,
    c: &Poly,
    item: &Poly,
) -> Result<Option<Poly>, NoMemory>
    requires d { IsPolynomialList (small_ops f.now) d.now }
    requires c { IsPolynomialList (small_ops f.now) c.now }
    requires nonzero { c.now ≢ [] }
    requires item { IsPolynomialList (small_ops f.now) item.now }
    ensures none { IfOk result (λ r. r ≡ None → (p : List ℕ) → IsPolynomialList (small_ops f.now) p
        → as_fraction (small_ops f.now) p
        ≡ multiple_over (small_ops f.now) (small_laws f.now) d.now c.now item.now → ⊥) }
    ensures polynomial { IfOk result (λ r. IfSome r (IsPolynomialList (small_ops f.now))) }
    ensures value { IfOk result (λ r. IfSome r (λ p. as_fraction (small_ops f.now) p
        ≡ multiple_over (small_ops f.now) (small_laws f.now) d.now c.now item.now)) }
{
    let product = d.mul(alloc, f, item)?;
    let division = product.divide(alloc, f, c)?;
    if division.remainder.is_zero() {
        return Ok(Some(division.quotient));
    }
    Ok(None)
}

/// The row that is d times this one over c; None exactly where there is none.
fn row_over(
    alloc: Global,
    f: &SmallField,
    d: &Poly,
    c: &Poly,
    row: &[Poly],
) -> Result<Option<PolyRow>, NoMemory>
    requires d { IsPolynomialList (small_ops f.now) d.now }
    requires c { IsPolynomialList (small_ops f.now) c.now }
    requires nonzero { c.now ≢ [] }
    requires row { All (IsPolynomialList (small_ops f.now)) row.now }
    ensures none { IfOk result (λ r. r ≡ None → (y : List (List ℕ))
        → HasRow (small_ops f.now) (λ j. multiple_over (small_ops f.now) (small_laws f.now) d.now c.now
        (get_or row.now j [])) (length row.now) y → ⊥) }
    ensures row { IfOk result (λ r. IfSome r (HasRow (small_ops f.now)
        (λ j. multiple_over (small_ops f.now) (small_laws f.now) d.now c.now (get_or row.now j []))
        (length row.now))) }
{
    let mut items = PolyRow::new(alloc);
    for i in 0..row.len() {
        match item_over(alloc, f, d, c, &row[i])? {
            None => return Ok(None),
            Some(item) => items.push(item)?,
        }
    }
    Ok(Some(items))
}

/// Whether the row over c is a combination, with polynomials as weights, of the reduced rows over d.
fn has_row(
    alloc: Global,
    f: &SmallField,
    rows: &Reduced,
    d: &Poly,
    c: &Poly,
    row: &[Poly],
) -> Result<bool, NoMemory>
    requires rows { IsPolynomialMatrix (small_ops f.now) (length row.now) rows.now.basis }
    requires d { IsPolynomialList (small_ops f.now) d.now }
    requires d_nonzero { d.now ≢ [] }
    requires c { IsPolynomialList (small_ops f.now) c.now }
    requires c_nonzero { c.now ≢ [] }
    requires row { All (IsPolynomialList (small_ops f.now)) row.now }
    ensures { IfOk result (λ r. IsTrue r ↔ TupleLattice (fractions_over f.now)
        (IsPolynomialFraction (small_ops f.now)) (length row.now)
        (tuples_of (small_ops f.now) (small_laws f.now) (record { denominator = d.now; numerators = rows.now.basis }))
        (map (fraction_over (small_ops f.now) (small_laws f.now) c.now) row.now)) }
{
    match row_over(alloc, f, d, c, row)? {
        None => Ok(false),
        Some(found) => Ok(member(alloc, f, rows, &found)?.is_some()),
    }
}

/// Whether the lattice over the polynomials of a basis of n tuples lies in that of another. The one fault is want of
/// memory. (Cohen, A Course in Computational Algebraic Number Theory, section 4.7.)
pub fn is_within(alloc: Global, f: &Fractions, a: &Basis, b: &Basis) -> Result<bool, NoMemory>
    requires { (n : ℕ) × IsBasis (small_ops (field_of f.now)) (small_laws (field_of f.now)) n a.now
        × IsBasis (small_ops (field_of f.now)) (small_laws (field_of f.now)) n b.now }
    ensures { IfOk result (λ r. (n : ℕ)
        → IsBasis (small_ops (field_of f.now)) (small_laws (field_of f.now)) n a.now
        → IsBasis (small_ops (field_of f.now)) (small_laws (field_of f.now)) n b.now
        → IsTrue r ↔ Within
        (TupleLattice (fractions_over (field_of f.now)) (IsPolynomialFraction (small_ops (field_of f.now))) n
        (tuples_of (small_ops (field_of f.now)) (small_laws (field_of f.now)) a.now))
        (TupleLattice (fractions_over (field_of f.now)) (IsPolynomialFraction (small_ops (field_of f.now))) n
        (tuples_of (small_ops (field_of f.now)) (small_laws (field_of f.now)) b.now))) }
{
    let rows = a.numerators().as_slice();
    let basis = reduce(alloc, f.field(), b.numerators())?;
    for i in 0..rows.len() {
        let row = rows[i].as_slice();
        if !has_row(
            alloc,
            f.field(),
            &basis,
            b.denominator(),
            a.denominator(),
            row,
        )? {
            return Ok(false);
        }
    }
    Ok(true)
}
