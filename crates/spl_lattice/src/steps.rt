// One step of the reduction of rows: a multiple of one row is taken away from another.
ghost use Rattle.std.specs.Prelude.{◌≡◌, ◌≢◌, ◌<◌, [], length, IfOk, get_or};
ghost use Rattle.theory_rings.specs.Polynomial.{IsTrimmed};
ghost use Rattle.theory_rows.specs.Rows.{IsPolynomialRow};
ghost use Rattle.spl_field.specs.SmallField.{small_ops};
ghost use Rattle.spl_poly.specs.Operations.{IsOver};
ghost use Rattle.spl_lattice.specs.Reduction.{IsNegative, IsRowWithMultiple, IsRowLess, IsRowRest};
ghost use Rattle.spl_lattice.specs.Steps.{IsSumWithMultiple};

use crate::euclid::{constant, know_laws};
use crate::rows::PolyRow;
use spl_field::field::NoMemory;
use spl_field::small::SmallField;
use spl_poly::poly::Poly;
use std::alloc::Global;

/// The negative.
fn negative(alloc: Global, f: &SmallField, a: &Poly) -> Result<Poly, NoMemory>
    requires { IsOver (small_ops f.now) a.now }
    ensures value { IfOk result (IsNegative (small_ops f.now) a.now) }
    ensures over { IfOk result (IsOver (small_ops f.now)) }
{
    know_laws(f);
    let opposite = constant(alloc, f, f.negative(1))?;
    Ok(a.mul(alloc, f, &opposite)?)
}

/// The sum of a and m · b.
fn plus_multiple(
    alloc: Global,
    f: &SmallField,
    a: &Poly,
    m: &Poly,
    b: &Poly,
) -> Result<Poly, NoMemory>
    requires a_over { IsOver (small_ops f.now) a.now }
    requires m_over { IsOver (small_ops f.now) m.now }
    requires b_over { IsOver (small_ops f.now) b.now }
    ensures value { IfOk result (IsSumWithMultiple (small_ops f.now) a.now m.now b.now) }
    ensures over { IfOk result (IsOver (small_ops f.now)) }
    ensures trimmed { IfOk result (IsTrimmed 0) }
{
    know_laws(f);
    if b.is_zero() {
        return Ok(a.copy(alloc, f)?);
    }
    let product = m.mul(alloc, f, b)?;
    Ok(a.add(alloc, f, &product)?)
}

/// The row and m times another, entry by entry in its place.
fn add_multiple(
    alloc: Global,
    f: &SmallField,
    mut row: PolyRow,
    m: &Poly,
    by: &[Poly],
) -> Result<PolyRow, NoMemory>
    requires row { IsPolynomialRow (small_ops f.now) (length row) row }
    requires m_over { IsOver (small_ops f.now) m.now }
    requires by { IsPolynomialRow (small_ops f.now) (length row) by.now }
    ensures value { IfOk result (IsRowWithMultiple (small_ops f.now) row m.now by.now) }
    ensures row { IfOk result (IsPolynomialRow (small_ops f.now) (length row)) }
{
    for j in 0..by.len() {
        let entry = plus_multiple(alloc, f, &row.as_slice()[j], m, &by[j])?;
        row.set(j, entry);
    }
    Ok(row)
}

/// The row less q times another.
pub(crate) fn less_multiple(
    alloc: Global,
    f: &SmallField,
    row: PolyRow,
    q: &Poly,
    by: &PolyRow,
) -> Result<PolyRow, NoMemory>
    requires row { IsPolynomialRow (small_ops f.now) (length row) row }
    requires q_over { IsOver (small_ops f.now) q.now }
    requires by { IsPolynomialRow (small_ops f.now) (length row) by.now }
    ensures value { IfOk result (IsRowLess (small_ops f.now) row q.now by.now) }
    ensures row { IfOk result (IsPolynomialRow (small_ops f.now) (length row)) }
{
    let multiple = negative(alloc, f, q)?;
    Ok(add_multiple(alloc, f, row, &multiple, by.as_slice())?)
}

/// The row less a multiple of another, by which its entry at p becomes the remainder by that of the other.
pub(crate) fn without_multiple(
    alloc: Global,
    f: &SmallField,
    row: PolyRow,
    by: &PolyRow,
    p: usize,
) -> Result<PolyRow, NoMemory>
    requires row { IsPolynomialRow (small_ops f.now) (length row) row }
    requires by { IsPolynomialRow (small_ops f.now) (length row) by.now }
    requires place { p < length row }
    requires nonzero { get_or by.now p [] ≢ [] }
    ensures value { IfOk result (IsRowRest (small_ops f.now) p row by.now) }
    ensures row { IfOk result (IsPolynomialRow (small_ops f.now) (length row)) }
{
    let division = row.as_slice()[p].divide(alloc, f, &by.as_slice()[p])?;
    Ok(less_multiple(alloc, f, row, &division.quotient, by)?)
}
