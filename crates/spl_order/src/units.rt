// Rows that are a polynomial at one place, and else 0.
ghost use Rattle.std.specs.Prelude.{◌≡◌, [], ◌∷◌, ◌++◌, cond, nat_eq, IfOk, All};
ghost use Rattle.theory_rings.specs.Sum.{table};
ghost use Rattle.spl_field.specs.SmallField.{small_ops};
ghost use Rattle.spl_poly.specs.Operations.{IsOver};
ghost use Rattle.spl_order.specs.Values.{scaled_unit};

use crate::copies::copied_rows;
use spl_field::field::NoMemory;
use spl_field::small::SmallField;
use spl_lattice::matrix::PolyMatrix;
use spl_lattice::rows::PolyRow;
use spl_poly::poly::Poly;
use std::alloc::Global;

/// The polynomial, where the places are the same, and else 0.
fn unit_item(alloc: Global, f: &SmallField, c: &Poly, k: usize, i: usize) -> Result<Poly, NoMemory>
    requires { IsOver (small_ops f.now) c.now }
    ensures { IfOk result (λ r. r ≡ cond (nat_eq k i) c.now []) }
{
    if k == i {
        return Ok(c.copy(alloc, f)?);
    }
    Ok(Poly::from_slice(alloc, &[])?)
}

/// The row of n polynomials that is c at the place i, and else 0.
pub(crate) fn unit_row(
    alloc: Global,
    f: &SmallField,
    c: &Poly,
    n: usize,
    i: usize,
) -> Result<PolyRow, NoMemory>
    requires { IsOver (small_ops f.now) c.now }
    ensures { IfOk result (λ r. r ≡ scaled_unit c.now n i) }
{
    let mut row = PolyRow::new(alloc);
    for k in 0..n {
        row.push(unit_item(alloc, f, c, k, i)?)?;
    }
    Ok(row)
}

/// The n rows of n polynomials with c on the diagonal, and then one more.
pub(crate) fn units_and(
    alloc: Global,
    f: &SmallField,
    c: &Poly,
    n: usize,
    row: PolyRow,
) -> Result<PolyMatrix, NoMemory>
    requires { IsOver (small_ops f.now) c.now }
    ensures { IfOk result (λ r. r ≡ table n (scaled_unit c.now n) ++ row ∷ []) }
{
    let mut rows = PolyMatrix::new(alloc);
    for i in 0..n {
        rows.push(unit_row(alloc, f, c, n, i)?)?;
    }
    rows.push(row)?;
    Ok(rows)
}

/// Copies of the rows, and then one more.
pub(crate) fn with_row(
    alloc: Global,
    f: &SmallField,
    rows: &[PolyRow],
    row: PolyRow,
) -> Result<PolyMatrix, NoMemory>
    requires { All (All (IsOver (small_ops f.now))) rows.now }
    ensures { IfOk result (λ r. r ≡ rows.now ++ row ∷ []) }
{
    let mut all = copied_rows(alloc, f, rows)?;
    all.push(row)?;
    Ok(all)
}
