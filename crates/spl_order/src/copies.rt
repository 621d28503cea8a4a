// Copies of rows of polynomials.
ghost use Rattle.std.specs.Prelude.{◌≡◌, IfOk, All};
ghost use Rattle.spl_field.specs.SmallField.{small_ops};
ghost use Rattle.spl_poly.specs.Operations.{IsOver};

use spl_field::field::NoMemory;
use spl_field::small::SmallField;
use spl_lattice::matrix::PolyMatrix;
use spl_lattice::rows::PolyRow;
use spl_poly::poly::Poly;
use std::alloc::Global;

/// An equal row.
pub(crate) fn copied_row(alloc: Global, f: &SmallField, row: &[Poly]) -> Result<PolyRow, NoMemory>
    requires { All (IsOver (small_ops f.now)) row.now }
    ensures { IfOk result (λ r. r ≡ row.now) }
{
    let mut copy = PolyRow::new(alloc);
    for item in row {
        copy.push(item.copy(alloc, f)?)?;
    }
    Ok(copy)
}

/// Equal rows.
pub(crate) fn copied_rows(
    alloc: Global,
    f: &SmallField,
    rows: &[PolyRow],
) -> Result<PolyMatrix, NoMemory>
    requires { All (All (IsOver (small_ops f.now))) rows.now }
    ensures { IfOk result (λ r. r ≡ rows.now) }
{
    let mut copies = PolyMatrix::new(alloc);
    for row in rows {
        copies.push(copied_row(alloc, f, row.as_slice())?)?;
    }
    Ok(copies)
}
