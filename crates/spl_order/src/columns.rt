// Coordinates of rows of polynomials over a denominator, in a basis.
ghost use Rattle.std.specs.Prelude.{◌≢◌, [], IfOk};
ghost use Rattle.spl_field.specs.SmallField.{small_ops, small_laws};
ghost use Rattle.theory_fractions.specs.PolynomialLists.{IsPolynomialList};
ghost use Rattle.theory_bases.specs.Bases.{IsBasis, tuples_of};
ghost use Rattle.spl_order.specs.Members.{AreCoordinateColumns};

use crate::basis::Basis;
use crate::inverse::inverse_rows;
use crate::matrices::row_multiples;
use spl_field::field::NoMemory;
use spl_field::small::SmallField;
use spl_lattice::matrix::PolyMatrix;
use spl_poly::poly::Poly;
use std::alloc::Global;

/// Columns whose products with rows are, over a polynomial, coordinates.
#[derive(Drop)]
pub(crate) struct Columns {
    pub(crate) columns: PolyMatrix,
    pub(crate) scale: Poly,
}

/// The columns for the coordinates of rows over the denominator in a basis of n tuples.
pub(crate) fn coordinate_columns(
    alloc: Global,
    f: &SmallField,
    basis: &Basis,
    n: usize,
    denominator: &Poly,
) -> Result<Columns, NoMemory>
    requires basis { IsBasis (small_ops f.now) (small_laws f.now) n basis.now }
    requires denominator { IsPolynomialList (small_ops f.now) denominator.now }
    requires nonzero { denominator.now ≢ [] }
    ensures { IfOk result (λ r. AreCoordinateColumns (small_ops f.now) (small_laws f.now) n
        (tuples_of (small_ops f.now) (small_laws f.now) basis.now) denominator.now r.scale r.columns) }
{
    let inverse = inverse_rows(alloc, f, basis.numerators())?;
    let columns = row_multiples(alloc, f, basis.denominator(), inverse.rows.as_slice(), n)?;
    let scale = denominator.mul(alloc, f, &inverse.scale)?;
    Ok(Columns { columns, scale })
}
