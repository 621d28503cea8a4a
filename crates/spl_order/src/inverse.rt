// The inverse of a matrix of polynomials, over one denominator.
ghost use Rattle.std.specs.Prelude.{◌≡◌, ◌≢◌, ℕ, ◌<◌, [], length, IfOk};
ghost use Rattle.spl_field.specs.SmallField.{small_ops, small_laws};
ghost use Rattle.theory_fractions.specs.PolynomialLists.{IsPolynomialList};
ghost use Rattle.theory_rows.specs.Rows.{IsPolynomialRow, IsPolynomialMatrix, InRowLattice, IsRowCombination};
ghost use Rattle.theory_rows.specs.Rows.{RowsAreIndependent};
ghost use Rattle.spl_order.specs.Values.{scaled_unit, IsScaledInverse, AreUnitCoordinates};

use crate::matrices::product;
use crate::units::{unit_row, with_row};
use spl_field::field::NoMemory;
use spl_field::small::SmallField;
use spl_lattice::lattices::kernel;
use spl_lattice::matrix::PolyMatrix;
use spl_lattice::members::member;
use spl_lattice::reduced::{Reduced, reduce};
use spl_lattice::rows::PolyRow;
use spl_poly::poly::Poly;
use std::alloc::Global;

/// Rows of polynomials which, over one polynomial other than 0, are the rows of an inverse.
#[derive(Drop)]
pub(crate) struct Inverse {
    pub(crate) rows: PolyMatrix,
    pub(crate) scale: Poly,
}

/// A multiple of d that, at the place i and else 0, is a row of the lattice of n independent rows of n polynomials: d
/// times a weight that the row of d has in a relation with the others.
fn scale_at(
    alloc: Global,
    f: &SmallField,
    basis: &PolyMatrix,
    n: usize,
    d: &Poly,
    i: usize,
) -> Result<Poly, NoMemory>
    requires basis { IsPolynomialMatrix (small_ops f.now) n basis.now }
    requires count { length basis.now ≡ n }
    requires independent { RowsAreIndependent (small_ops f.now) basis.now }
    requires d { IsPolynomialList (small_ops f.now) d.now }
    requires nonzero { d.now ≢ [] }
    requires place { i < n }
    ensures polynomial { IfOk result (IsPolynomialList (small_ops f.now)) }
    ensures nonzero { IfOk result (λ r. r ≢ []) }
    ensures member { IfOk result (λ r. InRowLattice (small_ops f.now) basis.now (scaled_unit r n i)) }
    ensures others { IfOk result (λ r. (j : ℕ) → InRowLattice (small_ops f.now) basis.now (scaled_unit d.now n j)
        → InRowLattice (small_ops f.now) basis.now (scaled_unit r n j)) }
{
    let unit = unit_row(alloc, f, d, n, i)?;
    let more = with_row(alloc, f, basis.as_slice(), unit)?;
    let relations = kernel(alloc, f, &more)?;
    let relation = &relations.as_slice()[0];
    Ok(d.mul(alloc, f, &relation.as_slice()[n])?)
}

/// A polynomial other than 0 whose multiples of the units are all in the lattice of n independent rows of n polynomials.
fn common_scale(
    alloc: Global,
    f: &SmallField,
    basis: &PolyMatrix,
    n: usize,
) -> Result<Poly, NoMemory>
    requires basis { IsPolynomialMatrix (small_ops f.now) n basis.now }
    requires count { length basis.now ≡ n }
    requires independent { RowsAreIndependent (small_ops f.now) basis.now }
    ensures polynomial { IfOk result (IsPolynomialList (small_ops f.now)) }
    ensures nonzero { IfOk result (λ r. r ≢ []) }
    ensures members { IfOk result (λ r. (j : ℕ) → j < n
        → InRowLattice (small_ops f.now) basis.now (scaled_unit r n j)) }
{
    let mut scale = Poly::from_slice(alloc, &[1])?;
    for i in 0..n {
        scale = scale_at(alloc, f, basis, n, &scale, i)?;
    }
    Ok(scale)
}

/// The coordinates in reduced rows of a multiple of the unit i that is in their lattice.
fn unit_coordinates(
    alloc: Global,
    f: &SmallField,
    reduced: &Reduced,
    n: usize,
    d: &Poly,
    i: usize,
) -> Result<PolyRow, NoMemory>
    requires basis { IsPolynomialMatrix (small_ops f.now) n reduced.now.basis }
    requires d { IsPolynomialList (small_ops f.now) d.now }
    requires member { InRowLattice (small_ops f.now) reduced.now.basis (scaled_unit d.now n i) }
    ensures row { IfOk result (IsPolynomialRow (small_ops f.now) (length reduced.now.basis)) }
    ensures value { IfOk result (λ r. IsRowCombination (small_ops f.now) r reduced.now.basis (scaled_unit d.now n i)) }
{
    let unit = unit_row(alloc, f, d, n, i)?;
    let found = member(alloc, f, reduced, &unit)?;
    Ok(found.unwrap())
}

/// The same of all units.
fn all_coordinates(
    alloc: Global,
    f: &SmallField,
    reduced: &Reduced,
    n: usize,
    d: &Poly,
) -> Result<PolyMatrix, NoMemory>
    requires basis { IsPolynomialMatrix (small_ops f.now) n reduced.now.basis }
    requires d { IsPolynomialList (small_ops f.now) d.now }
    requires members { (j : ℕ) → j < n → InRowLattice (small_ops f.now) reduced.now.basis (scaled_unit d.now n j) }
    ensures { IfOk result (AreUnitCoordinates (small_ops f.now) reduced.now.basis n d.now n) }
{
    let mut rows = PolyMatrix::new(alloc);
    for i in 0..n {
        rows.push(unit_coordinates(alloc, f, reduced, n, d, i)?)?;
    }
    Ok(rows)
}

/// The inverse of n independent rows of n polynomials: rows whose product with them is a polynomial other than 0 on the
/// diagonal. The one fault is want of memory.
pub(crate) fn inverse_rows(
    alloc: Global,
    f: &SmallField,
    rows: &PolyMatrix,
) -> Result<Inverse, NoMemory>
    requires rows { IsPolynomialMatrix (small_ops f.now) (length rows.now) rows.now }
    requires independent { RowsAreIndependent (small_ops f.now) rows.now }
    ensures { IfOk result (λ r. IsScaledInverse (small_ops f.now) (small_laws f.now) (length rows.now) rows.now
        r.rows r.scale) }
{
    let n = rows.len();
    let reduced = reduce(alloc, f, rows)?;
    let scale = common_scale(alloc, f, reduced.basis(), n)?;
    let coordinates = all_coordinates(alloc, f, &reduced, n, &scale)?;
    let rows = product(
        alloc,
        f,
        coordinates.as_slice(),
        reduced.transform().as_slice(),
        n,
    )?;
    Ok(Inverse { rows, scale })
}
