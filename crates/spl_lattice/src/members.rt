// Whether a row is in the lattice of reduced rows, and its coordinates there.
ghost use Rattle.std.specs.Prelude.{◌≡◌, ◌≢◌, ℕ, ◌<◌, ◌≤◌, [], length, get_or, IfOk, OnOk, IfSome, All};
ghost use Rattle.theory_rows.specs.Rows.{IsPolynomialRow, IsPolynomialMatrix, InRowLattice, IsRowCombination};
ghost use Rattle.theory_rows.specs.LeadingPositions.{HasLeadingPosition, HaveLeadingPositions};
ghost use Rattle.spl_field.specs.SmallField.{small_ops};
ghost use Rattle.spl_poly.specs.Operations.{IsOver};
ghost use Rattle.spl_lattice.specs.Division.{IsSumAt, IsDivisionStep};

use crate::augmented::{copied, zeros};
use crate::euclid::know_laws;
use crate::positions::{divisor, leading_position};
use crate::reduced::Reduced;
use crate::rows::PolyRow;
use crate::steps::less_multiple;
use spl_field::field::NoMemory;
use spl_field::small::SmallField;
use spl_poly::poly::Poly;
use std::alloc::Global;

/// The leading position of the first w entries of a row that has one.
fn place(row: &[Poly], w: usize) -> usize
    requires width { w ≤ length row.now }
    requires leads { (p : ℕ) × HasLeadingPosition w row.now p }
    ensures { HasLeadingPosition w row.now result }
{
    leading_position(row, w).unwrap()
}

/// The leading positions of reduced rows of w entries.
fn places_of(alloc: Global, basis: &Reduced, w: usize) -> Result<Vec<usize>, NoMemory>
    requires { All (λ row. length row ≡ w) basis.now.basis }
    ensures { IfOk result (λ p. HaveLeadingPositions w basis.now.basis p.items) }
{
    let rows = basis.basis();
    let mut places = Vec::new(alloc);
    for i in 0..rows.len() {
        places.push(place(rows.as_slice()[i].as_slice(), w))?;
    }
    Ok(places)
}

/// Adds q to the entry at i.
fn add_at(
    alloc: Global,
    f: &SmallField,
    row: &mut PolyRow,
    i: usize,
    q: &Poly,
) -> Result<(), NoMemory>
    requires row { IsPolynomialRow (small_ops f.now) (length row.old) row.old }
    requires place { i < length row.old }
    requires over { IsOver (small_ops f.now) q.now }
    ensures { OnOk result (IsSumAt (small_ops f.now) i row.old q.now row.new) }
{
    let sum = row.as_slice()[i].add(alloc, f, q)?;
    row.set(i, sum);
    Ok(())
}

/// The row less the multiple of another by which its entry at p becomes the remainder by that of the other; the
/// quotient is added to the coordinate at i.
fn divide_at(
    alloc: Global,
    f: &SmallField,
    coordinates: &mut PolyRow,
    row: PolyRow,
    by: &PolyRow,
    p: usize,
    i: usize,
) -> Result<PolyRow, NoMemory>
    requires coordinates { IsPolynomialRow (small_ops f.now) (length coordinates.old) coordinates.old }
    requires row { IsPolynomialRow (small_ops f.now) (length row) row }
    requires by { IsPolynomialRow (small_ops f.now) (length row) by.now }
    requires coordinate { i < length coordinates.old }
    requires place { p < length row }
    requires nonzero { get_or by.now p [] ≢ [] }
    ensures value { IfOk result (λ r.
        IsDivisionStep (small_ops f.now) p i by.now row coordinates.old r coordinates.new) }
    ensures row { IfOk result (IsPolynomialRow (small_ops f.now) (length row)) }
{
    let division = row.as_slice()[p].divide(alloc, f, &by.as_slice()[p])?;
    add_at(alloc, f, coordinates, i, &division.quotient)?;
    Ok(less_multiple(alloc, f, row, &division.quotient, by)?)
}

/// The coordinates of the row in the basis, by which the rows of the basis combine to it; None exactly where it is not
/// in their lattice. Where the basis has no rows, the lattice holds rows of zeros alone. The one fault is want of
/// memory.
pub fn member(
    alloc: Global,
    f: &SmallField,
    basis: &Reduced,
    row: &PolyRow,
) -> Result<Option<PolyRow>, NoMemory>
    requires basis { IsPolynomialMatrix (small_ops f.now) (length row.now) basis.now.basis }
    requires row { IsPolynomialRow (small_ops f.now) (length row.now) row.now }
    ensures none { IfOk result (λ r. r ≡ None → InRowLattice (small_ops f.now) basis.now.basis row.now → ⊥) }
    ensures coordinates { IfOk result (λ r. IfSome r (IsPolynomialRow (small_ops f.now) (length basis.now.basis))) }
    ensures combination { IfOk result (λ r.
        IfSome r (λ c. IsRowCombination (small_ops f.now) c basis.now.basis row.now)) }
{
    know_laws(f);
    let w = row.len();
    let rows = basis.basis();
    let places = places_of(alloc, basis, w)?;
    let mut coordinates = zeros(alloc, rows.len())?;
    let mut rest = copied(alloc, f, row.as_slice())?;
    'steps: while let Some(i) = divisor(places.as_slice(), rows.as_slice(), rest.as_slice(), w) {
        rest = divide_at(
            alloc,
            f,
            &mut coordinates,
            rest,
            &rows.as_slice()[i],
            places[i],
            i,
        )?;
    }
    match leading_position(rest.as_slice(), w) {
        None => Ok(Some(coordinates)),
        Some(_) => Ok(None),
    }
}
