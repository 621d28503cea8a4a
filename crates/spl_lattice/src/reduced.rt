// The reduction of rows of polynomials to weak Popov form.
ghost use Rattle.std.specs.Prelude.{◌≡◌, ◌+◌, ◌<◌, ◌≤◌, [], length, get_or, IfOk, pos};
ghost use Rattle.theory_rings.specs.Polynomial.{degree};
ghost use Rattle.theory_tables.specs.Matrix.{width_of};
ghost use Rattle.theory_rows.specs.Rows.{IsPolynomialMatrix, SameRowLattice, IsRowTransform};
ghost use Rattle.theory_rows.specs.LeadingPositions.{AreReducedRows, HaveLeadingPositions, HaveRowDegrees};
ghost use Rattle.theory_rows.specs.Augmented.{heads_of, tails_of, extended_by, unit_rows};
ghost use Rattle.spl_field.specs.SmallField.{small_ops};
ghost use Rattle.spl_lattice.specs.Reduction.{IsSplit, IsSplitOf};

use crate::augmented::{heads, insert_extended, tails, units};
use crate::euclid::know_laws;
use crate::matrix::{Degrees, PolyMatrix};
use crate::rows::PolyRow;
use crate::splits::Split;
use spl_field::field::NoMemory;
use spl_field::small::SmallField;
use std::alloc::Global;
use std::marker::Model;

/// Rows of polynomials in weak Popov form, none of them 0, with their degrees, and the transform that gave them. The
/// degree of a row is the greatest degree in it, its leading position the last column that reaches this degree; the
/// leading positions differ.
pub struct Reduced {
    basis: PolyMatrix,
    degrees: Degrees,
    transform: PolyMatrix,
}

impl Drop for Reduced {
    fn drop(self) {
        let Reduced {
            basis,
            degrees,
            transform,
        } = self;
    }
}

impl Model for Reduced {
    ghost use Rattle.std.specs.Prelude.{ℕ};
    ghost use Rattle.theory_tables.specs.Matrix.{width_of};
    ghost use Rattle.theory_rows.specs.LeadingPositions.{AreReducedRows};
    ghost use Rattle.spl_lattice.specs.ReducedForm.{ReducedForm};

    ghost Value = { ReducedForm ℕ };

    ghost view = { λ r. record { basis = r.basis; degrees = r.degrees; transform = r.transform } };

    ghost invariant = { λ r. AreReducedRows (width_of r.basis) r.basis r.degrees };
}

impl Reduced {
    /// The rows.
    pub fn basis(&self) -> &PolyMatrix
        ensures value { result.now ≡ self.now.basis }
        ensures reduced { AreReducedRows (width_of self.now.basis) self.now.basis self.now.degrees }
    {
        &self.basis
    }

    /// Their degrees.
    pub fn degrees(&self) -> &Degrees
        ensures { result.now ≡ self.now.degrees }
    {
        &self.degrees
    }

    /// The weights by which they are combined from the rows that were reduced.
    pub fn transform(&self) -> &PolyMatrix
        ensures { result.now ≡ self.now.transform }
    {
        &self.transform
    }
}

/// The number of columns, and 0 where there is no row.
pub(crate) fn width(rows: &PolyMatrix) -> usize
    ensures { result ≡ width_of rows.now }
{
    match rows.at(0) {
        Some(row) => row.len(),
        None => 0,
    }
}

/// The degree of the entry at place p, which is not 0.
fn degree_at(row: &PolyRow, p: usize) -> i64
    requires place { p < length row.now }
    requires nonzero { 0 < length (get_or row.now p []) }
    ensures { result ≡ pos (degree (get_or row.now p [])) }
{
    (row.as_slice()[p].as_slice().len() - 1) as i64
}

/// The degrees of the rows, by their leading positions in the first w columns.
fn degrees_of(
    alloc: Global,
    rows: &[PolyRow],
    places: &[usize],
    w: usize,
) -> Result<Degrees, NoMemory>
    requires { HaveLeadingPositions w rows.now places.now }
    ensures { IfOk result (HaveRowDegrees rows.now places.now) }
{
    let _ = w;
    let mut degrees = Degrees::new(alloc);
    for i in 0..rows.len() {
        degrees.push(degree_at(&rows[i], places[i]))?;
    }
    Ok(degrees)
}

/// The rows of w entries, each with its unit row, reduced in the first w columns.
pub(crate) fn split_with_units(
    alloc: Global,
    f: &SmallField,
    rows: &[PolyRow],
    w: usize,
) -> Result<Split, NoMemory>
    requires { IsPolynomialMatrix (small_ops f.now) w rows.now }
    ensures { IfOk result (λ s. IsSplitOf (small_ops f.now) w (w + length rows.now)
        (extended_by rows.now (unit_rows 1 (length rows.now))) s.basis.items s.places.items s.zeros.items) }
{
    know_laws(f);
    let tails = units(alloc, rows.len())?;
    let mut split = Split::new(alloc);
    insert_extended(alloc, f, &mut split, rows, tails.as_slice(), w, rows.len())?;
    Ok(split)
}

/// The reduced rows of w entries, with the n entries after them as their transform.
fn reduced_form(
    alloc: Global,
    f: &SmallField,
    split: &Split,
    w: usize,
    n: usize,
) -> Result<Reduced, NoMemory>
    requires { IsSplit (small_ops f.now) w (w + n) split.now.basis.items split.now.places.items split.now.zeros.items }
    ensures basis { IfOk result (λ r. r.basis ≡ heads_of w split.now.basis.items) }
    ensures transform { IfOk result (λ r. r.transform ≡ tails_of w split.now.basis.items) }
    ensures degrees { IfOk result (λ r. HaveRowDegrees r.basis split.now.places.items r.degrees) }
{
    let _ = n;
    know_laws(f);
    let basis = heads(alloc, f, split.basis.as_slice(), w)?;
    let degrees = degrees_of(alloc, basis.as_slice(), split.places.as_slice(), w)?;
    Ok(Reduced {
        basis,
        degrees,
        transform: tails(alloc, f, split.basis.as_slice(), w)?,
    })
}

/// The rows reduced to weak Popov form, by the algorithm of Mulders and Storjohann (On lattice reduction for polynomial
/// matrices): rows with the same row lattice, none of them 0, whose leading positions differ, with the transform that
/// gives them. The one fault is want of memory.
pub fn reduce(alloc: Global, f: &SmallField, rows: &PolyMatrix) -> Result<Reduced, NoMemory>
    requires { IsPolynomialMatrix (small_ops f.now) (width_of rows.now) rows.now }
    ensures matrix { IfOk result (λ r. IsPolynomialMatrix (small_ops f.now) (width_of rows.now) r.basis) }
    ensures lattice { IfOk result (λ r. SameRowLattice (small_ops f.now) (width_of rows.now) rows.now r.basis) }
    ensures reduced { IfOk result (λ r. AreReducedRows (width_of rows.now) r.basis r.degrees) }
    ensures transform { IfOk result (λ r. IsRowTransform (small_ops f.now) rows.now r.basis r.transform) }
{
    know_laws(f);
    let w = width(rows);
    let split = split_with_units(alloc, f, rows.as_slice(), w)?;
    Ok(reduced_form(alloc, f, &split, w, rows.len())?)
}
