// Images of lattices modulo a place's polynomial, in the residues of an order that holds them.
ghost use Rattle.std.specs.Prelude.{◌≡◌, ◌≢◌, ◌<◌, ℕ, [], length, get_or, IfOk};
ghost use Rattle.spl_field.specs.SmallField.{small_ops, small_laws};
ghost use Rattle.spl_fraction.specs.Fractions.{field_of};
ghost use Rattle.spl_fraction.specs.FractionsOver.{fractions_over};
ghost use Rattle.spl_residue.specs.Residue.{field_of as residue_field_of, polynomial_of, residue_ops};
ghost use Rattle.theory_spaces.specs.Sets.{Within};
ghost use Rattle.theory_tables.specs.Subspace.{IsSubspace};
ghost use Rattle.theory_fractions.specs.PolynomialLists.{IsPolynomialList};
ghost use Rattle.theory_places.specs.Places.{Finite};
ghost use Rattle.theory_places.specs.FractionPlaces.{IsIntegralAt, IsMonicIrreducible};
ghost use Rattle.theory_rows.specs.Rows.{IsPolynomialMatrix};
ghost use Rattle.theory_bases.specs.TupleLattices.{TupleLattice};
ghost use Rattle.theory_bases.specs.Bases.{IsBasis, fraction_over, tuples_of};
ghost use Rattle.spl_order.specs.Residues.{AreResiduesOver, IsResidueField};
ghost use Rattle.spl_order.specs.Images.{AreCoordinateResidues, IsImageOf};

use crate::basis::Basis;
use crate::columns::coordinate_columns;
use crate::matrices::product;
use crate::residue_algebra::residues_over;
use spl_field::field::NoMemory;
use spl_field::list::Vector;
use spl_fraction::field::Fractions;
use spl_lattice::rows::PolyRow;
use spl_matrix::subspace::{Subspace, span_of};
use spl_poly::poly::Poly;
use spl_residue::field::ResidueField;
use std::alloc::Global;

/// The residues of the rows of n polynomials over the denominator, which are integral.
fn residue_rows(
    alloc: Global,
    f: &Fractions,
    k: &ResidueField,
    d: &Poly,
    rows: &[PolyRow],
    n: usize,
) -> Result<Vec<Vector<ResidueField>>, NoMemory>
    requires field { small_ops (residue_field_of k.now) ≡ small_ops (field_of f.now) }
    requires place { IsMonicIrreducible (small_ops (field_of f.now)) (polynomial_of k.now) }
    requires d { IsPolynomialList (small_ops (field_of f.now)) d.now }
    requires nonzero { d.now ≢ [] }
    requires rows { IsPolynomialMatrix (small_ops (field_of f.now)) n rows.now }
    requires integral { (i l : ℕ) → i < length rows.now → l < n
        → IsIntegralAt (small_ops (field_of f.now)) (Finite (polynomial_of k.now))
        (fraction_over (small_ops (field_of f.now)) (small_laws (field_of f.now)) d.now
        (get_or (get_or rows.now i []) l [])) }
    ensures count { IfOk result (λ r. length r.items ≡ length rows.now) }
    ensures each { IfOk result (λ r. (i : ℕ) → i < length rows.now → AreResiduesOver (small_ops (field_of f.now))
        (small_laws (field_of f.now)) (polynomial_of k.now) (residue_ops k.now) d.now (get_or rows.now i []) n
        (get_or r.items i [])) }
{
    let _ = n;
    let mut residues = Vec::new(alloc);
    for i in 0..rows.len() {
        residues.push(residues_over(alloc, f, k, d, rows[i].as_slice())?)?;
    }
    Ok(residues)
}

/// The residues of the coordinates of a basis in that of an order whose lattice at the place holds its.
fn coordinate_residues(
    alloc: Global,
    f: &Fractions,
    k: &ResidueField,
    order: &Basis,
    inside: &Basis,
    n: usize,
) -> Result<Vec<Vector<ResidueField>>, NoMemory>
    requires field { small_ops (residue_field_of k.now) ≡ small_ops (field_of f.now) }
    requires place { IsMonicIrreducible (small_ops (field_of f.now)) (polynomial_of k.now) }
    requires order { IsBasis (small_ops (field_of f.now)) (small_laws (field_of f.now)) n order.now }
    requires inside { IsBasis (small_ops (field_of f.now)) (small_laws (field_of f.now)) n inside.now }
    requires within { Within
        (TupleLattice (fractions_over (field_of f.now))
        (IsIntegralAt (small_ops (field_of f.now)) (Finite (polynomial_of k.now))) n
        (tuples_of (small_ops (field_of f.now)) (small_laws (field_of f.now)) inside.now))
        (TupleLattice (fractions_over (field_of f.now))
        (IsIntegralAt (small_ops (field_of f.now)) (Finite (polynomial_of k.now))) n
        (tuples_of (small_ops (field_of f.now)) (small_laws (field_of f.now)) order.now)) }
    ensures { IfOk result (λ r. AreCoordinateResidues (small_ops (field_of f.now)) (small_laws (field_of f.now))
        (polynomial_of k.now) (residue_ops k.now) n
        (tuples_of (small_ops (field_of f.now)) (small_laws (field_of f.now)) order.now)
        (tuples_of (small_ops (field_of f.now)) (small_laws (field_of f.now)) inside.now) r.items) }
{
    let found = coordinate_columns(alloc, f.field(), order, n, inside.denominator())?;
    let rows = product(
        alloc,
        f.field(),
        inside.numerators().as_slice(),
        found.columns.as_slice(),
        n,
    )?;
    let residues = residue_rows(alloc, f, k, &found.scale, rows.as_slice(), n)?;
    Ok(residues)
}

/// The image modulo the place of the lattice of a basis that lies in that of an order at the place: in the order modulo
/// the place, on the images of its basis, the span of the residues of the coordinates. The one fault is want of memory.
/// (Reiner, Maximal Orders, sections 6 and 39.)
pub fn image_of(
    alloc: Global,
    f: &Fractions,
    k: &ResidueField,
    order: &Basis,
    inside: &Basis,
    place: &Poly,
) -> Result<Subspace<ResidueField>, NoMemory>
    requires field { IsResidueField (field_of f.now) place.now k.now }
    requires place { IsMonicIrreducible (small_ops (field_of f.now)) place.now }
    requires bases { (n : ℕ) × IsBasis (small_ops (field_of f.now)) (small_laws (field_of f.now)) n order.now
        × IsBasis (small_ops (field_of f.now)) (small_laws (field_of f.now)) n inside.now
        × Within
        (TupleLattice (fractions_over (field_of f.now)) (IsIntegralAt (small_ops (field_of f.now)) (Finite place.now)) n
        (tuples_of (small_ops (field_of f.now)) (small_laws (field_of f.now)) inside.now))
        (TupleLattice (fractions_over (field_of f.now)) (IsIntegralAt (small_ops (field_of f.now)) (Finite place.now)) n
        (tuples_of (small_ops (field_of f.now)) (small_laws (field_of f.now)) order.now)) }
    ensures subspace { IfOk result (IsSubspace (residue_ops k.now)) }
    ensures width { IfOk result (λ r. (n : ℕ)
        → IsBasis (small_ops (field_of f.now)) (small_laws (field_of f.now)) n order.now → r.width ≡ n) }
    ensures image { IfOk result (λ r. (n : ℕ)
        → IsBasis (small_ops (field_of f.now)) (small_laws (field_of f.now)) n order.now
        → IsImageOf (small_ops (field_of f.now)) (small_laws (field_of f.now)) place.now (residue_ops k.now) n
        (tuples_of (small_ops (field_of f.now)) (small_laws (field_of f.now)) order.now)
        (tuples_of (small_ops (field_of f.now)) (small_laws (field_of f.now)) inside.now) r.rows) }
{
    let _ = place;
    let n = order.numerators().len();
    let rows = coordinate_residues(alloc, f, k, order, inside, n)?;
    let image = span_of(alloc, k, n, rows)?;
    Ok(image)
}
