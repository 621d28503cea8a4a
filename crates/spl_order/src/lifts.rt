// Lifts of rows over a residue field, and the lattice of the combinations of a basis by them and of its multiples.
ghost use Rattle.std.specs.Prelude.{◌≡◌, ◌≢◌, ◌++◌, [], length, IfOk, All};
ghost use Rattle.theory_rings.specs.Ops.{IsElem};
ghost use Rattle.spl_field.specs.SmallField.{small_ops, small_laws};
ghost use Rattle.theory_fractions.specs.PolynomialLists.{IsOver, IsPolynomialList};
ghost use Rattle.spl_fraction.specs.FractionsOver.{fractions_over};
ghost use Rattle.theory_rows.specs.Rows.{IsPolynomialMatrix};
ghost use Rattle.theory_bases.specs.TupleLattices.{SameTupleLattice};
ghost use Rattle.theory_bases.specs.Bases.{IsBasis, IsPolynomialFraction, tuples_of};
ghost use Rattle.spl_residue.specs.Residue.{residue_ops};
ghost use Rattle.spl_order.specs.Lifts.{combined_tuples, multiple_tuples};

use crate::basis::Basis;
use crate::copies::copied_row;
use crate::lattice_bases::basis_of_lattice;
use crate::matrices::{product, row_multiples};
use spl_field::field::NoMemory;
use spl_field::list::Vector;
use spl_field::small::SmallField;
use spl_lattice::matrix::PolyMatrix;
use spl_lattice::rows::PolyRow;
use spl_poly::poly::Poly;
use spl_residue::elem::ResidueElem;
use spl_residue::field::ResidueField;
use std::alloc::Global;

/// The polynomials of the elements, which are of smaller degree than the modulus.
fn lifted_row(alloc: Global, k: &ResidueField, row: &[ResidueElem]) -> Result<PolyRow, NoMemory>
    requires { All (IsElem (residue_ops k.now)) row.now }
    ensures { IfOk result (λ r. r ≡ row.now) }
{
    let mut lifts = PolyRow::new(alloc);
    for item in row {
        lifts.push(k.lift(alloc, item)?)?;
    }
    Ok(lifts)
}

/// The same of each row.
pub(crate) fn lifted_rows(
    alloc: Global,
    k: &ResidueField,
    rows: &[Vector<ResidueField>],
) -> Result<PolyMatrix, NoMemory>
    requires { All (All (IsElem (residue_ops k.now))) rows.now }
    ensures { IfOk result (λ r. r ≡ rows.now) }
{
    let mut lifts = PolyMatrix::new(alloc);
    for row in rows {
        lifts.push(lifted_row(alloc, k, row.as_slice())?)?;
    }
    Ok(lifts)
}

/// The rows, and then copies of the others.
fn with_rows(
    alloc: Global,
    f: &SmallField,
    mut rows: PolyMatrix,
    more: &[PolyRow],
) -> Result<PolyMatrix, NoMemory>
    requires { All (All (IsOver (small_ops f.now))) more.now }
    ensures { IfOk result (λ r. r ≡ rows ++ more.now) }
{
    for row in more {
        rows.push(copied_row(alloc, f, row.as_slice())?)?;
    }
    Ok(rows)
}

/// A basis of the lattice, over the polynomials, of the combinations of the numerators of a basis by the weights, and of
/// these numerators times m, over c.
pub(crate) fn basis_of_lifts(
    alloc: Global,
    f: &SmallField,
    c: &Poly,
    m: &Poly,
    weights: &PolyMatrix,
    order: &Basis,
    n: usize,
) -> Result<Basis, NoMemory>
    requires c { IsPolynomialList (small_ops f.now) c.now }
    requires c_nonzero { c.now ≢ [] }
    requires m { IsPolynomialList (small_ops f.now) m.now }
    requires m_nonzero { m.now ≢ [] }
    requires weights { IsPolynomialMatrix (small_ops f.now) n weights.now }
    requires order { IsBasis (small_ops f.now) (small_laws f.now) n order.now }
    ensures basis { IfOk result (IsBasis (small_ops f.now) (small_laws f.now) n) }
    ensures lattice { IfOk result (λ b. SameTupleLattice (fractions_over f.now) (IsPolynomialFraction (small_ops f.now))
        n (combined_tuples (small_ops f.now) (small_laws f.now) n c.now weights.now order.now.numerators
        ++ multiple_tuples (small_ops f.now) (small_laws f.now) n c.now m.now order.now.numerators)
        (tuples_of (small_ops f.now) (small_laws f.now) b)) }
{
    let products = product(
        alloc,
        f,
        weights.as_slice(),
        order.numerators().as_slice(),
        n,
    )?;
    let multiples = row_multiples(alloc, f, m, order.numerators().as_slice(), n)?;
    let rows = with_rows(alloc, f, products, multiples.as_slice())?;
    let found = basis_of_lattice(alloc, f, c, &rows)?;
    Ok(found)
}
