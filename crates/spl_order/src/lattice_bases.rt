// Bases from rows of polynomials over any denominator other than 0.
ghost use Rattle.std.specs.Prelude.{◌≡◌, ◌≢◌, ℕ, List, [], length, IfOk};
ghost use Rattle.spl_field.specs.SmallField.{small_ops, small_laws};
ghost use Rattle.theory_fractions.specs.PolynomialLists.{IsPolynomialList};
ghost use Rattle.theory_fractions.specs.Fraction.{Pair};
ghost use Rattle.theory_fractions.specs.FractionOps.{fraction_ops};
ghost use Rattle.theory_spaces.specs.Tuples.{IsTuple};
ghost use Rattle.theory_tables.specs.Matrix.{width_of};
ghost use Rattle.theory_tables.specs.Subspace.{InSpan, AreIndependent};
ghost use Rattle.theory_rows.specs.Rows.{IsPolynomialMatrix};
ghost use Rattle.theory_bases.specs.TupleLattices.{SameTupleLattice};
ghost use Rattle.theory_bases.specs.Bases.{IsBasis, IsPolynomialFraction, tuples_of};

use crate::basis::Basis;
use crate::denominators::least_denominator;
use crate::matrices::row_quotients;
use spl_field::field::NoMemory;
use spl_field::small::SmallField;
use spl_lattice::matrix::PolyMatrix;
use spl_lattice::reduced::reduce;
use spl_poly::poly::Poly;
use std::alloc::Global;

/// The basis whose tuples are those of the rows over c.
pub(crate) fn basis_from_rows(
    alloc: Global,
    f: &SmallField,
    c: &Poly,
    rows: &PolyMatrix,
) -> Result<Basis, NoMemory>
    requires c { IsPolynomialList (small_ops f.now) c.now }
    requires nonzero { c.now ≢ [] }
    requires rows { IsPolynomialMatrix (small_ops f.now) (length rows.now) rows.now }
    requires independent { AreIndependent (fraction_ops (small_ops f.now) (small_laws f.now)) (length rows.now)
        (tuples_of (small_ops f.now) (small_laws f.now) (record { denominator = c.now; numerators = rows.now })) }
    ensures basis { IfOk result (IsBasis (small_ops f.now) (small_laws f.now) (length rows.now)) }
    ensures tuples { IfOk result (λ b. tuples_of (small_ops f.now) (small_laws f.now) b
        ≡ tuples_of (small_ops f.now) (small_laws f.now) (record { denominator = c.now; numerators = rows.now })) }
{
    let denominator = least_denominator(alloc, f, c, rows.as_slice(), rows.len())?;
    let divisor = c.divide(alloc, f, &denominator)?.quotient;
    let numerators = row_quotients(alloc, f, &divisor, rows.as_slice(), rows.len())?;
    Ok(Basis {
        denominator,
        numerators,
    })
}

/// A basis of the lattice, over the polynomials, of the tuples of the rows over c, which span everything.
pub(crate) fn basis_of_lattice(
    alloc: Global,
    f: &SmallField,
    c: &Poly,
    rows: &PolyMatrix,
) -> Result<Basis, NoMemory>
    requires c { IsPolynomialList (small_ops f.now) c.now }
    requires nonzero { c.now ≢ [] }
    requires rows { IsPolynomialMatrix (small_ops f.now) (width_of rows.now) rows.now }
    requires spans { (v : List (Pair ℕ))
        → IsTuple (fraction_ops (small_ops f.now) (small_laws f.now)) (width_of rows.now) v
        → InSpan (fraction_ops (small_ops f.now) (small_laws f.now)) (width_of rows.now)
        (tuples_of (small_ops f.now) (small_laws f.now) (record { denominator = c.now; numerators = rows.now })) v }
    ensures basis { IfOk result (IsBasis (small_ops f.now) (small_laws f.now) (width_of rows.now)) }
    ensures lattice { IfOk result (λ b. SameTupleLattice (fraction_ops (small_ops f.now) (small_laws f.now))
        (IsPolynomialFraction (small_ops f.now)) (width_of rows.now)
        (tuples_of (small_ops f.now) (small_laws f.now) (record { denominator = c.now; numerators = rows.now }))
        (tuples_of (small_ops f.now) (small_laws f.now) b)) }
{
    let reduced = reduce(alloc, f, rows)?;
    let found = basis_from_rows(alloc, f, c, reduced.basis())?;
    Ok(found)
}
