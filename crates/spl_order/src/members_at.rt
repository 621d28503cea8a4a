// Whether tuples are in the lattice of a basis at a finite place.
ghost use Rattle.std.specs.Prelude.{◌≡◌, ◌≢◌, ◌↔◌, ℕ, List, [], length, map, IfOk, IsTrue};
ghost use Rattle.spl_field.specs.SmallField.{small_ops, small_laws};
ghost use Rattle.spl_fraction.specs.Fractions.{field_of};
ghost use Rattle.spl_fraction.specs.FractionsOver.{fractions_over};
ghost use Rattle.theory_fractions.specs.PolynomialLists.{IsPolynomialList};
ghost use Rattle.theory_spaces.specs.Tuples.{IsTuple};
ghost use Rattle.theory_places.specs.Places.{Finite};
ghost use Rattle.theory_places.specs.FractionPlaces.{IsIntegralAt, IsMonicIrreducible};
ghost use Rattle.theory_rows.specs.Rows.{IsPolynomialRow, IsPolynomialMatrix};
ghost use Rattle.theory_bases.specs.TupleLattices.{TupleLattice};
ghost use Rattle.theory_bases.specs.Bases.{IsBasis, fraction_over, tuples_of};
ghost use Rattle.spl_order.specs.Members.{HasDividedProduct};

use crate::basis::Basis;
use crate::columns::coordinate_columns;
use crate::matrices::product_row;
use crate::place_parts::{divides_all, place_part};
use spl_field::field::NoMemory;
use spl_field::small::SmallField;
use spl_fraction::field::Fractions;
use spl_fraction::fraction::Fraction;
use spl_lattice::matrix::PolyMatrix;
use spl_numerators::numerators::multiples_of;
use spl_poly::poly::Poly;
use std::alloc::Global;

/// Columns and a polynomial that divides the items of the products of just those rows of polynomials with them which,
/// over a denominator, are in a lattice at a place.
#[derive(Drop)]
pub(crate) struct MemberTest {
    pub(crate) columns: PolyMatrix,
    pub(crate) part: Poly,
}

/// The test of rows over the denominator for the lattice of a basis of n tuples at the place: the products with the
/// columns are coordinates over a polynomial, and part is the part of this polynomial at the place.
pub(crate) fn member_test(
    alloc: Global,
    f: &SmallField,
    basis: &Basis,
    n: usize,
    denominator: &Poly,
    place: &Poly,
) -> Result<MemberTest, NoMemory>
    requires basis { IsBasis (small_ops f.now) (small_laws f.now) n basis.now }
    requires denominator { IsPolynomialList (small_ops f.now) denominator.now }
    requires nonzero { denominator.now ≢ [] }
    requires place { IsMonicIrreducible (small_ops f.now) place.now }
    ensures count { IfOk result (λ t. length t.columns ≡ n) }
    ensures matrix { IfOk result (λ t. IsPolynomialMatrix (small_ops f.now) n t.columns) }
    ensures part { IfOk result (λ t. IsPolynomialList (small_ops f.now) t.part) }
    ensures nonzero { IfOk result (λ t. t.part ≢ []) }
    ensures tells { IfOk result (λ t. (row : List (List ℕ)) → IsPolynomialRow (small_ops f.now) n row
        → HasDividedProduct (small_ops f.now) (small_laws f.now) t.part n t.columns row
        ↔ TupleLattice (fractions_over f.now) (IsIntegralAt (small_ops f.now) (Finite place.now)) n
        (tuples_of (small_ops f.now) (small_laws f.now) basis.now)
        (map (fraction_over (small_ops f.now) (small_laws f.now) denominator.now) row)) }
{
    let found = coordinate_columns(alloc, f, basis, n, denominator)?;
    let part = place_part(alloc, f, place, &found.scale)?;
    Ok(MemberTest {
        columns: found.columns,
        part,
    })
}

/// Whether a row of n polynomials passes the test.
pub(crate) fn passes(
    alloc: Global,
    f: &SmallField,
    test: &MemberTest,
    n: usize,
    row: &[Poly],
) -> Result<bool, NoMemory>
    requires count { length test.now.columns ≡ n }
    requires matrix { IsPolynomialMatrix (small_ops f.now) n test.now.columns }
    requires part { IsPolynomialList (small_ops f.now) test.now.part }
    requires nonzero { test.now.part ≢ [] }
    requires row { IsPolynomialRow (small_ops f.now) n row.now }
    ensures { IfOk result (λ r. IsTrue r
        ↔ HasDividedProduct (small_ops f.now) (small_laws f.now) test.now.part n test.now.columns row.now) }
{
    let items = product_row(alloc, f, row, test.columns.as_slice(), n)?;
    let passed = divides_all(alloc, f, &test.part, items.as_slice())?;
    Ok(passed)
}

/// Whether a tuple of fractions is in the lattice of a basis at a finite place. The one fault is want of memory.
pub fn holds_at(
    alloc: Global,
    f: &Fractions,
    order: &Basis,
    v: &[Fraction],
    place: &Poly,
) -> Result<bool, NoMemory>
    requires order { IsBasis (small_ops (field_of f.now)) (small_laws (field_of f.now)) (length v.now) order.now }
    requires v { IsTuple (fractions_over (field_of f.now)) (length v.now) v.now }
    requires place { IsMonicIrreducible (small_ops (field_of f.now)) place.now }
    ensures { IfOk result (λ r. IsTrue r ↔ TupleLattice (fractions_over (field_of f.now))
        (IsIntegralAt (small_ops (field_of f.now)) (Finite place.now)) (length v.now)
        (tuples_of (small_ops (field_of f.now)) (small_laws (field_of f.now)) order.now) v.now) }
{
    let denominator = f.common_denominator(alloc, v)?;
    let row = multiples_of(alloc, f.field(), &denominator, v)?;
    let test = member_test(alloc, f.field(), order, v.len(), &denominator, place)?;
    let passed = passes(alloc, f.field(), &test, v.len(), row.as_slice())?;
    Ok(passed)
}
