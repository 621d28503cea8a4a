// Whether the lattices of bases at a finite place lie in others there.
ghost use Rattle.std.specs.Prelude.{◌≡◌, ◌≢◌, ◌↔◌, ◌<◌, ℕ, [], length, get_or, map, IfOk, IsTrue};
ghost use Rattle.spl_field.specs.SmallField.{small_ops, small_laws};
ghost use Rattle.spl_fraction.specs.Fractions.{field_of};
ghost use Rattle.spl_fraction.specs.FractionsOver.{fractions_over};
ghost use Rattle.theory_spaces.specs.Sets.{Within, Multiple};
ghost use Rattle.theory_spaces.specs.Tuples.{tuple_scale};
ghost use Rattle.theory_tables.specs.Structure.{Structure, tuple_ops};
ghost use Rattle.theory_fractions.specs.PolynomialLists.{IsPolynomialList};
ghost use Rattle.theory_fractions.specs.Fraction.{Pair};
ghost use Rattle.theory_fractions.specs.CommonDenominator.{as_fraction};
ghost use Rattle.theory_places.specs.Places.{Finite};
ghost use Rattle.theory_places.specs.FractionPlaces.{IsIntegralAt, IsMonicIrreducible};
ghost use Rattle.theory_rows.specs.Rows.{IsPolynomialMatrix};
ghost use Rattle.theory_bases.specs.TupleLattices.{TupleLattice};
ghost use Rattle.theory_bases.specs.Bases.{IsBasis, fraction_over, tuples_of};
ghost use Rattle.spl_order.specs.Members.{HasDividedProduct};

use crate::basis::Basis;
use crate::matrices::row_multiples;
use crate::members_at::{MemberTest, member_test, passes};
use spl_field::field::NoMemory;
use spl_field::small::SmallField;
use spl_fraction::field::Fractions;
use spl_lattice::rows::PolyRow;
use spl_poly::poly::Poly;
use std::alloc::Global;

/// Whether all of the rows of n polynomials pass the test.
fn rows_pass(
    alloc: Global,
    f: &SmallField,
    test: &MemberTest,
    n: usize,
    rows: &[PolyRow],
) -> Result<bool, NoMemory>
    requires count { length test.now.columns ≡ n }
    requires matrix { IsPolynomialMatrix (small_ops f.now) n test.now.columns }
    requires part { IsPolynomialList (small_ops f.now) test.now.part }
    requires nonzero { test.now.part ≢ [] }
    requires rows { IsPolynomialMatrix (small_ops f.now) n rows.now }
    ensures { IfOk result (λ r. IsTrue r ↔ ((i : ℕ) → i < length rows.now → HasDividedProduct (small_ops f.now)
        (small_laws f.now) test.now.part n test.now.columns (get_or rows.now i []))) }
{
    for i in 0..rows.len() {
        if !passes(alloc, f, test, n, rows[i].as_slice())? {
            return Ok(false);
        }
    }
    Ok(true)
}

/// Whether all rows of n polynomials are, over the denominator, in the lattice of a basis at the place.
fn are_within_at(
    alloc: Global,
    f: &SmallField,
    rows: &[PolyRow],
    denominator: &Poly,
    b: &Basis,
    n: usize,
    place: &Poly,
) -> Result<bool, NoMemory>
    requires rows { IsPolynomialMatrix (small_ops f.now) n rows.now }
    requires denominator { IsPolynomialList (small_ops f.now) denominator.now }
    requires nonzero { denominator.now ≢ [] }
    requires b { IsBasis (small_ops f.now) (small_laws f.now) n b.now }
    requires place { IsMonicIrreducible (small_ops f.now) place.now }
    ensures { IfOk result (λ r. IsTrue r ↔ ((i : ℕ) → i < length rows.now → TupleLattice (fractions_over f.now)
        (IsIntegralAt (small_ops f.now) (Finite place.now)) n (tuples_of (small_ops f.now) (small_laws f.now) b.now)
        (map (fraction_over (small_ops f.now) (small_laws f.now) denominator.now) (get_or rows.now i [])))) }
{
    let test = member_test(alloc, f, b, n, denominator, place)?;
    let passed = rows_pass(alloc, f, &test, n, rows)?;
    Ok(passed)
}

/// Whether the lattice of a basis of n tuples at a finite place lies in that of another there. The one fault is want of
/// memory. (Reiner, Maximal Orders, section 8.)
pub fn is_within_at(
    alloc: Global,
    f: &Fractions,
    a: &Basis,
    b: &Basis,
    place: &Poly,
) -> Result<bool, NoMemory>
    requires bases { (n : ℕ) × IsBasis (small_ops (field_of f.now)) (small_laws (field_of f.now)) n a.now
        × IsBasis (small_ops (field_of f.now)) (small_laws (field_of f.now)) n b.now }
    requires place { IsMonicIrreducible (small_ops (field_of f.now)) place.now }
    ensures { IfOk result (λ r. (n : ℕ)
        → IsBasis (small_ops (field_of f.now)) (small_laws (field_of f.now)) n a.now
        → IsBasis (small_ops (field_of f.now)) (small_laws (field_of f.now)) n b.now
        → IsTrue r ↔ Within
        (TupleLattice (fractions_over (field_of f.now)) (IsIntegralAt (small_ops (field_of f.now)) (Finite place.now)) n
        (tuples_of (small_ops (field_of f.now)) (small_laws (field_of f.now)) a.now))
        (TupleLattice (fractions_over (field_of f.now)) (IsIntegralAt (small_ops (field_of f.now)) (Finite place.now)) n
        (tuples_of (small_ops (field_of f.now)) (small_laws (field_of f.now)) b.now))) }
{
    let rows = a.numerators();
    let within = are_within_at(
        alloc,
        f.field(),
        rows.as_slice(),
        a.denominator(),
        b,
        rows.len(),
        place,
    )?;
    Ok(within)
}

/// Whether the multiples by a polynomial of the lattice of a basis of n tuples at a finite place lie in the lattice of
/// another there. The one fault is want of memory. (Reiner, Maximal Orders, section 8.)
pub fn is_multiple_within_at(
    alloc: Global,
    f: &Fractions,
    multiplier: &Poly,
    a: &Basis,
    b: &Basis,
    place: &Poly,
) -> Result<bool, NoMemory>
    requires bases { (n : ℕ) × IsBasis (small_ops (field_of f.now)) (small_laws (field_of f.now)) n a.now
        × IsBasis (small_ops (field_of f.now)) (small_laws (field_of f.now)) n b.now }
    requires multiplier { IsPolynomialList (small_ops (field_of f.now)) multiplier.now }
    requires place { IsMonicIrreducible (small_ops (field_of f.now)) place.now }
    ensures { IfOk result (λ r. (A : Structure (Pair ℕ))
        → IsBasis (small_ops (field_of f.now)) (small_laws (field_of f.now)) A.dim a.now
        → IsBasis (small_ops (field_of f.now)) (small_laws (field_of f.now)) A.dim b.now
        → IsTrue r ↔ Within
        (Multiple (tuple_ops (fractions_over (field_of f.now)) A) (tuple_scale (fractions_over (field_of f.now)) A.dim)
        (as_fraction (small_ops (field_of f.now)) multiplier.now)
        (TupleLattice (fractions_over (field_of f.now)) (IsIntegralAt (small_ops (field_of f.now)) (Finite place.now))
        A.dim (tuples_of (small_ops (field_of f.now)) (small_laws (field_of f.now)) a.now)))
        (TupleLattice (fractions_over (field_of f.now)) (IsIntegralAt (small_ops (field_of f.now)) (Finite place.now))
        A.dim (tuples_of (small_ops (field_of f.now)) (small_laws (field_of f.now)) b.now))) }
{
    let n = a.numerators().len();
    let rows = row_multiples(alloc, f.field(), multiplier, a.numerators().as_slice(), n)?;
    let within = are_within_at(
        alloc,
        f.field(),
        rows.as_slice(),
        a.denominator(),
        b,
        n,
        place,
    )?;
    Ok(within)
}
