// The coordinates of the products of a basis of tuples in this basis, as polynomials over one denominator.
ghost use Rattle.std.specs.Prelude.{◌≡◌, ◌≢◌, ◌*◌, ◌+◌, ◌^◌, ◌<◌, ◌≤◌, ◌/◌, ◌%◌, ℕ, [], length, get_or, IfOk};
ghost use Rattle.spl_field.specs.SmallField.{small_ops, small_laws};
ghost use Rattle.theory_fractions.specs.PolynomialLists.{IsPolynomialList};
ghost use Rattle.theory_fractions.specs.CommonDenominator.{as_fraction};
ghost use Rattle.theory_rows.specs.Rows.{IsPolynomialMatrix};
ghost use Rattle.spl_fraction.specs.FractionsOver.{fractions_over};
ghost use Rattle.theory_tables.specs.Structure.{IsOver};
ghost use Rattle.theory_places.specs.FractionPlaces.{IsMonicIrreducible};
ghost use Rattle.theory_bases.specs.Bases.{IsBasis, tuples_of};
ghost use Rattle.spl_numerators.specs.Numerators.{AreNumerators};
ghost use Rattle.spl_order.specs.Values.{HasRow, fraction_entry};
ghost use Rattle.spl_order.specs.Coordinates.{block_item, AreRowProducts, AreProductsOver};
ghost use Rattle.spl_order.specs.Coordinates.{AreScaledCoordinates, AreCoordinatesAt};

use crate::basis::Basis;
use crate::inverse::inverse_rows;
use crate::matrices::entry;
use crate::place_parts::place_part;
use crate::remainders::remainders;
use spl_algebra::algebra::Algebra;
use spl_field::field::NoMemory;
use spl_field::small::SmallField;
use spl_fraction::field::Fractions;
use spl_lattice::rows::PolyRow;
use spl_numerators::numerators::Numerators;
use spl_numerators::products::sum_of_products;
use spl_poly::poly::Poly;
use std::alloc::Global;

/// Polynomials which, over one polynomial other than 0, are the coordinates of products.
#[derive(Drop)]
pub(crate) struct Coordinates {
    pub(crate) scale: Poly,
    pub(crate) items: PolyRow,
}

/// The entries of the rows, which have w columns, one row after the other.
pub(crate) fn flat(
    alloc: Global,
    f: &SmallField,
    rows: &[PolyRow],
    w: usize,
) -> Result<PolyRow, NoMemory>
    requires rows { IsPolynomialMatrix (small_ops f.now) w rows.now }
    requires fits { length rows.now * w < 2 ^ 64 }
    ensures { IfOk result (HasRow (small_ops f.now)
        (λ p. fraction_entry (small_ops f.now) rows.now (p / w) (p % w)) (length rows.now * w)) }
{
    let mut items = PolyRow::new(alloc);
    for p in 0..rows.len() * w {
        items.push(entry(rows, p / w, p % w).copy(alloc, f)?)?;
    }
    Ok(items)
}

/// An item of the products of an h by n matrix and each of the n by w matrices that stand one after the other.
fn block_product(
    alloc: Global,
    f: &SmallField,
    a: &[Poly],
    b: &[Poly],
    h: usize,
    n: usize,
    w: usize,
    count: usize,
    p: usize,
) -> Result<Poly, NoMemory>
    requires a_count { length a.now ≡ h * n }
    requires b_count { length b.now ≡ count * (n * w) }
    requires a { (p : ℕ) → p < length a.now → IsPolynomialList (small_ops f.now) (get_or a.now p []) }
    requires b { (p : ℕ) → p < length b.now → IsPolynomialList (small_ops f.now) (get_or b.now p []) }
    requires positive { 1 ≤ n }
    requires a_fits { h * n < 2 ^ 64 }
    requires b_fits { count * (n * w) < 2 ^ 64 }
    requires width { h * w < 2 ^ 64 }
    requires place { p < count * (h * w) }
    ensures polynomial { IfOk result (IsPolynomialList (small_ops f.now)) }
    ensures value { IfOk result (λ r. as_fraction (small_ops f.now) r
        ≡ block_item (small_ops f.now) (small_laws f.now) a.now b.now h n w p) }
{
    let _ = count;
    let first = (p / w % h) * n;
    let second = (p / (h * w)) * (n * w) + p % w;
    sum_of_products(alloc, f, n, a, first, b, second, w)
}

/// The products of an h by n matrix and each of the n by w matrices that stand one after the other.
fn block_products(
    alloc: Global,
    f: &SmallField,
    a: &[Poly],
    b: &[Poly],
    h: usize,
    n: usize,
    w: usize,
    count: usize,
) -> Result<PolyRow, NoMemory>
    requires a_count { length a.now ≡ h * n }
    requires b_count { length b.now ≡ count * (n * w) }
    requires a { (p : ℕ) → p < length a.now → IsPolynomialList (small_ops f.now) (get_or a.now p []) }
    requires b { (p : ℕ) → p < length b.now → IsPolynomialList (small_ops f.now) (get_or b.now p []) }
    requires positive { 1 ≤ n }
    requires a_fits { h * n < 2 ^ 64 }
    requires b_fits { count * (n * w) < 2 ^ 64 }
    requires width { h * w < 2 ^ 64 }
    requires fits { count * (h * w) < 2 ^ 64 }
    ensures { IfOk result (HasRow (small_ops f.now)
        (block_item (small_ops f.now) (small_laws f.now) a.now b.now h n w) (count * (h * w))) }
{
    let mut items = PolyRow::new(alloc);
    for p in 0..count * (h * w) {
        items.push(block_product(alloc, f, a, b, h, n, w, count, p)?)?;
    }
    Ok(items)
}

/// The products of n rows and n others, by the constants.
fn products_of_rows(
    alloc: Global,
    f: &SmallField,
    n: usize,
    lefts: &[Poly],
    rights: &[Poly],
    constants: &[Poly],
) -> Result<PolyRow, NoMemory>
    requires fits { n * n * n < 2 ^ 64 }
    requires positive { 1 ≤ n }
    requires lefts_count { length lefts.now ≡ n * n }
    requires rights_count { length rights.now ≡ n * n }
    requires constants_count { length constants.now ≡ n * n * n }
    requires lefts { (p : ℕ) → p < length lefts.now → IsPolynomialList (small_ops f.now) (get_or lefts.now p []) }
    requires rights { (p : ℕ) → p < length rights.now → IsPolynomialList (small_ops f.now) (get_or rights.now p []) }
    requires constants { (p : ℕ) → p < length constants.now
        → IsPolynomialList (small_ops f.now) (get_or constants.now p []) }
    ensures { IfOk result (AreRowProducts (small_ops f.now) (small_laws f.now) n lefts.now rights.now
        constants.now) }
{
    let sums = block_products(alloc, f, lefts, constants, n, n, n * n, 1)?;
    let products = block_products(alloc, f, rights, sums.as_slice(), n, n, n, n)?;
    Ok(products)
}

/// The scaled coordinates of the products of n rows, by the constants and n columns.
fn scaled_coordinates(
    alloc: Global,
    f: &SmallField,
    n: usize,
    rows: &[Poly],
    columns: &[Poly],
    constants: &[Poly],
) -> Result<PolyRow, NoMemory>
    requires fits { n * n * n < 2 ^ 64 }
    requires positive { 1 ≤ n }
    requires rows_count { length rows.now ≡ n * n }
    requires columns_count { length columns.now ≡ n * n }
    requires constants_count { length constants.now ≡ n * n * n }
    requires rows { (p : ℕ) → p < length rows.now → IsPolynomialList (small_ops f.now) (get_or rows.now p []) }
    requires columns { (p : ℕ) → p < length columns.now
        → IsPolynomialList (small_ops f.now) (get_or columns.now p []) }
    requires constants { (p : ℕ) → p < length constants.now
        → IsPolynomialList (small_ops f.now) (get_or constants.now p []) }
    ensures { IfOk result (AreScaledCoordinates (small_ops f.now) (small_laws f.now) n rows.now columns.now
        constants.now) }
{
    let products = products_of_rows(alloc, f, n, rows, rows, constants)?;
    let items = block_products(alloc, f, products.as_slice(), columns, n * n, n, n, 1)?;
    Ok(items)
}

/// The coordinates at a place, where the constants are those polynomials over one denominator. They are computed modulo a
/// power of the place's polynomial m: that of the denominator of the coordinates, and one more.
pub(crate) fn product_coordinates(
    alloc: Global,
    f: &SmallField,
    a: &Algebra<Fractions>,
    numerators: &Numerators,
    order: &Basis,
    m: &Poly,
) -> Result<Coordinates, NoMemory>
    requires over { IsOver (fractions_over f.now) a.now }
    requires numerators { AreNumerators (small_ops f.now) (small_laws f.now) numerators.now.denominator a.now
        numerators.now.entries }
    requires order { IsBasis (small_ops f.now) (small_laws f.now) a.now.dim order.now }
    requires place { IsMonicIrreducible (small_ops f.now) m.now }
    ensures { IfOk result (λ r. AreCoordinatesAt (small_ops f.now) (small_laws f.now) m.now a.now
        (tuples_of (small_ops f.now) (small_laws f.now) order.now) r.scale r.items) }
{
    let _ = a.constants();
    let n = a.dim();
    let inverse = inverse_rows(alloc, f, order.numerators())?;
    let denominator = numerators.denominator.mul(alloc, f, order.denominator())?;
    let scale = denominator.mul(alloc, f, &inverse.scale)?;
    let part = place_part(alloc, f, m, &scale)?;
    let modulus = part.mul(alloc, f, m)?;
    let flat_rows = flat(alloc, f, order.numerators().as_slice(), n)?;
    let flat_columns = flat(alloc, f, inverse.rows.as_slice(), n)?;
    let rows = remainders(alloc, f, &modulus, flat_rows.as_slice())?;
    let columns = remainders(alloc, f, &modulus, flat_columns.as_slice())?;
    let constants = remainders(alloc, f, &modulus, numerators.entries.as_slice())?;
    let items = scaled_coordinates(
        alloc,
        f,
        n,
        rows.as_slice(),
        columns.as_slice(),
        constants.as_slice(),
    )?;
    Ok(Coordinates { scale, items })
}

/// The products of the tuples of two bases, where the constants are those polynomials over one denominator.
pub(crate) fn products_over(
    alloc: Global,
    f: &SmallField,
    a: &Algebra<Fractions>,
    numerators: &Numerators,
    left: &Basis,
    right: &Basis,
) -> Result<Coordinates, NoMemory>
    requires over { IsOver (fractions_over f.now) a.now }
    requires numerators { AreNumerators (small_ops f.now) (small_laws f.now) numerators.now.denominator a.now
        numerators.now.entries }
    requires left { IsBasis (small_ops f.now) (small_laws f.now) a.now.dim left.now }
    requires right { IsBasis (small_ops f.now) (small_laws f.now) a.now.dim right.now }
    ensures { IfOk result (λ r. AreProductsOver (small_ops f.now) (small_laws f.now) a.now
        (tuples_of (small_ops f.now) (small_laws f.now) left.now)
        (tuples_of (small_ops f.now) (small_laws f.now) right.now) r.scale r.items) }
{
    let _ = a.constants();
    let n = a.dim();
    let denominator = left.denominator().mul(alloc, f, right.denominator())?;
    let scale = denominator.mul(alloc, f, &numerators.denominator)?;
    let lefts = flat(alloc, f, left.numerators().as_slice(), n)?;
    let rights = flat(alloc, f, right.numerators().as_slice(), n)?;
    let items = products_of_rows(
        alloc,
        f,
        n,
        lefts.as_slice(),
        rights.as_slice(),
        numerators.entries.as_slice(),
    )?;
    Ok(Coordinates { scale, items })
}
