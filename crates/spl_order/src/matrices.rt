// Matrices of polynomials: products, columns as rows, multiples and quotients.
ghost use Rattle.std.specs.Prelude.{◌≡◌, ◌≢◌, ◌<◌, [], length, get_or, IfOk, All};
ghost use Rattle.theory_rings.specs.Sum.{sum_of};
ghost use Rattle.spl_field.specs.SmallField.{small_ops, small_laws};
ghost use Rattle.theory_fractions.specs.PolynomialLists.{IsPolynomialList, Divides};
ghost use Rattle.theory_fractions.specs.CommonDenominator.{as_fraction};
ghost use Rattle.spl_fraction.specs.FractionsOver.{fractions_over};
ghost use Rattle.theory_rows.specs.Rows.{IsPolynomialRow, IsPolynomialMatrix};
ghost use Rattle.theory_bases.specs.Bases.{fraction_over};
ghost use Rattle.spl_order.specs.Values.{HasRow, HasMatrix, fraction_entry, product_entry};

use spl_field::field::NoMemory;
use spl_field::small::SmallField;
use spl_lattice::matrix::PolyMatrix;
use spl_lattice::rows::PolyRow;
use spl_numerators::products::add_product;
use spl_poly::poly::Poly;
use std::alloc::Global;

/// The entry in row i and column j.
pub(crate) fn entry(rows: &[PolyRow], i: usize, j: usize) -> &Poly
    requires row { i < length rows.now }
    requires column { j < length (get_or rows.now i []) }
    ensures { result.now ≡ get_or (get_or rows.now i []) j [] }
{
    &rows[i].as_slice()[j]
}

/// The sum of the products of the items of the row and those of column j.
fn dot(
    alloc: Global,
    f: &SmallField,
    row: &[Poly],
    rows: &[PolyRow],
    w: usize,
    j: usize,
) -> Result<Poly, NoMemory>
    requires row { IsPolynomialRow (small_ops f.now) (length rows.now) row.now }
    requires rows { IsPolynomialMatrix (small_ops f.now) w rows.now }
    requires column { j < w }
    ensures polynomial { IfOk result (IsPolynomialList (small_ops f.now)) }
    ensures value { IfOk result (λ r. as_fraction (small_ops f.now) r
        ≡ sum_of (fractions_over f.now) (length rows.now) (λ k. (fractions_over f.now).mul
        (as_fraction (small_ops f.now) (get_or row.now k [])) (fraction_entry (small_ops f.now) rows.now k j))) }
{
    let _ = w;
    let mut sum = Poly::from_slice(alloc, &[])?;
    for k in 0..rows.len() {
        sum = add_product(alloc, f, sum, &row[k], entry(rows, k, j))?;
    }
    Ok(sum)
}

/// The combination of the rows, which have w entries, by the items of a row.
pub(crate) fn product_row(
    alloc: Global,
    f: &SmallField,
    row: &[Poly],
    rows: &[PolyRow],
    w: usize,
) -> Result<PolyRow, NoMemory>
    requires row { IsPolynomialRow (small_ops f.now) (length rows.now) row.now }
    requires rows { IsPolynomialMatrix (small_ops f.now) w rows.now }
    ensures { IfOk result (HasRow (small_ops f.now)
        (λ j. sum_of (fractions_over f.now) (length rows.now) (λ k. (fractions_over f.now).mul
        (as_fraction (small_ops f.now) (get_or row.now k [])) (fraction_entry (small_ops f.now) rows.now k j))) w) }
{
    let mut items = PolyRow::new(alloc);
    for j in 0..w {
        items.push(dot(alloc, f, row, rows, w, j)?)?;
    }
    Ok(items)
}

/// The product of two matrices, of which the second has w columns.
pub(crate) fn product(
    alloc: Global,
    f: &SmallField,
    a: &[PolyRow],
    b: &[PolyRow],
    w: usize,
) -> Result<PolyMatrix, NoMemory>
    requires a { IsPolynomialMatrix (small_ops f.now) (length b.now) a.now }
    requires b { IsPolynomialMatrix (small_ops f.now) w b.now }
    ensures { IfOk result (HasMatrix (small_ops f.now)
        (product_entry (small_ops f.now) (small_laws f.now) (length b.now) a.now b.now) (length a.now) w) }
{
    let mut rows = PolyMatrix::new(alloc);
    for i in 0..a.len() {
        rows.push(product_row(alloc, f, a[i].as_slice(), b, w)?)?;
    }
    Ok(rows)
}

/// The entries in column j.
fn column(
    alloc: Global,
    f: &SmallField,
    rows: &[PolyRow],
    w: usize,
    j: usize,
) -> Result<PolyRow, NoMemory>
    requires rows { IsPolynomialMatrix (small_ops f.now) w rows.now }
    requires column { j < w }
    ensures { IfOk result (HasRow (small_ops f.now) (λ i. fraction_entry (small_ops f.now) rows.now i j)
        (length rows.now)) }
{
    let _ = w;
    let mut items = PolyRow::new(alloc);
    for i in 0..rows.len() {
        items.push(entry(rows, i, j).copy(alloc, f)?)?;
    }
    Ok(items)
}

/// The matrix with rows and columns exchanged.
pub(crate) fn transposed(
    alloc: Global,
    f: &SmallField,
    rows: &[PolyRow],
    w: usize,
) -> Result<PolyMatrix, NoMemory>
    requires { IsPolynomialMatrix (small_ops f.now) w rows.now }
    ensures { IfOk result (HasMatrix (small_ops f.now) (λ j i. fraction_entry (small_ops f.now) rows.now i j) w
        (length rows.now)) }
{
    let mut columns = PolyMatrix::new(alloc);
    for j in 0..w {
        columns.push(column(alloc, f, rows, w, j)?)?;
    }
    Ok(columns)
}

/// The products of c and the items.
fn multiples(alloc: Global, f: &SmallField, c: &Poly, items: &[Poly]) -> Result<PolyRow, NoMemory>
    requires c { IsPolynomialList (small_ops f.now) c.now }
    requires items { All (IsPolynomialList (small_ops f.now)) items.now }
    ensures { IfOk result (HasRow (small_ops f.now) (λ j. (fractions_over f.now).mul
        (as_fraction (small_ops f.now) c.now) (as_fraction (small_ops f.now) (get_or items.now j [])))
        (length items.now)) }
{
    let mut row = PolyRow::new(alloc);
    for i in 0..items.len() {
        row.push(c.mul(alloc, f, &items[i])?)?;
    }
    Ok(row)
}

/// The products of c and the entries.
pub(crate) fn row_multiples(
    alloc: Global,
    f: &SmallField,
    c: &Poly,
    rows: &[PolyRow],
    w: usize,
) -> Result<PolyMatrix, NoMemory>
    requires c { IsPolynomialList (small_ops f.now) c.now }
    requires rows { IsPolynomialMatrix (small_ops f.now) w rows.now }
    ensures { IfOk result (HasMatrix (small_ops f.now) (λ i j. (fractions_over f.now).mul
        (as_fraction (small_ops f.now) c.now) (fraction_entry (small_ops f.now) rows.now i j)) (length rows.now) w) }
{
    let _ = w;
    let mut parts = PolyMatrix::new(alloc);
    for i in 0..rows.len() {
        parts.push(multiples(alloc, f, c, rows[i].as_slice())?)?;
    }
    Ok(parts)
}

/// The items divided by h, which divides them.
fn quotients(alloc: Global, f: &SmallField, h: &Poly, items: &[Poly]) -> Result<PolyRow, NoMemory>
    requires h { IsPolynomialList (small_ops f.now) h.now }
    requires nonzero { h.now ≢ [] }
    requires items { All (IsPolynomialList (small_ops f.now)) items.now }
    requires divides { All (Divides (small_ops f.now) h.now) items.now }
    ensures { IfOk result (HasRow (small_ops f.now)
        (λ j. fraction_over (small_ops f.now) (small_laws f.now) h.now (get_or items.now j [])) (length items.now)) }
{
    let mut row = PolyRow::new(alloc);
    for i in 0..items.len() {
        row.push(items[i].divide(alloc, f, h)?.quotient)?;
    }
    Ok(row)
}

/// The entries divided by h, which divides them.
pub(crate) fn row_quotients(
    alloc: Global,
    f: &SmallField,
    h: &Poly,
    rows: &[PolyRow],
    w: usize,
) -> Result<PolyMatrix, NoMemory>
    requires h { IsPolynomialList (small_ops f.now) h.now }
    requires nonzero { h.now ≢ [] }
    requires rows { IsPolynomialMatrix (small_ops f.now) w rows.now }
    requires divides { All (All (Divides (small_ops f.now) h.now)) rows.now }
    ensures { IfOk result (HasMatrix (small_ops f.now)
        (λ i j. fraction_over (small_ops f.now) (small_laws f.now) h.now (get_or (get_or rows.now i []) j []))
        (length rows.now) w) }
{
    let _ = w;
    let mut parts = PolyMatrix::new(alloc);
    for i in 0..rows.len() {
        parts.push(quotients(alloc, f, h, rows[i].as_slice())?)?;
    }
    Ok(parts)
}
