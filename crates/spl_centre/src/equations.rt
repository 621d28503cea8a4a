// The equations of a left identity at one basis element, over the polynomials.
ghost use Rattle.std.specs.Prelude.{◌≡◌, ◌*◌, ◌+◌, ◌^◌, ◌<◌, ◌≤◌, ℕ, [], length, get_or, IfOk};
ghost use Rattle.spl_field.specs.SmallField.{small_ops};
ghost use Rattle.theory_fractions.specs.PolynomialLists.{IsPolynomialList};
ghost use Rattle.theory_rows.specs.Rows.{IsPolynomialRow, IsPolynomialMatrix};

use spl_field::field::NoMemory;
use spl_field::list::List;
use spl_field::small::SmallField;
use spl_lattice::lattices::kernel;
use spl_lattice::matrix::PolyMatrix;
use spl_lattice::rows::PolyRow;
use spl_poly::poly::Poly;
use std::alloc::Global;

/// The polynomial at the place of the basis elements j, i and k.
fn entry(m: usize, entries: &[Poly], j: usize, i: usize, k: usize) -> &Poly
    requires fits { m * m * m < 2 ^ 64 }
    requires count { length entries.now ≡ m * m * m }
    requires first { j < m }
    requires second { i < m }
    requires third { k < m }
    ensures { result.now ≡ get_or entries.now ((j * m + i) * m + k) [] }
{
    &entries[(j * m + i) * m + k]
}

/// The coefficients of b_j·b_i.
fn product_row(
    alloc: Global,
    f: &SmallField,
    m: usize,
    entries: &[Poly],
    j: usize,
    i: usize,
) -> Result<PolyRow, NoMemory>
    requires fits { m * m * m < 2 ^ 64 }
    requires count { length entries.now ≡ m * m * m }
    requires polynomials { (p : ℕ) → p < length entries.now
        → IsPolynomialList (small_ops f.now) (get_or entries.now p []) }
    requires first { j < m }
    requires second { i < m }
    ensures { IfOk result (IsPolynomialRow (small_ops f.now) m) }
{
    let mut row = List::new(alloc);
    for k in 0..m {
        row.push(entry(m, entries, j, i, k).copy(alloc, f)?)?;
    }
    Ok(row)
}

/// −c.
fn opposite(alloc: Global, f: &SmallField, c: &Poly) -> Result<Poly, NoMemory>
    requires { IsPolynomialList (small_ops f.now) c.now }
    ensures { IfOk result (IsPolynomialList (small_ops f.now)) }
{
    let minus_one = Poly::from_slice(alloc, &[f.negative(1)])?;
    Ok(minus_one.mul(alloc, f, c)?)
}

/// −c at the place i, and else 0.
fn unit_item(alloc: Global, f: &SmallField, c: &Poly, i: usize, k: usize) -> Result<Poly, NoMemory>
    requires { IsPolynomialList (small_ops f.now) c.now }
    ensures { IfOk result (IsPolynomialList (small_ops f.now)) }
{
    if k == i {
        return Ok(opposite(alloc, f, c)?);
    }
    Ok(Poly::from_slice(alloc, &[])?)
}

/// The row of −c at the place i, and else 0.
fn unit_row(
    alloc: Global,
    f: &SmallField,
    m: usize,
    c: &Poly,
    i: usize,
) -> Result<PolyRow, NoMemory>
    requires { IsPolynomialList (small_ops f.now) c.now }
    ensures { IfOk result (IsPolynomialRow (small_ops f.now) m) }
{
    let mut row = List::new(alloc);
    for k in 0..m {
        row.push(unit_item(alloc, f, c, i, k)?)?;
    }
    Ok(row)
}

/// The rows of all b_j·b_i, and that of −c·b_i.
fn equations(
    alloc: Global,
    f: &SmallField,
    m: usize,
    entries: &[Poly],
    c: &Poly,
    i: usize,
) -> Result<PolyMatrix, NoMemory>
    requires positive { 1 ≤ m }
    requires fits { m * m * m < 2 ^ 64 }
    requires count { length entries.now ≡ m * m * m }
    requires polynomials { (p : ℕ) → p < length entries.now
        → IsPolynomialList (small_ops f.now) (get_or entries.now p []) }
    requires c { IsPolynomialList (small_ops f.now) c.now }
    requires index { i < m }
    ensures shape { IfOk result (IsPolynomialMatrix (small_ops f.now) m) }
    ensures count { IfOk result (λ r. length r ≡ m + 1) }
{
    let mut rows = List::new(alloc);
    for j in 0..m {
        rows.push(product_row(alloc, f, m, entries, j, i)?)?;
    }
    rows.push(unit_row(alloc, f, m, c, i)?)?;
    Ok(rows)
}

/// Rows of m weights and a denominator: a basis of the solutions of e·b_i = b_i over the polynomials.
pub(crate) fn solutions(
    alloc: Global,
    f: &SmallField,
    m: usize,
    entries: &[Poly],
    c: &Poly,
    i: usize,
) -> Result<PolyMatrix, NoMemory>
    requires positive { 1 ≤ m }
    requires fits { m * m * m < 2 ^ 64 }
    requires count { length entries.now ≡ m * m * m }
    requires polynomials { (p : ℕ) → p < length entries.now
        → IsPolynomialList (small_ops f.now) (get_or entries.now p []) }
    requires c { IsPolynomialList (small_ops f.now) c.now }
    requires index { i < m }
    ensures { IfOk result (IsPolynomialMatrix (small_ops f.now) (m + 1)) }
{
    let rows = equations(alloc, f, m, entries, c, i)?;
    Ok(kernel(alloc, f, &rows)?)
}
