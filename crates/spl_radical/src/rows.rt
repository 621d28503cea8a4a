// Elements one after the other as rows of numbers modulo a number: products by t and by x, and sums of products.
ghost use Rattle.std.specs.Prelude.{◌≡◌, ℕ, ◌+◌, ◌-◌, ◌*◌, ◌/◌, ◌%◌, ◌^◌, ◌<◌, ◌≤◌, [], length, get_or, All, IfOk};
ghost use Rattle.theory_rings.specs.Sum.{sum, table};
ghost use Rattle.theory_rings.specs.Naturals.{nat_monoid};
ghost use Rattle.theory_chains.specs.NumberRows.{shifted_number, turned_number, AreNumbers, AreRows};

use spl_field::field::NoMemory;
use spl_field::list::List;
use std::alloc::Global;

/// A number with the same remainder as the sum, which stays small.
fn added(q: u64, sum: u128, c: u64, x: u64) -> u128
    requires positive { 1 ≤ q }
    requires modulus { q ≤ 2 ^ 40 }
    requires left { c < q }
    requires right { x < q }
    requires sum { sum < 2 ^ 100 }
    ensures small { result < 2 ^ 100 }
    ensures same { result % q ≡ (sum + c * x) % q }
{
    let next = sum + u128::from(c) * u128::from(x);
    if next < 1 << 100 {
        next
    } else {
        next % u128::from(q)
    }
}

/// The remainder.
fn remainder(q: u64, sum: u128) -> u64
    requires { 1 ≤ q }
    ensures { result ≡ sum % q }
{
    if sum < 1 << 64 {
        (sum as u64) % q
    } else {
        (sum % u128::from(q)) as u64
    }
}

/// The sum of the products of the numbers at each place, where it is below 2^64.
fn small_sum(q: u64, a: &[u64], b: &[u64]) -> u64
    requires modulus { q ≤ 2 ^ 20 }
    requires few { length a.now ≤ 2 ^ 23 }
    requires left { All (λ x. x < q) a.now }
    requires right { All (λ x. x < q) b.now }
    requires same { length a.now ≡ length b.now }
    ensures { result ≡ sum nat_monoid (length a.now) (λ r. get_or a.now r 0 * get_or b.now r 0) }
{
    let mut sum = 0;
    for r in 0..a.len() {
        sum += a[r] * b[r];
    }
    sum
}

/// The sum modulo q of the products of the numbers at each place.
fn large_dot(q: u64, a: &[u64], b: &[u64]) -> u64
    requires positive { 1 ≤ q }
    requires modulus { q ≤ 2 ^ 40 }
    requires left { All (λ x. x < q) a.now }
    requires right { All (λ x. x < q) b.now }
    requires same { length a.now ≡ length b.now }
    ensures { result ≡ sum nat_monoid (length a.now) (λ r. get_or a.now r 0 * get_or b.now r 0) % q }
{
    let mut sum = 0;
    for r in 0..a.len() {
        sum = added(q, sum, a[r], b[r]);
    }
    remainder(q, sum)
}

/// The sum modulo q of the products of the numbers at each place.
fn dot(q: u64, a: &[u64], b: &[u64]) -> u64
    requires positive { 1 ≤ q }
    requires modulus { q ≤ 2 ^ 40 }
    requires left { All (λ x. x < q) a.now }
    requires right { All (λ x. x < q) b.now }
    requires same { length a.now ≡ length b.now }
    ensures { result ≡ sum nat_monoid (length a.now) (λ r. get_or a.now r 0 * get_or b.now r 0) % q }
{
    if q <= 1 << 20 && a.len() <= 1 << 23 {
        return small_sum(q, a, b) % q;
    }
    large_dot(q, a, b)
}

/// The sums modulo q of the products of the numbers and those of each column.
pub(crate) fn combination(
    alloc: Global,
    q: u64,
    a: &[u64],
    columns: &[List<u64>],
) -> Result<List<u64>, NoMemory>
    requires positive { 1 ≤ q }
    requires modulus { q ≤ 2 ^ 40 }
    requires numbers { All (λ x. x < q) a.now }
    requires columns { AreRows q (length a.now) columns.now }
    ensures { IfOk result (λ r. r ≡ table (length columns.now)
        (λ t. sum nat_monoid (length a.now) (λ r. get_or a.now r 0 * get_or (get_or columns.now t []) r 0) % q)) }
{
    let mut out = List::new(alloc);
    for t in 0..columns.len() {
        out.push(dot(q, a, columns[t].as_slice()))?;
    }
    Ok(out)
}

/// Number k of the products by t of the elements of the row.
fn shifted_at(q: u64, back: &[u64], row: &[u64], k: usize) -> u64
    requires positive { 1 ≤ q }
    requires modulus { q ≤ 2 ^ 40 }
    requires digits { 1 ≤ length back.now }
    requires back { All (λ x. x < q) back.now }
    requires numbers { All (λ x. x < q) row.now }
    requires place { k < length row.now }
    requires whole { k - k % length back.now + (length back.now - 1) < length row.now }
    ensures { result ≡ shifted_number q (length back.now) back.now row.now k }
{
    let d = back.len();
    let v = k % d;
    let before = if v == 0 { 0 } else { row[k - 1] };
    remainder(
        q,
        added(q, u128::from(before), row[k - v + (d - 1)], back[v]),
    )
}

/// The products by t of the elements of the row.
pub(crate) fn shifted(
    alloc: Global,
    q: u64,
    back: &[u64],
    row: &[u64],
) -> Result<List<u64>, NoMemory>
    requires positive { 1 ≤ q }
    requires modulus { q ≤ 2 ^ 40 }
    requires digits { 1 ≤ length back.now }
    requires back { All (λ x. x < q) back.now }
    requires numbers { All (λ x. x < q) row.now }
    requires whole { (k : ℕ) → k < length row.now
        → k - k % length back.now + (length back.now - 1) < length row.now }
    ensures { IfOk result (λ r. r ≡ table (length row.now) (shifted_number q (length back.now) back.now row.now)) }
{
    let mut out = List::new(alloc);
    for k in 0..row.len() {
        out.push(shifted_at(q, back, row, k))?;
    }
    Ok(out)
}

/// The first number and the sum of the products of the numbers and number u of each row.
fn added_rows(q: u64, first: u64, a: &[u64], rows: &[List<u64>], u: usize) -> u64
    requires positive { 1 ≤ q }
    requires modulus { q ≤ 2 ^ 40 }
    requires first { first < q }
    requires numbers { All (λ x. x < q) a.now }
    requires rows { (v : ℕ) → v < length a.now → (u < length (get_or rows.now v []))
        × All (λ x. x < q) (get_or rows.now v []) }
    requires long { length a.now ≡ length rows.now }
    ensures { result ≡ (first + sum nat_monoid (length a.now)
        (λ v. get_or a.now v 0 * get_or (get_or rows.now v []) u 0)) % q }
{
    let mut sum = u128::from(first);
    for v in 0..a.len() {
        sum = added(q, sum, a[v], rows[v].as_slice()[u]);
    }
    remainder(q, sum)
}

/// Number k of the products by x of the elements of the row.
fn turned_at(q: u64, w: usize, turns: &[List<u64>], row: &[u64], k: usize) -> u64
    requires positive { 1 ≤ q }
    requires modulus { q ≤ 2 ^ 40 }
    requires width { 1 ≤ w }
    requires digits { length turns.now ≤ w }
    requires turns { AreRows q w turns.now }
    requires numbers { All (λ x. x < q) row.now }
    requires place { k < length row.now }
    requires whole { k - k % w + w ≤ length row.now }
    ensures { result ≡ turned_number q w (length turns.now) turns.now row.now k }
{
    let d = turns.len();
    let u = k % w;
    let start = k - u + (w - d);
    let before = if u < d { 0 } else { row[k - d] };
    added_rows(q, before, &row[start..start + d], turns, u)
}

/// The products by x of the elements of the row.
pub(crate) fn turned(
    alloc: Global,
    q: u64,
    w: usize,
    turns: &[List<u64>],
    row: &[u64],
) -> Result<List<u64>, NoMemory>
    requires positive { 1 ≤ q }
    requires modulus { q ≤ 2 ^ 40 }
    requires width { 1 ≤ w }
    requires digits { length turns.now ≤ w }
    requires turns { AreRows q w turns.now }
    requires numbers { All (λ x. x < q) row.now }
    requires whole { (k : ℕ) → k < length row.now → k - k % w + w ≤ length row.now }
    ensures { IfOk result (λ r. r ≡ table (length row.now) (turned_number q w (length turns.now) turns.now row.now)) }
{
    let mut out = List::new(alloc);
    for k in 0..row.len() {
        out.push(turned_at(q, w, turns, row, k))?;
    }
    Ok(out)
}

/// The numbers at place t of each row.
fn column_of(alloc: Global, rows: &[List<u64>], t: usize) -> Result<List<u64>, NoMemory>
    requires { (r : ℕ) → r < length rows.now → t < length (get_or rows.now r []) }
    ensures { IfOk result (λ c. c ≡ table (length rows.now) (λ r. get_or (get_or rows.now r []) t 0)) }
{
    let mut out = List::new(alloc);
    for r in 0..rows.len() {
        out.push(rows[r].as_slice()[t])?;
    }
    Ok(out)
}

/// The columns of rows of n numbers.
pub(crate) fn columns_of(
    alloc: Global,
    rows: &[List<u64>],
    n: usize,
) -> Result<List<List<u64>>, NoMemory>
    requires { (r : ℕ) → r < length rows.now → n ≤ length (get_or rows.now r []) }
    ensures { IfOk result (λ c. c ≡ table n
        (λ t. table (length rows.now) (λ r. get_or (get_or rows.now r []) t 0))) }
{
    let mut out = List::new(alloc);
    for t in 0..n {
        out.push(column_of(alloc, rows, t)?)?;
    }
    Ok(out)
}

/// The sum modulo q over the rows i of number i·w + t.
fn diagonal_at(q: u64, w: usize, rows: &[List<u64>], t: usize) -> u64
    requires positive { 1 ≤ q }
    requires modulus { q ≤ 2 ^ 40 }
    requires place { t < w }
    requires rows { AreRows q (length rows.now * w) rows.now }
    ensures { result ≡ sum nat_monoid (length rows.now) (λ i. get_or (get_or rows.now i []) (i * w + t) 0) % q }
{
    let mut sum = 0;
    for i in 0..rows.len() {
        sum = (sum + rows[i].as_slice()[i * w + t]) % q;
    }
    sum
}

/// The sums modulo q of the numbers of element i of row i, for all rows.
pub(crate) fn diagonal_of(
    alloc: Global,
    q: u64,
    w: usize,
    rows: &[List<u64>],
) -> Result<List<u64>, NoMemory>
    requires positive { 1 ≤ q }
    requires modulus { q ≤ 2 ^ 40 }
    requires rows { AreRows q (length rows.now * w) rows.now }
    ensures { IfOk result (λ r. r ≡ table w
        (λ t. sum nat_monoid (length rows.now) (λ i. get_or (get_or rows.now i []) (i * w + t) 0) % q)) }
{
    let mut out = List::new(alloc);
    for t in 0..w {
        out.push(diagonal_at(q, w, rows, t))?;
    }
    Ok(out)
}
