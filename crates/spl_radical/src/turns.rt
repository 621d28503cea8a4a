// The numbers of t^d and of the products of x^e by the powers of t.
ghost use Rattle.std.specs.Prelude.{◌≡◌, ℕ, ◌+◌, ◌-◌, ◌/◌, ◌%◌, ◌^◌, ◌<◌, ◌≤◌, [], length, get_or, All, IfOk};
ghost use Rattle.theory_rings.specs.Digits.{digit};
ghost use Rattle.theory_rings.specs.Sum.{table};
ghost use Rattle.theory_chains.specs.NumberRows.{shifted_number};
ghost use Rattle.spl_radical.specs.Multiples.{AreTurns};

use crate::digits::{coefficient, digit_of};
use crate::rows::shifted;
use spl_field::field::NoMemory;
use spl_field::list::List;
use std::alloc::Global;

/// The opposite modulo q.
fn opposite(q: u64, x: u64) -> u64
    requires { 1 ≤ q }
    ensures { result ≡ (q - x % q) % q }
{
    (q - x % q) % q
}

/// The opposites modulo q of the numbers.
pub(crate) fn back_of(alloc: Global, q: u64, modulus: &[u8]) -> Result<List<u64>, NoMemory>
    requires { 1 ≤ q }
    ensures { IfOk result (λ r. r ≡ table (length modulus.now) (λ v. (q - get_or modulus.now v 0 % q) % q)) }
{
    let mut out = List::new(alloc);
    for v in 0..modulus.len() {
        out.push(opposite(q, u64::from(modulus[v])))?;
    }
    Ok(out)
}

/// The opposites modulo q of the d digits of each coefficient, `width` of them.
pub(crate) fn first_turn(
    alloc: Global,
    q: u64,
    p: u64,
    d: usize,
    width: usize,
    modulus: &[u8],
) -> Result<List<u64>, NoMemory>
    requires positive { 1 ≤ q }
    requires base { 2 ≤ p }
    requires digits { 1 ≤ d }
    ensures { IfOk result (λ r. r ≡ table width
        (λ t. (q - digit p (get_or modulus.now (t / d) 0) (t % d) % q) % q)) }
{
    let mut out = List::new(alloc);
    for t in 0..width {
        out.push(opposite(q, digit_of(p, coefficient(modulus, t / d), t % d)))?;
    }
    Ok(out)
}

/// The products by t of the elements of row i.
fn shifted_row(
    alloc: Global,
    q: u64,
    back: &[u64],
    rows: &[List<u64>],
    i: usize,
) -> Result<List<u64>, NoMemory>
    requires positive { 1 ≤ q }
    requires modulus { q ≤ 2 ^ 40 }
    requires digits { 1 ≤ length back.now }
    requires back { All (λ x. x < q) back.now }
    requires place { i < length rows.now }
    requires numbers { All (λ x. x < q) (get_or rows.now i []) }
    requires whole { (k : ℕ) → k < length (get_or rows.now i [])
        → k - k % length back.now + (length back.now - 1) < length (get_or rows.now i []) }
    ensures { IfOk result (λ r. r ≡ table (length (get_or rows.now i []))
        (shifted_number q (length back.now) back.now (get_or rows.now i []))) }
{
    Ok(shifted(alloc, q, back, rows[i].as_slice())?)
}

/// The first row and its products by t, as many rows as there are digits.
pub(crate) fn turns_of(
    alloc: Global,
    q: u64,
    back: &[u64],
    first: List<u64>,
) -> Result<List<List<u64>>, NoMemory>
    requires positive { 1 ≤ q }
    requires modulus { q ≤ 2 ^ 40 }
    requires digits { 1 ≤ length back.now }
    requires back { All (λ x. x < q) back.now }
    requires numbers { All (λ x. x < q) first }
    requires whole { (k : ℕ) → k < length first
        → k - k % length back.now + (length back.now - 1) < length first }
    ensures { IfOk result (λ r. AreTurns q back.now first r (length back.now)) }
{
    let mut out = List::new(alloc);
    out.push(first)?;
    for v in 1..back.len() {
        out.push(shifted_row(alloc, q, back, out.as_slice(), v - 1)?)?;
    }
    Ok(out)
}
