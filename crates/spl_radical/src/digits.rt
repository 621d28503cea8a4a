// Lists of numbers: digits, and sums modulo a number.
ghost use Rattle.std.specs.Prelude.{◌≡◌, ◌+◌, ◌/◌, ◌%◌, ◌^◌, ◌<◌, ◌≤◌, suc, length, get_or, All, IfOk};
ghost use Rattle.theory_rings.specs.Digits.{digit};
ghost use Rattle.theory_rings.specs.Sum.{table};

use spl_field::field::NoMemory;
use spl_field::list::List;
use std::alloc::Global;

/// p^(l + 1).
pub(crate) fn power_of(p: u64, l: u32) -> u64
    requires least { 2 ≤ p }
    requires most { p ^ suc l ≤ 2 ^ 40 }
    ensures { result ≡ p ^ suc l }
{
    let mut power = p;
    for i in 0..l {
        power = power * p;
    }
    power
}

/// Digit v of a number to the base p.
pub(crate) fn digit_of(p: u64, number: u64, v: usize) -> u64
    requires { 2 ≤ p }
    ensures { result ≡ digit p number v }
{
    let mut rest = number;
    for i in 0..v {
        rest = rest / p;
    }
    rest % p
}

/// The coefficient of the power u, and 0 past the end.
pub(crate) fn coefficient(a: &[u8], u: usize) -> u64
    ensures { result ≡ get_or a.now u 0 }
{
    if u < a.len() { u64::from(a[u]) } else { 0 }
}

/// The d digits of each coefficient, `width` of them.
pub(crate) fn digits_of(
    alloc: Global,
    p: u64,
    d: usize,
    width: usize,
    a: &[u8],
) -> Result<List<u64>, NoMemory>
    requires base { 2 ≤ p }
    requires digits { 1 ≤ d }
    ensures { IfOk result (λ r. r ≡ table width (λ t. digit p (get_or a.now (t / d) 0) (t % d))) }
{
    let mut out = List::new(alloc);
    for t in 0..width {
        out.push(digit_of(p, coefficient(a, t / d), t % d))?;
    }
    Ok(out)
}

/// The sums modulo q of the numbers at each place.
pub(crate) fn sums_of(alloc: Global, q: u64, a: &[u64], b: &[u64]) -> Result<List<u64>, NoMemory>
    requires positive { 1 ≤ q }
    requires modulus { q ≤ 2 ^ 40 }
    requires left { All (λ x. x < q) a.now }
    requires right { All (λ x. x < q) b.now }
    requires same { length a.now ≡ length b.now }
    ensures { IfOk result (λ r. r ≡ table (length a.now) (λ t. (get_or a.now t 0 + get_or b.now t 0) % q)) }
{
    let mut out = List::new(alloc);
    for t in 0..a.len() {
        out.push((a[t] + b[t]) % q)?;
    }
    Ok(out)
}
