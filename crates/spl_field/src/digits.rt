// Sums, negatives and products of numbers by their digits, without tables.
ghost use Rattle.std.specs.Prelude.{◌≡◌, ℕ, ◌-◌, ◌*◌, ◌^◌, ◌<◌, length, MatchOption, slice_index};
ghost use Rattle.theory_rings.specs.Digits.{digit};
ghost use Rattle.theory_rings.specs.FieldByDigits.{IsSumByDigits, IsProductByDigits};
ghost use Rattle.spl_field.specs.FieldByDigits.{FitsField};

/// The number of elements, p to the number of digits, where p and the modulus give 2 to 256 of them.
pub(crate) fn size_by_digits(p: u16, modulus: &[u8]) -> Option<u16>
    ensures { MatchOption result (FitsField p modulus.now → ⊥)
        (λ q. FitsField p modulus.now × (q ≡ p ^ length modulus.now)) }
{
    if p < 2 || modulus.is_empty() {
        return None;
    }
    let mut size = 1;
    for k in 0..modulus.len() {
        size *= u32::from(p);
        if 256 < size || p <= u16::from(modulus[k]) {
            return None;
        }
    }
    Some(size as u16)
}

/// The sum: digit by digit modulo p.
pub(crate) fn sum_by_digits(p: u16, modulus: &[u8], a: u16, b: u16) -> u16
    requires { FitsField p modulus.now }
    ensures { IsSumByDigits p modulus.now a b result }
{
    let mut total = 0;
    let mut place = 1;
    for _k in 0..modulus.len() {
        total += (a / place % p + b / place % p) % p * place;
        place *= p;
    }
    total
}

/// The negative: the opposite of each digit modulo p.
pub(crate) fn negative_by_digits(p: u16, modulus: &[u8], a: u16) -> u16
    requires { FitsField p modulus.now }
    ensures element { result < p ^ length modulus.now }
    ensures value { IsSumByDigits p modulus.now a result 0 }
{
    let mut total = 0;
    let mut place = 1;
    for _k in 0..modulus.len() {
        total += (p - a / place % p) % p * place;
        place *= p;
    }
    total
}

/// The product of t and a: the digits of a but the last move up, and the last takes so many times the modulus away.
fn product_by_t(p: u16, modulus: &[u8], size: u16, a: u16) -> u16
    requires fits { FitsField p modulus.now }
    requires size { size ≡ p ^ length modulus.now }
    requires element { a < size }
    ensures { IsProductByDigits p modulus.now p a result }
{
    let moved = p * a;
    let top = moved / size;
    let mut total = 0;
    let mut place = 1;
    for k in 0..modulus.len() {
        total += (moved / place % p + (p - u16::from(modulus[k])) * top) % p * place;
        place *= p;
    }
    total
}

/// The product of a and b, where the products of a and the numbers before b are there.
fn next_product(p: u16, modulus: &[u8], size: u16, a: u16, row: &[u8], b: u16) -> u16
    requires fits { FitsField p modulus.now }
    requires size { size ≡ p ^ length modulus.now }
    requires first { a < size }
    requires second { b < size }
    requires room { b < length row.now }
    requires before { (k : ℕ) → k < b → IsProductByDigits p modulus.now a k (slice_index row.now k) }
    ensures { IsProductByDigits p modulus.now a b result }
{
    if b == 0 {
        0
    } else if b % p == 0 {
        product_by_t(p, modulus, size, u16::from(row[usize::from(b / p)]))
    } else {
        sum_by_digits(p, modulus, u16::from(row[usize::from(b - 1)]), a)
    }
}

/// The products of a and each element.
pub(crate) fn product_row(p: u16, modulus: &[u8], size: u16, a: u16) -> [u8; 256]
    requires fits { FitsField p modulus.now }
    requires size { size ≡ p ^ length modulus.now }
    requires element { a < size }
    ensures { (b : ℕ) → b < size → IsProductByDigits p modulus.now a b (slice_index result b) }
{
    let mut row = [0; 256];
    for b in 0..size {
        row[usize::from(b)] = next_product(p, modulus, size, a, &row, b) as u8;
    }
    row
}
