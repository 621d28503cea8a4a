// The tables of the answers of a field.
ghost use Rattle.std.specs.Prelude.{◌≡◌, ℕ, ◌*◌, ◌+◌, ◌/◌, ◌%◌, ◌^◌, ◌<◌, ◌≤◌, length, IfOk, slice_index};
ghost use Rattle.theory_rings.specs.FieldByDigits.{IsSumByDigits, IsProductByDigits};
ghost use Rattle.spl_field.specs.FieldByDigits.{FitsField, HasInverse};
ghost use Rattle.spl_field.specs.Tables.{entry_at, table_power, AreElements, AreNegatives};

use crate::admission::inverse_of;
use crate::digits::{negative_by_digits, product_row, sum_by_digits};
use crate::field::NoMemory;
use std::alloc::Global;

/// The sums, row by row.
pub(crate) fn sum_table(
    alloc: Global,
    p: u16,
    modulus: &[u8],
    size: u16,
) -> Result<Vec<u8>, NoMemory>
    requires fits { FitsField p modulus.now }
    requires size { size ≡ p ^ length modulus.now }
    ensures full { IfOk result (λ t. length t.items ≡ size * size) }
    ensures entries { IfOk result (λ t. (i : ℕ) → i < size * size
        → IsSumByDigits p modulus.now (i / size) (i % size) (slice_index t.items i)) }
{
    let mut table = Vec::with_capacity(alloc, usize::from(size) * usize::from(size))?;
    for i in 0..u32::from(size) * u32::from(size) {
        let row = (i / u32::from(size)) as u16;
        let column = (i % u32::from(size)) as u16;
        table.push(sum_by_digits(p, modulus, row, column) as u8)?;
    }
    Ok(table)
}

/// The negatives.
pub(crate) fn negative_table(
    alloc: Global,
    p: u16,
    modulus: &[u8],
    size: u16,
) -> Result<Vec<u8>, NoMemory>
    requires fits { FitsField p modulus.now }
    requires size { size ≡ p ^ length modulus.now }
    ensures full { IfOk result (λ t. length t.items ≡ size) }
    ensures elements { IfOk result (λ t. AreElements size size t.items) }
    ensures entries { IfOk result (λ t. AreNegatives p modulus.now size t.items) }
{
    let mut table = Vec::with_capacity(alloc, usize::from(size))?;
    for a in 0..size {
        table.push(negative_by_digits(p, modulus, a) as u8)?;
    }
    Ok(table)
}

/// The products, row by row.
pub(crate) fn product_table(
    alloc: Global,
    p: u16,
    modulus: &[u8],
    size: u16,
) -> Result<Vec<u8>, NoMemory>
    requires fits { FitsField p modulus.now }
    requires size { size ≡ p ^ length modulus.now }
    ensures full { IfOk result (λ t. length t.items ≡ size * size) }
    ensures elements { IfOk result (λ t. AreElements size (size * size) t.items) }
    ensures entries { IfOk result (λ t. (a b : ℕ) → a < size → b < size
        → IsProductByDigits p modulus.now a b (entry_at size t.items a b)) }
{
    let mut table = Vec::with_capacity(alloc, usize::from(size) * usize::from(size))?;
    for a in 0..size {
        let row = product_row(p, modulus, size, a);
        table.extend_from_slice(&row[..usize::from(size)])?;
    }
    Ok(table)
}

/// The inverse of a, and 0 where a is 0.
fn inverse_entry(p: u16, modulus: &[u8], size: u16, a: u16) -> u8
    requires fits { FitsField p modulus.now }
    requires size { size ≡ p ^ length modulus.now }
    requires element { a < size }
    requires invertible { 0 < a → HasInverse p modulus.now a }
    ensures element { result < size }
    ensures value { 0 < a → IsProductByDigits p modulus.now a result 1 }
    ensures zero { a ≡ 0 → result ≡ 0 }
{
    if a == 0 {
        0
    } else {
        inverse_of(p, modulus, size, a).unwrap() as u8
    }
}

/// The inverses, with 0 in the place of the inverse of 0.
pub(crate) fn inverse_table(
    alloc: Global,
    p: u16,
    modulus: &[u8],
    size: u16,
) -> Result<Vec<u8>, NoMemory>
    requires fits { FitsField p modulus.now }
    requires size { size ≡ p ^ length modulus.now }
    requires invertible { (a : ℕ) → 0 < a → a < size → HasInverse p modulus.now a }
    ensures full { IfOk result (λ t. length t.items ≡ size) }
    ensures elements { IfOk result (λ t. AreElements size size t.items) }
    ensures entries { IfOk result (λ t. (a : ℕ) → 0 < a → a < size
        → IsProductByDigits p modulus.now a (slice_index t.items a) 1) }
    ensures zero { IfOk result (λ t. slice_index t.items 0 ≡ 0) }
{
    let mut table = Vec::with_capacity(alloc, usize::from(size))?;
    for a in 0..size {
        table.push(inverse_entry(p, modulus, size, a))?;
    }
    Ok(table)
}

/// The n-th power of r, by the table of the products.
fn power(products: &[u8], size: u16, r: u16, n: u16) -> u16
    requires least { 2 ≤ size }
    requires most { size ≤ 256 }
    requires full { length products.now ≡ size * size }
    requires elements { AreElements size (size * size) products.now }
    requires element { r < size }
    ensures element { result < size }
    ensures value { result ≡ table_power size products.now r n }
{
    let mut power = 1;
    for _k in 0..n {
        power = u16::from(products[usize::from(r) * usize::from(size) + usize::from(power)]);
    }
    power
}

/// The roots of the p-th powers: at the p-th power of r stands a number whose p-th power is the same.
pub(crate) fn root_table(
    alloc: Global,
    p: u16,
    size: u16,
    products: &[u8],
) -> Result<Vec<u8>, NoMemory>
    requires least { 2 ≤ size }
    requires most { size ≤ 256 }
    requires full { length products.now ≡ size * size }
    requires elements { AreElements size (size * size) products.now }
    ensures full { IfOk result (λ t. length t.items ≡ size) }
    ensures elements { IfOk result (λ t. AreElements size size t.items) }
    ensures roots { IfOk result (λ t. (r : ℕ) → r < size
        → table_power size products.now (slice_index t.items (table_power size products.now r p)) p
        ≡ table_power size products.now r p) }
{
    let mut table = vec![in alloc; 0; usize::from(size)]?;
    for r in 0..size {
        let place = power(products, size, r, p);
        table[usize::from(place)] = r as u8;
    }
    Ok(table)
}
