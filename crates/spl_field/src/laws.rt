// The laws of a field, for given tables of its sums and products.
ghost use Rattle.std.specs.Prelude.{◌≡◌, ℕ, ◌*◌, ◌<◌, ◌≤◌, ◌↔◌, length, IsTrue, MatchOption, OnOk, IfErr};
ghost use Rattle.spl_field.specs.Tables.{entry_at, AreElements};
ghost use Rattle.spl_field.specs.Laws.{AreTables, AreFieldTables, HoldsAt, HoldsAtPair, Holds, FailsFirstAt};
ghost use Rattle.spl_field.specs.Laws.{FailsFirstAtPair, FailsFirst, IsFirstFailure, number_of, second_below};
ghost use Rattle.spl_field.specs.Laws.{third_below};

use crate::list::Codes;
use crate::small::Tables;

/// The laws, in their order.
#[derive(Clone, Copy)]
pub enum Law {
    SumAssociative,
    SumCommutative,
    Zero,
    Negative,
    ProductAssociative,
    ProductCommutative,
    One,
    Distributive,
    Inverse,
}

/// A law that fails, by its number from 1 to 9, and the elements at which it fails, with 0 in the place of those that
/// it does not use. The laws are: 1 sums associate, 2 sums commute, 3 the zero, 4 a negative exists, 5 products
/// associate, 6 products commute, 7 the one, 8 a·(b + c) = a·b + a·c, 9 an element but 0 has an inverse.
#[derive(Clone, Copy, Debug, PartialEq, Eq)]
pub struct LawAt {
    pub law: u8,
    pub a: u8,
    pub b: u8,
    pub c: u8,
}

/// The law with this number.
fn law_of_number(number: u8) -> Law
    requires low { 1 ≤ number }
    requires high { number ≤ 9 }
    ensures { number_of result ≡ number }
{
    match number {
        1 => Law::SumAssociative,
        2 => Law::SumCommutative,
        3 => Law::Zero,
        4 => Law::Negative,
        5 => Law::ProductAssociative,
        6 => Law::ProductCommutative,
        7 => Law::One,
        8 => Law::Distributive,
        _ => Law::Inverse,
    }
}

/// Below what the second element stays: where the law does not use it, it is 0.
fn second_limit(law: Law, size: u16) -> u16
    requires { 1 ≤ size }
    ensures limit { result ≡ second_below size law }
    ensures most { result ≤ size }
{
    match law {
        Law::SumAssociative => size,
        Law::SumCommutative => size,
        Law::Zero => 1,
        Law::Negative => 1,
        Law::ProductAssociative => size,
        Law::ProductCommutative => size,
        Law::One => 1,
        Law::Distributive => size,
        Law::Inverse => 1,
    }
}

/// Below what the third element stays.
fn third_limit(law: Law, size: u16) -> u16
    requires { 1 ≤ size }
    ensures limit { result ≡ third_below size law }
    ensures most { result ≤ size }
{
    match law {
        Law::SumAssociative => size,
        Law::SumCommutative => 1,
        Law::Zero => 1,
        Law::Negative => 1,
        Law::ProductAssociative => size,
        Law::ProductCommutative => 1,
        Law::One => 1,
        Law::Distributive => size,
        Law::Inverse => 1,
    }
}

/// The entry in row a and column b.
fn entry(table: &Codes, size: u16, a: u16, b: u16) -> u16
    requires full { length table.now ≡ size * size }
    requires elements { AreElements size (size * size) table.now }
    requires left { a < size }
    requires right { b < size }
    ensures element { result < size }
    ensures value { result ≡ entry_at size table.now a b }
{
    let items = table.as_slice();
    u16::from(items[usize::from(a) * usize::from(size) + usize::from(b)])
}

/// Whether row a has the entry.
fn row_has(table: &Codes, size: u16, a: u16, wanted: u16) -> bool
    requires full { length table.now ≡ size * size }
    requires elements { AreElements size (size * size) table.now }
    requires left { a < size }
    ensures { IsTrue result ↔ ((b : ℕ) × (b < size) × (entry_at size table.now a b ≡ wanted)) }
{
    for b in 0..size {
        if entry(table, size, a, b) == wanted {
            return true;
        }
    }
    false
}

/// The sum.
fn add(t: &Tables, a: u16, b: u16) -> u16
    requires tables { AreTables t.now.size t.now.sum t.now.product }
    requires left { a < t.now.size }
    requires right { b < t.now.size }
    ensures element { result < t.now.size }
    ensures value { result ≡ entry_at t.now.size t.now.sum a b }
{
    entry(&t.sum, t.size, a, b)
}

/// The product.
fn mul(t: &Tables, a: u16, b: u16) -> u16
    requires tables { AreTables t.now.size t.now.sum t.now.product }
    requires left { a < t.now.size }
    requires right { b < t.now.size }
    ensures element { result < t.now.size }
    ensures value { result ≡ entry_at t.now.size t.now.product a b }
{
    entry(&t.product, t.size, a, b)
}

/// Whether the law holds at a, b and c.
fn holds_at(t: &Tables, law: Law, a: u16, b: u16, c: u16) -> bool
    requires tables { AreTables t.now.size t.now.sum t.now.product }
    requires first { a < t.now.size }
    requires second { b < second_below t.now.size law }
    requires third { c < third_below t.now.size law }
    ensures { IsTrue result ↔ HoldsAt t.now.size t.now.sum t.now.product law a b c }
{
    match law {
        Law::SumAssociative => add(t, add(t, a, b), c) == add(t, a, add(t, b, c)),
        Law::SumCommutative => add(t, a, b) == add(t, b, a),
        Law::Zero => add(t, 0, a) == a,
        Law::Negative => row_has(&t.sum, t.size, a, 0),
        Law::ProductAssociative => mul(t, mul(t, a, b), c) == mul(t, a, mul(t, b, c)),
        Law::ProductCommutative => mul(t, a, b) == mul(t, b, a),
        Law::One => mul(t, 1, a) == a,
        Law::Distributive => mul(t, a, add(t, b, c)) == add(t, mul(t, a, b), mul(t, a, c)),
        Law::Inverse => a == 0 || row_has(&t.product, t.size, a, 1),
    }
}

/// The first c at which the law fails with a and b.
fn first_third(t: &Tables, law: Law, a: u16, b: u16) -> Option<u8>
    requires tables { AreTables t.now.size t.now.sum t.now.product }
    requires first { a < t.now.size }
    requires second { b < second_below t.now.size law }
    ensures { MatchOption result (HoldsAtPair t.now.size t.now.sum t.now.product law a b)
        (λ c. FailsFirstAt t.now.size t.now.sum t.now.product law a b c) }
{
    for c in 0..third_limit(law, t.size) {
        if !holds_at(t, law, a, b, c) {
            return Some(c as u8);
        }
    }
    None
}

/// The first b and c at which the law fails with a.
fn first_pair(t: &Tables, law: Law, a: u16) -> Option<(u8, u8)>
    requires tables { AreTables t.now.size t.now.sum t.now.product }
    requires first { a < t.now.size }
    ensures { MatchOption result
        ((b : ℕ) → b < second_below t.now.size law → HoldsAtPair t.now.size t.now.sum t.now.product law a b)
        (λ r. FailsFirstAtPair t.now.size t.now.sum t.now.product law a r.0 r.1) }
{
    for b in 0..second_limit(law, t.size) {
        if let Some(c) = first_third(t, law, a, b) {
            return Some((b as u8, c));
        }
    }
    None
}

/// The first a, b and c at which the law fails.
fn first_triple(t: &Tables, law: Law) -> Option<(u8, u8, u8)>
    requires { AreTables t.now.size t.now.sum t.now.product }
    ensures { MatchOption result (Holds t.now.size t.now.sum t.now.product law)
        (λ r. FailsFirst t.now.size t.now.sum t.now.product law r.0 r.1 r.2) }
{
    for a in 0..t.size {
        if let Some((b, c)) = first_pair(t, law, a) {
            return Some((a as u8, b, c));
        }
    }
    None
}

/// Whether the tables are those of a field, with 0 as zero and 1 as one. The first law that fails is told, and the
/// least triple of elements, in lexicographic order, at which it does. It takes no memory.
pub fn check_laws(tables: &Tables) -> Result<(), LawAt>
    requires { AreTables tables.now.size tables.now.sum tables.now.product }
    ensures ok { OnOk result (AreFieldTables tables.now.size tables.now.sum tables.now.product) }
    ensures err { IfErr result (IsFirstFailure tables.now.size tables.now.sum tables.now.product) }
{
    for number in 1..10 {
        let law = law_of_number(number);
        if let Some((a, b, c)) = first_triple(tables, law) {
            return Err(LawAt {
                law: number,
                a,
                b,
                c,
            });
        }
    }
    Ok(())
}
