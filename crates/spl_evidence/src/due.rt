// Whether a line may stand where it stands: its word is due, and its numbers are in range and in order.
ghost use Rattle.std.specs.Prelude.{◌≡◌, ◌↔◌, ◌+◌, ◌-◌, ◌*◌, ◌<◌, ◌≤◌, ℕ, [], ◌∷◌, IsTrue, Some, get_or};
ghost use Rattle.std.specs.List.{AllByRecursion};
ghost use Rattle.theory_tables.specs.Claims.{PairBefore};
ghost use Rattle.spl_evidence.specs.Line.{Line};
ghost use Rattle.spl_evidence.specs.Refusal.{greatest, due_sides, due_words, IsInRange, NumbersAreInOrder};
ghost use Rattle.spl_evidence.specs.Refusal.{up_to, end_at, due_at_place};
ghost use Rattle.spl_evidence.specs.Reading.{IsLineOf};
ghost use Rattle.spl_evidence.specs.declared.word.Word.TheVariants.{Left, Right, Tuple, Map, Unit as UnitTuple, End};
ghost use Rattle.spl_evidence.specs.declared.word.Word.TheVariants.{Ramified, RamifiedInfinity};

use crate::arguments::both;
use crate::line::LineWords;
use crate::word::{Before, Word};

/// The words of the lines that may come behind a line of this word among multipliers.
fn due_behind_side(last: Word) -> &'static [Word]
    ensures { result.now ≡ due_sides last }
{
    match last {
        Word::NoIdentity => &[Word::Left, Word::Right, Word::End],
        Word::Left => &[Word::Left, Word::Right, Word::End],
        Word::Right => &[Word::Right, Word::End],
        Word::Triple => &[],
        Word::Central => &[],
        Word::Ideal => &[],
        Word::Split => &[],
        Word::Ramified => &[],
        Word::RamifiedInfinity => &[],
        Word::Tuple => &[],
        Word::Map => &[],
        Word::Unit => &[],
        Word::Order => &[],
        Word::Radical => &[],
        Word::End => &[],
    }
}

/// A tuple, where fewer than `most` stand; then the line `end`.
fn due_behind_tuples(count: u32, most: u32) -> &'static [Word]
    ensures { result.now ≡ up_to count most Tuple (end_at count most) }
{
    if count < most {
        return &[Word::Tuple];
    }
    if count == most {
        return &[Word::End];
    }
    &[]
}

/// A map, where fewer than m stand, and a unit tuple, where fewer than m stand behind these; then the line `end`.
fn due_in_split(count: u32, m: u32) -> &'static [Word]
    requires { m ≤ 25 }
    ensures { result.now ≡ up_to count m Map (up_to count (m + m) UnitTuple (end_at count (m + m))) }
{
    if count < m {
        return &[Word::Map];
    }
    if count < m + m {
        return &[Word::Unit];
    }
    if count == m + m {
        return &[Word::End];
    }
    &[]
}

/// A tuple of an order, where fewer than m stand, and one of its radical, where fewer than m stand behind these; then
/// the line `end`.
fn due_at_place(count: u32, m: u32) -> &'static [Word]
    requires { m ≤ 25 }
    ensures { result.now ≡ due_at_place m count }
{
    if count < m {
        return &[Word::Order];
    }
    if count < m + m {
        return &[Word::Radical];
    }
    if count == m + m {
        return &[Word::End];
    }
    &[]
}

/// The words of the lines that may come next, over an algebra of dimension m.
pub(crate) fn due(before: &Option<Before>, m: u32) -> &'static [Word]
    requires { m ≤ 25 }
    ensures { result.now ≡ due_words m before.now }
{
    match before {
        None => &[
            Word::Triple,
            Word::NoIdentity,
            Word::Central,
            Word::Ideal,
            Word::Split,
            Word::Ramified,
            Word::RamifiedInfinity,
        ],
        Some(before) => due_behind(before, m),
    }
}

/// The words of the lines that may come behind the line of a kind.
fn due_behind(before: &Before, m: u32) -> &'static [Word]
    requires { m ≤ 25 }
    ensures { result.now ≡ due_words m (Some before.now) }
{
    match before.kind {
        Word::NoIdentity => due_behind_side(before.last),
        Word::Split => due_in_split(before.count, m),
        Word::Ramified => due_at_place(before.count, m),
        Word::RamifiedInfinity => due_at_place(before.count, m),
        Word::Triple => due_behind_tuples(before.count, before.tuples),
        Word::Central => due_behind_tuples(before.count, before.tuples),
        Word::Ideal => due_behind_tuples(before.count, before.tuples),
        Word::Left => due_behind_tuples(before.count, before.tuples),
        Word::Right => due_behind_tuples(before.count, before.tuples),
        Word::Tuple => due_behind_tuples(before.count, before.tuples),
        Word::Map => due_behind_tuples(before.count, before.tuples),
        Word::Unit => due_behind_tuples(before.count, before.tuples),
        Word::Order => due_behind_tuples(before.count, before.tuples),
        Word::Radical => due_behind_tuples(before.count, before.tuples),
        Word::End => due_behind_tuples(before.count, before.tuples),
    }
}

/// Whether each number is from 1 to the greatest.
fn are_between(numbers: &[u32], most: u32) -> bool
    ensures { IsTrue result ↔ AllByRecursion (λ i. (1 ≤ i) × (i ≤ most)) numbers.now }
{
    numbers.iter().all(|number| 1 <= *number && *number <= most)
}

/// The greatest number that may follow the word, over an algebra of degree n.
fn greatest_of(word: Word, n: u32) -> u32
    requires low { 0 < n }
    requires high { n ≤ 5 }
    ensures { result ≡ greatest n word }
{
    match word {
        Word::Triple => n * n,
        Word::Left => n * n,
        Word::Right => n * n,
        Word::Map => n * n,
        Word::Ideal => n * n - 1,
        Word::Unit => n,
        Word::NoIdentity => 0,
        Word::Central => 0,
        Word::Split => 0,
        Word::Ramified => 0,
        Word::RamifiedInfinity => 0,
        Word::Tuple => 0,
        Word::Order => 0,
        Word::Radical => 0,
        Word::End => 0,
    }
}

/// Whether the numbers of the line, and the elements of its fractions, are in range.
pub(crate) fn is_in_range(line: &LineWords, n: u32) -> bool
    requires low { 0 < n }
    requires high { n ≤ 5 }
    ensures { (q : ℕ) (l : Line) → IsLineOf q l line.now → (IsTrue result ↔ IsInRange q n l) }
{
    both(
        line.elements,
        are_between(line.numbers.as_slice(), greatest_of(line.word, n)),
    )
}

/// Whether the pair (j, k) comes before the other in lexicographic order.
fn is_pair_before(j: u32, k: u32, other_j: u32, other_k: u32) -> bool
    ensures { IsTrue result ↔ PairBefore j k other_j other_k }
{
    j < other_j || (j == other_j && k < other_k)
}

/// The number at a place, and 0 where there is none.
pub(crate) fn number_at(numbers: &[u32], place: usize) -> u32
    ensures { result ≡ get_or numbers.now place 0 }
{
    match numbers.get(place) {
        Some(number) => *number,
        None => 0,
    }
}

/// Whether it is the word `left`.
pub(crate) fn is_left(word: Word) -> bool
    ensures { IsTrue result ↔ (word ≡ Left) }
{
    match word {
        Word::Left => true,
        Word::Triple => false,
        Word::NoIdentity => false,
        Word::Central => false,
        Word::Ideal => false,
        Word::Split => false,
        Word::Ramified => false,
        Word::RamifiedInfinity => false,
        Word::Right => false,
        Word::Tuple => false,
        Word::Map => false,
        Word::Unit => false,
        Word::Order => false,
        Word::Radical => false,
        Word::End => false,
    }
}

/// Whether it is the word `right`.
fn is_right(word: Word) -> bool
    ensures { IsTrue result ↔ (word ≡ Right) }
{
    match word {
        Word::Right => true,
        Word::Triple => false,
        Word::NoIdentity => false,
        Word::Central => false,
        Word::Ideal => false,
        Word::Split => false,
        Word::Ramified => false,
        Word::RamifiedInfinity => false,
        Word::Left => false,
        Word::Tuple => false,
        Word::Map => false,
        Word::Unit => false,
        Word::Order => false,
        Word::Radical => false,
        Word::End => false,
    }
}

/// Whether it is the word `end`.
pub(crate) fn is_end(word: Word) -> bool
    ensures { IsTrue result ↔ (word ≡ End) }
{
    match word {
        Word::End => true,
        Word::Triple => false,
        Word::NoIdentity => false,
        Word::Central => false,
        Word::Ideal => false,
        Word::Split => false,
        Word::Ramified => false,
        Word::RamifiedInfinity => false,
        Word::Left => false,
        Word::Right => false,
        Word::Tuple => false,
        Word::Map => false,
        Word::Unit => false,
        Word::Order => false,
        Word::Radical => false,
    }
}

/// Whether it is the word of a place whose polynomial follows.
pub(crate) fn is_ramified(word: Word) -> bool
    ensures { IsTrue result ↔ (word ≡ Ramified) }
{
    match word {
        Word::Ramified => true,
        Word::Triple => false,
        Word::NoIdentity => false,
        Word::Central => false,
        Word::Ideal => false,
        Word::Split => false,
        Word::RamifiedInfinity => false,
        Word::Left => false,
        Word::Right => false,
        Word::Tuple => false,
        Word::Map => false,
        Word::Unit => false,
        Word::Order => false,
        Word::Radical => false,
        Word::End => false,
    }
}

/// Whether it is the word of infinity as a ramified place.
pub(crate) fn is_infinity(word: Word) -> bool
    ensures { IsTrue result ↔ (word ≡ RamifiedInfinity) }
{
    match word {
        Word::RamifiedInfinity => true,
        Word::Triple => false,
        Word::NoIdentity => false,
        Word::Central => false,
        Word::Ideal => false,
        Word::Split => false,
        Word::Ramified => false,
        Word::Left => false,
        Word::Right => false,
        Word::Tuple => false,
        Word::Map => false,
        Word::Unit => false,
        Word::Order => false,
        Word::Radical => false,
        Word::End => false,
    }
}

/// Whether the second holds where the first does.
fn implies(first: bool, second: bool) -> bool
    ensures { IsTrue result ↔ (IsTrue first → IsTrue second) }
{
    !first || second
}

/// Whether the map behind so many others has this number.
fn is_next(count: u32, number: u32) -> bool
    ensures { IsTrue result ↔ (number ≡ count + 1) }
{
    u64::from(number) == u64::from(count) + 1
}

/// Whether the unit tuple behind so many lines has this row, which is counted from 1, and this column.
fn is_next_unit(count: u32, n: u32, row: u32, column: u32) -> bool
    requires { n ≤ 5 }
    ensures { 1 ≤ row → (IsTrue result ↔ ((row - 1) * n + column + n * n ≡ count + 1)) }
{
    if row == 0 {
        return false;
    }
    let n = u64::from(n);
    (u64::from(row) - 1) * n + u64::from(column) + n * n == u64::from(count) + 1
}

/// Whether a line of this word and these numbers is in order behind the others.
pub(crate) fn is_in_order_behind(
    before: &Before,
    n: u32,
    word: Word,
    first: u32,
    second: u32,
) -> bool
    requires small { n ≤ 5 }
    ensures { (word ≡ UnitTuple → 1 ≤ first) → (IsTrue result ↔ NumbersAreInOrder n before.now
        (record { word = word; numbers = first ∷ second ∷ []; fractions = [] })) }
{
    match word {
        Word::Left => implies(
            is_left(before.last),
            is_pair_before(before.j, before.k, first, second),
        ),
        Word::Right => implies(
            is_right(before.last),
            is_pair_before(before.j, before.k, first, second),
        ),
        Word::Map => is_next(before.count, first),
        Word::Unit => is_next_unit(before.count, n, first, second),
        Word::Triple => true,
        Word::NoIdentity => true,
        Word::Central => true,
        Word::Ideal => true,
        Word::Split => true,
        Word::Ramified => true,
        Word::RamifiedInfinity => true,
        Word::Tuple => true,
        Word::Order => true,
        Word::Radical => true,
        Word::End => true,
    }
}
