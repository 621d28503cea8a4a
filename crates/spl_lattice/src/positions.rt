// Leading positions of rows of polynomials.
ghost use Rattle.std.specs.Prelude.{◌≡◌, ◌≢◌, ℕ, ◌+◌, ◌<◌, ◌≤◌, length, MatchOption, slice_index};
ghost use Rattle.theory_rows.specs.LeadingPositions.{HasLeadingPosition, HaveLeadingPositions, IsZeroUpTo};
ghost use Rattle.spl_lattice.specs.Division.{CanDivide};
ghost use Rattle.spl_lattice.specs.Reduction.{LeadsSoFar};

use crate::rows::PolyRow;
use spl_poly::poly::Poly;

/// Of the places, that of the entry of greater degree, and the later one where both have the same.
fn later(row: &[Poly], best: usize, j: usize) -> usize
    requires best_in { best < length row.now }
    requires j_in { j < length row.now }
    requires before { best ≤ j }
    requires so_far { LeadsSoFar j row.now best }
    ensures { LeadsSoFar (j + 1) row.now result }
{
    if row[j].as_slice().len() < row[best].as_slice().len() {
        best
    } else {
        j
    }
}

/// The leading position of the first w entries of a row; None exactly where they are 0.
pub(crate) fn leading_position(row: &[Poly], w: usize) -> Option<usize>
    requires { w ≤ length row.now }
    ensures { MatchOption result (IsZeroUpTo w row.now) (HasLeadingPosition w row.now) }
{
    if w == 0 {
        return None;
    }
    let mut best = 0;
    for j in 0..w {
        best = later(row, best, j);
    }
    if row[best].is_zero() {
        return None;
    }
    Some(best)
}

/// Where the place stands in the list.
fn place_of(places: &[usize], p: usize) -> Option<usize>
    ensures { MatchOption result ((i : ℕ) → i < length places.now → slice_index places.now i ≢ p)
        (λ i. (i < length places.now) × (slice_index places.now i ≡ p)) }
{
    for i in 0..places.len() {
        if places[i] == p {
            return Some(i);
        }
    }
    None
}

/// The row of those with these leading positions that leads where the given one does, in the first w entries.
pub(crate) fn conflict(places: &[usize], row: &[Poly], w: usize) -> Option<usize>
    requires { w ≤ length row.now }
    ensures { MatchOption result ((p : ℕ) → HasLeadingPosition w row.now p → (i : ℕ) → i < length places.now
        → slice_index places.now i ≢ p)
        (λ i. (i < length places.now) × HasLeadingPosition w row.now (slice_index places.now i)) }
{
    let p = leading_position(row, w)?;
    place_of(places, p)
}

/// Of reduced rows with these leading positions, that which leads where the given row does, with no greater degree.
pub(crate) fn divisor(places: &[usize], rows: &[PolyRow], row: &[Poly], w: usize) -> Option<usize>
    requires width { w ≤ length row.now }
    requires reduced { HaveLeadingPositions w rows.now places.now }
    ensures { MatchOption result ((i : ℕ) → CanDivide w rows.now places.now row.now i → ⊥)
        (CanDivide w rows.now places.now row.now) }
{
    let i = conflict(places, row, w)?;
    let p = places[i];
    if row[p].as_slice().len() < rows[i].as_slice()[p].as_slice().len() {
        return None;
    }
    Some(i)
}
