// All products by x^u·t^v of elements that are rows of numbers.
ghost use Rattle.std.specs.Prelude.{◌≡◌, ℕ, ◌*◌, ◌<◌, ◌≤◌, length, IfOk};
ghost use Rattle.theory_chains.specs.NumberRows.{AreRows};
ghost use Rattle.spl_radical.specs.Multiples.{AreSteps, IsMultiple, AreMultiples};

use crate::rows::{shifted, turned};
use spl_field::field::NoMemory;
use spl_field::list::List;
use std::alloc::Global;

/// Row r of the products, where those before it are known.
fn next_multiple(
    alloc: Global,
    q: u64,
    w: usize,
    back: &[u64],
    turns: &[List<u64>],
    rows: &[List<u64>],
    out: &[List<u64>],
    r: usize,
) -> Result<List<u64>, NoMemory>
    requires steps { AreSteps q w back.now turns.now }
    requires rows { AreRows q (length rows.now * w) rows.now }
    requires known { AreMultiples q w back.now turns.now rows.now out.now r }
    requires place { r < length rows.now * w }
    ensures { IfOk result (IsMultiple q w back.now turns.now rows.now out.now r) }
{
    let s = r % w;
    if s == 0 {
        return Ok(List::from_slice(alloc, rows[r / w].as_slice())?);
    }
    let d = back.len();
    if s < d {
        return Ok(shifted(alloc, q, back, out[r - 1].as_slice())?);
    }
    Ok(turned(alloc, q, w, turns, out[r - d].as_slice())?)
}

/// The products by all x^u·t^v of the elements of n rows, w for each row.
pub(crate) fn multiples(
    alloc: Global,
    q: u64,
    w: usize,
    back: &[u64],
    turns: &[List<u64>],
    rows: &[List<u64>],
    n: usize,
) -> Result<List<List<u64>>, NoMemory>
    requires steps { AreSteps q w back.now turns.now }
    requires rows { AreRows q (length rows.now * w) rows.now }
    requires count { n ≡ length rows.now * w }
    ensures { IfOk result (λ out. AreMultiples q w back.now turns.now rows.now out n) }
{
    let mut out = List::new(alloc);
    for r in 0..n {
        out.push(next_multiple(alloc, q, w, back, turns, rows, out.as_slice(), r)?)?;
    }
    Ok(out)
}
