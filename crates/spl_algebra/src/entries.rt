// The structure constants that are not 0.
ghost use Rattle.std.specs.Prelude.{◌≡◌, ◌+◌, ◌*◌, ◌^◌, ◌<◌, ◌≤◌, IfOk, length, All};
ghost use Rattle.theory_rings.specs.Ops.{IsElem};
ghost use Rattle.theory_rings.specs.Sum.{at};
ghost use Rattle.theory_spaces.specs.Tuples.{IsTuple};
ghost use Rattle.spl_algebra.specs.Entries.{ListsNonzero, AreRowEntries};

use spl_field::field::{Field, NoMemory};
use spl_field::list::List;
use std::alloc::Global;

/// The pairs (k, c) of a row of structure constants c that are not 0, with k counted from 1, by increasing k.
pub type Entries<F> = List<(usize, <F as Field>::Elem)>;

/// The constants of the row of m from the place `start` on that are not 0, each with its place, counted from 1.
fn entries_of_row<F: Field>(
    alloc: Global,
    f: &F,
    zero: &F::Elem,
    m: usize,
    constants: &[F::Elem],
    start: usize,
) -> Result<Entries<F>, NoMemory>
    requires zero { zero.now ≡ (F.ops f.now).zero }
    requires constants { All (IsElem (F.ops f.now)) constants.now }
    requires ends { start + m ≤ length constants.now }
    ensures { IfOk result (ListsNonzero (F.ops f.now).zero m (λ k. at (F.ops f.now) constants.now (start + k))) }
{
    let mut list = List::new(alloc);
    for k in 0..m {
        let constant = &constants[start + k];
        if !f.eq(constant, zero) {
            let item = f.copy(alloc, constant)?;
            list.push((k + 1, item))?;
        }
    }
    Ok(list)
}

/// The entries of all rows of m constants.
pub(crate) fn entries_of<F: Field>(
    alloc: Global,
    f: &F,
    m: usize,
    constants: &[F::Elem],
) -> Result<List<Entries<F>>, NoMemory>
    requires fits { m * m * m < 2 ^ 64 }
    requires over { IsTuple (F.ops f.now) (m * m * m) constants.now }
    ensures { IfOk result (AreRowEntries (F.ops f.now) m constants.now (m * m)) }
{
    let zero = f.zero(alloc)?;
    let mut lists = List::new(alloc);
    for r in 0..m * m {
        lists.push(entries_of_row(alloc, f, &zero, m, constants, r * m)?)?;
    }
    Ok(lists)
}
