// Traces of powers of lifted multiplications.
ghost use Rattle.std.specs.Prelude.{◌≡◌, ◌^◌, ◌≤◌, [], length, get_or, IfOk};
ghost use Rattle.theory_tables.specs.Structure.{IsOver, IsElement};
ghost use Rattle.spl_residue.specs.Residue.{residue_ops};
ghost use Rattle.spl_radical.specs.LiftNumbers.{residues_of, level_of};
ghost use Rattle.spl_radical.specs.LiftRing.{IsLiftElem};
ghost use Rattle.spl_radical.specs.TracePower.{lifted_trace};

use crate::digits::power_of;
use crate::lift_ring::{LiftElem, LiftRing};
use crate::matrices::{lifted_rows, power};
use spl_algebra::algebra::Algebra;
use spl_field::field::NoMemory;
use spl_field::list::{List, Vector};
use spl_residue::field::ResidueField;
use std::alloc::Global;

/// The number of numbers of the first row, and 0 where there is none.
fn numbers_in_row(rows: &[List<u64>]) -> usize
    ensures { result ≡ length (get_or rows.now 0 []) }
{
    match rows.first() {
        Some(row) => row.len(),
        None => 0,
    }
}

/// p^i.
fn exponent_of(p: u64, i: u32) -> u64
    requires base { 2 ≤ p }
    requires most { p ^ i ≤ 2 ^ 40 }
    ensures { result ≡ p ^ i }
{
    if i == 0 { 1 } else { power_of(p, i - 1) }
}

/// The trace of the p^i-th power of the matrix of the multiplication by a from the left, each of its entries lifted to
/// the numbers from 0 to p − 1. The one fault is want of memory.
pub fn trace_power(
    alloc: Global,
    ring: &LiftRing,
    b: &Algebra<ResidueField>,
    a: &Vector<ResidueField>,
    i: u32,
) -> Result<LiftElem, NoMemory>
    requires over { IsOver (residue_ops (residues_of ring.now)) b.now }
    requires element { IsElement (residue_ops (residues_of ring.now)) b.now a.now }
    requires exponent { i ≤ level_of ring.now }
    ensures elem { IfOk result (IsLiftElem (residues_of ring.now) (level_of ring.now)) }
    ensures value { IfOk result (λ r. r ≡ (lifted_trace (residues_of ring.now) (level_of ring.now) b.now a.now i).0) }
{
    let left = b.left_matrix(alloc, ring.residues(), a)?;
    let rows = lifted_rows(alloc, ring, left.as_slice())?;
    let n = numbers_in_row(rows.as_slice());
    let p = u64::from(ring.residues().field().p());
    let raised = power(alloc, ring, rows.as_slice(), n, exponent_of(p, i))?;
    Ok(ring.trace(alloc, raised.as_slice())?)
}
