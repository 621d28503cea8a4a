// The radical of an algebra over a residue field.
ghost use Rattle.std.specs.Prelude.{◌≡◌, ℕ, suc, ◌^◌, ◌<◌, ◌≤◌, [], length, get_or, IfOk};
ghost use Rattle.theory_rings.specs.Ops.{IsElem};
ghost use Rattle.theory_rings.specs.Sum.{sum_of, at};
ghost use Rattle.theory_tables.specs.Algebras.{HasIdentity};
ghost use Rattle.theory_tables.specs.Matrix.{entry, IsMatrix};
ghost use Rattle.theory_tables.specs.Structure.{IsOver, IsElement, IsAssociative};
ghost use Rattle.theory_tables.specs.Subspace.{IsSubspace};
ghost use Rattle.theory_chains.specs.PivotItems.{IsPivotItem};
ghost use Rattle.theory_chains.specs.Radical.{SpansRadical};
ghost use Rattle.spl_residue.specs.Residue.{residue_ops};
ghost use Rattle.spl_radical.specs.LiftNumbers.{residues_of, level_of};
ghost use Rattle.spl_radical.specs.LiftRing.{prime_of};
ghost use Rattle.spl_radical.specs.Radical.{IsTraceRoot, SpansChainMember};

use crate::lift_ring::LiftRing;
use crate::roots::trace_root;
use spl_algebra::algebra::Algebra;
use spl_algebra::nilpotent::is_nilpotent_ideal;
use spl_field::field::{Field, NoMemory};
use spl_field::list::{List, Vector};
use spl_matrix::subspace::Subspace;
use spl_residue::elem::ResidueElem;
use spl_residue::field::ResidueField;
use std::alloc::Global;

/// The number l with p^l ≤ m < p^(l + 1).
fn level_for(p: u64, m: u64) -> u32
    requires base { 2 ≤ p }
    requires positive { 1 ≤ m }
    requires small { m < 2 ^ 22 }
    ensures low { p ^ result ≤ m }
    ensures high { m < p ^ suc result }
{
    let mut level = 0;
    let mut rest = m / p;
    'levels: while rest > 0 {
        rest = rest / p;
        level = level + 1;
    }
    level
}

/// The item in column j of a tuple whose products with the rows are roots of their residues: a root for the row that
/// has its pivot there, and else 0.
fn weight_at(
    alloc: Global,
    ring: &LiftRing,
    k: &ResidueField,
    b: &Algebra<ResidueField>,
    rows: &[Vector<ResidueField>],
    pivots: &[usize],
    i: u32,
    j: usize,
) -> Result<ResidueElem, NoMemory>
    requires same { residues_of ring.now ≡ k.now }
    requires over { IsOver (residue_ops k.now) b.now }
    requires shape { IsMatrix (residue_ops k.now) b.now.dim rows.now }
    requires each { length pivots.now ≡ length rows.now }
    requires first { 1 ≤ i }
    requires exponent { i ≤ level_of ring.now }
    ensures elem { IfOk result (IsElem (residue_ops k.now)) }
    ensures value { IfOk result (IsPivotItem (residue_ops k.now).zero pivots.now
        (λ s. IsTraceRoot k.now (level_of ring.now) b.now i (get_or rows.now s [])) j) }
{
    for s in 0..pivots.len() {
        if pivots[s] == j {
            let root = trace_root(alloc, ring, k, b, &rows[s], i)?;
            return Ok(root);
        }
    }
    k.zero(alloc)
}

/// A tuple whose products with the rows of the basis, item by item and summed, are roots of their residues.
fn weights(
    alloc: Global,
    ring: &LiftRing,
    k: &ResidueField,
    b: &Algebra<ResidueField>,
    rows: &Subspace<ResidueField>,
    i: u32,
) -> Result<Vector<ResidueField>, NoMemory>
    requires same { residues_of ring.now ≡ k.now }
    requires over { IsOver (residue_ops k.now) b.now }
    requires basis { IsSubspace (residue_ops k.now) rows.now }
    requires width { rows.now.width ≡ b.now.dim }
    requires first { 1 ≤ i }
    requires exponent { i ≤ level_of ring.now }
    ensures elem { IfOk result (IsElement (residue_ops k.now) b.now) }
    ensures roots { IfOk result (λ w. (s : ℕ) → s < length rows.now.rows →
        IsTraceRoot k.now (level_of ring.now) b.now i (get_or rows.now.rows s [])
        (sum_of (residue_ops k.now) b.now.dim
        (λ j. (residue_ops k.now).mul (entry (residue_ops k.now) rows.now.rows s j) (at (residue_ops k.now) w j)))) }
{
    let pivots = rows.pivots(alloc, k)?;
    let mut items = List::new(alloc);
    for j in 0..b.dim() {
        let list = rows.rows().as_slice();
        items.push(weight_at(alloc, ring, k, b, list, pivots.as_slice(), i, j)?)?;
    }
    Ok(items)
}

/// The next member of the chain of ideals by lifted traces.
fn next_member(
    alloc: Global,
    ring: &LiftRing,
    k: &ResidueField,
    b: &Algebra<ResidueField>,
    rows: &Subspace<ResidueField>,
    i: u32,
) -> Result<Subspace<ResidueField>, NoMemory>
    requires same { residues_of ring.now ≡ k.now }
    requires over { IsOver (residue_ops k.now) b.now }
    requires basis { IsSubspace (residue_ops k.now) rows.now }
    requires width { rows.now.width ≡ b.now.dim }
    requires first { 1 ≤ i }
    requires exponent { i ≤ level_of ring.now }
    requires member { SpansChainMember k.now (level_of ring.now) b.now i rows.now.rows }
    ensures basis { IfOk result (IsSubspace (residue_ops k.now)) }
    ensures width { IfOk result (λ s. s.width ≡ b.now.dim) }
    ensures member { IfOk result (λ s. SpansChainMember k.now (level_of ring.now) b.now (suc i) s.rows) }
{
    let _ = b.dim();
    let w = weights(alloc, ring, k, b, rows, i)?;
    let form = b.form(alloc, k, &w)?;
    let kernel = form.kernel(alloc, k)?;
    let next = rows.meet(alloc, k, &kernel)?;
    Ok(next)
}

/// The first member of the chain from `first` on that is nilpotent, or the last one.
fn last_member(
    alloc: Global,
    ring: &LiftRing,
    k: &ResidueField,
    b: &Algebra<ResidueField>,
    first: Subspace<ResidueField>,
    l: u32,
) -> Result<Subspace<ResidueField>, NoMemory>
    requires same { residues_of ring.now ≡ k.now }
    requires level { level_of ring.now ≡ l }
    requires over { IsOver (residue_ops k.now) b.now }
    requires associative { IsAssociative (residue_ops k.now) b.now }
    requires identity { HasIdentity (residue_ops k.now) b.now }
    requires enough { b.now.dim < prime_of k.now ^ suc l }
    requires basis { IsSubspace (residue_ops k.now) first }
    requires width { first.width ≡ b.now.dim }
    requires member { SpansChainMember k.now (level_of ring.now) b.now 1 first.rows }
    ensures basis { IfOk result (IsSubspace (residue_ops k.now)) }
    ensures width { IfOk result (λ s. s.width ≡ b.now.dim) }
    ensures radical { IfOk result (λ s. SpansRadical (residue_ops k.now) b.now s.rows) }
{
    let mut member = first;
    for i in 0..l {
        if is_nilpotent_ideal(alloc, k, b, &member)? {
            return Ok(member);
        }
        member = next_member(alloc, ring, k, b, &member, i + 1)?;
    }
    Ok(member)
}

/// The radical of an associative algebra with identity: its largest nilpotent two-sided ideal. The first ideal of a
/// chain is the kernel of the trace form; each next one is where the traces of the p^i-th powers of lifts of products
/// are multiples of p^(i + 1), which a linear form tells (Rónyai, Computing the structure of finite algebras, 1990).
/// The one fault is want of memory.
pub fn radical(
    alloc: Global,
    k: &ResidueField,
    b: &Algebra<ResidueField>,
) -> Result<Subspace<ResidueField>, NoMemory>
    requires over { IsOver (residue_ops k.now) b.now }
    requires associative { IsAssociative (residue_ops k.now) b.now }
    requires identity { HasIdentity (residue_ops k.now) b.now }
    ensures basis { IfOk result (IsSubspace (residue_ops k.now)) }
    ensures width { IfOk result (λ s. s.width ≡ b.now.dim) }
    ensures radical { IfOk result (λ s. SpansRadical (residue_ops k.now) b.now s.rows) }
{
    let m = b.dim();
    let _ = b.constants();
    let form = b.trace_form(alloc, k)?;
    let first = form.kernel(alloc, k)?;
    let l = level_for(u64::from(k.field().p()), m as u64);
    let ring = LiftRing::new(alloc, k, l)?;
    let radical = last_member(alloc, &ring, k, b, first, l)?;
    Ok(radical)
}
