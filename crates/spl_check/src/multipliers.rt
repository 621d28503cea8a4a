// The conditions of multipliers of the equations of an identity.
ghost use Rattle.std.specs.Prelude.{◌≡◌, ◌+◌, ◌-◌, ◌<◌, ◌≤◌, ◌↔◌, cond, IfOk, IsTrue};
ghost use Rattle.theory_rings.specs.Ops.{IsElem};
ghost use Rattle.theory_spaces.specs.Tuples.{constant};
ghost use Rattle.theory_tables.specs.Structure.{IsOver};
ghost use Rattle.theory_tables.specs.Claims.{AreMultipliers};
ghost use Rattle.theory_tables.specs.Conditions.{MultipliersAnnihilate, MultipliersRefute};
ghost use Rattle.theory_tables.specs.MultiplierSums.{weighted_sum, diagonal_sum};

use spl_algebra::algebra::Algebra;
use spl_field::field::{Field, NoMemory};
use spl_matrix::rows::add_product;
use std::alloc::Global;

/// The structure constant at (i, j, k), or at (j, i, k) where the side is the right one. The places j and k are counted
/// from 1.
fn constant_at<'a, F: Field>(
    f: &F,
    algebra: &'a Algebra<F>,
    is_left: bool,
    i: usize,
    j: usize,
    k: usize,
) -> &'a F::Elem
    requires over { IsOver (F.ops f.now) algebra.now }
    requires i { i < algebra.now.dim }
    requires j_low { 1 ≤ j }
    requires j_high { j ≤ algebra.now.dim }
    requires k_low { 1 ≤ k }
    requires k_high { k ≤ algebra.now.dim }
    ensures elem { IsElem (F.ops f.now) result.now }
    ensures value { result.now ≡ cond is_left
        (constant (F.ops f.now) algebra.now.dim algebra.now.constants i (j - 1) (k - 1))
        (constant (F.ops f.now) algebra.now.dim algebra.now.constants (j - 1) i (k - 1)) }
{
    if is_left {
        return &algebra.basis_product(f, i, j - 1)[k - 1];
    }
    &algebra.basis_product(f, j - 1, i)[k - 1]
}

/// The sum and, for each multiplier, its product with the structure constant at its pair.
fn add_weighted<F: Field>(
    alloc: Global,
    f: &F,
    algebra: &Algebra<F>,
    is_left: bool,
    i: usize,
    list: &[(usize, usize, F::Elem)],
    sum: F::Elem,
) -> Result<F::Elem, NoMemory>
    requires over { IsOver (F.ops f.now) algebra.now }
    requires i { i < algebra.now.dim }
    requires list { AreMultipliers (F.ops f.now) algebra.now.dim list.now }
    requires sum { IsElem (F.ops f.now) sum }
    ensures elem { IfOk result (IsElem (F.ops f.now)) }
    ensures value { IfOk result (λ r. r ≡ (F.ops f.now).add sum
        (weighted_sum (F.ops f.now) algebra.now.dim list.now (λ j k. cond is_left
        (constant (F.ops f.now) algebra.now.dim algebra.now.constants i j k)
        (constant (F.ops f.now) algebra.now.dim algebra.now.constants j i k)))) }
{
    let zero = f.zero(alloc)?;
    let mut total = sum;
    for t in 0..list.len() {
        let (j, k, x) = &list[t];
        let constant = constant_at(f, algebra, is_left, i, *j, *k);
        total = add_product(alloc, f, &zero, total, x, constant)?;
    }
    Ok(total)
}

/// Whether, for each basis element, the products of the multipliers with its structure constants sum to 0.
pub fn annihilate<F: Field>(
    alloc: Global,
    f: &F,
    algebra: &Algebra<F>,
    left: &[(usize, usize, F::Elem)],
    right: &[(usize, usize, F::Elem)],
) -> Result<bool, NoMemory>
    requires over { IsOver (F.ops f.now) algebra.now }
    requires left { AreMultipliers (F.ops f.now) algebra.now.dim left.now }
    requires right { AreMultipliers (F.ops f.now) algebra.now.dim right.now }
    ensures { IfOk result (λ b. IsTrue b ↔ MultipliersAnnihilate (F.ops f.now) algebra.now left.now right.now) }
{
    let zero = f.zero(alloc)?;
    for i in 0..algebra.dim() {
        let sum = add_weighted(alloc, f, algebra, true, i, left, f.zero(alloc)?)?;
        let sum = add_weighted(alloc, f, algebra, false, i, right, sum)?;
        if !f.eq(&sum, &zero) {
            return Ok(false);
        }
    }
    Ok(true)
}

/// The sum, and x where the test holds.
fn add_where<F: Field>(
    alloc: Global,
    f: &F,
    test: bool,
    sum: F::Elem,
    x: &F::Elem,
) -> Result<F::Elem, NoMemory>
    requires sum { IsElem (F.ops f.now) sum }
    requires term { IsElem (F.ops f.now) x.now }
    ensures elem { IfOk result (IsElem (F.ops f.now)) }
    ensures value { IfOk result (λ r. r ≡ cond test ((F.ops f.now).add sum x.now) sum) }
{
    if test {
        return f.add(alloc, &sum, x);
    }
    Ok(sum)
}

/// The sum and the multipliers of the pairs of a number with itself.
fn add_diagonal<F: Field>(
    alloc: Global,
    f: &F,
    algebra: &Algebra<F>,
    list: &[(usize, usize, F::Elem)],
    sum: F::Elem,
) -> Result<F::Elem, NoMemory>
    requires list { AreMultipliers (F.ops f.now) algebra.now.dim list.now }
    requires sum { IsElem (F.ops f.now) sum }
    ensures elem { IfOk result (IsElem (F.ops f.now)) }
    ensures value { IfOk result (λ r. r ≡ (F.ops f.now).add sum (diagonal_sum (F.ops f.now) algebra.now.dim list.now)) }
{
    let _ = algebra.dim();
    let mut total = sum;
    for t in 0..list.len() {
        let (j, k, x) = &list[t];
        total = add_where(alloc, f, *j == *k, total, x)?;
    }
    Ok(total)
}

/// Whether the multipliers of the pairs of a number with itself sum to 1.
pub fn refute<F: Field>(
    alloc: Global,
    f: &F,
    algebra: &Algebra<F>,
    left: &[(usize, usize, F::Elem)],
    right: &[(usize, usize, F::Elem)],
) -> Result<bool, NoMemory>
    requires left { AreMultipliers (F.ops f.now) algebra.now.dim left.now }
    requires right { AreMultipliers (F.ops f.now) algebra.now.dim right.now }
    ensures { IfOk result (λ b. IsTrue b ↔ MultipliersRefute (F.ops f.now) algebra.now left.now right.now) }
{
    let one = f.one(alloc)?;
    let sum = add_diagonal(alloc, f, algebra, left, f.zero(alloc)?)?;
    let sum = add_diagonal(alloc, f, algebra, right, sum)?;
    Ok(f.eq(&sum, &one))
}
