// The identity of an algebra, or the equations that refute it.
ghost use Rattle.std.specs.Prelude.{◌≡◌, ◌+◌, ◌*◌, ◌^◌, ◌<◌, ◌≤◌, length, IfOk, IsTrue, ◌↔◌, ◌/◌, ◌%◌};
ghost use Rattle.theory_rings.specs.Ops.{IsElem};
ghost use Rattle.theory_rings.specs.Sum.{table};
ghost use Rattle.theory_spaces.specs.Tuples.{IsTuple, tuple_neg};
ghost use Rattle.theory_tables.specs.Structure.{IsOver};
ghost use Rattle.theory_tables.specs.Algebras.{HasIdentity};
ghost use Rattle.spl_algebra.specs.Identity.{IsOne, IsHere, IsRefuted};
ghost use Rattle.spl_algebra.specs.IdentitySystem.{constant_place, constant_row, unit_row, unit_item};
ghost use Rattle.spl_algebra.specs.IdentitySystem.{IsIdentitySystem, ListsMultipliers};

use crate::algebra::Algebra;
use spl_field::field::{Field, NoMemory};
use spl_field::list::{List, Vector};
use spl_matrix::lists::Multipliers;
use spl_matrix::matrix::Matrix;
use spl_matrix::rows::identity_row;
use spl_matrix::solve::Solution;
use std::alloc::Global;

/// An identity, or multipliers of the equations of an identity by which these give 0 = 1. A left identity e solves
/// Σ_i e_i·γ_ijk = δ_jk for all j and k, and a right one Σ_i e_i·γ_jik = δ_jk; `left` has multipliers of the first,
/// `right` of the second. Basis elements are counted from 1, pairs (j, k) go up, and one that is not listed has the
/// multiplier 0.
#[derive(Drop)]
pub enum One<F: Field> {
    Here {
        tuple: Vector<F>,
    },
    Refuted {
        left: Multipliers<F>,
        right: Multipliers<F>,
    },
}

/// The place of γ_ijk among the constants for the column j·m + k, and of γ_jik for the column m² + j·m + k.
fn constant_place(m: usize, i: usize, c: usize) -> usize
    requires fits { m * m * m < 2 ^ 64 }
    requires row { i < m }
    requires column { c < m * m + m * m }
    ensures within { result < m * m * m }
    ensures value { result ≡ constant_place m i c }
{
    let pairs = m * m;
    if c < pairs {
        return i * pairs + c;
    }
    let pair = c - pairs;
    (pair / m * m + i) * m + pair % m
}

/// Row i of the system, of those before the last.
fn constant_row<F: Field>(
    alloc: Global,
    f: &F,
    m: usize,
    constants: &[F::Elem],
    i: usize,
) -> Result<Vector<F>, NoMemory>
    requires fits { m * m * m < 2 ^ 64 }
    requires columns { m * m + m * m < 2 ^ 64 }
    requires over { IsTuple (F.ops f.now) (m * m * m) constants.now }
    requires row { i < m }
    ensures elem { IfOk result (IsTuple (F.ops f.now) (m * m + m * m)) }
    ensures value { IfOk result (λ r. r ≡ constant_row (F.ops f.now) m constants.now i) }
{
    let mut items = List::new(alloc);
    for c in 0..m * m + m * m {
        items.push(f.copy(alloc, &constants[constant_place(m, i, c)])?)?;
    }
    Ok(items)
}

/// 1 where the column stands for a pair of a number with itself, and else 0.
fn unit_item<F: Field>(alloc: Global, f: &F, m: usize, c: usize) -> Result<F::Elem, NoMemory>
    requires positive { 1 ≤ m }
    requires columns { m * m + m * m < 2 ^ 64 }
    ensures elem { IfOk result (IsElem (F.ops f.now)) }
    ensures value { IfOk result (λ r. r ≡ unit_item (F.ops f.now) m c) }
{
    let pair = c % (m * m);
    if pair % m == pair / m {
        f.one(alloc)
    } else {
        f.zero(alloc)
    }
}

/// The last row of the system.
fn unit_row<F: Field>(alloc: Global, f: &F, m: usize) -> Result<Vector<F>, NoMemory>
    requires positive { 1 ≤ m }
    requires columns { m * m + m * m < 2 ^ 64 }
    ensures elem { IfOk result (IsTuple (F.ops f.now) (m * m + m * m)) }
    ensures value { IfOk result (λ r. r ≡ unit_row (F.ops f.now) m) }
{
    let mut items = List::new(alloc);
    for c in 0..m * m + m * m {
        items.push(unit_item(alloc, f, m, c)?)?;
    }
    Ok(items)
}

/// The rows of the system.
fn system<F: Field>(
    alloc: Global,
    f: &F,
    m: usize,
    constants: &[F::Elem],
) -> Result<Matrix<F>, NoMemory>
    requires positive { 1 ≤ m }
    requires fits { m * m * m < 2 ^ 64 }
    requires columns { m * m + m * m < 2 ^ 64 }
    requires over { IsTuple (F.ops f.now) (m * m * m) constants.now }
    ensures { IfOk result (IsIdentitySystem (F.ops f.now) m constants.now) }
{
    let mut rows = Matrix::new(alloc);
    for i in 0..m {
        rows.push(constant_row(alloc, f, m, constants, i)?)?;
    }
    rows.push(unit_row(alloc, f, m)?)?;
    Ok(rows)
}

/// The multipliers other than 0 among m² items, each with its row and its column.
fn listed<F: Field>(
    alloc: Global,
    f: &F,
    m: usize,
    items: &[F::Elem],
) -> Result<Multipliers<F>, NoMemory>
    requires positive { 1 ≤ m }
    requires items { IsTuple (F.ops f.now) (m * m) items.now }
    ensures { IfOk result (ListsMultipliers (F.ops f.now) m items.now) }
{
    let zero = f.zero(alloc)?;
    let mut list = List::new(alloc);
    for s in 0..items.len() {
        if !f.eq(&items[s], &zero) {
            let item = f.copy(alloc, &items[s])?;
            list.push((s / m + 1, s % m + 1, item))?;
        }
    }
    Ok(list)
}

/// The first m items with the opposite sign.
fn opposite<F: Field>(
    alloc: Global,
    f: &F,
    m: usize,
    items: &[F::Elem],
) -> Result<Vector<F>, NoMemory>
    requires { IsTuple (F.ops f.now) (m + 1) items.now }
    ensures elem { IfOk result (IsTuple (F.ops f.now) m) }
    ensures value { IfOk result (λ r. r ≡ tuple_neg (F.ops f.now) m items.now) }
{
    let mut opposite = List::new(alloc);
    for i in 0..m {
        opposite.push(f.neg(alloc, &items[i])?)?;
    }
    Ok(opposite)
}

/// The identity of the algebra of dimension m with these constants, or what refutes that there is one.
fn one_of<F: Field>(
    alloc: Global,
    f: &F,
    m: usize,
    constants: &[F::Elem],
) -> Result<One<F>, NoMemory>
    requires positive { 1 ≤ m }
    requires fits { m * m * m < 2 ^ 64 }
    requires over { IsTuple (F.ops f.now) (m * m * m) constants.now }
    ensures { IfOk result (IsOne (F.ops f.now) (record { dim = m; constants = constants.now })) }
{
    let rows = system(alloc, f, m, constants)?;
    let right = identity_row(alloc, f, m + 1, m)?;
    match rows.solve(alloc, f, right.as_slice())? {
        Solution::Solved { vector } => {
            let (left, right) = vector.as_slice().split_at(m * m);
            let left = listed(alloc, f, m, left)?;
            let right = listed(alloc, f, m, right)?;
            Ok(One::Refuted { left, right })
        }
        Solution::Refuted { multipliers } => {
            let tuple = opposite(alloc, f, m, multipliers.as_slice())?;
            Ok(One::Here { tuple })
        }
    }
}

impl<F: Field> Algebra<F> {
    /// The identity exactly where there is one, and else what refutes that there is one. The algebra need not be
    /// associative.
    pub fn identity(&self, alloc: Global, f: &F) -> Result<One<F>, NoMemory>
        requires { IsOver (F.ops f.now) self.now }
        ensures value { IfOk result (IsOne (F.ops f.now) self.now) }
        ensures here { IfOk result (λ r. IsHere r ↔ HasIdentity (F.ops f.now) self.now) }
        ensures refuted { IfOk result (λ r.
            IsRefuted r ↔ (HasIdentity (F.ops f.now) self.now → ⊥)) }
    {
        let one = one_of(alloc, f, self.dim(), self.constants())?;
        Ok(one)
    }
}
