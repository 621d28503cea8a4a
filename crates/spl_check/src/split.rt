// The conditions of matrices that split an algebra.
ghost use Rattle.std.specs.Prelude.{◌≡◌, ◌*◌, ◌/◌, ◌%◌, ◌^◌, ◌<◌, ◌↔◌, ◌==◌, ℕ, [], length, get_or, cond, IfOk, IsTrue};
ghost use Rattle.theory_rings.specs.Ops.{IsElem};
ghost use Rattle.theory_rings.specs.Sum.{sum_of, at};
ghost use Rattle.theory_spaces.specs.Tuples.{IsTuple, constant};
ghost use Rattle.theory_tables.specs.Matrix.{IsMatrix, entry};
ghost use Rattle.theory_tables.specs.Structure.{IsOver};
ghost use Rattle.theory_tables.specs.Claims.{SplitFits};
ghost use Rattle.theory_tables.specs.Split.{IsSquare};
ghost use Rattle.theory_tables.specs.Conditions.{MapsMultiply, GiveMatrixUnits, map_entry};

use crate::central::is_chosen;
use spl_algebra::algebra::Algebra;
use spl_field::field::{Field, NoMemory};
use spl_field::list::Vector;
use spl_matrix::matrix::Matrix;
use spl_matrix::rows::add_product;
use std::alloc::Global;

/// The entry at row r and column s of the product of two n by n matrices.
fn product_entry<F: Field>(
    alloc: Global,
    f: &F,
    zero: &F::Elem,
    n: usize,
    a: &[Vector<F>],
    b: &[Vector<F>],
    r: usize,
    s: usize,
) -> Result<F::Elem, NoMemory>
    requires zero_elem { IsElem (F.ops f.now) zero.now }
    requires zero { zero.now ≡ (F.ops f.now).zero }
    requires left { IsSquare (F.ops f.now) n a.now }
    requires right { IsSquare (F.ops f.now) n b.now }
    requires row { r < n }
    requires column { s < n }
    ensures elem { IfOk result (IsElem (F.ops f.now)) }
    ensures value { IfOk result (λ x. x ≡ sum_of (F.ops f.now) n
        (λ t. (F.ops f.now).mul (entry (F.ops f.now) a.now r t) (entry (F.ops f.now) b.now t s))) }
{
    let row = a[r].as_slice();
    let mut total = f.zero(alloc)?;
    for t in 0..n {
        let other = b[t].as_slice();
        total = add_product(alloc, f, zero, total, &row[t], &other[s])?;
    }
    Ok(total)
}

/// The entry at row r and column s of the combination of the maps by the weights.
fn combination_entry<F: Field>(
    alloc: Global,
    f: &F,
    zero: &F::Elem,
    n: usize,
    weights: &[F::Elem],
    maps: &[Matrix<F>],
    r: usize,
    s: usize,
) -> Result<F::Elem, NoMemory>
    requires zero_elem { IsElem (F.ops f.now) zero.now }
    requires zero { zero.now ≡ (F.ops f.now).zero }
    requires weights { IsTuple (F.ops f.now) (length maps.now) weights.now }
    requires maps { (k : ℕ) → k < length maps.now → IsSquare (F.ops f.now) n (get_or maps.now k []) }
    requires row { r < n }
    requires column { s < n }
    ensures elem { IfOk result (IsElem (F.ops f.now)) }
    ensures value { IfOk result (λ x. x ≡ sum_of (F.ops f.now) (length maps.now)
        (λ k. (F.ops f.now).mul (at (F.ops f.now) weights.now k) (map_entry (F.ops f.now) maps.now k r s))) }
{
    let _ = n;
    let mut total = f.zero(alloc)?;
    for k in 0..maps.len() {
        let map = maps[k].as_slice();
        let row = map[r].as_slice();
        total = add_product(alloc, f, zero, total, &weights[k], &row[s])?;
    }
    Ok(total)
}

/// Whether the product of two of the maps is the combination of all by the weights.
fn is_combination<F: Field>(
    alloc: Global,
    f: &F,
    zero: &F::Elem,
    n: usize,
    a: &[Vector<F>],
    b: &[Vector<F>],
    weights: &[F::Elem],
    maps: &[Matrix<F>],
) -> Result<bool, NoMemory>
    requires zero_elem { IsElem (F.ops f.now) zero.now }
    requires zero { zero.now ≡ (F.ops f.now).zero }
    requires left { IsSquare (F.ops f.now) n a.now }
    requires right { IsSquare (F.ops f.now) n b.now }
    requires weights { IsTuple (F.ops f.now) (length maps.now) weights.now }
    requires maps { (k : ℕ) → k < length maps.now → IsSquare (F.ops f.now) n (get_or maps.now k []) }
    requires small { n * n < 2 ^ 64 }
    ensures { IfOk result (λ x. IsTrue x ↔ ((r s : ℕ) → r < n → s < n → sum_of (F.ops f.now) n
        (λ t. (F.ops f.now).mul (entry (F.ops f.now) a.now r t) (entry (F.ops f.now) b.now t s))
        ≡ sum_of (F.ops f.now) (length maps.now)
        (λ k. (F.ops f.now).mul (at (F.ops f.now) weights.now k) (map_entry (F.ops f.now) maps.now k r s)))) }
{
    for p in 0..n * n {
        let (r, s) = (p / n, p % n);
        let product = product_entry(alloc, f, zero, n, a, b, r, s)?;
        let combination = combination_entry(alloc, f, zero, n, weights, maps, r, s)?;
        if !f.eq(&product, &combination) {
            return Ok(false);
        }
    }
    Ok(true)
}

/// Whether the maps multiply as the basis elements do, where the first factor is map i.
fn multiply_by<F: Field>(
    alloc: Global,
    f: &F,
    algebra: &Algebra<F>,
    zero: &F::Elem,
    n: usize,
    maps: &[Matrix<F>],
    i: usize,
) -> Result<bool, NoMemory>
    requires over { IsOver (F.ops f.now) algebra.now }
    requires zero_elem { IsElem (F.ops f.now) zero.now }
    requires zero { zero.now ≡ (F.ops f.now).zero }
    requires count { length maps.now ≡ algebra.now.dim }
    requires maps { (k : ℕ) → k < algebra.now.dim → IsSquare (F.ops f.now) n (get_or maps.now k []) }
    requires small { n * n < 2 ^ 64 }
    requires place { i < algebra.now.dim }
    ensures { IfOk result (λ x. IsTrue x ↔ ((j r s : ℕ) → j < algebra.now.dim → r < n → s < n
        → sum_of (F.ops f.now) n (λ t. (F.ops f.now).mul (map_entry (F.ops f.now) maps.now i r t)
        (map_entry (F.ops f.now) maps.now j t s)) ≡ sum_of (F.ops f.now) algebra.now.dim
        (λ k. (F.ops f.now).mul (constant (F.ops f.now) algebra.now.dim algebra.now.constants i j k)
        (map_entry (F.ops f.now) maps.now k r s)))) }
{
    let a = maps[i].as_slice();
    for j in 0..algebra.dim() {
        let weights = algebra.basis_product(f, i, j);
        if !is_combination(alloc, f, zero, n, a, maps[j].as_slice(), weights, maps)? {
            return Ok(false);
        }
    }
    Ok(true)
}

/// Whether the maps, n by n matrices, multiply as the basis elements do.
pub fn maps_multiply<F: Field>(
    alloc: Global,
    f: &F,
    algebra: &Algebra<F>,
    n: usize,
    maps: &[Matrix<F>],
) -> Result<bool, NoMemory>
    requires over { IsOver (F.ops f.now) algebra.now }
    requires count { length maps.now ≡ algebra.now.dim }
    requires maps { (k : ℕ) → k < algebra.now.dim → IsSquare (F.ops f.now) n (get_or maps.now k []) }
    requires small { n * n < 2 ^ 64 }
    ensures { IfOk result (λ b. IsTrue b ↔ MapsMultiply (F.ops f.now) algebra.now n maps.now) }
{
    let zero = f.zero(alloc)?;
    for i in 0..algebra.dim() {
        if !multiply_by(alloc, f, algebra, &zero, n, maps, i)? {
            return Ok(false);
        }
    }
    Ok(true)
}

/// Whether the combination of the maps by the weights has the entry 1 at place p, counted row by row, and else 0.
fn is_matrix_unit<F: Field>(
    alloc: Global,
    f: &F,
    n: usize,
    maps: &[Matrix<F>],
    weights: &[F::Elem],
    p: usize,
) -> Result<bool, NoMemory>
    requires weights { IsTuple (F.ops f.now) (length maps.now) weights.now }
    requires maps { (k : ℕ) → k < length maps.now → IsSquare (F.ops f.now) n (get_or maps.now k []) }
    requires small { n * n < 2 ^ 64 }
    requires place { p < n * n }
    ensures { IfOk result (λ x. IsTrue x ↔ ((q : ℕ) → q < n * n → sum_of (F.ops f.now) (length maps.now)
        (λ k. (F.ops f.now).mul (at (F.ops f.now) weights.now k) (map_entry (F.ops f.now) maps.now k (q / n) (q % n)))
        ≡ cond (q == p) (F.ops f.now).one (F.ops f.now).zero)) }
{
    let zero = f.zero(alloc)?;
    let one = f.one(alloc)?;
    for q in 0..n * n {
        let item = combination_entry(alloc, f, &zero, n, weights, maps, q / n, q % n)?;
        if !is_chosen(f, &item, q == p, &one, &zero) {
            return Ok(false);
        }
    }
    Ok(true)
}

/// Whether the combinations of the maps by the unit tuples, n² of them row by row, are the matrices with one entry 1
/// and else 0.
pub fn give_matrix_units<F: Field>(
    alloc: Global,
    f: &F,
    algebra: &Algebra<F>,
    n: usize,
    maps: &[Matrix<F>],
    units: &[Vector<F>],
) -> Result<bool, NoMemory>
    requires fits { SplitFits (F.ops f.now) algebra.now.dim n maps.now units.now }
    requires small { n * n < 2 ^ 64 }
    ensures { IfOk result (λ b. IsTrue b ↔ GiveMatrixUnits (F.ops f.now) algebra.now n maps.now units.now) }
{
    let _ = algebra.dim();
    for p in 0..units.len() {
        if !is_matrix_unit(alloc, f, n, maps, units[p].as_slice(), p)? {
            return Ok(false);
        }
    }
    Ok(true)
}
