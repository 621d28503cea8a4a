// Products of subspaces, and powers of ideals.
ghost use Rattle.std.specs.Prelude.{◌≡◌, ◌+◌, ◌-◌, ◌*◌, ◌/◌, ◌%◌, ◌^◌, ◌<◌, ◌≤◌, [], IfOk, IsTrue, length, get_or};
ghost use Rattle.theory_rings.specs.Sum.{table};
ghost use Rattle.theory_spaces.specs.Tuples.{IsTuple, product};
ghost use Rattle.theory_tables.specs.Matrix.{IsMatrix};
ghost use Rattle.theory_tables.specs.Subspace.{IsReducedBasis, IsSubspace};
ghost use Rattle.theory_tables.specs.Structure.{Structure, IsOver};
ghost use Rattle.theory_tables.specs.Powers.{SpansProducts, SpansPower};

use crate::algebra::Algebra;
use crate::products::{product_of_slices, same};
use spl_field::field::{Field, NoMemory};
use spl_field::list::Vector;
use spl_matrix::matrix::Matrix;
use spl_matrix::subspace::Subspace;
use std::alloc::Global;

/// The products of the rows of a and the rows of b.
fn product_rows<F: Field>(
    alloc: Global,
    f: &F,
    m: usize,
    constants: &[F::Elem],
    a: &[Vector<F>],
    b: &[Vector<F>],
) -> Result<Matrix<F>, NoMemory>
    requires fits { m * m * m < 2 ^ 64 }
    requires over { IsTuple (F.ops f.now) (m * m * m) constants.now }
    requires left { IsMatrix (F.ops f.now) m a.now }
    requires right { IsMatrix (F.ops f.now) m b.now }
    requires few { length a.now * length b.now < 2 ^ 64 }
    ensures shape { IfOk result (IsMatrix (F.ops f.now) m) }
    ensures value { IfOk result (λ r. r ≡ table (length a.now * length b.now) (λ t.
        product (F.ops f.now) m constants.now
        (get_or a.now (t / length b.now) []) (get_or b.now (t % length b.now) []))) }
{
    let mut rows = Matrix::new(alloc);
    let n = b.len();
    for t in 0..a.len() * n {
        let left = a[t / n].as_slice();
        let right = b[t % n].as_slice();
        rows.push(product_of_slices(alloc, f, m, constants, left, right)?)?;
    }
    Ok(rows)
}

/// The sums of products of a vector of a and one of b.
fn product_of_subspaces<F: Field>(
    alloc: Global,
    f: &F,
    m: usize,
    constants: &[F::Elem],
    a: &Subspace<F>,
    b: &Subspace<F>,
) -> Result<Subspace<F>, NoMemory>
    requires positive { 1 ≤ m }
    requires fits { m * m * m < 2 ^ 64 }
    requires over { IsTuple (F.ops f.now) (m * m * m) constants.now }
    requires left { IsReducedBasis (F.ops f.now) m a.now.rows }
    requires right { IsReducedBasis (F.ops f.now) m b.now.rows }
    ensures basis { IfOk result (λ s. IsReducedBasis (F.ops f.now) m s.rows) }
    ensures width { IfOk result (λ s. s.width ≡ m) }
    ensures members { IfOk result (λ s.
        SpansProducts (F.ops f.now) (record { dim = m; constants = constants.now }) a.now.rows b.now.rows s.rows) }
{
    let rows = product_rows(
        alloc,
        f,
        m,
        constants,
        a.rows().as_slice(),
        b.rows().as_slice(),
    )?;
    let spanned = Subspace::span(alloc, f, m, &rows)?;
    Ok(spanned)
}

/// Whether the rows are the same.
fn same_rows<F: Field>(f: &F, m: usize, a: &[Vector<F>], b: &[Vector<F>]) -> bool
    requires left { IsMatrix (F.ops f.now) m a.now }
    requires right { IsMatrix (F.ops f.now) m b.now }
    ensures { IsTrue result → a.now ≡ b.now }
{
    if a.len() != b.len() {
        return false;
    }
    for r in 0..a.len() {
        if !same(f, a[r].as_slice(), b[r].as_slice()) {
            return false;
        }
    }
    true
}

impl<F: Field> Algebra<F> {
    /// The power of an ideal: the span of the products of `exponent` of its members, with brackets from the left, which
    /// mean nothing where the algebra is associative. It stops where two powers are the same, as all further ones are.
    pub fn power_of_ideal(
        &self,
        alloc: Global,
        f: &F,
        ideal: &Subspace<F>,
        exponent: u32,
    ) -> Result<Subspace<F>, NoMemory>
        requires over { IsOver (F.ops f.now) self.now }
        requires basis { IsSubspace (F.ops f.now) ideal.now }
        requires width { ideal.now.width ≡ self.now.dim }
        requires exponent { 1 ≤ exponent }
        ensures basis { IfOk result (IsSubspace (F.ops f.now)) }
        ensures width { IfOk result (λ s. s.width ≡ self.now.dim) }
        ensures members { IfOk result (λ s.
            SpansPower (F.ops f.now) self.now ideal.now.rows (exponent - 1) s.rows) }
    {
        let m = self.dim();
        let constants = self.constants();
        let mut power = ideal.copy(alloc, f)?;
        for _e in 1..exponent {
            let next = product_of_subspaces(alloc, f, m, constants, &power, ideal)?;
            if same_rows(f, m, power.rows().as_slice(), next.rows().as_slice()) {
                return Ok(power);
            }
            power = next;
        }
        Ok(power)
    }
}
