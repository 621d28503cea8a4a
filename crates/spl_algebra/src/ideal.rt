// Generated ideals.
ghost use Rattle.std.specs.Prelude.{◌≡◌, ◌*◌, ◌^◌, ◌<◌, IfOk, OnOk, length};
ghost use Rattle.theory_spaces.specs.Tuples.{IsTuple, basis, product};
ghost use Rattle.theory_tables.specs.Matrix.{IsMatrix};
ghost use Rattle.theory_tables.specs.Subspace.{IsReducedBasis, IsSubspace};
ghost use Rattle.theory_tables.specs.Structure.{IsOver};
ghost use Rattle.spl_algebra.specs.Multiples.{AddsMultiples, HoldsMultiples};
ghost use Rattle.spl_algebra.specs.Subspaces.{GeneratesIdeal};

use crate::algebra::Algebra;
use crate::basis::{left_multiple, right_multiple};
use spl_field::field::{Field, NoMemory};
use spl_matrix::matrix::Matrix;
use spl_matrix::subspace::Subspace;
use std::alloc::Global;

/// Appends b_i·a and a·b_i for each basis element b_i.
fn push_multiples<F: Field>(
    alloc: Global,
    f: &F,
    m: usize,
    constants: &[F::Elem],
    a: &[F::Elem],
    rows: &mut Matrix<F>,
) -> Result<(), NoMemory>
    requires fits { m * m * m < 2 ^ 64 }
    requires over { IsTuple (F.ops f.now) (m * m * m) constants.now }
    requires element { IsTuple (F.ops f.now) m a.now }
    requires rows { IsMatrix (F.ops f.now) m rows.old }
    ensures { OnOk result (AddsMultiples (F.ops f.now) m constants.now m a.now rows.old rows.new) }
{
    for i in 0..m {
        rows.push(left_multiple(alloc, f, m, constants, i, a)?)?;
        rows.push(right_multiple(alloc, f, m, constants, i, a)?)?;
    }
    Ok(())
}

/// The rows with their products by each basis element from both sides.
fn with_multiples<F: Field>(
    alloc: Global,
    f: &F,
    m: usize,
    constants: &[F::Elem],
    rows: &Matrix<F>,
) -> Result<Matrix<F>, NoMemory>
    requires fits { m * m * m < 2 ^ 64 }
    requires over { IsTuple (F.ops f.now) (m * m * m) constants.now }
    requires rows { IsMatrix (F.ops f.now) m rows.now }
    ensures { IfOk result (HoldsMultiples (F.ops f.now) m constants.now (length rows.now) rows.now) }
{
    let mut more = rows.copy(alloc, f)?;
    let rows = rows.as_slice();
    for r in 0..rows.len() {
        push_multiples(alloc, f, m, constants, rows[r].as_slice(), &mut more)?;
    }
    Ok(more)
}

/// The subspace with its products by each basis element from both sides.
fn enlarged<F: Field>(
    alloc: Global,
    f: &F,
    m: usize,
    constants: &[F::Elem],
    subspace: &Subspace<F>,
) -> Result<Subspace<F>, NoMemory>
    requires fits { m * m * m < 2 ^ 64 }
    requires over { IsTuple (F.ops f.now) (m * m * m) constants.now }
    requires subspace { IsReducedBasis (F.ops f.now) m subspace.now.rows }
    ensures basis { IfOk result (λ s. IsReducedBasis (F.ops f.now) m s.rows) }
    ensures width { IfOk result (λ s. s.width ≡ m) }
    ensures multiples { IfOk result (λ s.
        HoldsMultiples (F.ops f.now) m constants.now (length subspace.now.rows) subspace.now.rows s.rows) }
{
    let rows = with_multiples(alloc, f, m, constants, subspace.rows())?;
    let spanned = Subspace::span(alloc, f, m, &rows)?;
    Ok(spanned)
}

impl<F: Field> Algebra<F> {
    /// The least subspace that holds `by` and is closed under multiplication by each basis element from both sides.
    pub fn ideal_generated(
        &self,
        alloc: Global,
        f: &F,
        by: &Subspace<F>,
    ) -> Result<Subspace<F>, NoMemory>
        requires over { IsOver (F.ops f.now) self.now }
        requires by { IsSubspace (F.ops f.now) by.now }
        requires width { by.now.width ≡ self.now.dim }
        ensures basis { IfOk result (IsSubspace (F.ops f.now)) }
        ensures width { IfOk result (λ s. s.width ≡ self.now.dim) }
        ensures members { IfOk result (λ s. GeneratesIdeal (F.ops f.now) self.now by.now.rows s.rows) }
    {
        let m = self.dim();
        let constants = self.constants();
        let mut ideal = by.copy(alloc, f)?;
        let mut next = enlarged(alloc, f, m, constants, &ideal)?;
        while ideal.dim() < next.dim() {
            ideal = next;
            next = enlarged(alloc, f, m, constants, &ideal)?;
        }
        Ok(ideal)
    }
}
