// The verdict on evidence of each kind, over any field: its conditions in turn, to the first that fails.
ghost use Rattle.std.specs.Prelude.{◌*◌, ◌^◌, ◌<◌, IfOk};
ghost use Rattle.theory_tables.specs.Structure.{IsOver};
ghost use Rattle.theory_tables.specs.Claims.{TripleFits, NoIdentityFits, CentralFits, IdealFits, SplitFits};
ghost use Rattle.spl_check.specs.Verdict.{IsVerdict, triple_conditions, no_identity_conditions, central_conditions};
ghost use Rattle.spl_check.specs.Verdict.{ideal_conditions, split_conditions};

use crate::central::{commutes_with_basis, is_no_multiple};
use crate::ideal::{are_independent, is_closed};
use crate::multipliers::{annihilate, refute};
use crate::split::{give_matrix_units, maps_multiply};
use crate::verdict::Verdict;
use spl_algebra::algebra::Algebra;
use spl_field::field::{Field, NoMemory};
use spl_field::list::Vector;
use spl_matrix::matrix::{Matrix, copied};
use spl_matrix::subspace::span_of;
use std::alloc::Global;

/// The verdict on three basis elements whose products should differ.
pub(crate) fn check_triple<F: Field>(
    alloc: Global,
    f: &F,
    algebra: &Algebra<F>,
    i: usize,
    j: usize,
    k: usize,
) -> Result<Verdict, NoMemory>
    requires over { IsOver (F.ops f.now) algebra.now }
    requires fits { TripleFits algebra.now.dim i j k }
    ensures { IfOk result (IsVerdict (triple_conditions (F.ops f.now) algebra.now i j k)) }
{
    if algebra.associates_at(alloc, f, i - 1, j - 1, k - 1)? {
        return Ok(Verdict::No { condition: 11 });
    }
    Ok(Verdict::Yes)
}

/// The verdict on multipliers that should turn the equations of an identity into 0 = 1.
pub(crate) fn check_no_identity<F: Field>(
    alloc: Global,
    f: &F,
    algebra: &Algebra<F>,
    left: &[(usize, usize, F::Elem)],
    right: &[(usize, usize, F::Elem)],
) -> Result<Verdict, NoMemory>
    requires over { IsOver (F.ops f.now) algebra.now }
    requires fits { NoIdentityFits (F.ops f.now) algebra.now.dim left.now right.now }
    ensures { IfOk result (IsVerdict (no_identity_conditions (F.ops f.now) algebra.now left.now right.now)) }
{
    if !annihilate(alloc, f, algebra, left, right)? {
        return Ok(Verdict::No { condition: 21 });
    }
    if !refute(alloc, f, algebra, left, right)? {
        return Ok(Verdict::No { condition: 22 });
    }
    Ok(Verdict::Yes)
}

/// The verdict on a tuple that should be central and no multiple of an identity.
pub(crate) fn check_central<F: Field>(
    alloc: Global,
    f: &F,
    algebra: &Algebra<F>,
    a: &Vector<F>,
) -> Result<Verdict, NoMemory>
    requires over { IsOver (F.ops f.now) algebra.now }
    requires fits { CentralFits (F.ops f.now) algebra.now.dim a.now }
    ensures { IfOk result (IsVerdict (central_conditions (F.ops f.now) algebra.now a.now)) }
{
    if !commutes_with_basis(alloc, f, algebra, a)? {
        return Ok(Verdict::No { condition: 31 });
    }
    if !is_no_multiple(alloc, f, algebra, a)? {
        return Ok(Verdict::No { condition: 32 });
    }
    Ok(Verdict::Yes)
}

/// The verdict on tuples that should be independent and span an ideal.
pub(crate) fn check_ideal<F: Field>(
    alloc: Global,
    f: &F,
    algebra: &Algebra<F>,
    tuples: &[Vector<F>],
) -> Result<Verdict, NoMemory>
    requires over { IsOver (F.ops f.now) algebra.now }
    requires fits { IdealFits (F.ops f.now) algebra.now.dim tuples.now }
    ensures { IfOk result (IsVerdict (ideal_conditions (F.ops f.now) algebra.now tuples.now)) }
{
    let space = span_of(alloc, f, algebra.dim(), copied(alloc, f, tuples)?)?;
    if !are_independent(f, &space, tuples) {
        return Ok(Verdict::No { condition: 41 });
    }
    if !is_closed(alloc, f, algebra, &space, true, tuples)? {
        return Ok(Verdict::No { condition: 42 });
    }
    if !is_closed(alloc, f, algebra, &space, false, tuples)? {
        return Ok(Verdict::No { condition: 43 });
    }
    Ok(Verdict::Yes)
}

/// The verdict on n by n matrices that should split the algebra, and on the tuples of their units.
pub(crate) fn check_split<F: Field>(
    alloc: Global,
    f: &F,
    algebra: &Algebra<F>,
    n: usize,
    maps: &[Matrix<F>],
    units: &[Vector<F>],
) -> Result<Verdict, NoMemory>
    requires over { IsOver (F.ops f.now) algebra.now }
    requires fits { SplitFits (F.ops f.now) algebra.now.dim n maps.now units.now }
    requires small { n * n < 2 ^ 64 }
    ensures { IfOk result (IsVerdict (split_conditions (F.ops f.now) algebra.now n maps.now units.now)) }
{
    if !maps_multiply(alloc, f, algebra, n, maps)? {
        return Ok(Verdict::No { condition: 51 });
    }
    if !give_matrix_units(alloc, f, algebra, n, maps, units)? {
        return Ok(Verdict::No { condition: 52 });
    }
    Ok(Verdict::Yes)
}
