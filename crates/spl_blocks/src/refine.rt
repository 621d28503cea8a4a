// The list of the maximal ideals, by the traces of solutions of z^Q = z in the centre over a field of Q = q^d elements.
ghost use Rattle.std.specs.Prelude.{◌≡◌, ◌⊎◌, ◌<◌, ◌≤◌, ℕ, [], IfOk, length, get_or, All};
ghost use Rattle.theory_rings.specs.Ops.{IsElem};
ghost use Rattle.theory_spaces.specs.Tuples.{IsTuple};
ghost use Rattle.theory_tables.specs.Matrix.{IsMatrix};
ghost use Rattle.theory_tables.specs.Structure.{IsElement};
ghost use Rattle.theory_tables.specs.Algebras.{IsCentral, IsIdentity};
ghost use Rattle.spl_blocks.specs.Blocks.{IsUnital};
ghost use Rattle.spl_blocks.specs.Splits.{AreSplit, Refines, AreScalars, AreValues, trace_in, HasValuedTraces};
ghost use Rattle.spl_blocks.specs.Splits.{AreTracesScalars, combination_of};

use crate::fixed::sum;
use crate::powers::power;
use crate::splits::{refined, scaled};
use spl_algebra::algebra::Algebra;
use spl_field::field::{Field, NoMemory};
use spl_field::list::{List, Vector};
use spl_matrix::matrix::Matrix;
use spl_matrix::rows::{add_multiple, zeros};
use spl_matrix::subspace::Subspace;
use std::alloc::Global;

/// The combination of rows of m elements.
pub fn combination<F: Field>(
    alloc: Global,
    f: &F,
    a: &Algebra<F>,
    c: &[F::Elem],
    rows: &[Vector<F>],
) -> Result<Vector<F>, NoMemory>
    requires shape { IsMatrix (F.ops f.now) a.now.dim rows.now }
    requires weights { IsTuple (F.ops f.now) (length rows.now) c.now }
    ensures elem { IfOk result (IsElement (F.ops f.now) a.now) }
    ensures value { IfOk result (λ r. r ≡ combination_of (F.ops f.now) a.now c.now rows.now) }
{
    let zero = f.zero(alloc)?;
    let mut sums = zeros(alloc, f, a.dim())?;
    for i in 0..rows.len() {
        add_multiple(alloc, f, &zero, &mut sums, &c[i], rows[i].as_slice())?;
    }
    Ok(sums)
}

/// The trace z + z^q + .. + z^(q^(d − 1)).
fn trace<F: Field>(
    alloc: Global,
    f: &F,
    a: &Algebra<F>,
    z: &Vector<F>,
    q: usize,
    d: usize,
) -> Result<Vector<F>, NoMemory>
    requires unital { IsUnital (F.ops f.now) a.now }
    requires element { IsElement (F.ops f.now) a.now z.now }
    requires base { 1 ≤ q }
    ensures elem { IfOk result (IsElement (F.ops f.now) a.now) }
    ensures value { IfOk result (λ r. r ≡ trace_in (F.ops f.now) a.now q d z.now) }
{
    let mut term = z.copy(alloc, f)?;
    let mut total = zeros(alloc, f, a.dim())?;
    for _j in 0..d {
        total = sum(alloc, f, total.as_slice(), term.as_slice())?;
        term = power(alloc, f, a, &term, q)?;
    }
    Ok(total)
}

/// The list refined by the trace of y, unless it has n items.
fn refined_by_trace<F: Field>(
    alloc: Global,
    f: &F,
    a: &Algebra<F>,
    one: &Vector<F>,
    constants: &[F::Elem],
    y: &Vector<F>,
    q: usize,
    d: usize,
    n: usize,
    items: List<Subspace<F>>,
) -> Result<List<Subspace<F>>, NoMemory>
    requires unital { IsUnital (F.ops f.now) a.now }
    requires one { IsIdentity (F.ops f.now) a.now one.now }
    requires constants { All (IsElem (F.ops f.now)) constants.now }
    requires element { IsElement (F.ops f.now) a.now y.now }
    requires base { 1 ≤ q }
    requires central { IsCentral (F.ops f.now) a.now (trace_in (F.ops f.now) a.now q d y.now) }
    requires values { AreValues (F.ops f.now) a.now one.now (trace_in (F.ops f.now) a.now q d y.now) constants.now }
    requires split { AreSplit (F.ops f.now) a.now items }
    ensures split { IfOk result (AreSplit (F.ops f.now) a.now) }
    ensures finer { IfOk result (λ r. Refines (F.ops f.now) a.now r items) }
    ensures full { IfOk result (λ r. n ≤ length items → n ≤ length r) }
    ensures done { IfOk result (λ r. (n ≤ length r)
        ⊎ AreScalars (F.ops f.now) a.now one.now (trace_in (F.ops f.now) a.now q d y.now) r) }
{
    if items.len() >= n {
        return Ok(items);
    }
    let t = trace(alloc, f, a, y, q, d)?;
    refined(alloc, f, a, one, &t, constants, items.as_slice())
}

/// The list refined by the traces of z, x·z, .., x^(d − 1)·z, unless it has n items.
fn refined_by_traces<F: Field>(
    alloc: Global,
    f: &F,
    a: &Algebra<F>,
    one: &Vector<F>,
    constants: &[F::Elem],
    x: &F::Elem,
    z: &Vector<F>,
    q: usize,
    d: usize,
    n: usize,
    items: List<Subspace<F>>,
) -> Result<List<Subspace<F>>, NoMemory>
    requires unital { IsUnital (F.ops f.now) a.now }
    requires one { IsIdentity (F.ops f.now) a.now one.now }
    requires constants { All (IsElem (F.ops f.now)) constants.now }
    requires root { IsElem (F.ops f.now) x.now }
    requires element { IsElement (F.ops f.now) a.now z.now }
    requires base { 1 ≤ q }
    requires traces { HasValuedTraces (F.ops f.now) a.now one.now constants.now x.now q d z.now }
    requires split { AreSplit (F.ops f.now) a.now items }
    ensures split { IfOk result (AreSplit (F.ops f.now) a.now) }
    ensures finer { IfOk result (λ r. Refines (F.ops f.now) a.now r items) }
    ensures full { IfOk result (λ r. n ≤ length items → n ≤ length r) }
    ensures done { IfOk result (λ r. (n ≤ length r)
        ⊎ AreTracesScalars (F.ops f.now) a.now one.now x.now q d z.now d r) }
{
    let mut list = items;
    let mut y = z.copy(alloc, f)?;
    for _i in 0..d {
        list = refined_by_trace(alloc, f, a, one, constants, &y, q, d, n, list)?;
        y = scaled(alloc, f, x, y.as_slice())?;
    }
    Ok(list)
}

/// The list of the one ideal 0.
fn zero_ideal<F: Field>(alloc: Global, f: &F, a: &Algebra<F>) -> Result<List<Subspace<F>>, NoMemory>
    requires unital { IsUnital (F.ops f.now) a.now }
    ensures { IfOk result (AreSplit (F.ops f.now) a.now) }
{
    let mut items = List::new(alloc);
    let zero = Subspace::span(alloc, f, a.dim(), &Matrix::new(alloc))?;
    items.push(zero)?;
    Ok(items)
}

/// The list of the ideal 0 refined by the traces of the combinations of the rows with these weights, until it has as
/// many items as there are weights.
pub(crate) fn refined_by_all<F: Field>(
    alloc: Global,
    f: &F,
    a: &Algebra<F>,
    one: &Vector<F>,
    constants: &[F::Elem],
    x: &F::Elem,
    q: usize,
    d: usize,
    weights: &[Vector<F>],
    rows: &[Vector<F>],
) -> Result<List<Subspace<F>>, NoMemory>
    requires unital { IsUnital (F.ops f.now) a.now }
    requires one { IsIdentity (F.ops f.now) a.now one.now }
    requires constants { All (IsElem (F.ops f.now)) constants.now }
    requires root { IsElem (F.ops f.now) x.now }
    requires base { 1 ≤ q }
    requires rows { IsMatrix (F.ops f.now) a.now.dim rows.now }
    requires weights { IsMatrix (F.ops f.now) (length rows.now) weights.now }
    requires traces { (t : ℕ) → t < length weights.now → HasValuedTraces (F.ops f.now) a.now one.now constants.now
        x.now q d (combination_of (F.ops f.now) a.now (get_or weights.now t []) rows.now) }
    ensures split { IfOk result (AreSplit (F.ops f.now) a.now) }
    ensures done { IfOk result (λ r. (length weights.now ≤ length r)
        ⊎ ((t : ℕ) → t < length weights.now → AreTracesScalars (F.ops f.now) a.now one.now x.now q d
        (combination_of (F.ops f.now) a.now (get_or weights.now t []) rows.now) d r)) }
{
    let n = weights.len();
    let mut items = zero_ideal(alloc, f, a)?;
    for t in 0..n {
        let z = combination(alloc, f, a, weights[t].as_slice(), rows)?;
        items = refined_by_traces(alloc, f, a, one, constants, x, &z, q, d, n, items)?;
    }
    Ok(items)
}
