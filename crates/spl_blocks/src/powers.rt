// Powers of the elements of an algebra.
ghost use Rattle.std.specs.Prelude.{◌≡◌, ◌^◌, ◌<◌, ◌≤◌, [], IfOk, length, get_or};
ghost use Rattle.theory_rings.specs.Sum.{table};
ghost use Rattle.theory_tables.specs.Matrix.{IsMatrix};
ghost use Rattle.theory_tables.specs.Structure.{IsElement};
ghost use Rattle.spl_blocks.specs.Blocks.{IsUnital};
ghost use Rattle.spl_blocks.specs.Fixed.{power_in};

use spl_algebra::algebra::Algebra;
use spl_field::field::{Field, NoMemory};
use spl_field::list::Vector;
use spl_matrix::matrix::Matrix;
use std::alloc::Global;

/// The power z^e, by halves of e.
pub(crate) fn power<F: Field>(
    alloc: Global,
    f: &F,
    a: &Algebra<F>,
    z: &Vector<F>,
    e: usize,
) -> Result<Vector<F>, NoMemory>
    requires unital { IsUnital (F.ops f.now) a.now }
    requires element { IsElement (F.ops f.now) a.now z.now }
    requires positive { 1 ≤ e }
    ensures elem { IfOk result (IsElement (F.ops f.now) a.now) }
    ensures value { IfOk result (λ r. r ≡ power_in (F.ops f.now) a.now z.now e) }
{
    if e < 2 {
        return z.copy(alloc, f);
    }
    let half = power(alloc, f, a, z, e / 2)?;
    let square = a.mul(alloc, f, &half, &half)?;
    if e % 2 == 0 {
        return Ok(square);
    }
    a.mul(alloc, f, z, &square)
}

/// The power z^(q^d), by d times the q-th power.
pub(crate) fn iterated_power<F: Field>(
    alloc: Global,
    f: &F,
    a: &Algebra<F>,
    z: &Vector<F>,
    q: usize,
    d: usize,
) -> Result<Vector<F>, NoMemory>
    requires unital { IsUnital (F.ops f.now) a.now }
    requires element { IsElement (F.ops f.now) a.now z.now }
    requires positive { 1 ≤ q }
    ensures elem { IfOk result (IsElement (F.ops f.now) a.now) }
    ensures value { IfOk result (λ r. r ≡ power_in (F.ops f.now) a.now z.now (q ^ d)) }
{
    let mut x = z.copy(alloc, f)?;
    for _i in 0..d {
        x = power(alloc, f, a, &x, q)?;
    }
    Ok(x)
}

/// z^(q^d) for each of the elements z.
pub(crate) fn powers_of<F: Field>(
    alloc: Global,
    f: &F,
    a: &Algebra<F>,
    q: usize,
    d: usize,
    rows: &[Vector<F>],
) -> Result<Matrix<F>, NoMemory>
    requires unital { IsUnital (F.ops f.now) a.now }
    requires shape { IsMatrix (F.ops f.now) a.now.dim rows.now }
    requires positive { 1 ≤ q }
    ensures shape { IfOk result (IsMatrix (F.ops f.now) a.now.dim) }
    ensures value { IfOk result (λ r. r ≡ table (length rows.now) (λ i.
        power_in (F.ops f.now) a.now (get_or rows.now i []) (q ^ d))) }
{
    let mut out = Matrix::new(alloc);
    for i in 0..rows.len() {
        out.push(iterated_power(alloc, f, a, &rows[i], q, d)?)?;
    }
    Ok(out)
}
