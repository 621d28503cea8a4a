// The conditions of a central element that is no multiple of an identity.
ghost use Rattle.std.specs.Prelude.{◌≡◌, ◌<◌, ◌↔◌, cond, length, All, IfOk, IsTrue};
ghost use Rattle.theory_rings.specs.Ops.{IsElem};
ghost use Rattle.theory_rings.specs.Sum.{at};
ghost use Rattle.theory_spaces.specs.Tuples.{tuple_scale, basis};
ghost use Rattle.theory_tables.specs.Structure.{IsOver, IsElement, basis_of, product_of};
ghost use Rattle.theory_tables.specs.Conditions.{CommutesWithBasis, IsNoMultiple};

use spl_algebra::algebra::Algebra;
use spl_algebra::products::same;
use spl_field::field::{Field, NoMemory};
use spl_field::list::Vector;
use std::alloc::Global;

/// Whether a·b_i = b_i·a.
fn commutes_at<F: Field>(
    alloc: Global,
    f: &F,
    algebra: &Algebra<F>,
    a: &Vector<F>,
    i: usize,
) -> Result<bool, NoMemory>
    requires over { IsOver (F.ops f.now) algebra.now }
    requires element { IsElement (F.ops f.now) algebra.now a.now }
    requires place { i < algebra.now.dim }
    ensures { IfOk result (λ b. IsTrue b ↔ (
        product_of (F.ops f.now) algebra.now a.now (basis_of (F.ops f.now) algebra.now i)
        ≡ product_of (F.ops f.now) algebra.now (basis_of (F.ops f.now) algebra.now i) a.now)) }
{
    let b = algebra.basis_element(alloc, f, i)?;
    let left = algebra.mul(alloc, f, a, &b)?;
    let right = algebra.mul(alloc, f, &b, a)?;
    Ok(same(f, left.as_slice(), right.as_slice()))
}

/// Whether the element commutes with each basis element.
pub fn commutes_with_basis<F: Field>(
    alloc: Global,
    f: &F,
    algebra: &Algebra<F>,
    a: &Vector<F>,
) -> Result<bool, NoMemory>
    requires over { IsOver (F.ops f.now) algebra.now }
    requires element { IsElement (F.ops f.now) algebra.now a.now }
    ensures { IfOk result (λ b. IsTrue b ↔ CommutesWithBasis (F.ops f.now) algebra.now a.now) }
{
    for i in 0..algebra.dim() {
        if !commutes_at(alloc, f, algebra, a, i)? {
            return Ok(false);
        }
    }
    Ok(true)
}

/// Whether x is a, or b where the test fails.
pub(crate) fn is_chosen<F: Field>(f: &F, x: &F::Elem, test: bool, a: &F::Elem, b: &F::Elem) -> bool
    requires item { IsElem (F.ops f.now) x.now }
    requires first { IsElem (F.ops f.now) a.now }
    requires second { IsElem (F.ops f.now) b.now }
    ensures { IsTrue result ↔ (x.now ≡ cond test a.now b.now) }
{
    if test {
        return f.eq(x, a);
    }
    f.eq(x, b)
}

/// Whether the tuple is c·b_i.
fn is_multiple_of_basis<F: Field>(
    f: &F,
    zero: &F::Elem,
    v: &[F::Elem],
    c: &F::Elem,
    i: usize,
) -> bool
    requires zero_elem { IsElem (F.ops f.now) zero.now }
    requires zero { zero.now ≡ (F.ops f.now).zero }
    requires factor { IsElem (F.ops f.now) c.now }
    requires tuple { All (IsElem (F.ops f.now)) v.now }
    ensures { IsTrue result ↔
        (v.now ≡ tuple_scale (F.ops f.now) (length v.now) c.now (basis (F.ops f.now) (length v.now) i)) }
{
    for k in 0..v.len() {
        if !is_chosen(f, &v[k], k == i, c, zero) {
            return false;
        }
    }
    true
}

/// Whether a·b_i = c·b_i.
fn is_multiple_at<F: Field>(
    alloc: Global,
    f: &F,
    algebra: &Algebra<F>,
    a: &Vector<F>,
    c: &F::Elem,
    i: usize,
) -> Result<bool, NoMemory>
    requires over { IsOver (F.ops f.now) algebra.now }
    requires element { IsElement (F.ops f.now) algebra.now a.now }
    requires factor { IsElem (F.ops f.now) c.now }
    requires place { i < algebra.now.dim }
    ensures { IfOk result (λ b. IsTrue b ↔ (
        product_of (F.ops f.now) algebra.now a.now (basis_of (F.ops f.now) algebra.now i)
        ≡ tuple_scale (F.ops f.now) algebra.now.dim c.now (basis_of (F.ops f.now) algebra.now i))) }
{
    let b = algebra.basis_element(alloc, f, i)?;
    let product = algebra.mul(alloc, f, a, &b)?;
    let zero = f.zero(alloc)?;
    Ok(is_multiple_of_basis(f, &zero, product.as_slice(), c, i))
}

/// The first coordinate of a·b_1, which is the one c that can have a·b_i = c·b_i for each basis element.
fn factor_of<F: Field>(
    alloc: Global,
    f: &F,
    algebra: &Algebra<F>,
    a: &Vector<F>,
) -> Result<F::Elem, NoMemory>
    requires over { IsOver (F.ops f.now) algebra.now }
    requires element { IsElement (F.ops f.now) algebra.now a.now }
    requires positive { 0 < algebra.now.dim }
    ensures elem { IfOk result (IsElem (F.ops f.now)) }
    ensures value { IfOk result (λ r. r ≡ at (F.ops f.now)
        (product_of (F.ops f.now) algebra.now a.now (basis_of (F.ops f.now) algebra.now 0)) 0) }
{
    let b = algebra.basis_element(alloc, f, 0)?;
    let product = algebra.mul(alloc, f, a, &b)?;
    let items = product.as_slice();
    let item = f.copy(alloc, &items[0])?;
    Ok(item)
}

/// Whether no c of the field has a·b_i = c·b_i for every basis element.
pub fn is_no_multiple<F: Field>(
    alloc: Global,
    f: &F,
    algebra: &Algebra<F>,
    a: &Vector<F>,
) -> Result<bool, NoMemory>
    requires over { IsOver (F.ops f.now) algebra.now }
    requires element { IsElement (F.ops f.now) algebra.now a.now }
    ensures { IfOk result (λ b. IsTrue b ↔ IsNoMultiple (F.ops f.now) algebra.now a.now) }
{
    let m = algebra.dim();
    let c = factor_of(alloc, f, algebra, a)?;
    for i in 0..m {
        if !is_multiple_at(alloc, f, algebra, a, &c, i)? {
            return Ok(true);
        }
    }
    Ok(false)
}
