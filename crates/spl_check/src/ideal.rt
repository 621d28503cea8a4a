// The conditions of tuples that span an ideal.
ghost use Rattle.std.specs.Prelude.{◌≡◌, ◌<◌, ◌↔◌, ℕ, [], length, get_or, IfOk, IsTrue};
ghost use Rattle.theory_tables.specs.Matrix.{IsMatrix};
ghost use Rattle.theory_tables.specs.Subspace.{InSpan, SameSpan, IsSubspace, AreIndependent};
ghost use Rattle.theory_tables.specs.Structure.{IsOver, IsElement};
ghost use Rattle.spl_check.specs.Sides.{side_product_of};

use spl_algebra::algebra::Algebra;
use spl_field::field::{Field, NoMemory};
use spl_field::list::Vector;
use spl_matrix::subspace::Subspace;
use std::alloc::Global;

/// The product b_i·v, or v·b_i where the side is the right one.
fn side_product<F: Field>(
    alloc: Global,
    f: &F,
    algebra: &Algebra<F>,
    is_left: bool,
    v: &Vector<F>,
    i: usize,
) -> Result<Vector<F>, NoMemory>
    requires over { IsOver (F.ops f.now) algebra.now }
    requires element { IsElement (F.ops f.now) algebra.now v.now }
    requires place { i < algebra.now.dim }
    ensures elem { IfOk result (IsElement (F.ops f.now) algebra.now) }
    ensures value { IfOk result (λ r. r ≡ side_product_of (F.ops f.now) algebra.now is_left v.now i) }
{
    let b = algebra.basis_element(alloc, f, i)?;
    if is_left {
        let product = algebra.mul(alloc, f, &b, v)?;
        return Ok(product);
    }
    let product = algebra.mul(alloc, f, v, &b)?;
    Ok(product)
}

/// Whether the products of each basis element with v, from the side, are in the subspace.
fn holds_products<F: Field>(
    alloc: Global,
    f: &F,
    algebra: &Algebra<F>,
    space: &Subspace<F>,
    is_left: bool,
    v: &Vector<F>,
) -> Result<bool, NoMemory>
    requires over { IsOver (F.ops f.now) algebra.now }
    requires subspace { IsSubspace (F.ops f.now) space.now }
    requires width { space.now.width ≡ algebra.now.dim }
    requires element { IsElement (F.ops f.now) algebra.now v.now }
    ensures { IfOk result (λ b. IsTrue b ↔ ((i : ℕ) → i < algebra.now.dim
        → InSpan (F.ops f.now) algebra.now.dim space.now.rows
        (side_product_of (F.ops f.now) algebra.now is_left v.now i))) }
{
    for i in 0..algebra.dim() {
        let product = side_product(alloc, f, algebra, is_left, v, i)?;
        if !space.contains(alloc, f, product.as_slice())? {
            return Ok(false);
        }
    }
    Ok(true)
}

/// Whether the products b_i·v, or v·b_i where the side is the right one, are combinations of the tuples, for each basis
/// element b_i and each tuple v. The subspace is their span.
pub fn is_closed<F: Field>(
    alloc: Global,
    f: &F,
    algebra: &Algebra<F>,
    space: &Subspace<F>,
    is_left: bool,
    tuples: &[Vector<F>],
) -> Result<bool, NoMemory>
    requires over { IsOver (F.ops f.now) algebra.now }
    requires tuples { IsMatrix (F.ops f.now) algebra.now.dim tuples.now }
    requires subspace { IsSubspace (F.ops f.now) space.now }
    requires width { space.now.width ≡ algebra.now.dim }
    requires span { SameSpan (F.ops f.now) algebra.now.dim space.now.rows tuples.now }
    ensures { IfOk result (λ b. IsTrue b ↔ ((i r : ℕ) → i < algebra.now.dim → r < length tuples.now
        → InSpan (F.ops f.now) algebra.now.dim tuples.now
        (side_product_of (F.ops f.now) algebra.now is_left (get_or tuples.now r []) i))) }
{
    for r in 0..tuples.len() {
        if !holds_products(alloc, f, algebra, space, is_left, &tuples[r])? {
            return Ok(false);
        }
    }
    Ok(true)
}

/// Whether the tuples are independent: their span, the subspace, has as many dimensions as there are tuples.
pub fn are_independent<F: Field>(f: &F, space: &Subspace<F>, tuples: &[Vector<F>]) -> bool
    requires tuples { IsMatrix (F.ops f.now) space.now.width tuples.now }
    requires subspace { IsSubspace (F.ops f.now) space.now }
    requires span { SameSpan (F.ops f.now) space.now.width space.now.rows tuples.now }
    ensures { IsTrue result ↔ AreIndependent (F.ops f.now) space.now.width tuples.now }
{
    let _ = f;
    space.dim() == tuples.len()
}
