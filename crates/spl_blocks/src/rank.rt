// Whether an algebra over a residue field is simple, by its centre and the two-sided rank.
ghost use Rattle.std.specs.Prelude.{◌≡◌, ◌↔◌, ◌*◌, ◌^◌, ◌≤◌, length, IfOk, IsTrue};
ghost use Rattle.theory_tables.specs.Matrix.{IsMatrix};
ghost use Rattle.theory_tables.specs.Subspace.{IsSubspace, SpansKernel};
ghost use Rattle.spl_residue.specs.Residue.{residue_ops};
ghost use Rattle.spl_algebra.specs.Subspaces.{SpansCentre};
ghost use Rattle.spl_blocks.specs.Blocks.{IsUnital, IsSimple};
ghost use Rattle.spl_blocks.specs.Fixed.{nilpotent_equations};
ghost use Rattle.spl_blocks.specs.Ranks.{HasFieldCentre};

use crate::fixed::{fixed_weights, relations};
use crate::powers::powers_of;
use spl_algebra::algebra::Algebra;
use spl_field::field::{Field, NoMemory};
use spl_field::list::Vector;
use spl_matrix::subspace::Subspace;
use spl_residue::field::ResidueField;
use std::alloc::Global;

/// The weights of the combinations of the elements, which commute, that solve z^(q^d) = 0, where the field has q^d
/// elements.
fn nilpotent_weights<F: Field>(
    alloc: Global,
    f: &F,
    a: &Algebra<F>,
    q: usize,
    d: usize,
    rows: &[Vector<F>],
) -> Result<Subspace<F>, NoMemory>
    requires unital { IsUnital (F.ops f.now) a.now }
    requires shape { IsMatrix (F.ops f.now) a.now.dim rows.now }
    requires positive { 1 ≤ q }
    ensures basis { IfOk result (IsSubspace (F.ops f.now)) }
    ensures width { IfOk result (λ s. s.width ≡ length rows.now) }
    ensures members { IfOk result (λ s. SpansKernel (F.ops f.now) a.now.dim (length rows.now)
        (nilpotent_equations (F.ops f.now) a.now (q ^ d) rows.now) s.rows) }
{
    let powers = powers_of(alloc, f, a, q, d, rows)?;
    relations(alloc, f, a.dim(), powers.as_slice())
}

/// Whether there are no nilpotent solutions, and the fixed ones have dimension 1.
fn are_dimensions_of_field(nilpotent: usize, fixed: usize) -> bool
    ensures { IsTrue result ↔ ((nilpotent ≡ 0) × (fixed ≡ 1)) }
{
    nilpotent == 0 && fixed == 1
}

/// Whether the centre of an associative algebra with identity over a residue field is a field: whether, with q the
/// number of elements of the residue field, no central element but 0 has the q-th power 0, and the solutions of z^q = z
/// in the centre have dimension 1. It does not factor. The one fault is want of memory. (Rónyai, Computing the
/// structure of finite algebras, 1990.)
pub fn has_field_centre(
    alloc: Global,
    k: &ResidueField,
    b: &Algebra<ResidueField>,
    centre: &Subspace<ResidueField>,
) -> Result<bool, NoMemory>
    requires unital { IsUnital (residue_ops k.now) b.now }
    requires basis { IsSubspace (residue_ops k.now) centre.now }
    requires width { centre.now.width ≡ b.now.dim }
    requires members { SpansCentre (residue_ops k.now) b.now centre.now.rows }
    ensures { IfOk result (λ r. IsTrue r ↔ HasFieldCentre (residue_ops k.now) b.now) }
{
    let m = b.dim();
    let _ = m;
    let q = usize::from(k.field().size());
    let d = k.modulus().as_slice().len() - 1;
    let rows = centre.rows().as_slice();
    let nilpotent = nilpotent_weights(alloc, k, b, q, d, rows)?;
    let fixed = fixed_weights(alloc, k, b, q, d, rows)?;
    Ok(are_dimensions_of_field(nilpotent.dim(), fixed.dim()))
}

/// Whether r·z is m².
fn is_square(r: usize, z: usize, m: usize) -> bool
    ensures { IsTrue result ↔ (r * z ≡ m * m) }
{
    (r as u128) * (z as u128) == (m as u128) * (m as u128)
}

/// Whether an associative algebra with identity over a residue field is simple: whether 0 and everything are its only
/// two-sided ideals. It is, exactly where its centre is a field and the maps y → (b_i·y)·b_j span a space of dimension
/// m²/z, where m is the dimension and z that of the centre. It needs no radical and does not factor. The one fault is
/// want of memory. (Pierce, Associative Algebras, chapter 12; Jacobson, Basic Algebra II, section 4.6.)
pub fn is_simple_by_rank(
    alloc: Global,
    k: &ResidueField,
    b: &Algebra<ResidueField>,
) -> Result<bool, NoMemory>
    requires unital { IsUnital (residue_ops k.now) b.now }
    ensures { IfOk result (λ r. IsTrue r ↔ IsSimple (residue_ops k.now) b.now) }
{
    let m = b.dim();
    let centre = b.centre(alloc, k)?;
    if !has_field_centre(alloc, k, b, &centre)? {
        return Ok(false);
    }
    let r = b.two_sided_rank(alloc, k)?;
    Ok(is_square(r, centre.dim(), m))
}
