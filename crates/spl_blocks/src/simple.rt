// Whether an algebra without nilpotent ideals but 0 is simple.
ghost use Rattle.std.specs.Prelude.{◌↔◌, IfOk, IsTrue};
ghost use Rattle.spl_residue.specs.Residue.{residue_ops};
ghost use Rattle.spl_blocks.specs.Blocks.{IsUnital, HasNoNilpotentIdeal, IsSimple};

use crate::fixed::fixed_weights;
use spl_algebra::algebra::Algebra;
use spl_field::field::NoMemory;
use spl_field::small::SmallField;
use spl_residue::field::ResidueField;
use std::alloc::Global;

/// Whether an associative algebra with identity, over a residue field k of f, that has no nilpotent ideal but 0, is
/// simple: whether 0 and everything are its only two-sided ideals. It does not factor: the algebra is simple exactly
/// where the solutions of z^|k| = z in its centre have dimension 1 (Rónyai, Computing the structure of finite algebras,
/// 1990). The one fault is want of memory.
pub fn is_simple(
    alloc: Global,
    f: &SmallField,
    k: &ResidueField,
    b: &Algebra<ResidueField>,
) -> Result<bool, NoMemory>
    requires unital { IsUnital (residue_ops k.now) b.now }
    requires semisimple { HasNoNilpotentIdeal (residue_ops k.now) b.now }
    ensures { IfOk result (λ r. IsTrue r ↔ IsSimple (residue_ops k.now) b.now) }
{
    let m = b.dim();
    let _ = f;
    let _ = m;
    let q = usize::from(k.field().size());
    let d = k.modulus().as_slice().len() - 1;
    let centre = b.centre(alloc, k)?;
    let weights = fixed_weights(alloc, k, b, q, d, centre.rows().as_slice())?;
    Ok(weights.dim() == 1)
}
