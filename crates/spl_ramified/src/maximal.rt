// Whether an ideal of an algebra over a residue field is maximal.
ghost use Rattle.std.specs.Prelude.{◌≡◌, ◌↔◌, IfOk, IsTrue};
ghost use Rattle.theory_tables.specs.Subspace.{IsSubspace};
ghost use Rattle.theory_tables.specs.Algebras.{SpansIdeal};
ghost use Rattle.spl_residue.specs.Residue.{residue_ops};
ghost use Rattle.spl_blocks.specs.Blocks.{IsUnital, SpansMaximalIdeal};

use spl_algebra::algebra::Algebra;
use spl_algebra::quotient::Quotient;
use spl_blocks::rank::is_simple_by_rank;
use spl_field::field::NoMemory;
use spl_matrix::subspace::Subspace;
use spl_residue::field::ResidueField;
use std::alloc::Global;

/// Whether a two-sided ideal of an associative algebra with identity over a residue field is maximal: whether it is not
/// everything, and the quotient by it is simple. The one fault is want of memory. (Pierce, Associative Algebras,
/// chapter 3.)
pub(crate) fn is_maximal_ideal(
    alloc: Global,
    k: &ResidueField,
    b: &Algebra<ResidueField>,
    ideal: &Subspace<ResidueField>,
) -> Result<bool, NoMemory>
    requires unital { IsUnital (residue_ops k.now) b.now }
    requires basis { IsSubspace (residue_ops k.now) ideal.now }
    requires width { ideal.now.width ≡ b.now.dim }
    requires ideal { SpansIdeal (residue_ops k.now) b.now ideal.now.rows }
    ensures { IfOk result (λ r. IsTrue r ↔ SpansMaximalIdeal (residue_ops k.now) b.now ideal.now.rows) }
{
    if ideal.dim() >= b.dim() {
        return Ok(false);
    }
    let Quotient {
        algebra,
        project: _,
        lifts: _,
    } = b.quotient(alloc, k, ideal)?;
    let simple = is_simple_by_rank(alloc, k, &algebra)?;
    Ok(simple)
}
