// Nilpotent ideals.
ghost use Rattle.std.specs.Prelude.{◌≡◌, ◌↔◌, IfOk, IsTrue};
ghost use Rattle.theory_tables.specs.Subspace.{IsSubspace};
ghost use Rattle.theory_tables.specs.Structure.{IsOver, IsAssociative};
ghost use Rattle.theory_tables.specs.Algebras.{SpansIdeal};
ghost use Rattle.theory_tables.specs.Traces.{PowerVanishes};

use crate::algebra::Algebra;
use spl_field::field::{Field, NoMemory};
use spl_matrix::subspace::Subspace;
use std::alloc::Global;

/// Whether some power of the ideal is 0. It squares it until that is 0, or its own square. The one fault is want of
/// memory.
pub fn is_nilpotent_ideal<F: Field>(
    alloc: Global,
    f: &F,
    a: &Algebra<F>,
    ideal: &Subspace<F>,
) -> Result<bool, NoMemory>
    requires over { IsOver (F.ops f.now) a.now }
    requires associative { IsAssociative (F.ops f.now) a.now }
    requires basis { IsSubspace (F.ops f.now) ideal.now }
    requires width { ideal.now.width ≡ a.now.dim }
    requires ideal { SpansIdeal (F.ops f.now) a.now ideal.now.rows }
    ensures { IfOk result (λ b. IsTrue b ↔ PowerVanishes (F.ops f.now) a.now ideal.now.rows) }
{
    let mut power = ideal.copy(alloc, f)?;
    'squares: while power.dim() > 0 {
        let square = a.power_of_ideal(alloc, f, &power, 2)?;
        if power.dim() <= square.dim() {
            return Ok(false);
        }
        power = square;
    }
    Ok(true)
}
