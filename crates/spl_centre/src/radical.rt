// The radical of the trace form.
ghost use Rattle.std.specs.Prelude.{◌≡◌, ◌≢◌, ◌↔◌, ◌<◌, ◌≤◌, ℕ, List, length, IfOk};
ghost use Rattle.theory_spaces.specs.Tuples.{IsTuple};
ghost use Rattle.theory_tables.specs.Subspace.{InSpan, IsSubspace};
ghost use Rattle.theory_tables.specs.Structure.{IsOver, IsAssociative};
ghost use Rattle.theory_tables.specs.Algebras.{HasIdentity};
ghost use Rattle.theory_tables.specs.Traces.{InTraceRadical};

use spl_algebra::algebra::Algebra;
use spl_field::field::{Field, NoMemory};
use spl_matrix::subspace::Subspace;
use std::alloc::Global;

/// The radical of the trace form as a subspace.
pub(crate) fn radical_of<F: Field>(
    alloc: Global,
    f: &F,
    a: &Algebra<F>,
) -> Result<Subspace<F>, NoMemory>
    requires over { IsOver (F.ops f.now) a.now }
    requires associative { IsAssociative (F.ops f.now) a.now }
    requires identity { HasIdentity (F.ops f.now) a.now }
    ensures basis { IfOk result (IsSubspace (F.ops f.now)) }
    ensures width { IfOk result (λ s. s.width ≡ a.now.dim) }
    ensures members { IfOk result (λ s. (v : List F.Elem) → IsTuple (F.ops f.now) a.now.dim v
        → (InSpan (F.ops f.now) a.now.dim s.rows v ↔ InTraceRadical (F.ops f.now) a.now v)) }
{
    let _ = a.dim();
    let form = a.trace_form(alloc, f)?;
    let radical = form.kernel(alloc, f)?;
    Ok(radical)
}
