// What holds of algebras whoever computes in them.
ghost use Rattle.theory_rings.specs.Ops.{Ops};
ghost use Rattle.theory_tables.specs.Structure.{Structure, AssociativeEverywhere};

use spl_field::field::Field;

/// An algebra over the field whose basis elements associate is associative.
pub fn associative_everywhere<F: Field>(f: &F)
    ensures { AssociativeEverywhere (F.ops f.now) }
{
    let _ = f;
}
