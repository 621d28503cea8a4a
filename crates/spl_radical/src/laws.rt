// What the traces of powers do.
ghost use Rattle.theory_tables.specs.Structure.{IsOver, IsElement};
ghost use Rattle.spl_residue.specs.Residue.{residue_ops};
ghost use Rattle.spl_radical.specs.LiftNumbers.{residues_of, level_of};
ghost use Rattle.spl_radical.specs.TracePower.{IsIndependentOfLift};

use crate::lift_ring::LiftRing;
use spl_algebra::algebra::Algebra;
use spl_field::list::Vector;
use spl_residue::field::ResidueField;

/// Modulo p^(i + 1) the trace of the p^i-th power of a lift of the multiplication by a doesn't depend on the lift.
pub fn trace_is_independent_of_lift(
    ring: &LiftRing,
    b: &Algebra<ResidueField>,
    a: &Vector<ResidueField>,
    i: u32,
)
    requires over { IsOver (residue_ops (residues_of ring.now)) b.now }
    requires element { IsElement (residue_ops (residues_of ring.now)) b.now a.now }
    ensures { IsIndependentOfLift (residues_of ring.now) (level_of ring.now) b.now a.now i }
{}
