// Powers of an ideal of an order modulo a place.
ghost use Rattle.std.specs.Prelude.{◌≡◌, ◌↔◌, IfOk, IsTrue};
ghost use Rattle.theory_tables.specs.Subspace.{IsSubspace};
ghost use Rattle.theory_tables.specs.Structure.{IsOver, IsAssociative};
ghost use Rattle.theory_tables.specs.Algebras.{SpansIdeal};
ghost use Rattle.theory_tables.specs.Traces.{PowerVanishes};
ghost use Rattle.spl_residue.specs.Residue.{residue_ops};

use crate::residue_algebra::Residue;
use spl_algebra::nilpotent::is_nilpotent_ideal;
use spl_field::field::NoMemory;
use spl_matrix::subspace::Subspace;
use spl_residue::field::ResidueField;
use std::alloc::Global;

/// Whether some power of a two-sided ideal of an order modulo a place is 0 there: whether some power of its preimage
/// lies in the order's multiples by the place's polynomial. The one fault is want of memory. (Reiner, Maximal Orders,
/// section 6.)
pub fn power_in_place(
    alloc: Global,
    residue: &Residue,
    ideal: &Subspace<ResidueField>,
) -> Result<bool, NoMemory>
    requires over { IsOver (residue_ops residue.now.field) residue.now.algebra }
    requires associative { IsAssociative (residue_ops residue.now.field) residue.now.algebra }
    requires basis { IsSubspace (residue_ops residue.now.field) ideal.now }
    requires width { ideal.now.width ≡ residue.now.algebra.dim }
    requires ideal { SpansIdeal (residue_ops residue.now.field) residue.now.algebra ideal.now.rows }
    ensures { IfOk result (λ b. IsTrue b
        ↔ PowerVanishes (residue_ops residue.now.field) residue.now.algebra ideal.now.rows) }
{
    is_nilpotent_ideal(alloc, &residue.field, &residue.algebra, ideal)
}
