// Residues of fractions.
ghost use Rattle.std.specs.Prelude.{◌≡◌, IfOk};
ghost use Rattle.theory_rings.specs.Ops.{IsElem};
ghost use Rattle.spl_field.specs.SmallField.{small_ops};
ghost use Rattle.spl_fraction.specs.Fractions.{field_of};
ghost use Rattle.spl_fraction.specs.FractionsOver.{fractions_over};
ghost use Rattle.spl_residue.specs.Residue.{field_of as residue_field_of, polynomial_of, residue_ops};
ghost use Rattle.theory_places.specs.Places.{Finite};
ghost use Rattle.theory_places.specs.FractionPlaces.{IsIntegralAt};
ghost use Rattle.theory_reductions.specs.Reductions.{IsResidueOf};

use spl_field::field::{Field, NoMemory};
use spl_fraction::field::Fractions;
use spl_fraction::fraction::Fraction;
use spl_residue::elem::ResidueElem;
use spl_residue::field::ResidueField;
use std::alloc::Global;

/// The residue of a fraction that is integral at the place of the residue field: that of its numerator times the
/// inverse of that of its denominator. The one fault is want of memory. (Stichtenoth, Algebraic Function Fields and
/// Codes, section 1.2.)
pub fn reduce(
    alloc: Global,
    f: &Fractions,
    k: &ResidueField,
    a: &Fraction,
) -> Result<ResidueElem, NoMemory>
    requires field { small_ops (residue_field_of k.now) ≡ small_ops (field_of f.now) }
    requires elem { IsElem (fractions_over (field_of f.now)) a.now }
    requires integral { IsIntegralAt (small_ops (field_of f.now)) (Finite (polynomial_of k.now)) a.now }
    ensures elem { IfOk result (IsElem (residue_ops k.now)) }
    ensures value { IfOk result (IsResidueOf (small_ops (field_of f.now)) (polynomial_of k.now) (residue_ops k.now)
        a.now) }
{
    let _ = f;
    let upper = k.reduce_poly(alloc, a.numerator())?;
    let lower = k.reduce_poly(alloc, a.denominator())?;
    let inverse = k.inv(alloc, &lower)?.unwrap();
    let residue = k.mul(alloc, &upper, &inverse)?;
    Ok(residue)
}
