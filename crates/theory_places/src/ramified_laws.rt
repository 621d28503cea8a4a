// Ramified places of tables over the fractions of a program's field.
ghost use Rattle.theory_rings.specs.Ops.{FieldLaws};
ghost use Rattle.theory_fractions.specs.FractionOps.{fraction_ops};
ghost use Rattle.theory_places.specs.FractionPlaces.{RamifiedPlaceExcludesSplit};
ghost use Rattle.theory_places.specs.Quaternions.{QuaternionsAreRamified, QuaternionsOverThree};

use theory_fractions::fraction_laws::ProgramField;

/// A table with a ramified place is split by matrices of no size m ≥ 1.
pub fn ramified_place_excludes_split<F: ProgramField>()
    ensures { (M : FieldLaws (fraction_ops F.ops F.laws)) → RamifiedPlaceExcludesSplit F.ops F.laws M }
{}

/// Where b is no square, the quaternions with j² = b are ramified at x, if i² = x, and at infinity, if i² = 1/x.
pub fn quaternions_are_ramified<F: ProgramField>()
    ensures { (M : FieldLaws (fraction_ops F.ops F.laws)) → QuaternionsAreRamified F.ops F.laws M }
{}

/// So are those over the field of three elements with j² = 2.
pub fn quaternions_over_three()
    ensures { QuaternionsOverThree }
{}
