// Theorems on the conditions at infinity.
ghost use Rattle.theory_ramified.specs.InfinityConditions.{ConditionsAtInfinityAtX};

use theory_fractions::fraction_laws::ProgramField;

/// Each condition holds at infinity exactly where it holds of the images at the place x, where 1/x is put for x.
pub fn conditions_at_infinity_hold_at_x<F: ProgramField>()
    ensures { ConditionsAtInfinityAtX F.ops F.laws }
{}
