// Theorems on the conditions on tuples at a ramified place.
ghost use Rattle.theory_rings.specs.Ops.{FieldLaws};
ghost use Rattle.theory_fractions.specs.FractionOps.{fraction_ops};
ghost use Rattle.theory_ramified.specs.ConditionLaws.{ConditionsOnRadical, ConditionsAreRamified};

use theory_fractions::fraction_laws::ProgramField;

/// An ideal J of an order Λ at a place that holds π·Λ, with a power inside π·Λ and a simple quotient, is the radical of
/// Λ with a simple quotient; and the radical has these properties.
pub fn conditions_say_the_radical<F: ProgramField>()
    ensures { ConditionsOnRadical F.ops F.laws }
{}

/// All conditions hold exactly where the place is one, and is ramified with this order and this radical.
pub fn conditions_say_ramified<F: ProgramField>()
    ensures { (M : FieldLaws (fraction_ops F.ops F.laws)) → ConditionsAreRamified F.ops F.laws M }
{}
