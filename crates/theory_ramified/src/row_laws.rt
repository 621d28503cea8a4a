// Theorems on the conditions at a finite place, by rows over its residue field.
ghost use Rattle.theory_rings.specs.Ops.{FieldLaws};
ghost use Rattle.theory_fractions.specs.FractionOps.{fraction_ops};
ghost use Rattle.theory_ramified.specs.RowConditions.{ConditionsByRows, ResiduesAreRows};

use theory_fractions::fraction_laws::ProgramField;

/// Of an order at a finite place and an ideal that holds its multiple by the place, the conditions on the ideal say of
/// rows that span what it becomes in the residue algebra: they span an ideal which is nilpotent, maximal, and not 0.
pub fn conditions_hold_by_rows<F: ProgramField>()
    ensures { (M : FieldLaws (fraction_ops F.ops F.laws)) → ConditionsByRows F.ops F.laws M }
{}

/// The residues of the coordinates of the tuples of such an ideal are such rows.
pub fn residues_of_coordinates_are_rows<F: ProgramField>()
    ensures { (M : FieldLaws (fraction_ops F.ops F.laws)) → ResiduesAreRows F.ops F.laws M }
{}
