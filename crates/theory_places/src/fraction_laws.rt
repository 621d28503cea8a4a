// The places of the fractions over a program's field.
ghost use Rattle.theory_rings.specs.Ops.{FieldLaws};
ghost use Rattle.theory_fractions.specs.FractionOps.{fraction_ops};
ghost use Rattle.theory_places.specs.FractionPlaces.{FractionPlacesAreValuationRings, FractionFiniteResidues};
ghost use Rattle.theory_places.specs.FractionPlaces.{FractionInfiniteResidue};

use theory_fractions::fraction_laws::ProgramField;

/// What is integral at a place is a discrete valuation ring, whose uniformizer, the polynomial or 1/x, is no unit.
pub fn fraction_places_are_valuation_rings<F: ProgramField>()
    ensures { (M : FieldLaws (fraction_ops F.ops F.laws)) → FractionPlacesAreValuationRings F.ops F.laws M }
{}

/// The residue field of a finite place is that of the remainders by its polynomial; that of infinity are the
/// coefficients.
pub fn residue_fields_of_fraction_places<F: ProgramField>()
    ensures finite { (M : FieldLaws (fraction_ops F.ops F.laws)) → FractionFiniteResidues F.ops F.laws M }
    ensures infinite { (M : FieldLaws (fraction_ops F.ops F.laws)) → FractionInfiniteResidue F.ops F.laws M }
{}
