// Laws of fractions over a program's field.
ghost use Rattle.theory_rings.specs.Ops.{Ops, FieldLaws};
ghost use Rattle.theory_fractions.specs.Fraction.{AreFractionOps};
ghost use Rattle.theory_fractions.specs.FractionOps.{fraction_ops};
ghost use Rattle.theory_fractions.specs.FractionLaws.{FractionsAreLowestTerms, FractionsAreRational};

/// A program's field.
pub trait ProgramField {
    ghost Value: { Type 0 };

    ghost ops: { Ops Value };

    ghost laws: { FieldLaws ops };
}

/// The fractions are a program's field.
pub fn fractions_are_a_field<F: ProgramField>()
    ensures { FieldLaws (fraction_ops F.ops F.laws) }
{}

/// The fractions are the pairs in lowest terms.
pub fn fractions_are_lowest_terms<F: ProgramField>()
    ensures { FractionsAreLowestTerms F.ops F.laws }
{}

/// Their operations are those of fractions.
pub fn fractions_have_their_operations<F: ProgramField>()
    ensures { AreFractionOps F.ops (fraction_ops F.ops F.laws) }
{}

/// They are the rational functions.
pub fn fractions_are_rational_functions<F: ProgramField>()
    ensures { (M : FieldLaws (fraction_ops F.ops F.laws)) → FractionsAreRational F.ops F.laws M }
{}
