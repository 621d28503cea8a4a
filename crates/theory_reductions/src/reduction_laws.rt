// The residue field of an irreducible polynomial by lists of coefficients.
ghost use Rattle.theory_rings.specs.Ops.{FieldLaws};
ghost use Rattle.theory_fractions.specs.FractionOps.{fraction_ops};
ghost use Rattle.theory_reductions.specs.Reductions.{FractionsReduce};

use theory_fractions::fraction_laws::ProgramField;

/// The fractions whose denominator an irreducible polynomial doesn't divide have the remainders by it, as lists of
/// coefficients, as residue field, and the residue of u/v is u·v⁻¹ there.
pub fn fractions_reduce<F: ProgramField>()
    ensures { (M : FieldLaws (fraction_ops F.ops F.laws)) → FractionsReduce F.ops F.laws M }
{}
