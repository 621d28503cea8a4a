// The subrings of the fractions over a program's field that have residue fields.
ghost use Rattle.theory_rings.specs.Ops.{FieldLaws};
ghost use Rattle.theory_fractions.specs.FractionOps.{fraction_ops};
ghost use Rattle.theory_left_orders.specs.FractionResidues.{PlacesHaveResidueRings, PolynomialLatticesAtPlaces};

use theory_fractions::fraction_laws::ProgramField;

/// What is integral at a monic irreducible polynomial, and the polynomials, have the remainders by it, as lists of
/// coefficients, as residue field.
pub fn places_have_residue_rings<F: ProgramField>()
    ensures { (M : FieldLaws (fraction_ops F.ops F.laws)) → PlacesHaveResidueRings F.ops F.laws M }
{}

/// Rows of fractions with the same lattice over the polynomials have the same lattice at each finite place.
pub fn polynomial_lattices_at_places<F: ProgramField>()
    ensures { PolynomialLatticesAtPlaces F.ops F.laws }
{}
