// The places of a field of rational functions: their valuation rings, valuations and residue fields.
ghost use Rattle.theory_places.specs.Places.{Infinite, PlaceValuation};
ghost use Rattle.theory_places.specs.Valuations.{AreValuations};
ghost use Rattle.theory_places.specs.PlaceLaws.{PlacesAreValuationRings, ValuationsByFactors, ValuationsByDegrees};
ghost use Rattle.theory_places.specs.PlaceLaws.{PolynomialsAmongFractions, FiniteResidueFields, InfiniteResidueField};
ghost use Rattle.theory_places.specs.PlaceLaws.{HasSwap};

use theory_lattices::rational_laws::RationalFunctions;
use theory_orders::ramified_laws::Place;

/// Each element of a discrete valuation ring's field but 0 has one valuation, and just those with one that is not
/// negative are integral. That of a product is the sum, and that of a sum is not below both.
pub fn valuations_are_numbers<P: Place>()
    ensures { AreValuations P.field P.valuation P.p }
{}

/// What is integral at a place is a discrete valuation ring, whose uniformizer is no unit.
pub fn places_are_valuation_rings<Q: RationalFunctions>()
    ensures { PlacesAreValuationRings Q.constants Q.field }
{}

/// The valuation at a polynomial counts its factors in the numerator, less those in the denominator; at infinity it is
/// the degree of the denominator less that of the numerator.
pub fn valuations_at_places<Q: RationalFunctions>()
    ensures factors { ValuationsByFactors Q.constants Q.field }
    ensures degrees { ValuationsByDegrees Q.constants Q.field }
{}

/// The polynomials are the fractions with the denominator 1, and those that are integral at each finite place.
pub fn polynomials_among_fractions<Q: RationalFunctions>()
    ensures { PolynomialsAmongFractions Q.constants Q.field }
{}

/// The residue field of a finite place is that of the remainders by its polynomial; that of infinity are the constants.
pub fn residue_fields_of_places<Q: RationalFunctions>()
    ensures finite { FiniteResidueFields Q.constants Q.field }
    ensures infinite { (V : PlaceValuation Q.constants Q.field Infinite) → InfiniteResidueField Q.constants Q.field V }
{}

/// x is a place, and putting 1/x for x is an automorphism that carries it to infinity.
pub fn swap_of_places<Q: RationalFunctions>()
    ensures { HasSwap Q.constants Q.field }
{}
