// Theorems on the growth of an order at a place.
ghost use Rattle.theory_rings.specs.Ops.{FieldLaws};
ghost use Rattle.theory_tables.specs.Structure.{Structure};
ghost use Rattle.theory_fractions.specs.Fraction.{Pair};
ghost use Rattle.theory_fractions.specs.FractionOps.{fraction_ops};
ghost use Rattle.theory_growth.specs.Settled.{SettledWhereNothingGrows};
ghost use Rattle.theory_growth.specs.Growths.{LeftOrdersAreSteps, StepsKeepOtherPlaces, BoundsExist, BoundByDegree};
ghost use Rattle.theory_growth.specs.Growths.{GrowthsFall, DualBasisIsCarried, DualIsCarriedBySquare};
ghost use Rattle.theory_growth.specs.Growths.{OwnDualIsKept};
ghost use Rattle.theory_growth.specs.RamifiedRows.{RamifiedByRows};

use theory_fractions::fraction_laws::ProgramField;

/// An order over the polynomials, in an algebra whose centre is the multiples of one, in a characteristic that does not
/// divide the dimension: where no maximal ideal over a monic irreducible polynomial m has a larger left order, it is
/// its own dual for the trace at m just if the radical of its residue algebra is 0, and else ramified with the preimage
/// of this radical.
pub fn settled_where_nothing_grows<F: ProgramField>()
    ensures { (M : FieldLaws (fraction_ops F.ops F.laws)) → SettledWhereNothingGrows F.ops F.laws M }
{}

/// The left order of an ideal of an order Λ over m·Λ, over the polynomials, is an order that holds Λ and that m carries
/// into Λ.
pub fn left_orders_are_steps<F: ProgramField>()
    ensures { (M : FieldLaws (fraction_ops F.ops F.laws)) → LeftOrdersAreSteps F.ops F.laws M }
{}

/// After any number of such steps the order is the same at each other monic irreducible polynomial. So it is still its
/// own dual for the trace where it was.
pub fn steps_keep_other_places<F: ProgramField>()
    ensures same { (A : Structure (Pair F.Value)) → StepsKeepOtherPlaces F.ops F.laws A }
    ensures dual { (A : Structure (Pair F.Value)) → OwnDualIsKept F.ops F.laws A }
{}

/// Where the trace form is nondegenerate, there is a bound on the number of orders that grow one after the other from a
/// given one at a monic irreducible polynomial. Also without that, the dimension times the degree of a polynomial that
/// carries the dual of the order into it is such a bound; it carries the dual where it carries the dual basis, as the
/// square of the product of denominators of the dual basis and of the constants does. Where the order grows, a bound is
/// at least 1, and one less is a bound for the larger order.
pub fn growth_is_bounded<F: ProgramField>()
    ensures exists { (A : Structure (Pair F.Value)) → BoundsExist F.ops F.laws A }
    ensures degree { (A : Structure (Pair F.Value)) → BoundByDegree F.ops F.laws A }
    ensures carries { (A : Structure (Pair F.Value)) → DualBasisIsCarried F.ops F.laws A }
    ensures square { (A : Structure (Pair F.Value)) → DualIsCarriedBySquare F.ops F.laws A }
    ensures falls { (A : Structure (Pair F.Value)) → GrowthsFall F.ops F.laws A }
{}

/// An order over the polynomials and the preimage of an ideal of its residue algebra make a ramified place just where
/// the ideal is nilpotent, maximal and not 0, and the left order of the preimage, over the polynomials, lies in the
/// order.
pub fn ramified_by_rows<F: ProgramField>()
    ensures { (M : FieldLaws (fraction_ops F.ops F.laws)) → RamifiedByRows F.ops F.laws M }
{}
