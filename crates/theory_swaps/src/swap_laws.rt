// The fraction with 1/x put for x.
ghost use Rattle.theory_rings.specs.Ops.{FieldLaws};
ghost use Rattle.theory_fractions.specs.FractionOps.{fraction_ops};
ghost use Rattle.theory_swaps.specs.FractionSwaps.{HasFractionSwap, InfinityIsThePlaceX, RamifiedAtInfinityAtX};

use theory_fractions::fraction_laws::ProgramField;

/// To put 1/x for x is an automorphism of the fractions, which carries what is integral at infinity to what is integral
/// at the place x.
pub fn fractions_have_a_swap<F: ProgramField>()
    ensures { HasFractionSwap F.ops F.laws }
{}

/// It carries an algebra to that with the images of the constants, and its lattices and orders at infinity to those of
/// the images at x.
pub fn infinity_is_the_place_x<F: ProgramField>()
    ensures { InfinityIsThePlaceX F.ops F.laws }
{}

/// The claim of a ramified place at infinity holds exactly where that of the images at x does.
pub fn ramified_at_infinity_is_ramified_at_x<F: ProgramField>()
    ensures { (M : FieldLaws (fraction_ops F.ops F.laws)) → RamifiedAtInfinityAtX F.ops F.laws M }
{}
