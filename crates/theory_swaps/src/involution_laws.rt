// What an automorphism of the field that is its own inverse carries.
ghost use Rattle.std.specs.Prelude.{List};
ghost use Rattle.theory_rings.specs.Ops.{Ops, FieldLaws};
ghost use Rattle.theory_swaps.specs.Involutions.{IsInvolution};
ghost use Rattle.theory_swaps.specs.CarriedAlgebras.{InvolutionsCarryAlgebras};
ghost use Rattle.theory_swaps.specs.CarriedLattices.{InvolutionsCarryLattices, InvolutionsCarryOrders};
ghost use Rattle.theory_swaps.specs.CarriedSets.{InvolutionsCarrySets};

/// A program's field with a map of its values, two sets of values, and two of tuples.
pub trait MappedField {
    ghost Value: { Type 0 };

    ghost ops: { Ops Value };

    ghost laws: { FieldLaws ops };

    ghost map: { Value → Value };

    ghost Weight: { Value → Type 0 };

    ghost ImageWeight: { Value → Type 0 };

    ghost Order: { List Value → Type 0 };

    ghost Ideal: { List Value → Type 0 };
}

/// An algebra by its structure constants goes to that with the images of the constants.
pub fn involutions_carry_algebras<F: MappedField>()
    ensures { InvolutionsCarryAlgebras F.ops F.map }
{}

/// Lattices of tuples, their orders and duals, go to those of the images, with weights in the image of the set.
pub fn involutions_carry_lattices<F: MappedField>()
    ensures lattices { InvolutionsCarryLattices F.ops F.map F.Weight F.ImageWeight }
    ensures orders { InvolutionsCarryOrders F.ops F.map F.Weight F.ImageWeight }
{}

/// Ideals, left orders, powers and radicals go to the sets of the images.
pub fn involutions_carry_sets<F: MappedField>()
    ensures { InvolutionsCarrySets F.ops F.map F.Order F.Ideal }
{}
