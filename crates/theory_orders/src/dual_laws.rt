// Theorems on the dual of an order by the trace form.
ghost use Rattle.std.specs.Prelude.{◌≡◌, ℕ};
ghost use Rattle.std.specs.Int.{◌∣◌};
ghost use Rattle.theory_rings.specs.Power.{times};
ghost use Rattle.theory_rings.specs.Prime.{IsPrime};
ghost use Rattle.theory_spaces.specs.Algebra.{Central, Nondegenerate};
ghost use Rattle.theory_orders.specs.DualLaws.{DimensionIsUnit, OrderInDual, DoubleDual, DualShrinks, GrowthByTwo};
ghost use Rattle.theory_orders.specs.DualLaws.{LengthBounded, UnimodularSelfDual, SimpleSelfDual, SelfDualOrRamified};

use crate::order_laws::PlacedAlgebra;

/// An order lies in its dual: the traces of its products are integral.
pub fn order_lies_in_its_dual<A: PlacedAlgebra>()
    ensures { OrderInDual A.field A.valuation A.algebra A.dimension A.basis }
{}

/// Where the trace form is nondegenerate, the dual of the dual of a lattice of full rank is the lattice, a larger
/// lattice has a smaller dual, and the length of the dual over the order is bounded, and less by at least two for a
/// larger order.
pub fn growth_shrinks_the_dual<A: PlacedAlgebra>()
    ensures double { Nondegenerate A.algebra A.dimension A.basis
        → DoubleDual A.field A.valuation A.algebra A.dimension A.basis }
    ensures shrinks { Nondegenerate A.algebra A.dimension A.basis
        → DualShrinks A.field A.valuation A.algebra A.dimension A.basis }
    ensures bounded { Nondegenerate A.algebra A.dimension A.basis
        → LengthBounded A.field A.valuation A.algebra A.dimension A.basis }
    ensures by_two { Nondegenerate A.algebra A.dimension A.basis
        → GrowthByTwo A.field A.valuation A.algebra A.dimension A.basis }
{}

/// An order with a unimodular trace form is its dual.
pub fn unimodular_order_is_its_dual<A: PlacedAlgebra>()
    ensures { UnimodularSelfDual A.field A.valuation A.algebra A.dimension A.basis }
{}

/// Where the dimension is a unit, as it is where the characteristic does not divide it, an order Λ with a simple
/// quotient Λ/p·Λ is its dual. Where also the centre is the scalars and no maximal ideal over p·Λ has a larger left
/// order, Λ is its dual, or it is ramified with its radical.
pub fn self_dual_where_nothing_grows<A: PlacedAlgebra>()
    ensures simple { DimensionIsUnit A.field A.valuation A.algebra A.dimension A.basis
        → SimpleSelfDual A.field A.valuation A.algebra A.dimension A.basis A.p }
    ensures settled { DimensionIsUnit A.field A.valuation A.algebra A.dimension A.basis → Central A.algebra
        → SelfDualOrRamified A.field A.valuation A.algebra A.dimension A.basis A.p }
    ensures characteristic { (c : ℕ) → IsPrime c → times A.field.monoid c A.field.one ≡ A.field.zero
        → (c ∣ A.dimension → ⊥)
        → DimensionIsUnit A.field A.valuation A.algebra A.dimension A.basis }
{}
