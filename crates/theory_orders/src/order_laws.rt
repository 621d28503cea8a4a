// Theorems on the two-sided ideals of an order.
ghost use Rattle.std.specs.Prelude.{ℕ};
ghost use Rattle.theory_rings.specs.Ring.{RingOn, FieldOn};
ghost use Rattle.theory_spaces.specs.Module.{AlgebraOn, module_of};
ghost use Rattle.theory_spaces.specs.Linear.{Basis};
ghost use Rattle.theory_spaces.specs.Algebra.{Nondegenerate};
ghost use Rattle.theory_spaces.specs.Valuation.{ValuationOn};
ghost use Rattle.theory_orders.specs.Uniformizer.{UniformizerOn};
ghost use Rattle.theory_orders.specs.Orders.{IsOrder, IsIdeal, Products, Power, Multiple, LeftOrder, Within};
ghost use Rattle.theory_orders.specs.OrderLaws.{SimpleToElements, SimpleToTests, RadicalOfSimple, LeftOrderOver};
ghost use Rattle.theory_orders.specs.OrderLaws.{LeftOrderAt};

/// Two ideals of an order.
pub trait TwoIdeals {
    ghost Scalar: { Type 0 };

    ghost Vector: { Type 0 };

    ghost ring: { RingOn Scalar };

    ghost algebra: { AlgebraOn ring Vector };

    ghost Order: { Vector → Type 0 };

    ghost order: { IsOrder algebra Order };

    ghost Left: { Vector → Type 0 };

    ghost Right: { Vector → Type 0 };

    ghost left: { IsIdeal algebra Order Left };

    ghost right: { IsIdeal algebra Order Right };
}

/// Products and powers of ideals are ideals.
pub fn products_are_ideals<I: TwoIdeals>()
    ensures product { IsIdeal I.algebra I.Order (Products I.algebra I.Left I.Right) }
    ensures power { (e : ℕ) → IsIdeal I.algebra I.Order (Power I.algebra I.Left e) }
{}

/// The left order of an ideal over p·Λ is an order between Λ and p⁻¹·Λ.
pub fn left_order_between<I: TwoIdeals>()
    ensures order { IsOrder I.algebra (LeftOrder I.algebra I.Left) }
    ensures above { Within I.Order (LeftOrder I.algebra I.Left) }
    ensures below { (p : I.Scalar) → Within (Multiple I.algebra p I.Order) I.Left
        → (a : I.Vector) → LeftOrder I.algebra I.Left a → I.Order (I.algebra.◌•◌ p a) }
{}

/// An algebra with a basis over a field with a valuation ring and a uniformizer p, which has the inverse q.
pub trait PlacedAlgebra {
    ghost Scalar: { Type 0 };

    ghost Vector: { Type 0 };

    ghost field: { FieldOn Scalar };

    ghost valuation: { ValuationOn field };

    ghost p: { Scalar };

    ghost q: { Scalar };

    ghost uniformizer: { UniformizerOn field valuation p q };

    ghost algebra: { AlgebraOn field.ring Vector };

    ghost dimension: { ℕ };

    ghost basis: { Basis (module_of algebra) dimension };
}

/// The quotient of an order by an ideal is simple by tests just where it is simple by elements, for lattices; and an
/// ideal over p·Λ with a power in p·Λ and a simple quotient is the radical.
pub fn radical_tests_and_elements<A: PlacedAlgebra>()
    ensures to_elements { SimpleToElements A.field A.valuation A.algebra }
    ensures to_tests { SimpleToTests A.field A.valuation A.algebra }
    ensures radical { RadicalOfSimple A.field A.valuation A.algebra A.p }
{}

/// The left order of an ideal over p·Λ that is a lattice is an order at the place, whatever the trace form is.
pub fn left_order_over_is_an_order_at_the_place<A: PlacedAlgebra>()
    ensures { LeftOrderOver A.field A.valuation A.algebra A.p A.dimension }
{}

/// Where the trace form is nondegenerate, the left order of an ideal that is a lattice of full rank is an order at the
/// place: independent vectors, as many as the dimension, span it.
pub fn left_order_is_an_order_at_the_place<A: PlacedAlgebra>()
    ensures { Nondegenerate A.algebra A.dimension A.basis → LeftOrderAt A.field A.valuation A.algebra A.dimension }
{}
