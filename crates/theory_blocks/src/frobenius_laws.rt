// Theorems on the solutions of z^q = z in a commutative algebra over a field of q elements.
ghost use Rattle.std.specs.Prelude.{ℕ};
ghost use Rattle.theory_rings.specs.Enumerated.{Enumerated};
ghost use Rattle.theory_blocks.specs.FixedPoints.{FixedPointsLaw, FieldCriterion, ConnectedIsField};

use theory_spaces::algebra_laws::BasedAlgebra;

/// In a commutative algebra over a field of q elements the solutions of z^q = z are a subalgebra (Berlekamp 1967).
pub fn fixed_points_are_a_subalgebra<A: BasedAlgebra>()
    ensures { (E : Enumerated A.Scalar) → FixedPointsLaw A.field E A.algebra }
{}

/// In a commutative algebra without nilpotent elements but 0, in which only the multiples of one solve z^q = z, each
/// element but 0 has an inverse.
pub fn field_criterion<A: BasedAlgebra>()
    ensures { (E : Enumerated A.Scalar) → FieldCriterion A.field E A.algebra }
{}

/// So with 1 other than 0 it is a field.
pub fn connected_algebra_is_field<A: BasedAlgebra>()
    ensures { (E : Enumerated A.Scalar) → ConnectedIsField A.field E A.algebra }
{}
