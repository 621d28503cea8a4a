// Theorems on the fields whose direct product a commutative subalgebra is.
ghost use Rattle.std.specs.Prelude.{ℕ};
ghost use Rattle.theory_rings.specs.Enumerated.{Enumerated};
ghost use Rattle.theory_blocks.specs.FactorLaws.{FieldFactorsExist, FixedPointsByFactors, FactorsAreUnique};
ghost use Rattle.theory_blocks.specs.FactorLaws.{SolutionsArePowerOfField};

use theory_radical::nilpotent_laws::AlgebraSubset;
use theory_spaces::algebra_laws::BasedAlgebra;

/// Over a field of q elements a commutative subalgebra in which 0 alone is nilpotent is a direct product of fields.
pub fn field_factors_exist<S: AlgebraSubset>()
    ensures { (E : Enumerated S.Scalar) → FieldFactorsExist S.field E S.algebra S.Subset }
{}

/// For each such product the solutions of z^q = z are the combinations of its idempotents, which are independent: an
/// algebra that is isomorphic to the s-tuples of scalars, where s is the number of the fields.
pub fn fixed_points_by_factors<S: AlgebraSubset>()
    ensures { (E : Enumerated S.Scalar) → FixedPointsByFactors S.field E S.algebra S.Subset }
{}

/// A commutative subalgebra over any field is a direct product of fields in one way: any two have the same idempotents,
/// so as many.
pub fn factor_count_is_unique<S: AlgebraSubset>()
    ensures { FactorsAreUnique S.field S.algebra S.Subset }
{}

/// A commutative algebra over a field of q elements in which 0 alone is nilpotent is a direct product of fields, and
/// its solutions of z^q = z are the s-tuples of scalars, where s is the number of the fields.
pub fn solutions_are_a_power_of_the_field<A: BasedAlgebra>()
    ensures { (E : Enumerated A.Scalar) → SolutionsArePowerOfField A.field E A.algebra }
{}
