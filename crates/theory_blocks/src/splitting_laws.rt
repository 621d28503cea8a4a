// Theorems on what a solution of z^q = z splits in an algebra over a field of q elements.
ghost use Rattle.std.specs.Prelude.{ℕ};
ghost use Rattle.theory_rings.specs.Enumerated.{Enumerated};
ghost use Rattle.theory_blocks.specs.Splitting.{ScalarFactorsVanish, ZeroDivisorsExist};
ghost use Rattle.theory_blocks.specs.Lagrange.{LagrangeIdempotents, SplitIdempotentsExist};

use theory_spaces::algebra_laws::BasedAlgebra;

/// Where z^q = z, the product of z − c over the q elements c of the field is 0.
pub fn scalar_factors_vanish<A: BasedAlgebra>()
    ensures { (E : Enumerated A.Scalar) → ScalarFactorsVanish A.field E A.algebra }
{}

/// Where z^q = z and z is no multiple of one, z − c is a zero divisor other than 0 for some c of the field.
pub fn zero_divisors<A: BasedAlgebra>()
    ensures { (E : Enumerated A.Scalar) → ZeroDivisorsExist A.field E A.algebra }
{}

/// Where z^q = z, the products of (z − d)/(c − d) over the d other than c are orthogonal idempotents with the sum 1; z
/// is the scalar c on each, and the sum of their multiples by c.
pub fn lagrange_idempotents<A: BasedAlgebra>()
    ensures { (E : Enumerated A.Scalar) → LagrangeIdempotents A.field E A.algebra }
{}

/// Where z^q = z and z is no multiple of one, one of these idempotents is neither 0 nor 1.
pub fn split_idempotent<A: BasedAlgebra>()
    ensures { (E : Enumerated A.Scalar) → SplitIdempotentsExist A.field E A.algebra }
{}
