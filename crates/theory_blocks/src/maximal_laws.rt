// Theorems on the centre and the ideals of an algebra without nilpotent ideals but 0.
ghost use Rattle.theory_rings.specs.Enumerated.{Enumerated};
ghost use Rattle.theory_blocks.specs.FixedPoints.{IsSubalgebra};
ghost use Rattle.theory_blocks.specs.Centre.{Centre};
ghost use Rattle.theory_blocks.specs.MaximalIdeals.{IdealsHaveCentralUnits, CentreIsReduced, MaximalIdealsLaw};
ghost use Rattle.theory_blocks.specs.MaximalIdeals.{MaximalIdealsAreFinitelyMany};

use theory_spaces::algebra_laws::BasedAlgebra;

/// The centre of an algebra is a subalgebra.
pub fn centre_is_subalgebra<A: BasedAlgebra>()
    ensures { IsSubalgebra A.algebra (Centre A.algebra) }
{}

/// In an algebra without nilpotent ideals but 0, the centre has no nilpotent elements but 0.
pub fn centre_is_reduced<A: BasedAlgebra>()
    ensures { CentreIsReduced A.algebra }
{}

/// In such an algebra each ideal is what a central idempotent of it fixes.
pub fn ideals_have_central_units<A: BasedAlgebra>()
    ensures { IdealsHaveCentralUnits A.algebra }
{}

/// Where its centre is a product of fields, its maximal ideals are what one of the idempotents of these sends to 0, one
/// for each; and what the idempotent fixes is simple. So it is simple where its centre is one field, and only there.
pub fn maximal_ideals_by_factors<A: BasedAlgebra>()
    ensures { MaximalIdealsLaw A.field A.algebra }
{}

/// Over a field of q elements the centre of such an algebra is a product of fields. So its maximal ideals are finitely
/// many, and their number is the dimension of the solutions of z^q = z in the centre.
pub fn maximal_ideals_are_finitely_many<A: BasedAlgebra>()
    ensures { (E : Enumerated A.Scalar) → MaximalIdealsAreFinitelyMany A.field E A.algebra }
{}
