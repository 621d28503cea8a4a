// Theorems on simple algebras by their centre and the maps y → b_i·y·b_j.
ghost use Rattle.std.specs.Prelude.{◌≡◌, ℕ};
ghost use Rattle.theory_spaces.specs.AlgebraMap.{IsSimple};
ghost use Rattle.theory_spaces.specs.Module.{module_of};
ghost use Rattle.theory_spaces.specs.Linear.{BasisOf};
ghost use Rattle.theory_blocks.specs.Centre.{Centre};
ghost use Rattle.theory_blocks.specs.TwoSidedRank.{BasisOverCentreExists, TwoSidedMapsVanish, SimpleByRank, RankByRows};

use theory_spaces::algebra_laws::BasedAlgebra;

/// Where the centre is a field, the algebra has a basis over it, and its dimension is the product of that over the
/// centre and that of the centre.
pub fn basis_over_centre<A: BasedAlgebra>()
    ensures { (z : ℕ) → BasisOf (module_of A.algebra) z (Centre A.algebra)
        → BasisOverCentreExists A.field A.algebra A.dimension A.basis z }
{}

/// In a simple algebra, where a_1, .., a_n are independent over the centre, the map y → a_1·y·x_1 + .. + a_n·y·x_n is 0
/// only where all the x are.
pub fn two_sided_maps_vanish<A: BasedAlgebra>()
    ensures { IsSimple A.algebra → TwoSidedMapsVanish A.algebra }
{}

/// Where the centre has dimension z and one is not 0: the algebra is simple exactly where its centre is a field and the
/// maps y → b_i·y·b_j span a space of dimension m²/z.
pub fn simple_by_rank<A: BasedAlgebra>()
    ensures { (z : ℕ) → BasisOf (module_of A.algebra) z (Centre A.algebra) → (A.algebra.one ≡ A.algebra.zero → ⊥)
        → SimpleByRank A.field A.algebra A.dimension A.basis z }
{}

/// The maps y → b_i·y·b_j have one rank, and it is that of the rows of their coordinates.
pub fn rank_by_rows<A: BasedAlgebra>()
    ensures { RankByRows A.field A.algebra A.dimension A.basis }
{}
