// Split algebras are central simple, and a claim of a splitting is one. Examples of the claims: the algebra of the 2 by
// 2 matrices is split, maps that are 0 split nothing, and a table with one constant changed isn't associative.
ghost use Rattle.std.specs.Prelude.{◌≡◌, ◌≢◌, ◌≤◌, ◌*◌, ℕ, List};
ghost use Rattle.theory_rings.specs.Ops.{Ops, IsElem, FieldLaws};
ghost use Rattle.theory_tables.specs.Laws.{SplitIsCentralSimple};
ghost use Rattle.theory_tables.specs.Structure.{Structure};
ghost use Rattle.theory_tables.specs.Conditions.{map_entry};
ghost use Rattle.theory_tables.specs.Split.{IsSplitBy};
ghost use Rattle.theory_tables.specs.Claims.{SplitClaim, TripleClaim};
ghost use Rattle.theory_tables.specs.Examples.{matrix_structure, matrix_structure_with, matrix_basis, unit_maps};

/// An algebra that matrices of some size n ≥ 1 split is central simple.
pub fn split_is_central_simple<E>()
    ensures simple { (o : Ops E) → FieldLaws o → (A : Structure E) → SplitIsCentralSimple o A }
{}

/// A claim of a splitting of an algebra of dimension n² by matrices of size n is one.
pub fn split_claim_splits<E>()
    ensures splits { (o : Ops E) → FieldLaws o
        → (A : Structure E) (n : ℕ) (maps : List (List (List E))) (units : List (List E)) → A.dim ≡ n * n
        → SplitClaim o A n maps units → IsSplitBy o A n maps }
{}

/// The algebra of the 2 by 2 matrices, with the basis E_11, E_12, E_21 and E_22, is split by these matrices, in the
/// words of the definition and of a claim.
pub fn matrices_are_split<E>()
    ensures split { (o : Ops E) → FieldLaws o → IsSplitBy o (matrix_structure o) 2 (unit_maps o) }
    ensures claim { (o : Ops E) → FieldLaws o → SplitClaim o (matrix_structure o) 2 (unit_maps o) (matrix_basis o) }
{}

/// No claim that an algebra is split holds with maps that are 0.
pub fn zero_maps_split_nothing<E>()
    ensures nothing { (o : Ops E) → FieldLaws o
        → (A : Structure E) (n : ℕ) (maps : List (List (List E))) (units : List (List E)) → 1 ≤ n
        → ((k r s : ℕ) → map_entry o maps k r s ≡ o.zero) → SplitClaim o A n maps units → ⊥ }
{}

/// With c·b_2 for the product b_1·b_2 of the 2 by 2 matrices, where c·c isn't c, the two products of b_1, b_1 and b_2
/// differ. So it is with 2, where that isn't 0.
pub fn changed_constant_breaks_a_triple<E>()
    ensures any { (o : Ops E) → FieldLaws o → (c : E) → IsElem o c → o.mul c c ≢ c
        → TripleClaim o (matrix_structure_with o c) 1 1 2 }
    ensures two { (o : Ops E) → FieldLaws o → o.add o.one o.one ≢ o.zero
        → TripleClaim o (matrix_structure_with o (o.add o.one o.one)) 1 1 2 }
{}
