// Ramified places of algebras by structure constants: they exclude a splitting, and there are some.
ghost use Rattle.std.specs.Prelude.{◌≡◌, ◌≤◌, ◌*◌, ℕ, IsTrue, List};
ghost use Rattle.theory_tables.specs.Structure.{Structure, IsOver};
ghost use Rattle.theory_tables.specs.Split.{IsSplit};
ghost use Rattle.theory_tables.specs.Claims.{SplitClaim};
ghost use Rattle.theory_tables.specs.Ramified.{RamifiedTable};
ghost use Rattle.theory_tables.specs.Examples.{root_structure, root_order, root_radical};

use theory_orders::ramified_laws::PlacedTuples;

/// An algebra with a ramified place is split by matrices of no size n ≥ 1, and no claim of such a splitting holds of it
/// where its dimension is n².
pub fn ramified_excludes_split<F: PlacedTuples>()
    ensures excludes { (A : Structure F.Value) (os js : List (List F.Value)) → IsOver F.ops A
        → RamifiedTable F.ops F.laws A F.valuation F.p os js
        → (n : ℕ) → 1 ≤ n → IsSplit F.ops A n → ⊥ }
    ensures excludes_claim { (A : Structure F.Value) (os js : List (List F.Value)) → IsOver F.ops A
        → RamifiedTable F.ops F.laws A F.valuation F.p os js
        → (n : ℕ) (maps : List (List (List F.Value))) (units : List (List F.Value)) → 1 ≤ n → A.dim ≡ n * n
        → SplitClaim F.ops A n maps units → ⊥ }
{}

/// Where p isn't a unit, the field with a square root w of p has a ramified place: the order is the integral
/// combinations of 1 and w, and its radical those of p and w.
pub fn ramified_claim_exists<F: PlacedTuples>()
    ensures root { (IsTrue (F.valuation.integral F.q) → ⊥)
        → RamifiedTable F.ops F.laws (root_structure F.ops F.p.0) F.valuation F.p (root_order F.ops F.p.0)
        (root_radical F.ops F.p.0) }
{}
