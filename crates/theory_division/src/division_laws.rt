// Theorems on algebras over a finite field.
ghost use Rattle.std.specs.Prelude.{◌≡◌, ℕ, ◌^◌, ◌≤◌, Bool, true};
ghost use Rattle.theory_rings.specs.Enumerated.{Enumerated};
ghost use Rattle.theory_spaces.specs.Module.{module_of};
ghost use Rattle.theory_spaces.specs.Linear.{comb, InSpan, Independent};
ghost use Rattle.theory_spaces.specs.Algebra.{Central};
ghost use Rattle.theory_division.specs.Counting.{count};
ghost use Rattle.theory_division.specs.DivisionRing.{HasLeftInverses, Nonunit};

use theory_spaces::algebra_laws::BasedAlgebra;

/// A space of dimension m over a field of q elements has q^m members, and the span of k independent vectors has q^k.
pub fn members_of_a_space<A: BasedAlgebra>()
    ensures whole { (E : Enumerated A.Scalar) → (V : Enumerated A.Vector) × (V.size ≡ E.size ^ A.dimension) }
    ensures span { (E : Enumerated A.Scalar) (V : Enumerated A.Vector) (k : ℕ) (v : ℕ → A.Vector) (P : A.Vector → Bool)
        → Independent (module_of A.algebra) k v → ((x : A.Vector) → P x ≡ true → InSpan (module_of A.algebra) k v x)
        → ((c : ℕ → A.Scalar) → P (comb (module_of A.algebra) k c v) ≡ true) → count V P ≡ E.size ^ k }
{}

/// No division ring of dimension 2 to 36 has a finite field as its centre.
pub fn no_division_ring<A: BasedAlgebra>()
    ensures { Enumerated A.Scalar → Central A.algebra → 2 ≤ A.dimension → A.dimension ≤ 36
        → HasLeftInverses A.algebra.ring → ⊥ }
{}

/// In an algebra of dimension 2 to 36 with a finite field as its centre some element other than 0 has no left inverse.
pub fn nonunit_exists<A: BasedAlgebra>()
    ensures { Enumerated A.Scalar → Central A.algebra → 2 ≤ A.dimension → A.dimension ≤ 36 → (x : A.Vector)
        × Nonunit A.algebra.ring x }
{}
