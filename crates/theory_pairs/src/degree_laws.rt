// The degree count of two self-dual orders, with its element.
ghost use Rattle.std.specs.Prelude.{◌≡◌, ℕ, ◌<◌, ◌≤ℤ◌, ◌<ℤ◌, pos};
ghost use Rattle.theory_spaces.specs.Module.{AlgebraOn};
ghost use Rattle.theory_lattices.specs.RationalFunctions.{IsPolynomial};
ghost use Rattle.theory_pairs.specs.DegreeElement.{FirstGreatest, DegreeElement};

use theory_lattices::order_laws::OrderPair;
use theory_lattices::rational_laws::RationalOrderPair;

/// The greatest degree of a common basis is at least 0. Where it is above 0, the product of the first basis vector of
/// that degree and its dual vector is in both orders, has trace 1, and is neither nilpotent nor a unit.
pub fn degree_element<O: OrderPair>()
    ensures exists { 0 < O.size → FirstGreatest O.size O.degrees }
    ensures not_negative { (g : FirstGreatest O.size O.degrees) → pos 0 ≤ℤ O.degrees g.place }
    ensures element { (g : FirstGreatest O.size O.degrees) → pos 0 <ℤ O.degrees g.place
        → DegreeElement O.field O.degree O.algebra O.Weight O.Finite O.Infinite O.trace
        (O.algebra.◌⊗◌ (O.vec g.place) (O.dual g.place)) }
    ensures any_greatest { (i : ℕ) → i < O.size → ((j : ℕ) → j < O.size → O.degrees j ≤ℤ O.degrees i)
        → pos 0 <ℤ O.degrees i
        → DegreeElement O.field O.degree O.algebra O.Weight O.Finite O.Infinite O.trace
        (O.algebra.◌⊗◌ (O.vec i) (O.dual i)) }
{}

/// The same over the rational functions of a finite field.
pub fn rational_degree_element<O: RationalOrderPair>()
    ensures exists { 0 < O.size → FirstGreatest O.size O.degrees }
    ensures not_negative { (g : FirstGreatest O.size O.degrees) → pos 0 ≤ℤ O.degrees g.place }
    ensures element { (g : FirstGreatest O.size O.degrees) → pos 0 <ℤ O.degrees g.place
        → DegreeElement O.field O.degree O.algebra (IsPolynomial O.constants) O.Finite O.Infinite O.trace
        (O.algebra.◌⊗◌ (O.vec g.place) (O.dual g.place)) }
{}
