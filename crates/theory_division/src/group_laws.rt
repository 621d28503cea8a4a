// Theorems on finite groups.
ghost use Rattle.std.specs.Prelude.{◌≡◌, true};
ghost use Rattle.theory_rings.specs.Enumerated.{Enumerated};
ghost use Rattle.theory_division.specs.Group.{GroupOn, conjugate, are_conjugate, is_central, OrbitStabilizer};
ghost use Rattle.theory_division.specs.Group.{ClassEquation};

/// A finite group.
pub trait FiniteGroup {
    ghost group: { GroupOn Self };

    ghost members: { Enumerated Self };
}

/// The tests of conjugate and of central members are right.
pub fn conjugate_and_central<G: FiniteGroup>()
    ensures conjugate { (x y : G) → (are_conjugate G.group G.members x y ≡ true → (g : G) × (conjugate G.group g x ≡ y))
        × ((g : G) → conjugate G.group g x ≡ y → are_conjugate G.group G.members x y ≡ true) }
    ensures central { (x : G) → (is_central G.group G.members x ≡ true → (y : G) → G.group.◌·◌ x y ≡ G.group.◌·◌ y x)
        × (((y : G) → G.group.◌·◌ x y ≡ G.group.◌·◌ y x) → is_central G.group G.members x ≡ true) }
{}

/// The class equation.
pub fn class_equation<G: FiniteGroup>()
    ensures classes { OrbitStabilizer G.group G.members }
    ensures whole { ClassEquation G.group G.members }
{}
