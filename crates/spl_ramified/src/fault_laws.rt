// What the first fault of the conditions on a ramified place says.
ghost use Rattle.std.specs.Prelude.{◌≡◌, ◌↔◌, List, Option, None};
ghost use Rattle.theory_rings.specs.Ops.{Ops, FieldLaws};
ghost use Rattle.theory_tables.specs.Structure.{Structure, IsOver};
ghost use Rattle.theory_fractions.specs.Fraction.{Pair};
ghost use Rattle.theory_fractions.specs.FractionOps.{fraction_ops};
ghost use Rattle.theory_places.specs.Places.{PlaceOf};
ghost use Rattle.theory_places.specs.FractionPlaces.{IsPlace, RamifiedAtPlace};
ghost use Rattle.spl_ramified.specs.declared.fault.RamifiedFault.{RamifiedFault};
ghost use Rattle.spl_ramified.specs.Faults.{IsFirstFault, ramified_conditions};

/// There is no first fault exactly where the place is a ramified one, with this order and this radical.
pub fn no_fault_says_ramified<E>()
    ensures claim { (o : Ops E) (L : FieldLaws o) (A : Structure (Pair E)) (place : PlaceOf (List E))
        (os js : List (List (Pair E))) (M : FieldLaws (fraction_ops o L)) → IsOver (fraction_ops o L) A
        → (r : Option RamifiedFault) → IsFirstFault (ramified_conditions o L A place os js) r
        → (r ≡ None) ↔ (IsPlace o place × RamifiedAtPlace o L M A place os js) }
{}
