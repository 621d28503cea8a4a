// What holds of all small fields.
ghost use Rattle.std.specs.Prelude.{◌≡◌};
ghost use Rattle.spl_field.specs.FieldByDigits.{IsAdmitted};
ghost use Rattle.spl_field.specs.SmallField.{characteristic, modulus_of, small_ops};
ghost use Rattle.spl_field.specs.declared.small.SmallField.{SmallField};

/// Fields by the same numbers have the same operations, that of the inverse of 0 among them.
pub fn equal_fields()
    ensures { (f g : SmallField) → characteristic f ≡ characteristic g → modulus_of f ≡ modulus_of g
        → small_ops f ≡ small_ops g }
{}

/// The numbers of a field are admitted.
pub fn fields_are_admitted()
    ensures { (f : SmallField) → IsAdmitted (characteristic f) (modulus_of f) }
{}
