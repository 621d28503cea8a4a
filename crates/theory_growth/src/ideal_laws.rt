// Theorems on the maximal ideals of an algebra by its structure constants.
ghost use Rattle.theory_rings.specs.Ops.{Ops, FieldLaws};
ghost use Rattle.theory_tables.specs.Structure.{Structure};
ghost use Rattle.theory_growth.specs.MaximalIdeals.{LiftedRowsArePulledBack, PulledBackIdeals, MaximalByQuotient};
ghost use Rattle.theory_growth.specs.MaximalIdeals.{MaximalIdealsOverRadical, NothingNilpotentOverRadical};
ghost use Rattle.theory_growth.specs.MaximalIdeals.{PulledBackMaximalIdeals, RadicalIsProper};

/// Each maximal ideal of an associative algebra with identity comes from one of the quotient by the radical. What an
/// ideal of a quotient comes from is an ideal, and maximal where that is: the lifts of rows that span it, followed by rows
/// of the kernel, span it.
/// The quotient by the radical has no nilpotent ideal but 0, and the radical is not everything where the algebra is not 0.
pub fn maximal_ideals_over_the_radical<E>()
    ensures complete { (o : Ops E) → FieldLaws o → (A : Structure E) → MaximalIdealsOverRadical o A }
    ensures none { (o : Ops E) → FieldLaws o → (A : Structure E) → NothingNilpotentOverRadical o A }
    ensures proper { (o : Ops E) → FieldLaws o → (A : Structure E) → RadicalIsProper o A }
    ensures ideals { (o : Ops E) → FieldLaws o → (A : Structure E) → PulledBackIdeals o A }
    ensures maximal { (o : Ops E) → FieldLaws o → (A : Structure E) → PulledBackMaximalIdeals o A }
    ensures rows { (o : Ops E) → FieldLaws o → (A : Structure E) → LiftedRowsArePulledBack o A }
{}

/// An ideal of an associative algebra with identity is maximal just where the quotient by it has no ideals but 0 and
/// itself, and is not 0.
pub fn maximal_ideals_have_simple_quotients<E>()
    ensures { (o : Ops E) → FieldLaws o → (A : Structure E) → MaximalByQuotient o A }
{}
