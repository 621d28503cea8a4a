// Simple algebras by their centre and the two-sided rank.
ghost use Rattle.theory_rings.specs.Ops.{Ops, FieldLaws};
ghost use Rattle.spl_blocks.specs.Ranks.{SimpleByTwoSidedRank, FieldCentreByPowers};

/// An associative algebra with one, of dimension m, whose centre has dimension z, is simple exactly where its centre is
/// a field and the maps y → (b_i·y)·b_j span a space of dimension m²/z, over any field.
pub fn simple_by_two_sided_rank<E>()
    ensures rank { (o : Ops E) → FieldLaws o → SimpleByTwoSidedRank o }
{}

/// Over a field of q elements the centre of an associative algebra with one is a field exactly where 0 alone among the
/// central elements has the q-th power 0, and the solutions of z^q = z among them have dimension 1. Nothing is factored.
/// (Rónyai, Computing the structure of finite algebras, 1990.)
pub fn field_centre_by_powers<E>()
    ensures field { (o : Ops E) (L : FieldLaws o) → FieldCentreByPowers o L }
{}
