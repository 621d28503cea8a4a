// What the radical of an algebra by structure constants is, and the chain that ends in it.
ghost use Rattle.std.specs.Prelude.{ℕ};
ghost use Rattle.theory_rings.specs.Ops.{Ops, FieldLaws};
ghost use Rattle.theory_rings.specs.Elements.{elements};
ghost use Rattle.theory_radical.specs.LiftRing.{LiftRingOn};
ghost use Rattle.theory_tables.specs.Structure.{Structure};
ghost use Rattle.theory_chains.specs.Radical.{RadicalIsUnique};
ghost use Rattle.theory_chains.specs.Members.{MembersByRowsLaw};
ghost use Rattle.theory_chains.specs.ElementLifts.{ElementLiftsLaw};

/// Rows that span the radical have the same combinations.
pub fn radical_is_unique<E>()
    ensures unique { (o : Ops E) → (A : Structure E) → RadicalIsUnique o A }
{}

/// The members of the chain by lifted traces, as spans of rows: the kernel of the trace form is the first; where a
/// tuple gives the p^i-th roots of the residues at rows that span a member, the meet of the member with the kernel of
/// a form by this tuple is the next; a member of which some power is 0 is the radical, and so is the last one.
pub fn members_by_rows<E, W>()
    ensures members { (o : Ops E) (L : FieldLaws o) (p n : ℕ) (lift : LiftRingOn (elements o L) p n W)
        → MembersByRowsLaw o L lift }
{}

/// The remainders by an irreducible list over the field of numbers by their digits have p-th roots and lift rings on
/// lists of numbers: sums go number by number, and the products by t and x are sums of numbers.
pub fn lifts_of_elements()
    ensures lifts { ElementLiftsLaw }
{}
