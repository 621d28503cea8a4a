// What the claims of evidence stand on: spans that are ideals, the radical of the trace form, what makes an algebra
// central simple, and what each claim excludes, for an algebra of any dimension by structure constants in any field.
ghost use Rattle.theory_rings.specs.Ops.{Ops, FieldLaws};
ghost use Rattle.theory_tables.specs.Structure.{Structure};
ghost use Rattle.theory_tables.specs.Laws.{IdealByBasis, TraceRadicalLaw, CentralSimpleByTraceForm};
ghost use Rattle.theory_tables.specs.Laws.{ClaimsExcludeCentralSimple};
ghost use Rattle.theory_tables.specs.Quotient.{QuotientLaw};
ghost use Rattle.theory_tables.specs.Powers.{NilpotentByPowersLaw};
ghost use Rattle.std.specs.Prelude.{List};

/// Tuples span a two-sided ideal exactly where their products with the basis elements from both sides are combinations
/// of them.
pub fn ideal_by_basis<E>()
    ensures ideal { (o : Ops E) → FieldLaws o → (A : Structure E) → IdealByBasis o A }
{}

/// The radical of the trace form of an associative algebra, which need not have an identity, is a two-sided ideal, the
/// kernel of the matrix of the form. It holds each nilpotent ideal, and no identity where the dimension is not 0 in the
/// field.
pub fn trace_radical_is_an_ideal<E>()
    ensures radical { (o : Ops E) → FieldLaws o → (A : Structure E) → TraceRadicalLaw o A }
{}

/// An associative algebra whose centre is the multiples of an identity, and whose trace form is nondegenerate, is
/// central simple.
pub fn central_simple_by_trace_form<E>()
    ensures simple { (o : Ops E) → FieldLaws o → (A : Structure E) → CentralSimpleByTraceForm o A }
{}

/// Two products of three basis elements that differ exclude that the algebra is associative, multipliers that refute
/// the equations of an identity exclude an identity, a central element that is no multiple of an identity excludes a
/// small centre, and fewer than m tuples that span an ideal, at least one and independent, exclude a central simple
/// algebra.
pub fn claims_exclude_central_simple<E>()
    ensures excludes { (o : Ops E) → FieldLaws o → (A : Structure E) → ClaimsExcludeCentralSimple o A }
{}

/// The quotient of an algebra by an ideal is associative where the algebra is, the class of an identity is one, and
/// each of its elements is the class of one.
pub fn quotients_keep_laws<E>()
    ensures keeps { (o : Ops E) → FieldLaws o → (A : Structure E) (ideal : List (List E)) → QuotientLaw o A ideal }
{}

/// The power e + 1 of an ideal of an associative algebra with identity is 0 just where products of e + 1 members are,
/// and the ideal is nilpotent just where some power is 0.
pub fn powers_tell_nilpotent<E>()
    ensures powers { (o : Ops E) → FieldLaws o → (A : Structure E) → NilpotentByPowersLaw o A }
{}
