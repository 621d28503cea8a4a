// The mathematics of the blocks of an algebra of finite dimension. It stands on theory_rings, theory_spaces and
// theory_radical, and has no code: each public function does nothing, and its contract is a theorem.
//
// Over a field of q elements: what the solutions of z^q = z split, and when there is nothing to split. Read
// specs/FixedPoints, specs/Splitting and specs/Lagrange, then frobenius_laws and splitting_laws.
//
// The field factors of a commutative subalgebra: where 0 is its only nilpotent element, it is a direct product of
// fields, in one way, and its solutions of z^q = z are the algebra of the s-tuples of scalars, where s is the number of
// the fields. Read specs/FieldFactors and specs/FactorLaws, then factor_laws.
//
// Over any field, in an algebra without nilpotent ideals but 0: each ideal has a unit in the centre, and where the
// centre is a product of fields the maximal ideals are those of its factors. Over a field of q elements the centre is
// one, so the maximal ideals are as many as the dimension of the solutions of z^q = z in the centre. Read specs/Centre
// and specs/MaximalIdeals, then maximal_laws.
//
// Over any field: an algebra is simple by its centre and the dimension of what the maps y → x·y·w span. Read
// specs/TwoSidedRank, then rank_laws.
#![tactic(auto)]

pub mod factor_laws;
pub mod frobenius_laws;
pub mod maximal_laws;
pub mod rank_laws;
pub mod splitting_laws;
