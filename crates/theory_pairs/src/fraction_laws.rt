// Theorems on lattices over the fractions of polynomials over a program's field.
ghost use Rattle.theory_rings.specs.Ops.{Ops, FieldLaws};
ghost use Rattle.theory_fractions.specs.FractionOps.{fraction_ops};
ghost use Rattle.theory_pairs.specs.FractionLattices.{FractionsHaveDegree, FractionsHavePolynomials};
ghost use Rattle.theory_pairs.specs.FractionLattices.{FractionLatticesHaveCommonBasis, CommonBasisGivesMembers};
ghost use Rattle.theory_pairs.specs.FractionLattices.{DegreeCountOfOrders, CommonBasisHasDualVectors};
ghost use Rattle.theory_pairs.specs.FractionLattices.{OrdersHoldMiddleElement, CornerOfOrdersIsPair};

/// The degree of the numerator less that of the denominator is a degree of fractions. By it the polynomials, the
/// fractions with denominator 1, are the combinations of powers of x with constants.
pub fn fractions_have_a_degree<E>()
    ensures exists { (o : Ops E) (L : FieldLaws o) (M : FieldLaws (fraction_ops o L)) → FractionsHaveDegree o L M }
    ensures polynomials { (o : Ops E) (L : FieldLaws o) (M : FieldLaws (fraction_ops o L))
        → FractionsHavePolynomials o L M }
{}

/// The lattice of the combinations of a basis with polynomial weights and that of the combinations of a basis with
/// weights of degree at most 0 have a common basis.
pub fn fraction_lattices_have_a_common_basis<E, V>()
    ensures exists { (o : Ops E) (L : FieldLaws o) (M : FieldLaws (fraction_ops o L))
        → FractionLatticesHaveCommonBasis o L M V }
{}

/// By each common basis b of degrees a, the x^j · b i with j from 0 to a i are a basis over the constants of what is in
/// both lattices.
pub fn common_basis_gives_members<E, V>()
    ensures members { (o : Ops E) (L : FieldLaws o) (M : FieldLaws (fraction_ops o L))
        → CommonBasisGivesMembers o L M V }
{}

/// The degree count of two orders that are their own duals for a trace, with its element.
pub fn degree_count_of_orders<E, V>()
    ensures count { (o : Ops E) (L : FieldLaws o) (M : FieldLaws (fraction_ops o L)) → DegreeCountOfOrders o L M V }
{}

/// Each common basis of two orders by bases that are their own duals for a trace has dual vectors; and over a finite
/// field, where both hold 1, the centre of the algebra is the field of fractions and its dimension is 2 to 36, both
/// orders hold an element that is neither nilpotent nor a unit.
pub fn self_dual_orders_over_fractions<E, V>()
    ensures dual { (o : Ops E) (L : FieldLaws o) (M : FieldLaws (fraction_ops o L))
        → CommonBasisHasDualVectors o L M V }
    ensures middle { (o : Ops E) (L : FieldLaws o) (M : FieldLaws (fraction_ops o L))
        → OrdersHoldMiddleElement o L M V }
{}

/// The corner of an idempotent of two orders that are their own duals for a trace: so are their parts in it.
pub fn corner_of_orders_over_fractions<E, V, C>()
    ensures corner { (o : Ops E) (L : FieldLaws o) (M : FieldLaws (fraction_ops o L))
        → CornerOfOrdersIsPair o L M V C }
{}
