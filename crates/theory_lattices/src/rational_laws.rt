// The degrees of polynomials and of rational functions over a field, and what the theorems on orders say there.
ghost use Rattle.std.specs.Prelude.{◌≡◌, ℕ, ◌≤◌, ℤ};
ghost use Rattle.theory_rings.specs.Ring.{FieldOn};
ghost use Rattle.theory_rings.specs.Homomorphism.{IsRingHom};
ghost use Rattle.theory_rings.specs.Enumerated.{Enumerated};
ghost use Rattle.theory_spaces.specs.Module.{ModuleOn, AlgebraOn, module_of};
ghost use Rattle.theory_spaces.specs.Linear.{InSpan, Independent, Coords};
ghost use Rattle.theory_spaces.specs.Algebra.{Central};
ghost use Rattle.theory_spaces.specs.Lattice.{LatticeOver};
ghost use Rattle.theory_lattices.specs.Degree.{DegreeOn, IsEuclidean};
ghost use Rattle.theory_lattices.specs.CommonBasis.{InInfinite, CommonBasis};
ghost use Rattle.theory_lattices.specs.Members.{PolynomialsOf, IntersectionBasis};
ghost use Rattle.theory_lattices.specs.SelfDual.{ClosedWeights, SelfDualPair, Middle, DualVectors};
ghost use Rattle.theory_lattices.specs.RationalFunctions.{polynomial_ring, AreFractionsOfPolynomials, IsRationalField};
ghost use Rattle.theory_lattices.specs.RationalFunctions.{IsPolynomialDegree, Rational, IsPolynomial, of_constant};
ghost use Rattle.theory_lattices.specs.RationalFunctions.{power_of_x, IsRationalDegree};

use theory_rings::structures::FieldStructure;

/// The degree of polynomials over a field is one, and it is Euclidean.
pub fn degree_of_polynomials<F: FieldStructure>()
    ensures exists { (W : DegreeOn (polynomial_ring F.field).ring) × IsPolynomialDegree F.field W }
    ensures euclidean { (W : DegreeOn (polynomial_ring F.field).ring) → IsPolynomialDegree F.field W → IsEuclidean W }
{}

/// The ring of polynomials, the variable, the constants and the fractions u/1 among the rational functions are what
/// they are named after: sums and products go by coefficients, x has the coefficients 0 and 1, and u/1 has the value u.
pub fn rational_functions_are_fractions<F: FieldStructure>()
    ensures { AreFractionsOfPolynomials F.field }
{}

/// A field of rational functions.
pub trait RationalFunctions {
    ghost Constant: { Type 0 };

    ghost constants: { FieldOn Constant };

    ghost field: { FieldOn (Rational constants) };

    ghost fractions: { IsRationalField constants field };
}

/// The degree of the numerator less that of the denominator is a degree of rational functions. By it the polynomials
/// are the combinations of powers of x with constants.
pub fn degree_of_rational_functions<Q: RationalFunctions>()
    ensures exists { (W : DegreeOn Q.field.ring) × IsRationalDegree Q.constants Q.field W }
    ensures constants { IsRingHom Q.constants.ring Q.field.ring (of_constant Q.constants) }
    ensures closed { ClosedWeights Q.field (IsPolynomial Q.constants) }
    ensures first { power_of_x Q.constants 0 ≡ Q.field.one }
    ensures polynomials { (W : DegreeOn Q.field.ring) → IsRationalDegree Q.constants Q.field W
        → PolynomialsOf Q.field W (IsPolynomial Q.constants) Q.constants.ring (of_constant Q.constants)
        (power_of_x Q.constants) }
{}

/// A space of finitely many coordinates over the rational functions of a field.
pub trait RationalSpace {
    ghost Constant: { Type 0 };

    ghost constants: { FieldOn Constant };

    ghost field: { FieldOn (Rational constants) };

    ghost fractions: { IsRationalField constants field };

    ghost degree: { DegreeOn field.ring };

    ghost rational_degree: { IsRationalDegree constants field degree };

    ghost Vector: { Type 0 };

    ghost space: { ModuleOn field.ring Vector };

    ghost size: { ℕ };

    ghost coords: { Coords space size };
}

/// Over the rational functions, the lattice of the combinations of a basis f with polynomial weights and that of the
/// combinations of a basis e with weights of degree at most 0 have a common basis. By each common basis b of degrees a,
/// the x^j • b i with j from 0 to a i are a basis of the intersection over the constants.
pub fn rational_common_basis<S: RationalSpace>()
    ensures exists { (f e : ℕ → S.Vector) → Independent S.space S.size f → Independent S.space S.size e
        → ((x : S.Vector) → InSpan S.space S.size e x)
        → (b : ℕ → S.Vector) × (a : ℕ → ℤ)
        × CommonBasis S.field S.degree S.space (IsPolynomial S.constants) S.size
        (LatticeOver S.space (IsPolynomial S.constants) S.size f)
        (InInfinite S.field S.degree S.space (IsPolynomial S.constants) S.size e) b a }
    ensures intersection { (f e b : ℕ → S.Vector) (a : ℕ → ℤ)
        → CommonBasis S.field S.degree S.space (IsPolynomial S.constants) S.size
        (LatticeOver S.space (IsPolynomial S.constants) S.size f)
        (InInfinite S.field S.degree S.space (IsPolynomial S.constants) S.size e) b a
        → IntersectionBasis S.field S.degree (IsPolynomial S.constants) S.constants.ring (of_constant S.constants)
        (power_of_x S.constants) S.space S.size b a
        (LatticeOver S.space (IsPolynomial S.constants) S.size f)
        (InInfinite S.field S.degree S.space (IsPolynomial S.constants) S.size e) }
{}

/// Two orders that are their own duals for a trace, in an algebra over the rational functions of a finite field, with a
/// common basis and its dual vectors.
pub trait RationalOrderPair {
    ghost Constant: { Type 0 };

    ghost constants: { FieldOn Constant };

    ghost members: { Enumerated Constant };

    ghost field: { FieldOn (Rational constants) };

    ghost fractions: { IsRationalField constants field };

    ghost degree: { DegreeOn field.ring };

    ghost rational_degree: { IsRationalDegree constants field degree };

    ghost Vector: { Type 0 };

    ghost algebra: { AlgebraOn field.ring Vector };

    ghost size: { ℕ };

    ghost Finite: { Vector → Type 0 };

    ghost Infinite: { Vector → Type 0 };

    ghost trace: { Vector → Rational constants };

    ghost pair: { SelfDualPair field degree algebra (IsPolynomial constants) Finite Infinite trace };

    ghost vec: { ℕ → Vector };

    ghost degrees: { ℕ → ℤ };

    ghost basis: { CommonBasis field degree (module_of algebra)
        (IsPolynomial constants) size Finite Infinite vec degrees };

    ghost dual: { ℕ → Vector };

    ghost pairing: { DualVectors field algebra trace size vec dual };
}

/// Over the rational functions of a finite field, two self-dual orders of an algebra of dimension 2 to 36 whose centre
/// is the field hold an element that is neither nilpotent nor a unit.
pub fn rational_middle_element<O: RationalOrderPair>()
    ensures { O.Finite O.algebra.one → O.Infinite O.algebra.one
        → ((x : O.Vector) → InSpan (module_of O.algebra) O.size O.vec x)
        → Central O.algebra → 2 ≤ O.size → O.size ≤ 36
        → (w : O.Vector) × Middle O.field O.degree O.algebra (IsPolynomial O.constants) O.Finite O.Infinite w }
{}

/// Two orders over the rational functions of a finite field by their bases: the combinations of f with polynomial
/// weights, and those of e with weights of degree at most 0.
pub trait RationalOrders {
    ghost Constant: { Type 0 };

    ghost constants: { FieldOn Constant };

    ghost members: { Enumerated Constant };

    ghost field: { FieldOn (Rational constants) };

    ghost fractions: { IsRationalField constants field };

    ghost degree: { DegreeOn field.ring };

    ghost rational_degree: { IsRationalDegree constants field degree };

    ghost Vector: { Type 0 };

    ghost algebra: { AlgebraOn field.ring Vector };

    ghost size: { ℕ };

    ghost finite: { ℕ → Vector };

    ghost infinite: { ℕ → Vector };

    ghost finite_free: { Independent (module_of algebra) size finite };

    ghost infinite_free: { Independent (module_of algebra) size infinite };

    ghost infinite_spans: { (x : Vector) → InSpan (module_of algebra) size infinite x };

    ghost trace: { Vector → Rational constants };

    ghost pair: { SelfDualPair field degree algebra (IsPolynomial constants)
        (LatticeOver (module_of algebra) (IsPolynomial constants) size finite)
        (InInfinite field degree (module_of algebra) (IsPolynomial constants) size infinite) trace };
}

/// Where two such orders are their own duals for a trace, hold one, and the algebra has the rational functions as its
/// centre and a dimension of 2 to 36, they hold an element that is neither nilpotent nor a unit.
pub fn self_dual_orders<O: RationalOrders>()
    ensures { LatticeOver (module_of O.algebra) (IsPolynomial O.constants) O.size O.finite O.algebra.one
        → InInfinite O.field O.degree (module_of O.algebra) (IsPolynomial O.constants) O.size O.infinite O.algebra.one
        → Central O.algebra → 2 ≤ O.size → O.size ≤ 36
        → (w : O.Vector) × Middle O.field O.degree O.algebra (IsPolynomial O.constants)
        (LatticeOver (module_of O.algebra) (IsPolynomial O.constants) O.size O.finite)
        (InInfinite O.field O.degree (module_of O.algebra) (IsPolynomial O.constants) O.size O.infinite) w }
{}
