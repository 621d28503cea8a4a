// The laws of polynomials: each is the contract of a function that does nothing.
ghost use Rattle.theory_rings.specs.PolynomialLaws.{HasPolynomialRing, HasDivision, HasRemainderRings, EvaluationIsHom};
ghost use Rattle.theory_rings.specs.PolynomialLaws.{HasGcd, IrreducibleIsPrime, HasRemainderFields, HasLowestTerms};
ghost use Rattle.theory_rings.specs.PolynomialLaws.{HasRationalFunctions};

use crate::structures::{CommutativeRing, FieldStructure};

/// The polynomials over a commutative ring are a commutative ring.
pub fn polynomial_ring_law<R: CommutativeRing>()
    ensures { HasPolynomialRing R.ring }
{}

/// Division by a polynomial whose leading coefficient has an inverse has one quotient and one remainder.
pub fn division_law<R: CommutativeRing>()
    ensures { HasDivision R.ring }
{}

/// The remainders by a monic polynomial are a commutative ring.
pub fn remainder_ring_law<R: CommutativeRing>()
    ensures { HasRemainderRings R.ring }
{}

/// Evaluation at a point is a homomorphism of rings.
pub fn evaluation_law<R: CommutativeRing, S: CommutativeRing>()
    ensures { EvaluationIsHom R.ring S.ring }
{}

/// Two polynomials over a field have a greatest common divisor that is a combination of them.
pub fn gcd_law<F: FieldStructure>()
    ensures { HasGcd F.field }
{}

/// An irreducible polynomial over a field that divides a product divides a factor.
pub fn irreducible_law<F: FieldStructure>()
    ensures { IrreducibleIsPrime F.field }
{}

/// The remainders by a monic irreducible polynomial over a field are a field.
pub fn remainder_field_law<F: FieldStructure>()
    ensures { HasRemainderFields F.field }
{}

/// Each fraction of polynomials over a field is that of one pair in lowest terms with a monic denominator.
pub fn lowest_terms_law<F: FieldStructure>()
    ensures { HasLowestTerms F.field }
{}

/// The fractions of polynomials over a field, in lowest terms, are a field.
pub fn rational_functions_law<F: FieldStructure>()
    ensures { HasRationalFunctions F.field }
{}
