// Theorems on the irreducible factors of polynomials over a field of q elements.
ghost use Rattle.theory_rings.specs.Enumerated.{Enumerated};
ghost use Rattle.theory_factors.specs.FactorLaws.{IrreducibleIffCoprime};
ghost use Rattle.theory_factors.specs.Splitting.{GcdsExist, IsProductOfGcds, OneGcdIsProper};
ghost use Rattle.theory_factors.specs.Parts.{SmallIsIrreducible, TracesAreFixed, SomeTraceIsNotConstant};
ghost use Rattle.theory_factors.specs.Factorisation.{HasIrreducibleFactors, FactorisationIsUnique};

use theory_rings::structures::FieldStructure;

/// A polynomial of degree d at least 1 over a field of q elements is irreducible exactly where it is coprime to x^(q^i)
/// - x for each i from 1 with 2i at most d.
pub fn irreducible_iff_coprime<F: FieldStructure>()
    ensures { (E : Enumerated F) → IrreducibleIffCoprime F.field E }
{}

/// Each polynomial of degree at least 1 over a field of q elements has a monic irreducible factor.
pub fn irreducible_factors_exist<F: FieldStructure>()
    ensures { (E : Enumerated F) → HasIrreducibleFactors F.field }
{}

/// Two factorisations into powers of monic irreducible polynomials, in a given order, with one product are one.
pub fn factorisation_is_unique<F: FieldStructure>()
    ensures { FactorisationIsUnique F.field }
{}

/// A monic polynomial f has a monic greatest common divisor with z - c, for each polynomial z and each c in the field.
pub fn gcds_exist<F: FieldStructure>()
    ensures { (E : Enumerated F) → GcdsExist F.field E }
{}

/// A monic polynomial f that divides z^q - z is the product, over the c in the field, of its monic greatest common
/// divisors with z - c.
pub fn is_product_of_gcds<F: FieldStructure>()
    ensures { (E : Enumerated F) → IsProductOfGcds F.field E }
{}

/// Where z is besides congruent to no constant modulo f, one of them is a proper factor of f.
pub fn one_gcd_is_proper<F: FieldStructure>()
    ensures { (E : Enumerated F) → OneGcdIsProper F.field E }
{}

/// A polynomial of degree at least 1 and less than 2d without divisors of degrees from 1 to d - 1 is irreducible.
pub fn small_is_irreducible<F: FieldStructure>()
    ensures { SmallIsIrreducible F.field }
{}

/// Modulo a divisor of x^(q^d) - x without factors of degree less than d the trace of each polynomial, z + z^q + .. +
/// z^(q^(d - 1)), solves z^q = z.
pub fn traces_are_fixed<F: FieldStructure>()
    ensures { (E : Enumerated F) → TracesAreFixed F.field E }
{}

/// Where the degree of such a divisor is at least 2d, the trace of some power of x is no constant modulo it.
pub fn some_trace_is_not_constant<F: FieldStructure>()
    ensures { (E : Enumerated F) → SomeTraceIsNotConstant F.field E }
{}
