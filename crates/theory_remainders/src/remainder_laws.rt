// Laws of remainders by an irreducible polynomial.
ghost use Rattle.theory_remainders.specs.RemainderStatements.{IrreducibleListsArePolynomials, RemaindersAreField};
ghost use Rattle.theory_remainders.specs.RemainderStatements.{RootsArePowers};

use theory_fractions::fraction_laws::ProgramField;

/// Irreducible lists of coefficients are those of irreducible polynomials.
pub fn irreducible_lists_are_polynomials<F: ProgramField>()
    ensures { IrreducibleListsArePolynomials F.ops F.laws }
{}

/// The remainders by an irreducible polynomial are a field, with the operations of remainders.
pub fn remainders_are_a_field<F: ProgramField>()
    ensures { RemaindersAreField F.ops F.laws }
{}

/// Over a field of q elements, modulo an irreducible polynomial of degree d, the n-th power is a p-th root, where n · p
/// is q^d.
pub fn roots_are_powers<F: ProgramField>()
    ensures { RootsArePowers F.ops F.laws }
{}
