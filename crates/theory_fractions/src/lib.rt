// Fractions of polynomials over a program's field as values: pairs of lists of coefficients in lowest terms, their
// operations as total functions, and that these are a field, that of the rational functions. It stands on theory_rings,
// and has no code: each public function does nothing, and its contract is a law.
//
// Read specs/PolynomialLists and specs/Fraction first, which say what sums, products and fractions are, coefficient by
// coefficient; then specs/FractionOps, the operations, and the laws in fraction_laws.
#![tactic(auto)]

pub mod fraction_laws;
