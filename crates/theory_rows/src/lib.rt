// Rows of polynomials over a program's field, as lists: row lattices, reduced rows, predictable degrees, kernels, sums
// and meets of row lattices, and what an invertible transform of rows keeps.
//
// It stands on theory_rings (polynomials), theory_fractions (lists of coefficients as polynomials, and their
// fractions), theory_spaces (combinations in a module), theory_lattices (reduced rows over a degree) and theory_tables
// (matrices over a program's field, for kernels over the fractions), and has no code: each public function does
// nothing, and its contract is a theorem.
//
// Read specs/Rows and specs/LeadingPositions first, then lattice_laws.
#![tactic(auto)]

pub mod lattice_laws;
