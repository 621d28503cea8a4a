// Lattices of tuples of fractions, and their bases as rows of polynomials over one denominator: what the rows tell of
// the tuples, and orders and dual bases by structure constants.
//
// It stands on theory_rows (rows of polynomials, and their kernels over the fractions), theory_tables (tuples and
// structure constants), theory_fractions and theory_pairs (a first order), and has no code: each public function does
// nothing, and its contract is a theorem.
//
// Read specs/TupleLattices and specs/Bases first, then basis_laws; order_laws stand by themselves.
#![tactic(auto)]

pub mod basis_laws;
pub mod order_laws;
