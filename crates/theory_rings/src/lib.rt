// The mathematics of rings and fields, on which the other crates stand: the records of their laws, sums, a solver of
// equations in rings, powers, primes and the Frobenius map, the integers modulo n, numbers by their digits,
// polynomials, remainders, greatest common divisors and fractions. It stands on nothing but std, and has no code: each
// public function does nothing, and its contract is a law.
//
// Read `specs/Ring.antt` first, which says what a ring and a field are, then `specs/Polynomial.antt`, and then the laws
// in `number_laws`, `power_laws` and `polynomial_laws`. The lemmas stand in `proofs/`, by notion.
#![tactic(auto)]

pub mod number_laws;
pub mod polynomial_laws;
pub mod power_laws;
pub mod structures;
