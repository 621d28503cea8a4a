// The irreducible factors of polynomials over a field of q elements: a polynomial is irreducible exactly where it is
// coprime to x^(q^i) − x for each i up to half its degree; factorisations are unique; a polynomial that divides z^q − z
// is the product of its greatest common divisors with z − c, which Berlekamp's method takes; and where all irreducible
// factors have one degree, such a z is the trace of a power of x.
//
// It stands on theory_rings (polynomials, fields of q elements), theory_radical (remainders over a finite field are
// numbered) and theory_blocks (decisions).
//
// Read specs/FactorLaws first, then specs/Factorisation, specs/Splitting and specs/Parts, and then factor_laws. The
// functions have no code: each states a theorem as its contract.
#![tactic(auto)]

pub mod factor_laws;
