// The test of irreducibility.
ghost use Rattle.std.specs.Prelude.{◌≡◌, ◌↔◌, ℕ, [], ◌∷◌, IfOk, IsTrue, slice_index};
ghost use Rattle.spl_field.specs.SmallField.{small_ops};
ghost use Rattle.spl_poly.specs.Operations.{IsOver};
ghost use Rattle.theory_remainders.specs.Irreducible.{IsIrreducible};

use crate::coprime::are_coprime;
use spl_field::field::NoMemory;
use spl_field::small::SmallField;
use spl_poly::poly::Poly;
use std::alloc::Global;

/// The polynomial x.
fn variable(alloc: Global) -> Result<Poly, NoMemory>
    ensures { IfOk result (λ p. p ≡ 0 ∷ 1 ∷ []) }
{
    Ok(Poly::from_slice(alloc, &[0, 1])?)
}

/// The polynomial -x.
fn minus_variable(alloc: Global, f: &SmallField) -> Result<Poly, NoMemory>
    ensures value { IfOk result (λ p. (k : ℕ)
        → slice_index p k ≡ slice_index (0 ∷ (small_ops f.now).neg (small_ops f.now).one ∷ []) k) }
    ensures over { IfOk result (IsOver (small_ops f.now)) }
{
    Ok(Poly::from_slice(alloc, &[0, f.negative(1)])?)
}

/// Whether a has degree at least 1 and is no product of two polynomials of smaller degree. The one fault is want of
/// memory, of which it takes a small multiple of that of a: over a field of q elements, a of degree d is irreducible
/// exactly where it is coprime to x^(q^i) - x for each i from 1 to d/2, and the first i that tells ends the search.
/// (Rabin, Probabilistic algorithms in finite fields, 1980; Lidl and Niederreiter, Finite Fields, section 3.1.)
pub fn is_irreducible(alloc: Global, f: &SmallField, a: &Poly) -> Result<bool, NoMemory>
    requires { IsOver (small_ops f.now) a.now }
    ensures { IfOk result (λ t. IsTrue t ↔ IsIrreducible (small_ops f.now) a.now) }
{
    let degree = match a.degree() {
        Some(degree) => degree,
        None => return Ok(false),
    };
    if degree == 0 {
        return Ok(false);
    }
    let size = u64::from(f.size());
    let minus_x = minus_variable(alloc, f)?;
    let mut power = variable(alloc)?;
    for _ in 0..degree / 2 {
        power = power.pow_mod(alloc, f, size, a)?;
        let difference = power.add(alloc, f, &minus_x)?;
        if !are_coprime(alloc, f, a, &difference)? {
            return Ok(false);
        }
    }
    Ok(true)
}
