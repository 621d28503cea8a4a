// Powers of polynomials modulo a polynomial, and their traces.
ghost use Rattle.std.specs.Prelude.{◌≡◌, ◌≢◌, ℕ, [], ◌∷◌, ◌<◌, ◌≤◌, length, IfOk, slice_index};
ghost use Rattle.theory_rings.specs.Ops.{IsElem};
ghost use Rattle.theory_fractions.specs.PolynomialLists.{IsPolynomialList};
ghost use Rattle.spl_field.specs.SmallField.{small_ops, size_of};
ghost use Rattle.spl_factor.specs.Steps.{IsPowerModulo, IsTraceModulo, poly, ring, x};

use spl_field::field::NoMemory;
use spl_field::small::SmallField;
use spl_poly::poly::Poly;
use std::alloc::Global;

/// The polynomial x.
pub(crate) fn variable(alloc: Global) -> Result<Poly, NoMemory>
    ensures { IfOk result (λ p. p ≡ 0 ∷ 1 ∷ []) }
{
    Ok(Poly::from_slice(alloc, &[0, 1])?)
}

/// a - x.
pub(crate) fn less_variable(alloc: Global, f: &SmallField, a: &Poly) -> Result<Poly, NoMemory>
    requires { IsPolynomialList (small_ops f.now) a.now }
    ensures polynomial { IfOk result (IsPolynomialList (small_ops f.now)) }
    ensures value { IfOk result (λ p. poly f.now p
        ≡ (ring f.now).◌⊕◌ (poly f.now a.now) ((ring f.now).neg (x f.now))) }
{
    let minus_x = Poly::from_slice(alloc, &[0, f.negative(1)])?;
    Ok(a.add(alloc, f, &minus_x)?)
}

/// a - c.
pub(crate) fn less_constant(
    alloc: Global,
    f: &SmallField,
    a: &Poly,
    c: u8,
) -> Result<Poly, NoMemory>
    requires polynomial { IsPolynomialList (small_ops f.now) a.now }
    requires elem { IsElem (small_ops f.now) c }
    ensures polynomial { IfOk result (IsPolynomialList (small_ops f.now)) }
    ensures value { IfOk result (λ p. poly f.now p
        ≡ (ring f.now).◌⊕◌ (poly f.now a.now) ((ring f.now).neg (poly f.now (c ∷ [])))) }
{
    let minus_c = Poly::from_slice(alloc, &[f.negative(c)])?;
    Ok(a.add(alloc, f, &minus_c)?)
}

/// The q-th power modulo m, for a field of q elements.
pub(crate) fn raised(alloc: Global, f: &SmallField, a: &Poly, m: &Poly) -> Result<Poly, NoMemory>
    requires polynomial { IsPolynomialList (small_ops f.now) a.now }
    requires modulus { IsPolynomialList (small_ops f.now) m.now }
    requires positive { 1 < length m.now }
    ensures polynomial { IfOk result (IsPolynomialList (small_ops f.now)) }
    ensures value { IfOk result (IsPowerModulo f.now m.now a.now (size_of f.now)) }
    ensures smaller { IfOk result (λ p. length p < length m.now) }
{
    Ok(a.pow_mod(alloc, f, u64::from(f.size()), m)?)
}

/// The trace z + z^q + .. + z^(q^(d - 1)) modulo m.
pub(crate) fn trace(
    alloc: Global,
    f: &SmallField,
    degree: usize,
    m: &Poly,
    z: &Poly,
) -> Result<Poly, NoMemory>
    requires degree { 1 ≤ degree }
    requires modulus { IsPolynomialList (small_ops f.now) m.now }
    requires positive { 1 < length m.now }
    requires polynomial { IsPolynomialList (small_ops f.now) z.now }
    requires smaller { length z.now < length m.now }
    ensures polynomial { IfOk result (IsPolynomialList (small_ops f.now)) }
    ensures value { IfOk result (IsTraceModulo f.now m.now degree z.now) }
    ensures smaller { IfOk result (λ p. length p < length m.now) }
{
    let mut power = z.copy(alloc, f)?;
    let mut total = z.copy(alloc, f)?;
    for _ in 1..degree {
        power = raised(alloc, f, &power, m)?;
        total = total.add(alloc, f, &power)?;
    }
    Ok(total)
}
