// Proper factors of a polynomial whose irreducible factors have one degree.
ghost use Rattle.std.specs.Prelude.{◌≡◌, ◌≢◌, ℕ, [], ◌∷◌, ◌<◌, ◌≤◌, ◌*◌, ◌↔◌, length, IfOk, IsTrue};
ghost use Rattle.theory_rings.specs.Polynomial.{degree as degree_in};
ghost use Rattle.theory_fractions.specs.PolynomialLists.{IsPolynomialList};
ghost use Rattle.spl_field.specs.SmallField.{small_ops};
ghost use Rattle.spl_factor.specs.Steps.{IsMonicList, IsPartList, IsFixedModulo, DividesList};

use crate::gcd::{degree_of, gcd};
use crate::powers::{less_constant, trace, variable};
use spl_field::field::NoMemory;
use spl_field::small::SmallField;
use spl_poly::poly::Poly;
use std::alloc::Global;

/// A polynomial that solves z^q = z modulo g and is no constant modulo it: the first of the traces of x, x^2, .. that
/// is none.
fn splitting_element(
    alloc: Global,
    f: &SmallField,
    degree: usize,
    g: &Poly,
) -> Result<Poly, NoMemory>
    requires degree { 1 ≤ degree }
    requires part { IsPartList f.now degree g.now }
    requires long { 2 * degree ≤ degree_in g.now }
    ensures polynomial { IfOk result (IsPolynomialList (small_ops f.now)) }
    ensures fixed { IfOk result (IsFixedModulo f.now g.now) }
    ensures not_constant { IfOk result (λ t. 1 < length t) }
    ensures smaller { IfOk result (λ t. length t < length g.now) }
{
    let x = variable(alloc)?;
    let mut z = variable(alloc)?;
    for _ in 1..degree_of(g) {
        let t = trace(alloc, f, degree, g, &z)?;
        if t.as_slice().len() > 1 {
            return Ok(t);
        }
        z = z.mul(alloc, f, &x)?;
    }
    unreachable!()
}

/// Whether h is neither a constant nor as long as g.
fn is_proper(h: &Poly, g: &Poly) -> bool
    ensures { IsTrue result ↔ ((1 < length h.now) × (length h.now < length g.now)) }
{
    let n = h.as_slice().len();
    n > 1 && n < g.as_slice().len()
}

/// The first proper factor among the greatest common divisors of g and t - c, for the elements c of the field.
fn factor_by(alloc: Global, f: &SmallField, g: &Poly, t: &Poly) -> Result<Poly, NoMemory>
    requires list { IsMonicList f.now g.now }
    requires polynomial { IsPolynomialList (small_ops f.now) t.now }
    requires fixed { IsFixedModulo f.now g.now t.now }
    requires not_constant { 1 < length t.now }
    requires smaller { length t.now < length g.now }
    ensures list { IfOk result (IsMonicList f.now) }
    ensures divides { IfOk result (λ h. DividesList f.now h g.now) }
    ensures not_constant { IfOk result (λ h. 1 < length h) }
    ensures smaller { IfOk result (λ h. length h < length g.now) }
{
    for c in 0..f.size() {
        let difference = less_constant(alloc, f, t, c as u8)?;
        let h = gcd(alloc, f, g, &difference)?;
        if is_proper(&h, g) {
            return Ok(h);
        }
    }
    unreachable!()
}

/// A proper factor.
pub(crate) fn proper_factor(
    alloc: Global,
    f: &SmallField,
    degree: usize,
    g: &Poly,
) -> Result<Poly, NoMemory>
    requires degree { 1 ≤ degree }
    requires part { IsPartList f.now degree g.now }
    requires long { 2 * degree ≤ degree_in g.now }
    ensures list { IfOk result (IsMonicList f.now) }
    ensures divides { IfOk result (λ h. DividesList f.now h g.now) }
    ensures not_constant { IfOk result (λ h. 1 < length h) }
    ensures smaller { IfOk result (λ h. length h < length g.now) }
{
    let t = splitting_element(alloc, f, degree, g)?;
    Ok(factor_by(alloc, f, g, &t)?)
}
