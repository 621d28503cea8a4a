// The part of a polynomial at a finite place, which tells what fractions over the polynomial are integral there.
ghost use Rattle.std.specs.Prelude.{◌≡◌, ◌≢◌, ◌<◌, ◌↔◌, ℕ, List, [], length, get_or, IfOk, IfSome, None, IsTrue};
ghost use Rattle.spl_field.specs.SmallField.{small_ops, small_laws};
ghost use Rattle.theory_fractions.specs.PolynomialLists.{IsPolynomialList, IsProduct, Divides};
ghost use Rattle.theory_places.specs.FractionPlaces.{IsMonicIrreducible};
ghost use Rattle.spl_order.specs.Members.{IsPartAt};

use spl_field::field::NoMemory;
use spl_field::small::SmallField;
use spl_poly::poly::Poly;
use std::alloc::Global;

/// Whether a polynomial divides another.
fn divides(alloc: Global, f: &SmallField, a: &Poly, b: &Poly) -> Result<bool, NoMemory>
    requires a { IsPolynomialList (small_ops f.now) a.now }
    requires nonzero { a.now ≢ [] }
    requires b { IsPolynomialList (small_ops f.now) b.now }
    ensures { IfOk result (λ r. IsTrue r ↔ Divides (small_ops f.now) a.now b.now) }
{
    let division = b.divide(alloc, f, a)?;
    Ok(division.remainder.is_zero())
}

/// The product of a divisor of s and m, where it divides s too; None exactly where it doesn't.
fn next_part(
    alloc: Global,
    f: &SmallField,
    m: &Poly,
    s: &Poly,
    part: &Poly,
) -> Result<Option<Poly>, NoMemory>
    requires m { IsPolynomialList (small_ops f.now) m.now }
    requires m_nonzero { m.now ≢ [] }
    requires s { IsPolynomialList (small_ops f.now) s.now }
    requires part { IsPolynomialList (small_ops f.now) part.now }
    requires part_nonzero { part.now ≢ [] }
    ensures none { IfOk result (λ r. r ≡ None → (q : List ℕ) → IsPolynomialList (small_ops f.now) q
        → IsProduct (small_ops f.now) part.now m.now q → Divides (small_ops f.now) q s.now → ⊥) }
    ensures polynomial { IfOk result (λ r. IfSome r (IsPolynomialList (small_ops f.now))) }
    ensures value { IfOk result (λ r. IfSome r (IsProduct (small_ops f.now) part.now m.now)) }
    ensures divides { IfOk result (λ r. IfSome r (λ q. Divides (small_ops f.now) q s.now)) }
{
    let next = part.mul(alloc, f, m)?;
    if divides(alloc, f, &next, s)? {
        return Ok(Some(next));
    }
    Ok(None)
}

/// The greatest power of the place's polynomial m that divides s, which is not 0. It divides exactly the numerators of
/// those fractions over s that are integral at the place.
pub(crate) fn place_part(
    alloc: Global,
    f: &SmallField,
    m: &Poly,
    s: &Poly,
) -> Result<Poly, NoMemory>
    requires m { IsMonicIrreducible (small_ops f.now) m.now }
    requires s { IsPolynomialList (small_ops f.now) s.now }
    requires nonzero { s.now ≢ [] }
    ensures { IfOk result (IsPartAt (small_ops f.now) (small_laws f.now) m.now s.now) }
{
    let mut part = Poly::from_slice(alloc, &[1])?;
    'steps: while let Some(next) = next_part(alloc, f, m, s, &part)? {
        part = next;
    }
    Ok(part)
}

/// Whether a polynomial divides each of a list.
pub(crate) fn divides_all(
    alloc: Global,
    f: &SmallField,
    a: &Poly,
    items: &[Poly],
) -> Result<bool, NoMemory>
    requires a { IsPolynomialList (small_ops f.now) a.now }
    requires nonzero { a.now ≢ [] }
    requires items { (p : ℕ) → p < length items.now → IsPolynomialList (small_ops f.now) (get_or items.now p []) }
    ensures { IfOk result (λ r. IsTrue r ↔ ((p : ℕ) → p < length items.now
        → Divides (small_ops f.now) a.now (get_or items.now p []))) }
{
    for p in 0..items.len() {
        if !divides(alloc, f, a, &items[p])? {
            return Ok(false);
        }
    }
    Ok(true)
}
