// Sums, negatives, products and powers of remainders by an irreducible polynomial.
ghost use Rattle.std.specs.Prelude.{◌≡◌, ◌≢◌, ◌↔◌, ℕ, [], ◌∷◌, IfOk, IsTrue};
ghost use Rattle.theory_rings.specs.Ops.{IsElem};
ghost use Rattle.theory_rings.specs.Sum.{at};
ghost use Rattle.theory_rings.specs.Power.{power_of};
ghost use Rattle.spl_field.specs.SmallField.{small_ops, characteristic};
ghost use Rattle.spl_poly.specs.Operations.{IsOver, IsSum, IsProduct, IsProductRemainder};
ghost use Rattle.theory_fractions.specs.PolynomialLists.{IsPolynomialList};
ghost use Rattle.theory_remainders.specs.Irreducible.{IsIrreducible};
ghost use Rattle.theory_remainders.specs.RemainderLaws.{IsRemainder, IsRemainderOf};
ghost use Rattle.spl_residue.specs.ResidueOver.{residues_over};

use spl_field::field::NoMemory;
use spl_field::small::SmallField;
use spl_poly::order::{order_law, order_of};
use spl_poly::poly::Poly;
use std::alloc::Global;
use std::cmp::Ordering;

/// The remainder of a polynomial, which is the polynomial itself where it is smaller.
pub(crate) fn rest_of(
    alloc: Global,
    f: &SmallField,
    modulus: &Poly,
    a: Poly,
) -> Result<Poly, NoMemory>
    requires irreducible { IsIrreducible (small_ops f.now) modulus.now }
    requires polynomial { IsPolynomialList (small_ops f.now) a }
    ensures value { IfOk result (IsRemainderOf (small_ops f.now) (at (small_ops f.now) a) modulus.now) }
    ensures remainder { IfOk result (IsRemainder (small_ops f.now) modulus.now) }
{
    if a.as_slice().len() < modulus.as_slice().len() {
        return Ok(a);
    }
    Ok(a.divide(alloc, f, modulus)?.remainder)
}

/// The sum.
pub(crate) fn sum_of(
    alloc: Global,
    f: &SmallField,
    modulus: &Poly,
    a: &Poly,
    b: &Poly,
) -> Result<Poly, NoMemory>
    requires irreducible { IsIrreducible (small_ops f.now) modulus.now }
    requires left { IsRemainder (small_ops f.now) modulus.now a.now }
    requires right { IsRemainder (small_ops f.now) modulus.now b.now }
    ensures value { IfOk result (IsSum (small_ops f.now) a.now b.now) }
    ensures remainder { IfOk result (IsRemainder (small_ops f.now) modulus.now) }
{
    let _ = modulus.degree();
    Ok(a.add(alloc, f, b)?)
}

/// The product of a constant other than 0 and a polynomial.
pub(crate) fn scaled(alloc: Global, f: &SmallField, c: u8, a: &Poly) -> Result<Poly, NoMemory>
    requires elem { IsElem (small_ops f.now) c }
    requires nonzero { c ≢ 0 }
    requires over { IsOver (small_ops f.now) a.now }
    ensures value { IfOk result (IsProduct (small_ops f.now) (c ∷ []) a.now) }
    ensures polynomial { IfOk result (IsPolynomialList (small_ops f.now)) }
{
    let constant = Poly::from_slice(alloc, &[c])?;
    Ok(constant.mul(alloc, f, a)?)
}

/// -1.
fn minus_one(f: &SmallField) -> u8
    ensures value { result ≡ (small_ops f.now).neg (small_ops f.now).one }
    ensures elem { IsElem (small_ops f.now) result }
    ensures nonzero { result ≢ 0 }
{
    f.negative(1)
}

/// The negative.
pub(crate) fn negated(alloc: Global, f: &SmallField, a: &Poly) -> Result<Poly, NoMemory>
    requires { IsOver (small_ops f.now) a.now }
    ensures value { IfOk result (λ r. (k : ℕ)
        → at (small_ops f.now) r k ≡ (small_ops f.now).neg (at (small_ops f.now) a.now k)) }
    ensures polynomial { IfOk result (IsPolynomialList (small_ops f.now)) }
{
    Ok(scaled(alloc, f, minus_one(f), a)?)
}

/// The product.
pub(crate) fn product_of(
    alloc: Global,
    f: &SmallField,
    modulus: &Poly,
    a: &Poly,
    b: &Poly,
) -> Result<Poly, NoMemory>
    requires irreducible { IsIrreducible (small_ops f.now) modulus.now }
    requires left { IsRemainder (small_ops f.now) modulus.now a.now }
    requires right { IsRemainder (small_ops f.now) modulus.now b.now }
    ensures value { IfOk result (IsProductRemainder (small_ops f.now) a.now b.now modulus.now) }
    ensures remainder { IfOk result (IsRemainder (small_ops f.now) modulus.now) }
{
    let product = a.mul(alloc, f, b)?;
    Ok(rest_of(alloc, f, modulus, product)?)
}

/// The element whose p-th power is a, for the characteristic p: in a field of q^d elements it is the power of a with
/// exponent q^d / p, which is taken as d - 1 q-th powers and one with exponent q / p.
pub(crate) fn root_of(
    alloc: Global,
    f: &SmallField,
    modulus: &Poly,
    a: &Poly,
) -> Result<Poly, NoMemory>
    requires irreducible { IsIrreducible (small_ops f.now) modulus.now }
    requires element { IsRemainder (small_ops f.now) modulus.now a.now }
    ensures value { (i : IsIrreducible (small_ops f.now) modulus.now) → IfOk result (λ r.
        power_of (residues_over f.now modulus.now i) r (characteristic f.now) ≡ a.now) }
    ensures remainder { IfOk result (IsRemainder (small_ops f.now) modulus.now) }
{
    let size = u64::from(f.size());
    let mut power = a.copy(alloc, f)?;
    for _ in 2..modulus.as_slice().len() {
        power = power.pow_mod(alloc, f, size, modulus)?;
    }
    Ok(power.pow_mod(alloc, f, size / u64::from(f.p()), modulus)?)
}

/// Whether the polynomials are the same.
pub(crate) fn are_same(a: &Poly, b: &Poly) -> bool
    ensures { IsTrue result ↔ (a.now ≡ b.now) }
{
    order_law();
    match order_of(a, b) {
        Ordering::Equal => true,
        Ordering::Less => false,
        Ordering::Greater => false,
    }
}
