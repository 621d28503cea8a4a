// The operations of a small field, with contracts that name those of its trait.
ghost use Rattle.std.specs.Prelude.{◌≡◌, ◌≢◌};
ghost use Rattle.theory_rings.specs.Ops.{Ops, IsElem, FieldLaws};
ghost use Rattle.spl_field.specs.SmallField.{small_ops};

use spl_field::field::Field;
use spl_field::small::SmallField;

/// It does nothing: the caller learns that the laws of a field hold.
pub(crate) fn know_laws<F: Field>(f: &F)
    ensures { FieldLaws (F.ops f.now) }
{}

/// The sum.
#[inline]
pub(crate) fn sum(f: &SmallField, a: u8, b: u8) -> u8
    requires left { IsElem (small_ops f.now) a }
    requires right { IsElem (small_ops f.now) b }
    ensures elem { IsElem (small_ops f.now) result }
    ensures value { result ≡ (small_ops f.now).add a b }
{
    f.sum(a, b)
}

/// The product.
#[inline]
pub(crate) fn product(f: &SmallField, a: u8, b: u8) -> u8
    requires left { IsElem (small_ops f.now) a }
    requires right { IsElem (small_ops f.now) b }
    ensures elem { IsElem (small_ops f.now) result }
    ensures value { result ≡ (small_ops f.now).mul a b }
{
    f.product(a, b)
}

/// The negative.
#[inline]
pub(crate) fn negative(f: &SmallField, a: u8) -> u8
    requires { IsElem (small_ops f.now) a }
    ensures elem { IsElem (small_ops f.now) result }
    ensures value { result ≡ (small_ops f.now).neg a }
{
    f.negative(a)
}

/// The inverse.
#[inline]
pub(crate) fn inverse(f: &SmallField, a: u8) -> u8
    requires elem { IsElem (small_ops f.now) a }
    requires nonzero { a ≢ 0 }
    ensures elem { IsElem (small_ops f.now) result }
    ensures value { result ≡ (small_ops f.now).inv a }
{
    f.inverse(a).unwrap()
}
