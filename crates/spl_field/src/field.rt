// What a field is, to a program.
ghost use Rattle.std.specs.Prelude.{◌≡◌, ◌≢◌, ◌↔◌, IfOk, IfSome, IsTrue, MatchOption, Option};
ghost use Rattle.theory_rings.specs.Ops.{Ops, IsElem, FieldLaws};

use std::alloc::{AllocError, Global};
use thiserror::Error;

/// There was not enough memory.
#[derive(Debug, Drop, Error)]
#[error("out of memory")]
pub struct NoMemory(#[from(alloc)] AllocError);

/// A field. Its elements are those values of `Elem` that pass the test of `ops`, which has the operations as total
/// functions too; the laws speak of elements alone. Each call that answers an element says that it is one, and which.
/// An element may own memory, so each call but `eq` can want some.
pub trait Field {
    type Elem: Drop;

    ghost ops: { Self → Ops Self.Elem };

    /// The zero.
    fn zero(&self, alloc: Global) -> Result<Self::Elem, NoMemory>
        ensures elem { IfOk result (IsElem (ops self.now)) }
        ensures value { IfOk result (λ r. r ≡ (ops self.now).zero) };

    /// The one.
    fn one(&self, alloc: Global) -> Result<Self::Elem, NoMemory>
        ensures elem { IfOk result (IsElem (ops self.now)) }
        ensures value { IfOk result (λ r. r ≡ (ops self.now).one) };

    /// The sum.
    fn add(&self, alloc: Global, a: &Self::Elem, b: &Self::Elem) -> Result<Self::Elem, NoMemory>
        requires left { IsElem (ops self.now) a.now }
        requires right { IsElem (ops self.now) b.now }
        ensures elem { IfOk result (IsElem (ops self.now)) }
        ensures value { IfOk result (λ r. r ≡ (ops self.now).add a.now b.now) };

    /// The negative.
    fn neg(&self, alloc: Global, a: &Self::Elem) -> Result<Self::Elem, NoMemory>
        requires { IsElem (ops self.now) a.now }
        ensures elem { IfOk result (IsElem (ops self.now)) }
        ensures value { IfOk result (λ r. r ≡ (ops self.now).neg a.now) };

    /// The product.
    fn mul(&self, alloc: Global, a: &Self::Elem, b: &Self::Elem) -> Result<Self::Elem, NoMemory>
        requires left { IsElem (ops self.now) a.now }
        requires right { IsElem (ops self.now) b.now }
        ensures elem { IfOk result (IsElem (ops self.now)) }
        ensures value { IfOk result (λ r. r ≡ (ops self.now).mul a.now b.now) };

    /// The inverse; None exactly where a is zero.
    fn inv(&self, alloc: Global, a: &Self::Elem) -> Result<Option<Self::Elem>, NoMemory>
        requires { IsElem (ops self.now) a.now }
        ensures elem { IfOk result (λ o. IfSome o (IsElem (ops self.now))) }
        ensures value { IfOk result (λ o. MatchOption o (a.now ≡ (ops self.now).zero)
            (λ r. (a.now ≢ (ops self.now).zero) × (r ≡ (ops self.now).inv a.now))) };

    /// An equal element.
    fn copy(&self, alloc: Global, a: &Self::Elem) -> Result<Self::Elem, NoMemory>
        requires { IsElem (ops self.now) a.now }
        ensures elem { IfOk result (IsElem (ops self.now)) }
        ensures value { IfOk result (λ r. r ≡ a.now) };

    /// Whether the values are the same.
    fn eq(&self, a: &Self::Elem, b: &Self::Elem) -> bool
        requires left { IsElem (ops self.now) a.now }
        requires right { IsElem (ops self.now) b.now }
        ensures { IsTrue result ↔ (a.now ≡ b.now) };

    ghost laws: { (f : Self) → FieldLaws (ops f) };

    // (all fields of one type have the same zero, so that what holds elements can say which of them are 0)
    ghost same_zero: { (f g : Self) → (ops f).zero ≡ (ops g).zero };
}
