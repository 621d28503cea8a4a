// The calls that every field has.
ghost use Rattle.std.specs.Prelude.{All};
ghost use Rattle.theory_rings.specs.Ops.{IsElem};

use crate::fault::Fault;
use crate::scalars::Scalars;
use crate::{lists, show};
use std::alloc::Global;

/// `inv A`: the inverse; `none` of zero.
fn inverse<F: Scalars>(alloc: Global, f: &F, a: &F::Elem, out: &mut Vec<u8>) -> Result<(), Fault>
    requires { IsElem (F.ops f.now) a.now }
{
    match f.inv(alloc, a)? {
        Some(inverse) => show::element(alloc, out, f, &inverse),
        None => show::word(out, "none"),
    }
}

/// The answer of a call of a field on these elements.
fn answer<F: Scalars>(
    alloc: Global,
    f: &F,
    call: &str,
    given: &[F::Elem],
    out: &mut Vec<u8>,
) -> Result<(), Fault>
    requires { All (IsElem (F.ops f.now)) given.now }
{
    match (call, given) {
        ("zero", []) => show::element_of(alloc, out, f, f.zero(alloc)),
        ("one", []) => show::element_of(alloc, out, f, f.one(alloc)),
        ("neg", [a]) => show::element_of(alloc, out, f, f.neg(alloc, a)),
        ("copy", [a]) => show::element_of(alloc, out, f, f.copy(alloc, a)),
        ("inv", [a]) => inverse(alloc, f, a, out),
        ("add", [a, b]) => show::element_of(alloc, out, f, f.add(alloc, a, b)),
        ("mul", [a, b]) => show::element_of(alloc, out, f, f.mul(alloc, a, b)),
        ("eq", [a, b]) => show::truth(out, f.eq(a, b)),
        _ => Err(Fault::BadLine),
    }
}

/// The answer of a call of a field.
pub fn call<F: Scalars>(
    alloc: Global,
    f: &F,
    call: &str,
    words: &[&str],
    out: &mut Vec<u8>,
) -> Result<(), Fault> {
    let given = lists::elements(alloc, f, words)?;
    answer(alloc, f, call, given.as_slice(), out)
}
