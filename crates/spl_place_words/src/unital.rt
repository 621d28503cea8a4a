// Associative algebras with identity, as arguments.
ghost use Rattle.std.specs.Prelude.{◌↔◌, IfOk, IsTrue};
ghost use Rattle.theory_tables.specs.Structure.{IsOver};
ghost use Rattle.theory_tables.specs.Algebras.{HasIdentity};
ghost use Rattle.spl_blocks.specs.Blocks.{IsUnital};

use spl_algebra::algebra::Algebra;
use spl_algebra::identity::One;
use spl_field::field::{Field, NoMemory};
use spl_words::fault::Fault;
use spl_words::lists;
use spl_words::scalars::Scalars;
use std::alloc::Global;

/// Whether an algebra has an identity.
fn has_identity<F: Field>(alloc: Global, f: &F, a: &Algebra<F>) -> Result<bool, NoMemory>
    requires { IsOver (F.ops f.now) a.now }
    ensures { IfOk result (λ b. IsTrue b ↔ HasIdentity (F.ops f.now) a.now) }
{
    match a.identity(alloc, f)? {
        One::Here { .. } => Ok(true),
        One::Refuted { .. } => Ok(false),
    }
}

/// Whether an algebra is associative with identity.
fn is_unital<F: Field>(alloc: Global, f: &F, a: &Algebra<F>) -> Result<bool, NoMemory>
    requires { IsOver (F.ops f.now) a.now }
    ensures { IfOk result (λ b. IsTrue b ↔ IsUnital (F.ops f.now) a.now) }
{
    if a.first_failed_triple(alloc, f)?.is_some() {
        return Ok(false);
    }
    has_identity(alloc, f, a)
}

/// An associative algebra with identity, by the products of its basis elements.
pub(crate) fn algebra<F: Scalars>(alloc: Global, f: &F, word: &str) -> Result<Algebra<F>, Fault>
    ensures { IfOk result (IsUnital (F.ops f.now)) }
{
    let algebra = lists::algebra(alloc, f, word)?;
    if !is_unital(alloc, f, &algebra)? {
        return Err(Fault::BadLine);
    }
    Ok(algebra)
}
