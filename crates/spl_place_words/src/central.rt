// Algebras over the rational functions, as arguments: associative ones with identity, those whose trace form is
// nondegenerate, and central ones.
ghost use Rattle.std.specs.Prelude.{◌≡◌, ◌≢◌, ◌%◌, ◌↔◌, IfOk, IsTrue};
ghost use Rattle.spl_field.specs.SmallField.{characteristic};
ghost use Rattle.spl_fraction.specs.Fractions.{field_of};
ghost use Rattle.spl_fraction.specs.FractionsOver.{fractions_over};
ghost use Rattle.theory_tables.specs.Structure.{IsOver, IsAssociative};
ghost use Rattle.theory_tables.specs.Algebras.{IsIdentity, HasIdentity, HasSmallCentre};
ghost use Rattle.theory_tables.specs.Traces.{IsNondegenerate};

use spl_algebra::algebra::Algebra;
use spl_algebra::identity::One;
use spl_centre::centre::{centre_fault_from, identity_or_refutation, trace_ideal};
use spl_fraction::field::Fractions;
use spl_fraction::tuples::Tuple;
use spl_numerators::triple::first_failed_triple;
use spl_words::fault::Fault;
use spl_words::lists;
use std::alloc::Global;

/// An associative algebra, by the products of its basis elements.
fn associative(alloc: Global, k: &Fractions, word: &str) -> Result<Algebra<Fractions>, Fault>
    ensures over { IfOk result (IsOver (fractions_over (field_of k.now))) }
    ensures associative { IfOk result (IsAssociative (fractions_over (field_of k.now))) }
{
    let a = lists::algebra(alloc, k, word)?;
    if first_failed_triple(alloc, k, &a)?.is_some() {
        return Err(Fault::BadLine);
    }
    Ok(a)
}

/// An associative algebra and its identity.
pub(crate) struct Unital {
    pub(crate) algebra: Algebra<Fractions>,
    pub(crate) one: Tuple,
}

impl Drop for Unital {
    fn drop(self) {
        let Unital { algebra, one } = self;
    }
}

/// An associative algebra with identity, by the products of its basis elements.
pub(crate) fn with_identity(alloc: Global, k: &Fractions, word: &str) -> Result<Unital, Fault>
    ensures over { IfOk result (λ r. IsOver (fractions_over (field_of k.now)) r.algebra) }
    ensures associative { IfOk result (λ r. IsAssociative (fractions_over (field_of k.now)) r.algebra) }
    ensures one { IfOk result (λ r. IsIdentity (fractions_over (field_of k.now)) r.algebra r.one) }
{
    let algebra = associative(alloc, k, word)?;
    match identity_or_refutation(alloc, k, &algebra)? {
        One::Here { tuple } => Ok(Unital {
            algebra,
            one: tuple,
        }),
        One::Refuted { left: _, right: _ } => Err(Fault::BadLine),
    }
}

/// An associative algebra with identity, whose dimension is no multiple of the characteristic, with a nondegenerate
/// trace form.
pub(crate) fn nondegenerate(alloc: Global, k: &Fractions, word: &str) -> Result<Unital, Fault>
    ensures over { IfOk result (λ r. IsOver (fractions_over (field_of k.now)) r.algebra) }
    ensures associative { IfOk result (λ r. IsAssociative (fractions_over (field_of k.now)) r.algebra) }
    ensures one { IfOk result (λ r. IsIdentity (fractions_over (field_of k.now)) r.algebra r.one) }
    ensures form { IfOk result (λ r. IsNondegenerate (fractions_over (field_of k.now)) r.algebra) }
    ensures apart { IfOk result (λ r. r.algebra.dim % characteristic (field_of k.now) ≢ 0) }
{
    let found = with_identity(alloc, k, word)?;
    if found.algebra.dim() % usize::from(k.field().p()) == 0 {
        return Err(Fault::BadLine);
    }
    if trace_ideal(alloc, k, &found.algebra)?.is_some() {
        return Err(Fault::BadLine);
    }
    Ok(found)
}

/// An associative algebra with identity, whose dimension is no multiple of the characteristic, with a nondegenerate
/// trace form, and whose centre is the multiples of the identity.
pub(crate) fn with_small_centre(alloc: Global, k: &Fractions, word: &str) -> Result<Unital, Fault>
    ensures over { IfOk result (λ r. IsOver (fractions_over (field_of k.now)) r.algebra) }
    ensures associative { IfOk result (λ r. IsAssociative (fractions_over (field_of k.now)) r.algebra) }
    ensures one { IfOk result (λ r. IsIdentity (fractions_over (field_of k.now)) r.algebra r.one) }
    ensures form { IfOk result (λ r. IsNondegenerate (fractions_over (field_of k.now)) r.algebra) }
    ensures apart { IfOk result (λ r. r.algebra.dim % characteristic (field_of k.now) ≢ 0) }
    ensures centre { IfOk result (λ r. HasSmallCentre (fractions_over (field_of k.now)) r.algebra) }
{
    let found = nondegenerate(alloc, k, word)?;
    if centre_fault_from(alloc, k, &found.algebra, &found.one)?.is_some() {
        return Err(Fault::BadLine);
    }
    Ok(found)
}
