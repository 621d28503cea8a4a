// Identity, centre and trace form.
ghost use Rattle.std.specs.Prelude.{◌≢◌, ◌↔◌, ◌%◌, IfOk, MatchOption};
ghost use Rattle.spl_field.specs.SmallField.{characteristic};
ghost use Rattle.spl_fraction.specs.Fractions.{field_of};
ghost use Rattle.spl_fraction.specs.FractionsOver.{fractions_over};
ghost use Rattle.theory_tables.specs.Structure.{IsOver, IsAssociative};
ghost use Rattle.spl_algebra.specs.Identity.{IsOne, IsHere, IsRefuted};
ghost use Rattle.theory_tables.specs.Algebras.{IsIdentity, HasIdentity, HasSmallCentre};
ghost use Rattle.theory_tables.specs.Traces.{IsNondegenerate};
ghost use Rattle.theory_tables.specs.Claims.{CentralClaim};
ghost use Rattle.spl_centre.specs.TraceIdeal.{IsTraceIdeal};

use crate::by_residues::{Property, is_shown};
use crate::guess::guessed_identity;
use crate::identity::{fault_of, identity_of};
use crate::radical::radical_of;
use spl_algebra::algebra::Algebra;
use spl_algebra::identity::One;
use spl_field::field::NoMemory;
use spl_fraction::field::Fractions;
use spl_fraction::tuples::{Tuple, Tuples};
use std::alloc::Global;

/// An algebra over the rational functions.
pub type KAlgebra = Algebra<Fractions>;

/// The identity exactly where there is one, and else what refutes that there is one. The one fault is want of memory.
pub fn identity_or_refutation(
    alloc: Global,
    f: &Fractions,
    a: &KAlgebra,
) -> Result<One<Fractions>, NoMemory>
    requires { IsOver (fractions_over (field_of f.now)) a.now }
    ensures value { IfOk result (IsOne (fractions_over (field_of f.now)) a.now) }
    ensures here { IfOk result (λ r.
        IsHere r ↔ HasIdentity (fractions_over (field_of f.now)) a.now) }
    ensures refuted { IfOk result (λ r.
        IsRefuted r ↔ (HasIdentity (fractions_over (field_of f.now)) a.now → ⊥)) }
{
    match guessed_identity(alloc, f, a)? {
        Some(tuple) => Ok(One::Here { tuple }),
        None => a.identity(alloc, f),
    }
}

/// A central element that is no multiple of the identity; None exactly where the centre is the multiples of the
/// identity. None is mostly told by the centre of the algebra of residues at an irreducible polynomial (Reiner, Maximal
/// Orders, section 4), and what that doesn't tell by a kernel over the rational functions. The one fault is want of
/// memory.
pub fn centre_fault(alloc: Global, f: &Fractions, a: &KAlgebra) -> Result<Option<Tuple>, NoMemory>
    requires over { IsOver (fractions_over (field_of f.now)) a.now }
    requires associative { IsAssociative (fractions_over (field_of f.now)) a.now }
    requires identity { HasIdentity (fractions_over (field_of f.now)) a.now }
    ensures { IfOk result (λ r. MatchOption r
        (HasSmallCentre (fractions_over (field_of f.now)) a.now)
        (CentralClaim (fractions_over (field_of f.now)) a.now)) }
{
    if is_shown(alloc, f, a, Property::SmallCentre)? {
        return Ok(None);
    }
    let one = identity_of(alloc, f, a)?;
    fault_of(alloc, f, a, &one)
}

/// The same where the identity is at hand.
pub fn centre_fault_from(
    alloc: Global,
    f: &Fractions,
    a: &KAlgebra,
    one: &Tuple,
) -> Result<Option<Tuple>, NoMemory>
    requires over { IsOver (fractions_over (field_of f.now)) a.now }
    requires associative { IsAssociative (fractions_over (field_of f.now)) a.now }
    requires one { IsIdentity (fractions_over (field_of f.now)) a.now one.now }
    ensures { IfOk result (λ r. MatchOption r
        (HasSmallCentre (fractions_over (field_of f.now)) a.now)
        (CentralClaim (fractions_over (field_of f.now)) a.now)) }
{
    if is_shown(alloc, f, a, Property::SmallCentre)? {
        return Ok(None);
    }
    fault_of(alloc, f, a, one)
}

/// A basis of the radical of the trace form, the set of all a with tr(a·b) = 0 for each b; None exactly where it is 0.
/// The characteristic doesn't divide the dimension, so that the trace of the identity isn't 0. None is mostly told by
/// the trace form of the algebra of residues at an irreducible polynomial, as for the centre. The one fault is want of
/// memory.
pub fn trace_ideal(alloc: Global, f: &Fractions, a: &KAlgebra) -> Result<Option<Tuples>, NoMemory>
    requires over { IsOver (fractions_over (field_of f.now)) a.now }
    requires associative { IsAssociative (fractions_over (field_of f.now)) a.now }
    requires identity { HasIdentity (fractions_over (field_of f.now)) a.now }
    requires apart { a.now.dim % characteristic (field_of f.now) ≢ 0 }
    ensures { IfOk result (λ r. MatchOption r
        (IsNondegenerate (fractions_over (field_of f.now)) a.now)
        (IsTraceIdeal (fractions_over (field_of f.now)) a.now)) }
{
    if is_shown(alloc, f, a, Property::Nondegenerate)? {
        return Ok(None);
    }
    let radical = radical_of(alloc, f, a)?;
    if radical.dim() == 0 {
        return Ok(None);
    }
    Ok(Some(radical.into_rows().into_list()))
}
