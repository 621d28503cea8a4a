// The decision.
ghost use Rattle.std.specs.Prelude.{◌≡◌, IfOk, MatchOption};
ghost use Rattle.theory_tables.specs.Structure.{IsAssociative};
ghost use Rattle.theory_tables.specs.Algebras.{IsIdentity, HasSmallCentre};
ghost use Rattle.spl_table.specs.Table.{degree_of, algebra_of, field_of, ops_of};
ghost use Rattle.spl_engine.specs.Kind.{IsEvidence, HasNoFault, HasUnimodularOrders};

use crate::everywhere::{Everywhere, settle_with};
use spl_algebra::identity::One;
use spl_centre::centre::{centre_fault_from, identity_or_refutation, trace_ideal};
use spl_evidence::evidence::Evidence;
use spl_field::field::NoMemory;
use spl_fraction::tuples::Tuple;
use spl_table::table::Table;
use spl_table::triple::first_failed_triple;
use std::alloc::Global;

/// Of an algebra without a fault, with this identity: the first place at which it is ramified.
fn of_no_fault(alloc: Global, table: &Table, one: &Tuple) -> Result<Option<Evidence>, NoMemory>
    requires no_fault { HasNoFault (ops_of table.now) (algebra_of table.now) }
    requires one { IsIdentity (ops_of table.now) (algebra_of table.now) one.now }
    ensures { IfOk result (λ r. MatchOption r (HasUnimodularOrders (field_of table.now) (algebra_of table.now))
        (IsEvidence (field_of table.now) (algebra_of table.now) (degree_of table.now))) }
{
    match settle_with(alloc, table, one)? {
        Everywhere::Ramified {
            place,
            order,
            radical,
        } => Ok(Some(Evidence::Ramified {
            place,
            order,
            radical,
        })),
        Everywhere::Unimodular { .. } => Ok(None),
    }
}

/// Of an associative algebra with this identity and a small centre: the trace form and the places are left.
fn of_small_centre(alloc: Global, table: &Table, one: &Tuple) -> Result<Option<Evidence>, NoMemory>
    requires associative { IsAssociative (ops_of table.now) (algebra_of table.now) }
    requires one { IsIdentity (ops_of table.now) (algebra_of table.now) one.now }
    requires centre { HasSmallCentre (ops_of table.now) (algebra_of table.now) }
    ensures { IfOk result (λ r. MatchOption r (HasUnimodularOrders (field_of table.now) (algebra_of table.now))
        (IsEvidence (field_of table.now) (algebra_of table.now) (degree_of table.now))) }
{
    match trace_ideal(alloc, table.fractions(), table.algebra())? {
        Some(tuples) => Ok(Some(Evidence::Ideal { tuples })),
        None => of_no_fault(alloc, table, one),
    }
}

/// Of an associative algebra with this identity.
fn of_unital(alloc: Global, table: &Table, one: &Tuple) -> Result<Option<Evidence>, NoMemory>
    requires associative { IsAssociative (ops_of table.now) (algebra_of table.now) }
    requires one { IsIdentity (ops_of table.now) (algebra_of table.now) one.now }
    ensures { IfOk result (λ r. MatchOption r (HasUnimodularOrders (field_of table.now) (algebra_of table.now))
        (IsEvidence (field_of table.now) (algebra_of table.now) (degree_of table.now))) }
{
    match centre_fault_from(alloc, table.fractions(), table.algebra(), one)? {
        Some(tuple) => Ok(Some(Evidence::Central { tuple })),
        None => of_small_centre(alloc, table, one),
    }
}

/// Of an associative algebra.
fn of_associative(alloc: Global, table: &Table) -> Result<Option<Evidence>, NoMemory>
    requires { IsAssociative (ops_of table.now) (algebra_of table.now) }
    ensures { IfOk result (λ r. MatchOption r (HasUnimodularOrders (field_of table.now) (algebra_of table.now))
        (IsEvidence (field_of table.now) (algebra_of table.now) (degree_of table.now))) }
{
    match identity_or_refutation(alloc, table.fractions(), table.algebra())? {
        One::Refuted { left, right } => Ok(Some(Evidence::NoIdentity { left, right })),
        One::Here { tuple } => of_unital(alloc, table, &tuple),
    }
}

/// Evidence that no matrices split the table's algebra, of the first kind that fits: the first failed triple, no
/// identity, a large centre, a degenerate trace form, so that it isn't central simple; or the first place at which it is
/// ramified, where infinity is the last. None only where none of the first four fits, so that the algebra is central
/// simple, and orders over the polynomials and at infinity are their own duals at all places. The one fault is want of
/// memory.
pub fn decide(alloc: Global, table: &Table) -> Result<Option<Evidence>, NoMemory>
    ensures { IfOk result (λ r. MatchOption r (HasUnimodularOrders (field_of table.now) (algebra_of table.now))
        (IsEvidence (field_of table.now) (algebra_of table.now) (degree_of table.now))) }
{
    match first_failed_triple(alloc, table)? {
        Some(t) => Ok(Some(Evidence::Triple {
            i: t.i,
            j: t.j,
            k: t.k,
        })),
        None => of_associative(alloc, table),
    }
}
