// The steps of the decision on a table that is read from a file: the search for a failed triple, the identity, the
// centre and the trace form.
ghost use Rattle.theory_tables.specs.Structure.{IsAssociative};
ghost use Rattle.theory_tables.specs.Algebras.{IsIdentity};
ghost use Rattle.spl_table.specs.Table.{algebra_of, ops_of};

use anyhow::Result;
use spl_algebra::identity::One;
use spl_algebra::triple::Triple;
use spl_centre::centre::{centre_fault_from, identity_or_refutation, trace_ideal};
use spl_field::field::NoMemory;
use spl_fraction::field::Fractions;
use spl_fraction::tuples::{Tuple, Tuples};
use spl_table::table::Table;
use spl_table::triple::first_failed_triple;
use std::alloc::Global;

/// The last of count searches for a failed triple.
fn last_triple(alloc: Global, table: &Table, count: u64) -> Result<Option<Triple>, NoMemory> {
    for _ in 1..count {
        first_failed_triple(alloc, table)?;
    }
    first_failed_triple(alloc, table)
}

/// The last of count answers to whether there is an identity.
fn last_identity(alloc: Global, table: &Table, count: u64) -> Result<One<Fractions>, NoMemory> {
    for _ in 1..count {
        identity_or_refutation(alloc, table.fractions(), table.algebra())?;
    }
    identity_or_refutation(alloc, table.fractions(), table.algebra())
}

/// The last of count answers to whether the centre is small.
fn last_centre(
    alloc: Global,
    table: &Table,
    one: &Tuple,
    count: u64,
) -> Result<Option<Tuple>, NoMemory>
    requires associative { IsAssociative (ops_of table.now) (algebra_of table.now) }
    requires one { IsIdentity (ops_of table.now) (algebra_of table.now) one.now }
{
    for _ in 1..count {
        centre_fault_from(alloc, table.fractions(), table.algebra(), one)?;
    }
    centre_fault_from(alloc, table.fractions(), table.algebra(), one)
}

/// The radical of the trace form.
fn radical(alloc: Global, table: &Table, one: &Tuple) -> Result<Option<Tuples>, NoMemory>
    requires associative { IsAssociative (ops_of table.now) (algebra_of table.now) }
    requires one { IsIdentity (ops_of table.now) (algebra_of table.now) one.now }
{
    let _ = one;
    trace_ideal(alloc, table.fractions(), table.algebra())
}

/// The last of count radicals of the trace form.
fn last_radical(
    alloc: Global,
    table: &Table,
    one: &Tuple,
    count: u64,
) -> Result<Option<Tuples>, NoMemory>
    requires associative { IsAssociative (ops_of table.now) (algebra_of table.now) }
    requires one { IsIdentity (ops_of table.now) (algebra_of table.now) one.now }
{
    for _ in 1..count {
        radical(alloc, table, one)?;
    }
    radical(alloc, table, one)
}

/// Looks for a failed triple count times, and answers the line on it.
pub(crate) fn triples(alloc: Global, table: &Table, count: u64) -> Result<String> {
    match last_triple(alloc, table, count)? {
        Some(t) => {
            let Triple { i, j, k } = t;
            Ok(format!(in alloc; "triple {i} {j} {k}")?)
        }
        None => Ok(String::from_str(alloc, "associative")?),
    }
}

/// Looks for an identity count times, and answers the line on it.
pub(crate) fn identity(alloc: Global, table: &Table, count: u64) -> Result<String> {
    match last_identity(alloc, table, count)? {
        One::Here { tuple: _ } => Ok(String::from_str(alloc, "identity")?),
        One::Refuted { left: _, right: _ } => Ok(String::from_str(alloc, "no identity")?),
    }
}

/// The line on the centre.
fn centre_line(alloc: Global, table: &Table, one: &Tuple, count: u64) -> Result<String>
    requires associative { IsAssociative (ops_of table.now) (algebra_of table.now) }
    requires one { IsIdentity (ops_of table.now) (algebra_of table.now) one.now }
{
    match last_centre(alloc, table, one, count)? {
        Some(_) => Ok(String::from_str(alloc, "large centre")?),
        None => Ok(String::from_str(alloc, "small centre")?),
    }
}

/// The line on the trace form.
fn trace_line(alloc: Global, table: &Table, one: &Tuple, count: u64) -> Result<String>
    requires associative { IsAssociative (ops_of table.now) (algebra_of table.now) }
    requires one { IsIdentity (ops_of table.now) (algebra_of table.now) one.now }
{
    match last_radical(alloc, table, one, count)? {
        Some(tuples) => {
            let dimension = tuples.len();
            Ok(format!(in alloc; "radical of dimension {dimension}")?)
        }
        None => Ok(String::from_str(alloc, "nondegenerate")?),
    }
}

/// Looks at the centre count times where the table has an identity, and answers the line on it.
fn unital_centre(alloc: Global, table: &Table, count: u64) -> Result<String>
    requires { IsAssociative (ops_of table.now) (algebra_of table.now) }
{
    match identity_or_refutation(alloc, table.fractions(), table.algebra())? {
        One::Here { tuple } => centre_line(alloc, table, &tuple, count),
        One::Refuted { left: _, right: _ } => Ok(String::from_str(alloc, "no identity")?),
    }
}

/// Looks at the trace form count times where the table has an identity, and answers the line on it.
fn unital_traces(alloc: Global, table: &Table, count: u64) -> Result<String>
    requires { IsAssociative (ops_of table.now) (algebra_of table.now) }
{
    match identity_or_refutation(alloc, table.fractions(), table.algebra())? {
        One::Here { tuple } => trace_line(alloc, table, &tuple, count),
        One::Refuted { left: _, right: _ } => Ok(String::from_str(alloc, "no identity")?),
    }
}

/// Looks at the centre count times where the table is associative and has an identity, and answers the line on it.
pub(crate) fn centre(alloc: Global, table: &Table, count: u64) -> Result<String> {
    match first_failed_triple(alloc, table)? {
        Some(_) => Ok(String::from_str(alloc, "not associative")?),
        None => unital_centre(alloc, table, count),
    }
}

/// Looks at the trace form count times where the table is associative and has an identity, and answers the line on it.
pub(crate) fn traces(alloc: Global, table: &Table, count: u64) -> Result<String> {
    match first_failed_triple(alloc, table)? {
        Some(_) => Ok(String::from_str(alloc, "not associative")?),
        None => unital_traces(alloc, table, count),
    }
}
