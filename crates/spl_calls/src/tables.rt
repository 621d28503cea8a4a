// Calls on the table of a text.
ghost use Rattle.theory_tables.specs.Structure.{IsAssociative};
ghost use Rattle.theory_tables.specs.Algebras.{HasIdentity};
ghost use Rattle.theory_bases.specs.Bases.{IsBasis};
ghost use Rattle.spl_field.specs.SmallField.{small_ops, small_laws};
ghost use Rattle.spl_fraction.specs.Fractions.{field_of};
ghost use Rattle.spl_table.specs.Table.{algebra_of, ops_of};
ghost use Rattle.spl_engine.specs.Kind.{HasNoFault};

use spl_algebra::identity::One;
use spl_centre::centre::{centre_fault, identity_or_refutation, trace_ideal};
use spl_cli::report::refusal_line;
use spl_engine::decide::decide;
use spl_engine::everywhere::{Everywhere, settle_everywhere};
use spl_evidence::evidence::Evidence;
use spl_fraction::field::Fractions;
use spl_fraction::place::Place;
use spl_order::basis::Basis;
use spl_table::reader::{read_front, read_table};
use spl_table::refusal::{Refusal, TableFault};
use spl_table::table::Table;
use spl_table::triple::first_failed_triple;
use spl_table::writing::write_table;
use spl_words::fault::Fault;
use spl_words::{algebras, show, small, texts};
use std::alloc::{AllocError, Global};

/// The refusal, as the program reports it.
fn refusal(out: &mut Vec<u8>, refusal: Refusal) -> Result<(), Fault> {
    show::word(out, refusal_line(refusal).as_str().trim_end())
}

/// `first_failed_triple T`
fn triple(alloc: Global, table: &Table, out: &mut Vec<u8>) -> Result<(), Fault> {
    match first_failed_triple(alloc, table)? {
        None => show::word(out, "none"),
        Some(t) => {
            show::count(out, t.i)?;
            show::count(out, t.j)?;
            show::count(out, t.k)
        }
    }
}

/// `identity_or_refutation T`
fn identity(alloc: Global, table: &Table, out: &mut Vec<u8>) -> Result<(), Fault> {
    let one = identity_or_refutation(alloc, table.fractions(), table.algebra())?;
    algebras::one(alloc, table.fractions(), table.algebra(), one, out)
}

/// `read_table T`: the field, the degree and the products of basis elements.
fn contents(alloc: Global, table: &Table, out: &mut Vec<u8>) -> Result<(), Fault> {
    small::shape(out, table.field())?;
    show::count(out, table.degree())?;
    algebras::products(alloc, table.fractions(), table.algebra(), out)
}

/// The dimension of the radical of the trace form, or `none`.
fn radical(alloc: Global, table: &Table, out: &mut Vec<u8>) -> Result<(), Fault>
    requires associative { IsAssociative (ops_of table.now) (algebra_of table.now) }
    requires identity { HasIdentity (ops_of table.now) (algebra_of table.now) }
{
    match trace_ideal(alloc, table.fractions(), table.algebra())? {
        Some(tuples) => show::count(out, tuples.len()),
        None => show::word(out, "none"),
    }
}

/// Whether the centre is larger than the multiples of the identity, and the dimension of the radical of the trace form.
fn faults_with_identity(alloc: Global, table: &Table, out: &mut Vec<u8>) -> Result<(), Fault>
    requires associative { IsAssociative (ops_of table.now) (algebra_of table.now) }
    requires identity { HasIdentity (ops_of table.now) (algebra_of table.now) }
{
    let central = centre_fault(alloc, table.fractions(), table.algebra())?;
    show::word(out, if central.is_some() { "central" } else { "none" })?;
    radical(alloc, table, out)
}

/// `faults T`: `central` or `none`, and how many tuples `trace_ideal` has, or `none`.
fn faults(alloc: Global, table: &Table, out: &mut Vec<u8>) -> Result<(), Fault> {
    match first_failed_triple(alloc, table)? {
        Some(_) => show::word(out, "not associative"),
        None => match identity_or_refutation(alloc, table.fractions(), table.algebra())? {
            One::Refuted { .. } => show::word(out, "no identity"),
            One::Here { .. } => faults_with_identity(alloc, table, out),
        },
    }
}

/// A ramified place.
fn ramified(out: &mut Vec<u8>, place: &Place) -> Result<(), Fault> {
    show::word(out, "ramified")?;
    match place {
        Place::Finite { poly } => show::polynomial(out, poly),
        Place::Infinity => show::word(out, "infinity"),
    }
}

/// The kind of the evidence, and how much of it there is.
fn evidence(out: &mut Vec<u8>, evidence: &Evidence) -> Result<(), Fault> {
    match evidence {
        Evidence::Triple { i, j, k } => {
            show::word(out, "triple")?;
            show::count(out, *i)?;
            show::count(out, *j)?;
            show::count(out, *k)
        }
        Evidence::NoIdentity { left, right } => {
            show::word(out, "noidentity")?;
            show::count(out, left.len())?;
            show::count(out, right.len())
        }
        Evidence::Central { tuple } => {
            show::word(out, "central")?;
            show::count(out, tuple.len())
        }
        Evidence::Ideal { tuples } => {
            show::word(out, "ideal")?;
            show::count(out, tuples.len())
        }
        Evidence::Split { maps, units } => {
            show::word(out, "split")?;
            show::count(out, maps.len())?;
            show::count(out, units.len())
        }
        Evidence::Ramified {
            place,
            order,
            radical,
        } => {
            ramified(out, place)?;
            show::count(out, order.len())?;
            show::count(out, radical.len())
        }
    }
}

/// `decide T`: the kind of the evidence, with the triple, the numbers of multipliers, the length of the tuple, the number
/// of the tuples, or the place and the numbers of the tuples of the order and its radical; `none` where there is none.
fn decision(alloc: Global, table: &Table, out: &mut Vec<u8>) -> Result<(), Fault> {
    match decide(alloc, table)? {
        Some(found) => evidence(out, &found),
        None => show::word(out, "none"),
    }
}

/// The n tuples of a basis.
fn tuples(
    alloc: Global,
    k: &Fractions,
    n: usize,
    basis: &Basis,
    out: &mut Vec<u8>,
) -> Result<(), Fault>
    requires { IsBasis (small_ops (field_of k.now)) (small_laws (field_of k.now)) n basis.now }
{
    let _ = n;
    let tuples = basis.tuples(alloc, k)?;
    show::rows(alloc, out, k, tuples.as_slice())
}

/// Of an algebra without a fault: the first place at which it is ramified, with the numbers of tuples, or `unimodular`
/// and the tuples of the orders over the polynomials and at infinity.
fn everywhere(alloc: Global, table: &Table, out: &mut Vec<u8>) -> Result<(), Fault>
    requires { HasNoFault (ops_of table.now) (algebra_of table.now) }
{
    match settle_everywhere(alloc, table)? {
        Everywhere::Ramified {
            place,
            order,
            radical,
        } => {
            ramified(out, &place)?;
            show::count(out, order.len())?;
            show::count(out, radical.len())
        }
        Everywhere::Unimodular { finite, infinite } => {
            show::word(out, "unimodular")?;
            let k = table.fractions();
            let n = table.algebra().dim();
            tuples(alloc, k, n, &finite, out)?;
            tuples(alloc, k, n, &infinite, out)
        }
    }
}

/// `settle_everywhere T`: as `everywhere`, and `fault` where the algebra has one.
fn settled(alloc: Global, table: &Table, out: &mut Vec<u8>) -> Result<(), Fault> {
    match decide(alloc, table)? {
        None => everywhere(alloc, table, out),
        Some(Evidence::Ramified { .. }) => everywhere(alloc, table, out),
        Some(_) => show::word(out, "fault"),
    }
}

/// The answer of a call on a table.
fn on_table(alloc: Global, call: &str, table: &Table, out: &mut Vec<u8>) -> Result<(), Fault> {
    match call {
        "read_table" => contents(alloc, table, out),
        "write_table" => show::text(out, write_table(alloc, table)?.as_slice()),
        "first_failed_triple" => triple(alloc, table, out),
        "identity_or_refutation" => identity(alloc, table, out),
        "faults" => faults(alloc, table, out),
        "decide" => decision(alloc, table, out),
        "settle_everywhere" => settled(alloc, table, out),
        _ => Err(Fault::BadLine),
    }
}

/// What a fault of a text comes to: its refusal, unless memory was wanting.
fn fault(fault: TableFault, out: &mut Vec<u8>) -> Result<(), Fault> {
    match fault {
        TableFault::Memory => Err(Fault::Memory(AllocError)),
        TableFault::Refused { refusal: why } => refusal(out, why),
    }
}

/// `read_front T`: the numbers of bytes and of lines of the table text in front, or its refusal.
fn front(alloc: Global, text: &[u8], out: &mut Vec<u8>) -> Result<(), Fault> {
    if text.len() > 67108864 {
        return Err(Fault::BadLine);
    }
    match read_front(alloc, text) {
        Ok(front) => {
            show::count(out, front.used)?;
            show::number(out, front.lines)
        }
        Err(why) => fault(why, out),
    }
}

/// The answer of a call on the table of a text, or its refusal.
pub(crate) fn call(
    alloc: Global,
    call: &str,
    words: &[&str],
    out: &mut Vec<u8>,
) -> Result<(), Fault> {
    let [text] = words else {
        return Err(Fault::BadLine);
    };
    let text = texts::bytes_of(alloc, text)?;
    if call == "read_front" {
        return front(alloc, text.as_slice(), out);
    }
    match read_table(alloc, text.as_slice()) {
        Ok(table) => on_table(alloc, call, &table, out),
        Err(why) => fault(why, out),
    }
}
