// Calls of the small fields.
use crate::fault::Fault;
use crate::{args, show};
use spl_field::admission::FieldFault;
use spl_field::small::SmallField;
use std::alloc::{AllocError, Global};

/// Why there is no field.
fn fault(out: &mut Vec<u8>, fault: FieldFault) -> Result<(), Fault> {
    match fault {
        FieldFault::Memory => Err(Fault::Memory(AllocError)),
        FieldFault::Size => show::word(out, "size"),
        FieldFault::NoInverse { element } => {
            show::word(out, "no inverse of")?;
            show::number(out, u32::from(element))
        }
    }
}

/// A characteristic and the numbers of a modulus.
fn data(alloc: Global, p: &str, modulus: &str) -> Result<(u16, Vec<u8>), Fault> {
    let p = args::below(p, 65536)?;
    Ok((p as u16, args::bytes(alloc, 256, modulus)?))
}

/// `admits P M`
fn admits(alloc: Global, p: &str, modulus: &str, out: &mut Vec<u8>) -> Result<(), Fault> {
    let (p, modulus) = data(alloc, p, modulus)?;
    match SmallField::admits(p, modulus.as_slice()) {
        Ok(()) => show::word(out, "yes"),
        Err(e) => fault(out, e),
    }
}

/// The field of the characteristic and the modulus; None, and why, where there is none.
pub fn field(
    alloc: Global,
    p: &str,
    modulus: &str,
    out: &mut Vec<u8>,
) -> Result<Option<SmallField>, Fault> {
    let (p, modulus) = data(alloc, p, modulus)?;
    match SmallField::new(alloc, p, modulus.as_slice()) {
        Ok(f) => Ok(Some(f)),
        Err(e) => {
            fault(out, e)?;
            Ok(None)
        }
    }
}

/// The characteristic, the modulus and the number of elements.
pub fn shape(out: &mut Vec<u8>, f: &SmallField) -> Result<(), Fault> {
    show::number(out, u32::from(f.p()))?;
    show::codes(out, f.modulus())?;
    show::number(out, u32::from(f.size()))
}

/// `tables`
fn tables(alloc: Global, f: &SmallField, out: &mut Vec<u8>) -> Result<(), Fault> {
    let tables = f.tables(alloc)?;
    show::number(out, u32::from(tables.size))?;
    show::codes(out, tables.sum.as_slice())?;
    show::codes(out, tables.product.as_slice())
}

/// `duplicate`: the shape and the tables of a duplicate.
fn duplicate(alloc: Global, f: &SmallField, out: &mut Vec<u8>) -> Result<(), Fault> {
    let g = f.duplicate(alloc)?;
    shape(out, &g)?;
    tables(alloc, &g, out)
}

/// The answer of a call on elements.
fn on_elements(f: &SmallField, call: &str, words: &[&str], out: &mut Vec<u8>) -> Result<(), Fault> {
    let [a, rest @ ..] = words else {
        return Err(Fault::BadLine);
    };
    let a = args::element(f, a)?;
    let answer = match (call, rest) {
        ("sum", [b]) => f.sum(a, args::element(f, b)?),
        ("product", [b]) => f.product(a, args::element(f, b)?),
        ("negative", []) => f.negative(a),
        ("frobenius_root", []) => f.frobenius_root(a),
        ("inverse", []) => match f.inverse(a) {
            Some(b) => b,
            None => return show::word(out, "none"),
        },
        _ => return Err(Fault::BadLine),
    };
    show::number(out, u32::from(answer))
}

/// The answer of a call of small fields.
pub fn call(
    alloc: Global,
    f: &SmallField,
    call: &str,
    words: &[&str],
    out: &mut Vec<u8>,
) -> Result<(), Fault> {
    match (call, words) {
        ("admits", [p, modulus]) => admits(alloc, p, modulus, out),
        ("shape", []) => shape(out, f),
        ("tables", []) => tables(alloc, f, out),
        ("duplicate", []) => duplicate(alloc, f, out),
        _ => on_elements(f, call, words, out),
    }
}
