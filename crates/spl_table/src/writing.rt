// Writing the canonical text of a table. Where memory is wanting, some of it is written.
ghost use Rattle.std.specs.Prelude.{◌≡◌, ℕ, ◌+◌, ◌<◌, [], ◌∷◌, ◌++◌, codes, decimal, IfOk, OnOk};
ghost use Rattle.std.specs.List.{flat_map};
ghost use Rattle.theory_rings.specs.Ops.{IsElem};
ghost use Rattle.spl_table.specs.TableText.{entry_line, head_lines};
ghost use Rattle.spl_table.specs.Table.{algebra_of, ops_of};
ghost use Rattle.spl_table.specs.CanonicalTable.{triples, triples_from, triples_from_pair, constant_of};
ghost use Rattle.spl_table.specs.CanonicalTable.{canonical_entry, nonzero_entries, canonical_of, canonical_table_text};

use crate::table::Table;
use spl_field::field::NoMemory;
use spl_fraction::fraction::Fraction;
use spl_text::writing::{push_coefficients, push_number};
use std::alloc::Global;

/// The first three lines.
fn push_head(table: &Table, out: &mut Vec<u8>) -> Result<(), NoMemory>
    ensures { OnOk result (out.new.items ≡ out.old.items ++ head_lines (canonical_of table.now).head) }
{
    out.extend_from_slice(b"spl-table 1\nfield ")?;
    push_number(out, u32::from(table.field().p()))?;
    out.extend_from_slice(b" ")?;
    push_coefficients(out, table.field().modulus())?;
    out.extend_from_slice(b"\ndegree ")?;
    push_number(out, table.degree() as u32)?;
    out.extend_from_slice(b"\n")?;
    Ok(())
}

/// The number of the basis element i, which is counted from 0, as the text counts it, and a space.
fn push_index(out: &mut Vec<u8>, i: usize) -> Result<(), NoMemory>
    requires { i < 25 }
    ensures { OnOk result (out.new.items ≡ out.old.items ++ (decimal (i + 1) ++ codes " ")) }
{
    push_number(out, i as u32 + 1)?;
    out.extend_from_slice(b" ")?;
    Ok(())
}

/// The line of the constant x of the basis elements i, j and k, which are counted from 0.
fn push_entry(
    alloc: Global,
    table: &Table,
    i: usize,
    j: usize,
    k: usize,
    x: &Fraction,
    out: &mut Vec<u8>,
) -> Result<(), NoMemory>
    requires first { i < (algebra_of table.now).dim }
    requires second { j < (algebra_of table.now).dim }
    requires third { k < (algebra_of table.now).dim }
    requires elem { IsElem (ops_of table.now) x.now }
    requires value { x.now ≡ constant_of (algebra_of table.now) i j k }
    ensures { OnOk result (out.new.items
        ≡ out.old.items ++ entry_line (canonical_entry (algebra_of table.now) i j k)) }
{
    push_index(out, i)?;
    push_index(out, j)?;
    push_index(out, k)?;
    table.fractions().write_fraction(alloc, x, out)?;
    out.extend_from_slice(b"\n")?;
    Ok(())
}

/// The same, but nothing where x is 0.
fn push_nonzero(
    alloc: Global,
    table: &Table,
    i: usize,
    j: usize,
    k: usize,
    x: &Fraction,
    out: &mut Vec<u8>,
) -> Result<(), NoMemory>
    requires first { i < (algebra_of table.now).dim }
    requires second { j < (algebra_of table.now).dim }
    requires third { k < (algebra_of table.now).dim }
    requires elem { IsElem (ops_of table.now) x.now }
    requires value { x.now ≡ constant_of (algebra_of table.now) i j k }
    ensures { OnOk result (out.new.items
        ≡ out.old.items ++ flat_map entry_line (nonzero_entries (algebra_of table.now) ((i, j, k) ∷ []))) }
{
    if x.numerator().is_zero() {
        return Ok(());
    }
    push_entry(alloc, table, i, j, k, x, out)
}

/// The lines of the product of the basis elements i and j.
fn push_product(
    alloc: Global,
    table: &Table,
    i: usize,
    j: usize,
    out: &mut Vec<u8>,
) -> Result<(), NoMemory>
    requires first { i < (algebra_of table.now).dim }
    requires second { j < (algebra_of table.now).dim }
    ensures { OnOk result (out.new.items ≡ out.old.items ++ flat_map entry_line
        (nonzero_entries (algebra_of table.now) (triples_from_pair (algebra_of table.now).dim i j))) }
{
    let row = table.algebra().basis_product(table.fractions(), i, j);
    for k in 0..row.len() {
        push_nonzero(alloc, table, i, j, k, &row[k], out)?;
    }
    Ok(())
}

/// The lines of the products of the basis element i with each one.
fn push_products(alloc: Global, table: &Table, i: usize, out: &mut Vec<u8>) -> Result<(), NoMemory>
    requires { i < (algebra_of table.now).dim }
    ensures { OnOk result (out.new.items ≡ out.old.items ++ flat_map entry_line
        (nonzero_entries (algebra_of table.now) (triples_from (algebra_of table.now).dim i))) }
{
    for j in 0..table.algebra().dim() {
        push_product(alloc, table, i, j, out)?;
    }
    Ok(())
}

/// The lines of all entries.
fn push_entries(alloc: Global, table: &Table, out: &mut Vec<u8>) -> Result<(), NoMemory>
    ensures { OnOk result (out.new.items ≡ out.old.items ++ flat_map entry_line
        (nonzero_entries (algebra_of table.now) (triples (algebra_of table.now).dim))) }
{
    for i in 0..table.algebra().dim() {
        push_products(alloc, table, i, out)?;
    }
    Ok(())
}

/// The canonical text of the table. The one fault is want of memory.
pub fn write_table(alloc: Global, table: &Table) -> Result<Vec<u8>, NoMemory>
    ensures { IfOk result (λ text. text.items ≡ canonical_table_text table.now) }
{
    let mut text = Vec::new(alloc);
    push_head(table, &mut text)?;
    push_entries(alloc, table, &mut text)?;
    text.extend_from_slice(b"end\n")?;
    Ok(text)
}
