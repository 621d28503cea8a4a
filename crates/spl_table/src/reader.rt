// Reading the text of a table.
ghost use Rattle.std.specs.Prelude.{◌≡◌, ◌≢◌, ℕ, ◌≤◌, List, [], length, IfOk, IfErr, IsErrOf, OnOk};
ghost use Rattle.spl_field.specs.FieldByDigits.{IsAdmitted};
ghost use Rattle.spl_text.specs.Text.{IsText};
ghost use Rattle.spl_table.specs.TableText.{TableText};
ghost use Rattle.spl_table.specs.Table.{IsTableOf};
ghost use Rattle.spl_table.specs.Refusal.{whole, front, front_limit, IsTableText, IsNoTextAt, IsFaultOfLines};
ghost use Rattle.spl_table.specs.Refusal.{IsRefusal, HasField, IsRightToField};
ghost use Rattle.spl_table.specs.Front.{IsFrontOf};
ghost use Rattle.spl_table.specs.Reading.{IfRefused};
ghost use Rattle.spl_table.specs.declared.refusal.Refusal.{Refusal};
ghost use Rattle.spl_table.specs.declared.refusal.Kind.TheVariants.{NotText};

mod constants;
mod entries;
mod entry;
mod head;

use crate::reader::entries::read_entries;
use crate::reader::head::{read_degree, read_fractions};
use crate::refusal::{Kind, TableFault};
use crate::table::Table;
use spl_text::scan::{first_no_text, newlines};
use spl_text::word::{split_once, strip_prefix};
use std::alloc::Global;

/// The most bytes of a table text.
const TABLE_LIMIT: usize = 8 * 1024 * 1024;

/// A table, and how far its text goes: the bytes and the lines up to and with the newline of the line `end`.
#[derive(Drop)]
pub struct Front {
    pub table: Table,
    pub used: usize,
    pub lines: u32,
}

/// Whether all bytes are those of a text.
fn check_text(bytes: &[u8]) -> Result<(), TableFault>
    requires { length bytes.now ≤ front_limit }
    ensures ok { OnOk result (IsText bytes.now) }
    ensures fault { IfErr result (λ e. IfRefused e (λ at kind. (kind ≡ NotText) × IsNoTextAt bytes.now at)) }
    ensures no_memory_needed { result ≢ Err TableFault.Memory }
{
    match first_no_text(bytes) {
        Some(place) => Err(TableFault::at(newlines(&bytes[..place]) as u32 + 1, Kind::NotText)),
        None => Ok(()),
    }
}

/// The table of the lines up to the line `end`.
fn read_lines(alloc: Global, bytes: &[u8]) -> Result<Front, TableFault>
    requires { IsText bytes.now }
    ensures ok { IfOk result (IsFrontOf front bytes.now) }
    ensures few { IfOk result (λ r. r.lines ≤ 15629) }
    ensures fault { IfErr result (λ e. IfRefused e (IsFaultOfLines front bytes.now)) }
    ensures memory { IsErrOf result TableFault.Memory
        → (p : ℕ) × (m : List ℕ) × HasField bytes.now p m × IsAdmitted p m }
{
    let Some(rest) = strip_prefix(bytes, b"spl-table 1\n") else {
        return Err(TableFault::at(1, Kind::Header));
    };
    let Some((second, rest)) = split_once(rest, b'\n') else {
        return Err(TableFault::at(2, Kind::Header));
    };
    let fractions = read_fractions(alloc, second)?;
    let Some((third, rest)) = split_once(rest, b'\n') else {
        return Err(TableFault::at(3, Kind::Header));
    };
    let n = read_degree(third, fractions.field().p())?;
    let entries = read_entries(alloc, &fractions, n, rest)?;
    let table = Table::of(alloc, fractions, n, entries.constants)?;
    Ok(Front {
        table,
        used: bytes.len() - entries.rest.len(),
        lines: entries.number,
    })
}

/// The table whose text stands in front of the bytes, where one does, and how far it goes. A refusal carries the first
/// fault: a byte anywhere that is none of a text, or the first line at fault up to the line `end`. Memory can be
/// wanting only where nothing is wrong up to the numbers of the field.
pub fn read_front(alloc: Global, bytes: &[u8]) -> Result<Front, TableFault>
    requires { length bytes.now ≤ front_limit }
    ensures ok { IfOk result (IsFrontOf front bytes.now) }
    ensures few { IfOk result (λ r. r.lines ≤ 15629) }
    ensures refused { (refusal : Refusal) → result ≡ Err (TableFault.Refused refusal)
        → IsRefusal front bytes.now refusal }
    ensures memory { IsErrOf result TableFault.Memory → IsRightToField front bytes.now }
{
    check_text(bytes)?;
    read_lines(alloc, bytes)
}

/// The table whose text the bytes are, where they are a table text, and the numbers of its bytes and lines. A refusal
/// carries the first fault: too many bytes, a byte that is none of a text, or the first line at fault. Memory can be
/// wanting only where nothing is wrong up to the numbers of the field.
pub fn read_whole(alloc: Global, bytes: &[u8]) -> Result<Front, TableFault>
    ensures ok { IfOk result (IsFrontOf whole bytes.now) }
    ensures refused { (refusal : Refusal) → result ≡ Err (TableFault.Refused refusal)
        → IsRefusal whole bytes.now refusal }
    ensures memory { IsErrOf result TableFault.Memory → IsRightToField whole bytes.now }
{
    if bytes.len() > TABLE_LIMIT {
        return Err(TableFault::at(0, Kind::TooLong));
    }
    let text = read_front(alloc, bytes)?;
    if text.used < bytes.len() {
        return Err(TableFault::at(text.lines + 1, Kind::AfterEnd));
    }
    Ok(text)
}

/// The table that the bytes stand for, where they are a table text; else it is refused, or wants memory, as
/// `read_whole` says.
pub fn read_table(alloc: Global, bytes: &[u8]) -> Result<Table, TableFault>
    ensures ok { IfOk result (λ r. (t : TableText) × IsTableText whole bytes.now t [] × IsTableOf t r) }
    ensures refused { (refusal : Refusal) → result ≡ Err (TableFault.Refused refusal)
        → IsRefusal whole bytes.now refusal }
    ensures memory { IsErrOf result TableFault.Memory → IsRightToField whole bytes.now }
{
    let text = read_whole(alloc, bytes)?;
    Ok(text.table)
}
