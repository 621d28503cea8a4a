// The texts of reports.
ghost use Rattle.std.specs.Prelude.{◌≡◌, ℕ, ◌+◌, ◌<◌, ◌≤◌, ◌^◌, ◌++◌, length, codes, decimal, IfOk};
ghost use Rattle.spl_cli.specs.Report.{kind_name, element_text, refusal_text, evidence_kind_name};
ghost use Rattle.spl_cli.specs.Report.{evidence_refusal_text, no_text};

use arrayvec::ArrayString;
use itoa::Buffer;
use spl_evidence::refusal::{EvidenceKind, EvidenceRefusal};
use spl_field::field::NoMemory;
use spl_table::refusal::{Kind, Refusal};
use std::alloc::Global;

/// The usage text: the built forms, one a line.
pub(crate) const USAGE: &[u8] = b"usage: spl decide\n       spl check\n";

/// The name of a kind of refusal.
fn name_of(kind: Kind) -> &'static str
    ensures name { result.now ≡ kind_name kind }
    ensures short { length result.now ≤ 15 }
{
    match kind {
        Kind::TooLong => "TooLong",
        Kind::NotText => "NotText",
        Kind::Header => "Header",
        Kind::FieldSize => "FieldSize",
        Kind::FieldLaw { .. } => "FieldLaw",
        Kind::Degree => "Degree",
        Kind::Characteristic => "Characteristic",
        Kind::EntryForm => "EntryForm",
        Kind::EntryRange => "EntryRange",
        Kind::EntryOrder => "EntryOrder",
        Kind::ZeroDenominator => "ZeroDenominator",
        Kind::PolyDegree => "PolyDegree",
        Kind::NoEnd => "NoEnd",
        Kind::AfterEnd => "AfterEnd",
        Kind::NotBuilt => "NotBuilt",
    }
}

/// Appends the element without inverse, where the field's laws are at fault.
fn push_element(line: &mut ArrayString<64>, kind: Kind)
    requires room { length line.old.bytes ≤ 60 }
    ensures text { line.new.bytes ≡ line.old.bytes ++ element_text kind }
    ensures short { length line.new.bytes ≤ length line.old.bytes + 4 }
{
    if let Kind::FieldLaw { element } = kind {
        let mut buffer = Buffer::new();
        line.push_str(" ");
        line.push_str(buffer.format(element));
    }
}

/// The report of a refusal. It takes no memory.
pub fn refusal_line(refusal: Refusal) -> ArrayString<64>
    ensures { result.bytes ≡ refusal_text refusal }
{
    let mut buffer = Buffer::new();
    let mut line = ArrayString::new();
    line.push_str("refused ");
    line.push_str(buffer.format(refusal.line));
    line.push_str(" ");
    line.push_str(name_of(refusal.kind));
    push_element(&mut line, refusal.kind);
    line.push_str("\n");
    line
}

/// The name of a kind of refusal of evidence.
fn name_of_evidence(kind: EvidenceKind) -> &'static str
    ensures name { result.now ≡ evidence_kind_name kind }
    ensures short { length result.now ≤ 10 }
{
    match kind {
        EvidenceKind::EvHeader => "EvHeader",
        EvidenceKind::EvNoEnd => "EvNoEnd",
        EvidenceKind::EvForm => "EvForm",
        EvidenceKind::EvRange => "EvRange",
        EvidenceKind::EvOrder => "EvOrder",
        EvidenceKind::EvTerms => "EvTerms",
        EvidenceKind::EvAfterEnd => "EvAfterEnd",
    }
}

/// The report of a refusal of evidence. It takes no memory.
pub(crate) fn evidence_refusal_line(refusal: EvidenceRefusal) -> ArrayString<64>
    ensures { result.bytes ≡ evidence_refusal_text refusal }
{
    let mut buffer = Buffer::new();
    let mut line = ArrayString::new();
    line.push_str("refused ");
    line.push_str(buffer.format(refusal.line));
    line.push_str(" ");
    line.push_str(name_of_evidence(refusal.kind));
    line.push_str("\n");
    line
}

/// The report of a claim that fails. It takes no memory.
pub(crate) fn no_line(condition: u32) -> ArrayString<64>
    ensures { result.bytes ≡ no_text condition }
{
    let mut buffer = Buffer::new();
    let mut line = ArrayString::new();
    line.push_str("no ");
    line.push_str(buffer.format(condition));
    line.push_str("\n");
    line
}
