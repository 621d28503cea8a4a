// The top call.
ghost use Rattle.std.specs.Prelude.{◌≡◌, ◌<◌, ◌≤◌, ◌^◌, List, length, drop, ℕ, Some, IfOk, MatchOption};
ghost use Rattle.spl_table.specs.Front.{IsFrontOf};
ghost use Rattle.spl_table.specs.Refusal.{front, front_limit};
ghost use Rattle.spl_table.specs.Table.{algebra_of, degree_of, ops_of, field_of};
ghost use Rattle.spl_evidence.specs.Evidence.{IsEvidenceText};
ghost use Rattle.spl_evidence.specs.Refusal.{IsRefusal as IsRefusalOfEvidence};
ghost use Rattle.spl_evidence.specs.declared.evidence.Evidence.{Evidence};
ghost use Rattle.spl_evidence.specs.declared.refusal.EvidenceRefusal.{EvidenceRefusal};
ghost use Rattle.spl_evidence.specs.declared.refusal.EvidenceFault.{EvidenceFault};
ghost use Rattle.spl_check.specs.Verdict.{IsVerdict, conditions};
ghost use Rattle.spl_engine.specs.Kind.{HasUnimodularOrders};
ghost use Rattle.spl_cli.specs.declared.words.Form.TheVariants.{Decide, Check};
ghost use Rattle.spl_cli.specs.Run.{IsRun};
ghost use Rattle.spl_cli.specs.Report.{Report, ShowsEvidence};
ghost use Rattle.spl_cli.specs.Finish.{source_state, sink_state, Finishes, Answers};
ghost use Rattle.spl_cli.specs.Forms.{form_of, limit_of_form};

use crate::input::{InputFault, read_input};
use crate::report::{USAGE, evidence_refusal_line, no_line, refusal_line};
use crate::status::Status;
use crate::words::{Form, Words};
use spl_check::check::check;
use spl_check::verdict::Verdict;
use spl_engine::decide::decide;
use spl_evidence::reading::read_evidence;
use spl_evidence::refusal::EvidenceFault;
use spl_evidence::writing::write_evidence;
use spl_field::field::NoMemory;
use spl_outside::outside::{Failed, Sink, Source};
use spl_outside::write::write_whole;
use spl_table::reader::{Front, read_front, read_whole};
use spl_table::refusal::{Kind, Refusal, TableFault};
use spl_table::table::Table;
use std::alloc::Global;

/// The most bytes of an input of `decide`.
const DECIDE_LIMIT: usize = 8388608;

/// The most bytes of an input of `check`.
const CHECK_LIMIT: usize = 67108864;

/// The bytes asked for at a call, at the most.
const PIECE: usize = 65536;

/// Writes the bytes, and answers the status that goes with them, or that a write failed.
fn finish<K: Sink>(sink: &mut K, bytes: &[u8], answer: Status) -> Status
    ensures { Finishes answer bytes.now (sink_state K.written K.faults K.steady sink.old)
        (sink_state K.written K.faults K.steady sink.new) result }
{
    match write_whole(sink, bytes) {
        Ok(()) => answer,
        Err(Failed) => Status::WriteFault,
    }
}

/// The text of the table's evidence; None where it has none.
fn evidence_on(alloc: Global, table: &Table) -> Result<Option<Vec<u8>>, NoMemory>
    ensures { IfOk result (λ r. MatchOption r (HasUnimodularOrders (field_of table.now) (algebra_of table.now))
        (λ text. ShowsEvidence table.now text.items)) }
{
    match decide(alloc, table)? {
        None => Ok(None),
        Some(evidence) => {
            let text = write_evidence(alloc, table.fractions(), table.degree(), &evidence)?;
            Ok(Some(text))
        }
    }
}

/// Writes the report on an input of `decide`.
fn decide_on<K: Sink>(alloc: Global, input: &[u8], sink: &mut K) -> Status
    ensures { (words : List (List ℕ)) → form_of words ≡ Some Decide → Answers words input.now
        (sink_state K.written K.faults K.steady sink.old) (sink_state K.written K.faults K.steady sink.new) result }
{
    match read_whole(alloc, input) {
        Err(TableFault::Memory) => Status::Memory,
        Err(TableFault::Refused { refusal }) => finish(
            sink,
            refusal_line(refusal).as_str().as_bytes(),
            Status::Refused,
        ),
        Ok(read) => match evidence_on(alloc, &read.table) {
            Err(_) => Status::Memory,
            Ok(None) => {
                let refusal = Refusal {
                    line: read.lines,
                    kind: Kind::NotBuilt,
                };
                finish(
                    sink,
                    refusal_line(refusal).as_str().as_bytes(),
                    Status::Refused,
                )
            }
            Ok(Some(text)) => finish(sink, text.as_slice(), Status::Done),
        },
    }
}

/// The verdict on the evidence whose text this is, the first line of which has this number.
fn verdict_on(
    alloc: Global,
    table: &Table,
    text: &[u8],
    first_line: u32,
) -> Result<Verdict, EvidenceFault>
    requires { first_line ≤ 4000000000 }
    ensures verdict { IfOk result (λ v. (e : Evidence)
        × IsEvidenceText (ops_of table.now) (degree_of table.now) text.now e
        × IsVerdict (conditions (field_of table.now) (algebra_of table.now) (degree_of table.now) e) v) }
    ensures refused { (refusal : EvidenceRefusal) → result ≡ Err (EvidenceFault.Refused refusal)
        → IsRefusalOfEvidence (field_of table.now) (degree_of table.now) first_line text.now refusal }
{
    let evidence = read_evidence(alloc, table.fractions(), table.degree(), text, first_line)?;
    Ok(check(alloc, table, &evidence)?)
}

/// Writes the report on an input of `check`.
fn check_on<K: Sink>(alloc: Global, input: &[u8], sink: &mut K) -> Status
    ensures { (words : List (List ℕ)) → form_of words ≡ Some Check → Answers words input.now
        (sink_state K.written K.faults K.steady sink.old) (sink_state K.written K.faults K.steady sink.new) result }
{
    if input.len() > CHECK_LIMIT {
        let refusal = Refusal {
            line: 0,
            kind: Kind::TooLong,
        };
        return finish(
            sink,
            refusal_line(refusal).as_str().as_bytes(),
            Status::Refused,
        );
    }
    match read_front(alloc, input) {
        Err(TableFault::Memory) => Status::Memory,
        Err(TableFault::Refused { refusal }) => finish(
            sink,
            refusal_line(refusal).as_str().as_bytes(),
            Status::Refused,
        ),
        Ok(read) => check_behind(alloc, input, &read, sink),
    }
}

/// The bytes behind the first so many.
fn behind(input: &[u8], used: usize) -> &[u8]
    requires { used ≤ length input.now }
    ensures { result.now ≡ drop used input.now }
{
    &input[used..]
}

/// Writes the report on an input of `check` in front of which the text of a table stands.
fn check_behind<K: Sink>(alloc: Global, input: &[u8], read: &Front, sink: &mut K) -> Status
    requires within { length input.now ≤ front_limit }
    requires front { IsFrontOf front input.now read.now }
    requires few { read.now.lines ≤ 15629 }
    ensures { (words : List (List ℕ)) → form_of words ≡ Some Check → Answers words input.now
        (sink_state K.written K.faults K.steady sink.old) (sink_state K.written K.faults K.steady sink.new) result }
{
    let text = behind(input, read.used);
    match verdict_on(alloc, &read.table, text, read.lines + 1) {
        Err(EvidenceFault::Memory) => Status::Memory,
        Err(EvidenceFault::Refused { refusal }) => finish(
            sink,
            evidence_refusal_line(refusal).as_str().as_bytes(),
            Status::Refused,
        ),
        Ok(Verdict::Yes) => finish(sink, b"yes\n", Status::Done),
        Ok(Verdict::No { condition }) => {
            finish(sink, no_line(condition).as_str().as_bytes(), Status::No)
        }
    }
}

/// The most bytes of an input of the form.
fn limit_of(form: Form) -> usize
    ensures limit { limit_of_form form ≡ Some result }
    ensures bounded { result < 2 ^ 62 }
{
    match form {
        Form::Decide => DECIDE_LIMIT,
        Form::Check => CHECK_LIMIT,
    }
}

/// Writes the report on an input of the form.
fn report_on<K: Sink>(alloc: Global, form: Form, input: &[u8], sink: &mut K) -> Status
    ensures { (words : List (List ℕ)) → form_of words ≡ Some form → Answers words input.now
        (sink_state K.written K.faults K.steady sink.old) (sink_state K.written K.faults K.steady sink.new) result }
{
    match form {
        Form::Decide => decide_on(alloc, input, sink),
        Form::Check => check_on(alloc, input, sink),
    }
}

/// Runs the program on these words: reads its input from the source and writes its report to the sink. The whole
/// report is composed before the first write. The record `IsRun` says what each status means and when it comes.
pub fn run<S: Source, K: Sink>(alloc: Global, words: &Words, source: &mut S, sink: &mut K) -> Status
    ensures { IsRun words.now
        (source_state S.left S.faults S.steady source.old) (source_state S.left S.faults S.steady source.new)
        (sink_state K.written K.faults K.steady sink.old) (sink_state K.written K.faults K.steady sink.new) result }
{
    let Some(form) = words.form() else {
        return finish(sink, USAGE, Status::Usage);
    };
    match read_input(alloc, source, limit_of(form), PIECE) {
        Err(InputFault::Read) => Status::ReadFault,
        Err(InputFault::Memory) => Status::Memory,
        Ok(input) => report_on(alloc, form, input.as_slice(), sink),
    }
}
