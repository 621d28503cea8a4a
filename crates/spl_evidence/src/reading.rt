// Reading evidence.
ghost use Rattle.std.specs.Prelude.{◌≡◌, ◌⊎◌, ◌≤◌, Ok, Err, IfOk};
ghost use Rattle.spl_fraction.specs.Fractions.{field_of};
ghost use Rattle.spl_fraction.specs.FractionsOver.{fractions_over};
ghost use Rattle.spl_evidence.specs.Evidence.{IsEvidenceText};
ghost use Rattle.spl_evidence.specs.Refusal.{IsRefusal};
ghost use Rattle.spl_evidence.specs.declared.evidence.Evidence.{Evidence};
ghost use Rattle.spl_evidence.specs.declared.refusal.EvidenceRefusal.{EvidenceRefusal};

use crate::body::read_lines;
use crate::evidence::Evidence;
use crate::reader::Reader;
use crate::refusal::{EvidenceFault, EvidenceKind};
use spl_fraction::field::Fractions;
use spl_text::word::strip_prefix;
use std::alloc::Global;

/// The evidence on an algebra of degree n whose text the bytes are, where they are such a text. A refusal carries the
/// first fault, and its line; the first line has the number that is given.
pub fn read_evidence(
    alloc: Global,
    f: &Fractions,
    n: usize,
    bytes: &[u8],
    first_line: u32,
) -> Result<Evidence, EvidenceFault>
    requires low { 2 ≤ n }
    requires high { n ≤ 5 }
    requires first { first_line ≤ 4000000000 }
    ensures ok { IfOk result (IsEvidenceText (fractions_over (field_of f.now)) n bytes.now) }
    ensures refused { (refusal : EvidenceRefusal) → result ≡ Err (EvidenceFault.Refused refusal)
        → IsRefusal (field_of f.now) n first_line bytes.now refusal }
    ensures each { (e : Evidence) → IsEvidenceText (fractions_over (field_of f.now)) n bytes.now e
        → (result ≡ Ok e) ⊎ (result ≡ Err EvidenceFault.Memory) }
{
    let Some(rest) = strip_prefix(bytes, b"spl-evidence 1\n") else {
        return Err(EvidenceFault::at(first_line, EvidenceKind::EvHeader));
    };
    let mut reader = Reader {
        rest,
        number: first_line + 1,
        before: None,
    };
    read_lines(alloc, f, n as u32, &mut reader)
}
