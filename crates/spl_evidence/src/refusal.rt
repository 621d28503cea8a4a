// Why a text is no evidence.
ghost use Rattle.std.specs.Prelude.{◌≡◌};

use spl_field::field::NoMemory;
use std::alloc::AllocError;
use thiserror::Error;

/// What is wrong with a text of evidence.
#[derive(Clone, Copy, Debug, PartialEq, Eq)]
pub enum EvidenceKind {
    /// The first line is missing, unfinished or not `spl-evidence 1`.
    EvHeader,
    /// The input ends, or its last line is unfinished, where a line is due.
    EvNoEnd,
    /// A finished line is not of a form that is due.
    EvForm,
    /// A number of the line, or an element of the field, is not in range.
    EvRange,
    /// The numbers of the line are not greater than those of the line before, or not the due ones.
    EvOrder,
    /// A fraction is not canonical, a multiplier is 0, or the polynomial of a place is not monic or has degree 0.
    EvTerms,
    /// A byte follows the line `end`.
    EvAfterEnd,
}

/// A fault of a text of evidence: the line, and what is wrong.
#[derive(Clone, Copy, Debug, PartialEq, Eq)]
pub struct EvidenceRefusal {
    pub line: u32,
    pub kind: EvidenceKind,
}

/// Why there is no evidence.
#[derive(Debug, Drop, Error)]
pub enum EvidenceFault {
    #[error("the evidence is refused")]
    Refused { refusal: EvidenceRefusal },
    #[error("out of memory")]
    Memory,
}

impl EvidenceFault {
    /// The refusal at a line.
    pub(crate) fn at(line: u32, kind: EvidenceKind) -> EvidenceFault
        ensures { result ≡ EvidenceFault.Refused (record { line = line; kind = kind }) }
    {
        EvidenceFault::Refused {
            refusal: EvidenceRefusal { line, kind },
        }
    }
}

impl From<NoMemory> for EvidenceFault {
    ghost use Rattle.spl_evidence.specs.declared.refusal.EvidenceFault.TheVariants.{Memory};

    ghost from_gives = { λ _ e. e ≡ Memory };

    fn from(_e: NoMemory) -> EvidenceFault {
        EvidenceFault::Memory
    }
}

impl From<AllocError> for EvidenceFault {
    ghost use Rattle.spl_evidence.specs.declared.refusal.EvidenceFault.TheVariants.{Memory};

    ghost from_gives = { λ _ e. e ≡ Memory };

    fn from(_e: AllocError) -> EvidenceFault {
        EvidenceFault::Memory
    }
}
