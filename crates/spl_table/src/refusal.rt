// Why a text is no table.
ghost use Rattle.std.specs.Prelude.{◌≡◌};

use spl_field::field::NoMemory;
use std::alloc::AllocError;
use thiserror::Error;

/// What is wrong with a text.
#[derive(Clone, Copy, Debug, PartialEq, Eq)]
pub enum Kind {
    /// It has more bytes than a table text may have.
    TooLong,
    /// It has a byte that no text may hold.
    NotText,
    /// One of the first three lines is missing, unfinished or not of its form.
    Header,
    /// The numbers of the field don't fit: there are not 2 to 256 elements, or a number of the modulus is not below the
    /// characteristic.
    FieldSize,
    /// The element is the first but 0 that has no inverse.
    FieldLaw { element: u8 },
    /// The degree is not 2 to 5.
    Degree,
    /// The characteristic divides the degree.
    Characteristic,
    /// A finished line is neither `end` nor an entry.
    EntryForm,
    /// A basis element or an element of the field is not in range.
    EntryRange,
    /// The triple is not greater than the one before.
    EntryOrder,
    /// The denominator is `0`.
    ZeroDenominator,
    /// A polynomial has a degree above 32.
    PolyDegree,
    /// The input ends before a line `end`.
    NoEnd,
    /// A byte follows the line `end`.
    AfterEnd,
    /// The text is right, but no part that is built decides it.
    NotBuilt,
}

/// A fault of a text: the line, counted from 1, or 0 for the text as a whole, and what is wrong.
#[derive(Clone, Copy, Debug, PartialEq, Eq)]
pub struct Refusal {
    pub line: u32,
    pub kind: Kind,
}

/// Why there is no table.
#[derive(Debug, Drop, Error)]
pub enum TableFault {
    #[error("the text is refused")]
    Refused { refusal: Refusal },
    #[error("out of memory")]
    Memory,
}

impl TableFault {
    /// The refusal at a line.
    pub(crate) fn at(line: u32, kind: Kind) -> TableFault
        ensures { result ≡ TableFault.Refused (record { line = line; kind = kind }) }
    {
        TableFault::Refused {
            refusal: Refusal { line, kind },
        }
    }
}

impl From<NoMemory> for TableFault {
    ghost use Rattle.spl_table.specs.declared.refusal.TableFault.TheVariants.{Memory};

    ghost from_gives = { λ _ e. e ≡ Memory };

    fn from(_e: NoMemory) -> TableFault {
        TableFault::Memory
    }
}

impl From<AllocError> for TableFault {
    ghost use Rattle.spl_table.specs.declared.refusal.TableFault.TheVariants.{Memory};

    ghost from_gives = { λ _ e. e ≡ Memory };

    fn from(_e: AllocError) -> TableFault {
        TableFault::Memory
    }
}
