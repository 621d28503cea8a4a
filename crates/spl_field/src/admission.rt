// Which numbers give a field.
ghost use Rattle.std.specs.Prelude.{◌≡◌, ◌≢◌, ℕ, ◌^◌, ◌<◌, length, MatchOption, IfOk, OnOk, IsErrOf};
ghost use Rattle.spl_field.specs.FieldByDigits.{FitsField, IsAdmitted, IsFirstWithoutInverse, IsInverse, HasInverse};

use crate::digits::{product_row, size_by_digits};
use crate::field::NoMemory;
use thiserror::Error;

/// Why there is no such field.
#[derive(Debug, Drop, Error, PartialEq, Eq)]
pub enum FieldFault {
    /// The characteristic is below 2, the modulus is empty, p to the number of digits is above 256, or a number of the
    /// modulus is not below p.
    #[error("there are not 2 to 256 elements, or a number of the modulus is not below the characteristic")]
    Size,

    /// The element is the first but 0 that has no inverse.
    #[error("{element} has no inverse")]
    NoInverse { element: u8 },

    /// There was not enough memory.
    #[error("out of memory")]
    Memory,
}

impl From<NoMemory> for FieldFault {
    ghost use Rattle.spl_field.specs.declared.admission.FieldFault.TheVariants.{Memory};

    ghost from_gives = { λ _ e. e ≡ Memory };

    fn from(_e: NoMemory) -> FieldFault {
        FieldFault::Memory
    }
}

/// The inverse of a, by trial.
pub(crate) fn inverse_of(p: u16, modulus: &[u8], size: u16, a: u16) -> Option<u16>
    requires fits { FitsField p modulus.now }
    requires size { size ≡ p ^ length modulus.now }
    requires element { a < size }
    ensures { MatchOption result (HasInverse p modulus.now a → ⊥) (IsInverse p modulus.now a) }
{
    let row = product_row(p, modulus, size, a);
    for b in 0..size {
        if row[usize::from(b)] == 1 {
            return Some(b);
        }
    }
    None
}

/// Whether the numbers give a field: p to the number of digits is 2 to 256, the numbers of the modulus are below p, and
/// each nonzero element has an inverse. A fault of size comes before one of the inverses, which carries the first
/// element without one. It answers the number of elements, and takes no memory.
pub(crate) fn admits_numbers(p: u16, modulus: &[u8]) -> Result<u16, FieldFault>
    ensures ok { OnOk result (IsAdmitted p modulus.now) }
    ensures elements { IfOk result (λ q. q ≡ p ^ length modulus.now) }
    ensures size { IsErrOf result FieldFault.Size → FitsField p modulus.now → ⊥ }
    ensures no_inverse { (element : ℕ) → IsErrOf result (FieldFault.NoInverse element)
        → IsFirstWithoutInverse p modulus.now element }
    ensures no_memory_needed { result ≢ Err FieldFault.Memory }
{
    let Some(size) = size_by_digits(p, modulus) else {
        return Err(FieldFault::Size);
    };
    for a in 1..size {
        if inverse_of(p, modulus, size, a).is_none() {
            return Err(FieldFault::NoInverse { element: a as u8 });
        }
    }
    Ok(size)
}
