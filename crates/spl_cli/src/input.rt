// Reading the input.
ghost use Rattle.std.specs.Prelude.{◌≡◌, ℕ, ◌+◌, ◌<◌, ◌≤◌, ◌^◌, ◌++◌, length, take, is_some, IfOk, OnOk, OnErr};
ghost use Rattle.std.specs.Prelude.{IsErrOf};
ghost use Rattle.std.specs.Io.KnownBytes.{Consumes, IsAtEnd};
ghost use Rattle.spl_outside.specs.Faults.{Rose};
ghost use Rattle.spl_outside.specs.Prefix.{ConsumesAtMost};

use spl_outside::outside::{Failed, Source};
use std::alloc::{AllocError, Global};

/// Why there is no input.
#[derive(Debug, Drop)]
pub(crate) enum InputFault {
    Read,
    Memory,
}

impl From<AllocError> for InputFault {
    ghost use Rattle.spl_cli.specs.declared.input.InputFault.TheVariants.{Memory};

    ghost from_gives = { λ _ e. e ≡ Memory };

    fn from(_e: AllocError) -> InputFault {
        InputFault::Memory
    }
}

/// Appends the next bytes of the source to the input, by way of the buffer, and says how many; none only at the end.
fn read_piece<S: Source>(
    source: &mut S,
    buffer: &mut [u8],
    input: &mut Vec<u8>,
) -> Result<usize, InputFault>
    requires { 0 < length buffer.old }
    ensures within { IfOk result (λ n. n ≤ length buffer.new) }
    ensures appended { IfOk result (λ n. input.new.items ≡ input.old.items ++ take n buffer.new) }
    ensures taken { IfOk result (λ n. Consumes (S.left source.old) (S.left source.new) (take n buffer.new)) }
    ensures end { result ≡ Ok 0 → IsAtEnd (S.left source.new) }
    ensures bounded { ConsumesAtMost (length buffer.old) (S.left source.old) (S.left source.new) }
    ensures rose { IsErrOf result InputFault.Read → Rose (S.faults source.old) (S.faults source.new) }
    ensures no_fault { OnOk result (S.faults source.new ≡ S.faults source.old) }
    ensures memory { IsErrOf result InputFault.Memory → S.faults source.new ≡ S.faults source.old }

    ensures faults { S.faults source.old ≤ S.faults source.new }
    ensures told { is_some (S.left source.new) ≡ is_some (S.left source.old) }
    ensures steady { S.steady source.new ≡ S.steady source.old }
{
    match source.read(buffer) {
        Err(Failed) => Err(InputFault::Read),
        Ok(n) => {
            input.extend_from_slice(&buffer[..n])?;
            Ok(n)
        }
    }
}

/// A buffer of this many bytes.
fn buffer_of(alloc: Global, size: usize) -> Result<Vec<u8>, InputFault>
    ensures size { IfOk result (λ buffer. length buffer.items ≡ size) }
    ensures memory { IsErrOf result InputFault.Read → ⊥ }
{
    Ok(vec![in alloc; 0u8; size]?)
}

/// The bytes of the source, to its end or to one byte past the limit, by pieces of at most `piece` bytes.
pub(crate) fn read_input<S: Source>(
    alloc: Global,
    source: &mut S,
    limit: usize,
    piece: usize,
) -> Result<Vec<u8>, InputFault>
    requires bounded { limit < 2 ^ 62 }
    requires some { 0 < piece }
    ensures taken { IfOk result (λ input. Consumes (S.left source.old) (S.left source.new) input.items) }
    ensures most { IfOk result (λ input. length input.items ≤ limit + 1) }
    ensures whole { IfOk result (λ input. length input.items ≤ limit → IsAtEnd (S.left source.new)) }
    ensures bounded { ConsumesAtMost (limit + 1) (S.left source.old) (S.left source.new) }
    ensures rose { IsErrOf result InputFault.Read → Rose (S.faults source.old) (S.faults source.new) }
    ensures no_fault { OnOk result (S.faults source.new ≡ S.faults source.old) }
    ensures memory { IsErrOf result InputFault.Memory → S.faults source.new ≡ S.faults source.old }

    ensures faults { S.faults source.old ≤ S.faults source.new }
    ensures told { is_some (S.left source.new) ≡ is_some (S.left source.old) }
    ensures steady { S.steady source.new ≡ S.steady source.old }
{
    let mut buffer = buffer_of(alloc, piece)?;
    let mut input = Vec::new(alloc);
    while input.len() <= limit {
        let room = (limit + 1 - input.len()).min(piece);
        if read_piece(source, &mut buffer[..room], &mut input)? == 0 {
            break;
        }
    }
    Ok(input)
}
