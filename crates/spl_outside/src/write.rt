// Writing all of a text.
ghost use Rattle.std.specs.Prelude.{◌≡◌, ℕ, ◌≤◌, length, take, is_some, OnOk, OnErr};
ghost use Rattle.std.specs.Io.KnownBytes.{Appends};
ghost use Rattle.spl_outside.specs.Faults.{Rose};
ghost use Rattle.spl_outside.specs.Prefix.{AppendsPart};

use crate::outside::{Failed, Sink};

/// Writes all the bytes, by as many calls as it takes, each of which is offered the whole rest. Where a call fails, a
/// proper prefix of the bytes is written. It takes no memory.
pub fn write_whole<K: Sink>(sink: &mut K, bytes: &[u8]) -> Result<(), Failed>
    ensures ok { OnOk result (Appends (K.written sink.old) (K.written sink.new) bytes.now) }
    ensures part { OnErr result (AppendsPart (K.written sink.old) (K.written sink.new) bytes.now) }
    ensures rose { OnErr result (Rose (K.faults sink.old) (K.faults sink.new)) }
    ensures no_fault { OnOk result (K.faults sink.new ≡ K.faults sink.old) }

    ensures faults { K.faults sink.old ≤ K.faults sink.new }
    ensures told { is_some (K.written sink.new) ≡ is_some (K.written sink.old) }
    ensures steady { K.steady sink.new ≡ K.steady sink.old }
{
    let mut taken = 0;
    while taken < bytes.len() {
        taken += sink.write(&bytes[taken..])?;
    }
    Ok(())
}
