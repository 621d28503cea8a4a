// What a program may ask of the outside, and what it may rely on.
ghost use Rattle.std.specs.Prelude.{◌≡◌, ℕ, ◌<◌, ◌≤◌, Bool, IsTrue, List, length, take, is_some, IfOk, OnErr, OnOk};
ghost use Rattle.std.specs.Prelude.{Option};
ghost use Rattle.std.specs.Io.KnownBytes.{Keeps, Appends, Consumes, IsAtEnd};
ghost use Rattle.spl_outside.specs.Faults.{Rose};
ghost use Rattle.spl_outside.specs.Room.{HasRoom};

/// A read or a write failed.
#[derive(Clone, Copy, Debug, PartialEq, Eq)]
pub struct Failed;

/// Where bytes come from.
///
/// `left` is the bytes that are still to come, where the source tells them; `faults` counts the calls that failed, and
/// never falls; where `steady` is true no call fails.
pub trait Source {
    ghost left: { Self → Option (List ℕ) };

    ghost faults: { Self → ℕ };

    ghost steady: { Self → Bool };

    /// Puts some of the next bytes at the front of the buffer, and says how many; none, into a buffer that has room,
    /// only at the end of the input.
    fn read(&mut self, buf: &mut [u8]) -> Result<usize, Failed>
        ensures within { IfOk result (λ n. n ≤ length buf.new) }
        ensures taken { IfOk result (λ n. Consumes (left self.old) (left self.new) (take n buf.new)) }
        ensures end { result ≡ Ok 0 → 0 < length buf.new → IsAtEnd (left self.old) }
        // A call fails exactly where it counts a fault, and then nothing is lost.
        ensures rose { OnErr result (Rose (faults self.old) (faults self.new)) }
        ensures kept { OnErr result (Keeps (left self.old) (left self.new)) }
        ensures no_fault { OnOk result (faults self.new ≡ faults self.old) }

        ensures faults { faults self.old ≤ faults self.new }
        ensures told { is_some (left self.new) ≡ is_some (left self.old) }
        ensures steady { steady self.new ≡ steady self.old };

    ghost quiet: { (s : Self) → IsTrue (steady s) → faults s ≡ 0 };
}

/// Where bytes go.
///
/// `written` is what was written, where the sink tells it; `faults` counts the calls that failed, and never falls;
/// where `steady` is told, no call fails before that many bytes are written.
pub trait Sink {
    ghost written: { Self → Option (List ℕ) };

    ghost faults: { Self → ℕ };

    ghost steady: { Self → Option ℕ };

    /// Writes some bytes of the front of the piece, at least one of a piece that is not empty, and says how many.
    fn write(&mut self, piece: &[u8]) -> Result<usize, Failed>
        ensures within { IfOk result (λ n. n ≤ length piece.now) }
        ensures some { IfOk result (λ n. 0 < length piece.now → 0 < n) }
        ensures grew { IfOk result (λ n. Appends (written self.old) (written self.new) (take n piece.now)) }
        // A call fails exactly where it counts a fault, and then nothing is written.
        ensures rose { OnErr result (Rose (faults self.old) (faults self.new)) }
        ensures kept { OnErr result (Keeps (written self.old) (written self.new)) }
        ensures no_fault { OnOk result (faults self.new ≡ faults self.old) }

        ensures faults { faults self.old ≤ faults self.new }
        ensures told { is_some (written self.new) ≡ is_some (written self.old) }
        ensures steady { steady self.new ≡ steady self.old };

    ghost quiet: { (s : Self) → HasRoom (written s) (steady s) → faults s ≡ 0 };
}
