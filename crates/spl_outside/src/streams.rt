// The adapters of std's reader and writer: the trusted edge, since nobody can say what a file or a terminal gives.
ghost use Rattle.std.specs.Prelude.{◌≡◌, ℕ, ◌<◌, ◌≤◌, None, false, length, take, IfOk, OnOk, OnErr};
ghost use Rattle.std.specs.Io.KnownBytes.{ReadConsumes, WriteAppends};
ghost use Rattle.std.proofs.Common.{rules};
ghost use Rattle.spl_outside.specs.Faults.{Rose, next_count};
ghost use Rattle.spl_outside.specs.Streams.{reader_of, read_faults, writer_of, write_faults};

use crate::faults::next;
use crate::outside::{Failed, Sink, Source};
use std::io::{Read, Write};

/// A reader of std's as a source. It tells no content, and any call may fail. The count of its faults stands still at
/// 2^64 − 1.
#[derive(Drop)]
pub struct StdSource<R> {
    inner: R,
    faults: u64,
}

/// A writer of std's as a sink. It tells no content, and any call may fail. It holds no bytes back and flushes nothing.
/// The count of its faults stands still at 2^64 − 1.
#[derive(Drop)]
pub struct StdSink<W> {
    inner: W,
    faults: u64,
}

impl<R> StdSource<R> {
    /// The source of what the reader gives.
    pub fn new(inner: R) -> StdSource<R>
        ensures reader { reader_of result ≡ inner }
        ensures faults { read_faults result ≡ 0 }
    {
        StdSource { inner, faults: 0 }
    }

    /// The reader.
    pub fn into_inner(self) -> R
        ensures { result ≡ reader_of self }
    {
        self.inner
    }
}

impl<R: Read> Source for StdSource<R> {
    ghost left = { λ _. None };

    ghost faults = { read_faults };

    ghost steady = { λ _. false };

    // Each error of the reader's is a failure; what is interrupted is not tried again.
    fn read(&mut self, buf: &mut [u8]) -> Result<usize, Failed>
        ensures within { IfOk result (λ n. n ≤ length buf.new) }
        ensures bytes { ReadConsumes (R.remaining (reader_of self.old))
            (R.remaining (reader_of self.new)) result buf.new }
        ensures no_fault { OnOk result (read_faults self.new ≡ read_faults self.old) }
        ensures fault { OnErr result (read_faults self.new ≡ next_count (read_faults self.old)) }
        ensures rose { OnErr result (Rose (read_faults self.old) (read_faults self.new)) }
        ensures faults { read_faults self.old ≤ read_faults self.new }
    {
        match self.inner.read(buf) {
            Ok(n) => Ok(n),
            Err(_) => {
                self.faults = next(self.faults);
                Err(Failed)
            }
        }
    }

    ghost quiet = { Prim.search rules };
}

impl<W> StdSink<W> {
    /// The sink that gives all to the writer.
    pub fn new(inner: W) -> StdSink<W>
        ensures writer { writer_of result ≡ inner }
        ensures faults { write_faults result ≡ 0 }
    {
        StdSink { inner, faults: 0 }
    }

    /// The writer.
    pub fn into_inner(self) -> W
        ensures { result ≡ writer_of self }
    {
        self.inner
    }
}

impl<W: Write> Sink for StdSink<W> {
    ghost written = { λ _. None };

    ghost faults = { write_faults };

    ghost steady = { λ _. None };

    // Each error of the writer's is a failure, and so is a write of no byte of a piece that has some.
    fn write(&mut self, piece: &[u8]) -> Result<usize, Failed>
        ensures within { IfOk result (λ n. n ≤ length piece.now) }
        ensures some { IfOk result (λ n. 0 < length piece.now → 0 < n) }
        ensures bytes { WriteAppends (W.contents (writer_of self.old))
            (W.contents (writer_of self.new)) result piece.now }
        ensures no_fault { OnOk result (write_faults self.new ≡ write_faults self.old) }
        ensures fault { OnErr result (write_faults self.new ≡ next_count (write_faults self.old)) }
        ensures rose { OnErr result (Rose (write_faults self.old) (write_faults self.new)) }
        ensures faults { write_faults self.old ≤ write_faults self.new }
    {
        match self.inner.write(piece) {
            Ok(n) if n > 0 || piece.is_empty() => Ok(n),
            _ => {
                self.faults = next(self.faults);
                Err(Failed)
            }
        }
    }

    ghost quiet = { Prim.search rules };
}
