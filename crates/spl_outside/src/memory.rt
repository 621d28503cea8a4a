// A source and a sink in memory, whose calls fail as they are told to.
ghost use Rattle.std.specs.Prelude.{◌≡◌, ℕ, ◌+◌, ◌-◌, ◌<◌, ◌≤◌, [], ◌++◌, ◌⊎◌, ◌↔◌, List, length, take, drop, min};
ghost use Rattle.std.specs.Prelude.{Contains, IsTrue, IsErr, is_some, IfOk, OnOk, OnErr, Option};
ghost use Rattle.std.specs.Io.KnownBytes.{Keeps, Appends, Consumes, IsAtEnd};
ghost use Rattle.spl_outside.specs.Faults.{Rose, next_count};

use crate::faults::next;
use crate::outside::{Failed, Sink, Source};
use spl_field::field::NoMemory;
use std::alloc::Global;

/// Bytes in memory, as a source. The number of its next call and the count of its faults stand still at 2^64 − 1.
#[derive(Drop)]
pub struct MemSource {
    bytes: Vec<u8>,
    start: usize,
    most: usize,
    failing: Vec<u64>,
    call: u64,
    faults: u64,
    ghost within: { start ≤ length bytes.items },
    ghost positive: { 1 ≤ most },
    ghost quiet: { failing.items ≡ [] → faults ≡ 0 },
}

/// A buffer in memory, as a sink. The number of its next call and the count of its faults stand still at 2^64 − 1.
#[derive(Drop)]
pub struct MemSink {
    buffer: Vec<u8>,
    end: usize,
    room: usize,
    most: usize,
    failing: Vec<u64>,
    call: u64,
    faults: u64,
    ghost full: { length buffer.items ≡ room },
    ghost within: { end ≤ room },
    ghost positive: { 1 ≤ most },
    ghost quiet: { failing.items ≡ [] → end < room → faults ≡ 0 },
}

impl MemSource {
    ghost use Rattle.spl_outside.specs.Memory.{left_of, source_failing, source_call, source_most, source_faults};

    /// A source of these bytes that gives at most `most` of them at a call, and whose calls with the listed numbers
    /// fail. Calls are counted from 1.
    pub fn new(bytes: Vec<u8>, most: usize, failing: Vec<u64>) -> MemSource
        requires { 1 ≤ most }
        ensures left { left_of result ≡ bytes.items }
        ensures most { source_most result ≡ most }
        ensures failing { source_failing result ≡ failing.items }
        ensures call { source_call result ≡ 1 }
        ensures faults { source_faults result ≡ 0 }
    {
        MemSource {
            bytes,
            start: 0,
            most,
            failing,
            call: 1,
            faults: 0,
        }
    }
}

impl Source for MemSource {
    ghost use Rattle.std.specs.Prelude.{Some};
    ghost use Rattle.spl_outside.specs.Memory.{left_of, source_failing, source_call, source_most, source_faults};
    ghost use Rattle.spl_outside.specs.Memory.{source_steady};
    ghost use Rattle.spl_outside.specs.Steady.{is_empty-sound};

    ghost left = { λ s. Some (left_of s) };

    ghost faults = { source_faults };

    ghost steady = { source_steady };

    fn read(&mut self, buf: &mut [u8]) -> Result<usize, Failed>
        // As every source.
        ensures within { IfOk result (λ n. n ≤ length buf.new) }
        ensures taken { IfOk result (λ n. left_of self.old ≡ take n buf.new ++ left_of self.new) }
        ensures end { result ≡ Ok 0 → 0 < length buf.new → left_of self.old ≡ [] }
        ensures rose { OnErr result (Rose (source_faults self.old) (source_faults self.new)) }
        ensures kept { OnErr result (left_of self.new ≡ left_of self.old) }
        ensures faults { source_faults self.old ≤ source_faults self.new }
        ensures steady { source_steady self.new ≡ source_steady self.old }

        // Exactly the listed calls fail, and each other call gives all that it may.
        ensures failed { IsErr result ↔ Contains (source_failing self.old) (source_call self.old) }
        ensures given { IfOk result (λ n. n ≡ min
            (min (length (left_of self.old)) (length buf.old)) (source_most self.old)) }
        ensures copied { IfOk result (λ n. buf.new ≡ take n (left_of self.old) ++ drop n buf.old) }
        ensures untouched { OnErr result (buf.new ≡ buf.old) }

        ensures no_fault { OnOk result (source_faults self.new ≡ source_faults self.old) }
        ensures fault { OnErr result (source_faults self.new ≡ next_count (source_faults self.old)) }
        ensures call { source_call self.new ≡ next_count (source_call self.old) }
        ensures failing { source_failing self.new ≡ source_failing self.old }
        ensures most { source_most self.new ≡ source_most self.old }
    {
        let fails = self.failing.contains(&self.call);
        self.call = next(self.call);
        if fails {
            self.faults = next(self.faults);
            return Err(Failed);
        }
        let n = (self.bytes.len() - self.start)
            .min(buf.len())
            .min(self.most);
        buf[..n].copy_from_slice(&self.bytes[self.start..self.start + n]);
        self.start += n;
        Ok(n)
    }

    ghost quiet = { λ s h. s.quiet (is_empty-sound s.failing.items h) };
}

impl MemSink {
    ghost use Rattle.spl_outside.specs.Memory.{written_of, room_of, sink_failing, sink_call, sink_most, sink_faults};

    /// A sink that takes at most `most` bytes at a call and `room` bytes in all, and whose calls with the listed
    /// numbers fail, as do those that find no room. Calls are counted from 1. It reserves the room, so no write takes
    /// memory; where that fails the answer is NoMemory.
    pub fn new(
        alloc: Global,
        room: usize,
        most: usize,
        failing: Vec<u64>,
    ) -> Result<MemSink, NoMemory>
        requires { 1 ≤ most }
        ensures written { IfOk result (λ s. written_of s ≡ []) }
        ensures room { IfOk result (λ s. room_of s ≡ room) }
        ensures most { IfOk result (λ s. sink_most s ≡ most) }
        ensures failing { IfOk result (λ s. sink_failing s ≡ failing.items) }
        ensures call { IfOk result (λ s. sink_call s ≡ 1) }
        ensures faults { IfOk result (λ s. sink_faults s ≡ 0) }
    {
        Ok(MemSink {
            buffer: vec![in alloc; 0; room]?,
            end: 0,
            room,
            most,
            failing,
            call: 1,
            faults: 0,
        })
    }

    /// What is written. It takes no memory.
    pub fn bytes(&self) -> &[u8]
        ensures { result.now ≡ written_of self.now }
    {
        &self.buffer[..self.end]
    }

    /// Whether the next call fails.
    fn fails(&self, piece: &[u8]) -> bool
        ensures { IsTrue result ↔ (Contains (sink_failing self.now) (sink_call self.now)
            ⊎ ((0 < length piece.now) × (length (written_of self.now) ≡ room_of self.now))) }
    {
        self.failing.contains(&self.call) || (!piece.is_empty() && self.end == self.room)
    }
}

impl Sink for MemSink {
    ghost use Rattle.std.specs.Prelude.{Some};
    ghost use Rattle.spl_outside.specs.Memory.{written_of, room_of, sink_failing, sink_call, sink_most, sink_faults};
    ghost use Rattle.spl_outside.specs.Memory.{sink_steady};
    ghost use Rattle.spl_outside.specs.Steady.{room_told-sound};

    ghost written = { λ s. Some (written_of s) };

    ghost faults = { sink_faults };

    ghost steady = { sink_steady };

    fn write(&mut self, piece: &[u8]) -> Result<usize, Failed>
        // As every sink.
        ensures within { IfOk result (λ n. n ≤ length piece.now) }
        ensures some { IfOk result (λ n. 0 < length piece.now → 0 < n) }
        ensures grew { IfOk result (λ n.
            written_of self.new ≡ written_of self.old ++ take n piece.now) }
        ensures rose { OnErr result (Rose (sink_faults self.old) (sink_faults self.new)) }
        ensures kept { OnErr result (written_of self.new ≡ written_of self.old) }
        ensures faults { sink_faults self.old ≤ sink_faults self.new }
        ensures steady { sink_steady self.new ≡ sink_steady self.old }

        // Exactly the listed calls fail and those that find no room, and each other call takes all that it may.
        ensures failed { IsErr result ↔ (Contains (sink_failing self.old) (sink_call self.old)
            ⊎ ((0 < length piece.now) × (length (written_of self.old) ≡ room_of self.old))) }
        ensures accepted { IfOk result (λ n. n ≡ min
            (min (length piece.now) (room_of self.old - length (written_of self.old)))
            (sink_most self.old)) }

        ensures no_fault { OnOk result (sink_faults self.new ≡ sink_faults self.old) }
        ensures fault { OnErr result (sink_faults self.new ≡ next_count (sink_faults self.old)) }
        ensures call { sink_call self.new ≡ next_count (sink_call self.old) }
        ensures failing { sink_failing self.new ≡ sink_failing self.old }
        ensures most { sink_most self.new ≡ sink_most self.old }
        ensures room { room_of self.new ≡ room_of self.old }
    {
        let fails = self.fails(piece);
        self.call = next(self.call);
        if fails {
            self.faults = next(self.faults);
            return Err(Failed);
        }
        let n = piece.len().min(self.room - self.end).min(self.most);
        self.buffer[self.end..self.end + n].copy_from_slice(&piece[..n]);
        self.end += n;
        Ok(n)
    }

    ghost quiet = { λ s h.
        let told = room_told-sound s.failing.items s.buffer.items s.end s.room s.full s.within h in
        s.quiet told.0 told.1 };
}
