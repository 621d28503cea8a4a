// The adapters of std's streams, over streams that keep what was asked of them.
ghost use Rattle.std.specs.Prelude.{◌≤◌, IfOk};

use spl_outside::outside::{Failed, Sink, Source};
use spl_outside::streams::{StdSink, StdSource};
use spl_outside::write::write_whole;
use std::io;
use std::io::{ErrorKind, Read, Write};
use std::test::Fail;

const TEXT: &[u8] = b"abcdefghij";

/// A stream whose first call is interrupted, and each other of which gives or takes at most four bytes. It counts its
/// calls, and keeps how many bytes each of the first four was offered.
#[derive(Drop)]
struct Interrupted {
    calls: usize,
    offered: [usize; 4],
}

impl Interrupted {
    fn new() -> Interrupted {
        Interrupted {
            calls: 0,
            offered: [0; 4],
        }
    }

    fn answer(&mut self, size: usize) -> io::Result<usize>
        ensures { IfOk result (λ n. n ≤ size) }
    {
        if self.calls < 4 {
            self.offered[self.calls] = size;
        }
        self.calls = self.calls.saturating_add(1);
        if self.calls == 1 {
            return Err(io::Error::from(ErrorKind::Interrupted));
        }
        Ok(size.min(4))
    }
}

impl Read for Interrupted {
    fn read(&mut self, buf: &mut [u8]) -> io::Result<usize> {
        self.answer(buf.len())
    }
}

impl Write for Interrupted {
    fn write(&mut self, buf: &[u8]) -> io::Result<usize> {
        self.answer(buf.len())
    }

    fn flush(&mut self) -> io::Result<()> {
        Ok(())
    }
}

#[test]
fn an_interrupted_read_fails_once_and_is_not_tried_again(rt: HostRuntime) -> Result<(), Fail> {
    let mut source = StdSource::new(Interrupted::new());
    let mut buf = [0u8; 8];
    let first = source.read(&mut buf);
    let second = source.read(&mut buf);
    assert_eq!(rt; first, Err(Failed));
    assert_eq!(rt; second, Ok(4));
    assert_eq!(rt; source.into_inner().calls, 2);
    Ok(())
}

#[test]
fn an_interrupted_write_fails_once_and_is_not_tried_again(rt: HostRuntime) -> Result<(), Fail> {
    let mut sink = StdSink::new(Interrupted::new());
    assert_eq!(rt; write_whole(&mut sink, TEXT), Err(Failed));
    assert_eq!(rt; sink.into_inner().calls, 1);
    Ok(())
}

#[test]
fn each_write_is_offered_the_whole_rest(rt: HostRuntime) -> Result<(), Fail> {
    let mut sink = StdSink::new(Interrupted::new());
    assert_eq!(rt; sink.write(b"abc"), Err(Failed));
    assert_eq!(rt; write_whole(&mut sink, TEXT), Ok(()));
    assert_eq!(rt; sink.into_inner().offered, [3, 10, 6, 2]);
    Ok(())
}

#[test]
fn bytes_are_passed_on(rt: HostRuntime) -> Result<(), Fail> {
    let mut source = StdSource::new(TEXT);
    let mut buf = [0u8; 16];
    assert_eq!(rt; source.read(&mut buf), Ok(10));
    assert_eq!(rt; &buf[..10], TEXT);
    assert_eq!(rt; source.read(&mut buf), Ok(0));

    let mut sink = StdSink::new(Vec::new(rt.alloc()));
    assert_eq!(rt; write_whole(&mut sink, TEXT), Ok(()));
    assert_eq!(rt; sink.into_inner().as_slice(), TEXT);
    Ok(())
}
