// Calls of sources and sinks.
use spl_outside::memory::{MemSink, MemSource};
use spl_outside::outside::{Sink, Source};
use spl_outside::streams::{StdSink, StdSource};
use spl_outside::write::write_whole;
use spl_words::fault::Fault;
use spl_words::{args, show, texts};
use std::alloc::Global;

/// The most bytes of a sink's room, and of what moves at a call.
const MOST: usize = 67108864;

/// The most bytes that are asked for at a call.
const BUFFER: usize = 64;

/// A source of the text: the most bytes at a call, and which calls fail.
pub(crate) fn source(
    alloc: Global,
    text: &str,
    most: &str,
    failing: &str,
) -> Result<MemSource, Fault> {
    let most = args::positive(most, MOST)?;
    let failing = args::list(alloc, failing)?;
    Ok(MemSource::new(texts::bytes_of(alloc, text)?, most, failing))
}

/// A sink: its room, the most bytes at a call, and which calls fail.
pub(crate) fn sink(alloc: Global, room: &str, most: &str, failing: &str) -> Result<MemSink, Fault> {
    let room = args::below(room, MOST)?;
    let most = args::positive(most, MOST)?;
    let failing = args::list(alloc, failing)?;
    Ok(MemSink::new(alloc, room, most, failing)?)
}

/// One read of so many bytes: how many came, or `failed`; the bytes are appended.
fn read<S: Source>(
    source: &mut S,
    size: usize,
    bytes: &mut Vec<u8>,
    out: &mut Vec<u8>,
) -> Result<(), Fault> {
    if size > BUFFER {
        return Err(Fault::BadLine);
    }
    let mut buf = [0u8; BUFFER];
    match source.read(&mut buf[..size]) {
        Ok(n) => {
            bytes.extend_from_slice(&buf[..n])?;
            show::count(out, n)
        }
        Err(_) => show::word(out, "failed"),
    }
}

/// What reads of so many bytes answer, one after another, and what they read.
fn reads<S: Source>(
    alloc: Global,
    source: &mut S,
    sizes: &str,
    out: &mut Vec<u8>,
) -> Result<(), Fault> {
    let sizes = args::list(alloc, sizes)?;
    let mut bytes = Vec::new(alloc);
    for size in sizes.as_slice() {
        read(source, *size as usize, &mut bytes, out)?;
    }
    show::text(out, bytes.as_slice())
}

/// `read TEXT MOST FAILING SIZES`
fn read_memory(alloc: Global, words: [&str; 4], out: &mut Vec<u8>) -> Result<(), Fault> {
    let mut source = source(alloc, words[0], words[1], words[2])?;
    reads(alloc, &mut source, words[3], out)
}

/// `read TEXT SIZES`: of a stream of std.
fn read_stream(alloc: Global, text: &str, sizes: &str, out: &mut Vec<u8>) -> Result<(), Fault> {
    let bytes = texts::bytes_of(alloc, text)?;
    let mut source = StdSource::new(bytes.as_slice());
    reads(alloc, &mut source, sizes, out)
}

/// What writes of the texts answer, one after another: how many bytes were taken, or `failed`.
fn writes<K: Sink>(
    alloc: Global,
    sink: &mut K,
    pieces: &str,
    out: &mut Vec<u8>,
) -> Result<(), Fault> {
    for piece in pieces.split(',') {
        match sink.write(texts::bytes_of(alloc, piece)?.as_slice()) {
            Ok(n) => show::count(out, n)?,
            Err(_) => show::word(out, "failed")?,
        }
    }
    Ok(())
}

/// `write ROOM MOST FAILING PIECES`: what the writes answer, and all that is written.
fn write_memory(alloc: Global, words: [&str; 4], out: &mut Vec<u8>) -> Result<(), Fault> {
    let mut sink = sink(alloc, words[0], words[1], words[2])?;
    writes(alloc, &mut sink, words[3], out)?;
    show::text(out, sink.bytes())
}

/// `write PIECES`: to a stream of std.
fn write_stream(alloc: Global, pieces: &str, out: &mut Vec<u8>) -> Result<(), Fault> {
    let mut sink = StdSink::new(Vec::new(alloc));
    writes(alloc, &mut sink, pieces, out)?;
    show::text(out, sink.into_inner().as_slice())
}

/// `write_whole ROOM MOST FAILING TEXT`: `whole` or `failed`, how many bytes are written, and these.
fn whole_memory(alloc: Global, words: [&str; 4], out: &mut Vec<u8>) -> Result<(), Fault> {
    let mut sink = sink(alloc, words[0], words[1], words[2])?;
    let is_whole = write_whole(&mut sink, texts::bytes_of(alloc, words[3])?.as_slice()).is_ok();
    show::word(out, if is_whole { "whole" } else { "failed" })?;
    show::count(out, sink.bytes().len())?;
    show::text(out, sink.bytes())
}

/// `write_whole TEXT`: to a stream of std.
fn whole_stream(alloc: Global, text: &str, out: &mut Vec<u8>) -> Result<(), Fault> {
    let mut sink = StdSink::new(Vec::new(alloc));
    let is_whole = write_whole(&mut sink, texts::bytes_of(alloc, text)?.as_slice()).is_ok();
    show::word(out, if is_whole { "whole" } else { "failed" })?;
    show::text(out, sink.into_inner().as_slice())
}

/// The answer of a call of a source or a sink in memory.
pub(crate) fn memory(
    alloc: Global,
    call: &str,
    words: &[&str],
    out: &mut Vec<u8>,
) -> Result<(), Fault> {
    let [a, b, c, d] = words else {
        return Err(Fault::BadLine);
    };
    match call {
        "read" => read_memory(alloc, [*a, *b, *c, *d], out),
        "write" => write_memory(alloc, [*a, *b, *c, *d], out),
        "write_whole" => whole_memory(alloc, [*a, *b, *c, *d], out),
        _ => Err(Fault::BadLine),
    }
}

/// The answer of a call of a source or a sink over a stream of std.
pub(crate) fn stream(
    alloc: Global,
    call: &str,
    words: &[&str],
    out: &mut Vec<u8>,
) -> Result<(), Fault> {
    match (call, words) {
        ("read", [text, sizes]) => read_stream(alloc, text, sizes, out),
        ("write", [pieces]) => write_stream(alloc, pieces, out),
        ("write_whole", [text]) => whole_stream(alloc, text, out),
        _ => Err(Fault::BadLine),
    }
}
