// Whole runs of the program.
use crate::devices::{sink, source};
use spl_cli::run::run;
use spl_cli::words::Words;
use spl_outside::memory::MemSource;
use spl_outside::outside::Source;
use spl_outside::streams::{StdSink, StdSource};
use spl_words::fault::Fault;
use spl_words::{show, texts};
use std::alloc::Global;

/// Words joined by commas, or `-` for none.
fn words_of(alloc: Global, joined: &str) -> Result<Words, Fault> {
    let mut words = Words::new(alloc);
    if joined != "-" {
        for word in joined.split(',') {
            words.push(word)?;
        }
    }
    Ok(words)
}

/// How many bytes are left to read.
fn left(source: &mut MemSource, most: usize) -> usize {
    let mut buf = [0u8; 4096];
    let mut count: usize = 0;
    for _ in 0..most {
        match source.read(&mut buf) {
            Ok(0) => break,
            Ok(n) => count = count.saturating_add(n),
            Err(_) => {}
        }
    }
    count
}

/// `run WORDS TEXT MOST FAILING ROOM MOST FAILING`: the status, how many bytes were read, and what is written.
fn over_memory(alloc: Global, words: &[&str; 7], out: &mut Vec<u8>) -> Result<(), Fault> {
    let [joined, text, most, failing, room, sink_most, sink_failing] = words;
    let words = words_of(alloc, joined)?;
    let mut source = source(alloc, text, most, failing)?;
    let mut sink = sink(alloc, room, sink_most, sink_failing)?;
    let status = run(alloc, &words, &mut source, &mut sink);
    show::number(out, u32::from(status.code()))?;
    let rest = left(&mut source, text.len());
    show::count(out, text.len().saturating_sub(rest))?;
    show::text(out, sink.bytes())
}

/// `run WORDS TEXT`: over std's streams, which take and give all that is asked: the status, and what is written.
fn over_streams(alloc: Global, joined: &str, text: &str, out: &mut Vec<u8>) -> Result<(), Fault> {
    let words = words_of(alloc, joined)?;
    let bytes = texts::bytes_of(alloc, text)?;
    let mut source = StdSource::new(bytes.as_slice());
    let mut sink = StdSink::new(Vec::new(alloc));
    let status = run(alloc, &words, &mut source, &mut sink);
    show::number(out, u32::from(status.code()))?;
    show::text(out, sink.into_inner().as_slice())
}

/// The answer of a run.
pub(crate) fn call(alloc: Global, words: &[&str], out: &mut Vec<u8>) -> Result<(), Fault> {
    match words {
        [joined, text] => over_streams(alloc, joined, text, out),
        [joined, text, most, failing, room, sink_most, sink_failing] => over_memory(
            alloc,
            &[
                *joined,
                *text,
                *most,
                *failing,
                *room,
                *sink_most,
                *sink_failing,
            ],
            out,
        ),
        _ => Err(Fault::BadLine),
    }
}
