// The program `spl`: its words, its standard input and its standard output, handed to `run`.
#![tactic(auto)]

use spl_cli::run::run;
use spl_cli::words::Words;
use spl_outside::streams::{StdSink, StdSource};
use std::process::ExitCode;
use std::{env, io};

/// The exit status where there is no memory to collect the words.
const NO_MEMORY: u8 = 6;

/// The exit status where the words are not handed out for another cause.
const NO_WORDS: u8 = 7;

/// The words after the program's name, or the exit status where there are none.
fn words_of(rt: &HostRuntime) -> Result<Words, u8> {
    let args = match env::args(rt) {
        Ok(args) => args,
        Err(error) if error.kind() == io::ErrorKind::OutOfMemory => return Err(NO_MEMORY),
        Err(_) => return Err(NO_WORDS),
    };
    let mut words = Words::new(rt.alloc());
    for word in args.skip(1) {
        if words.push(word.as_str()).is_err() {
            return Err(NO_MEMORY);
        }
    }
    Ok(words)
}

fn main(rt: HostRuntime) -> ExitCode {
    match words_of(&rt) {
        Err(code) => ExitCode::from(code),
        Ok(words) => {
            let mut source = StdSource::new(rt.stdin());
            let mut sink = StdSink::new(rt.stdout());
            ExitCode::from(run(rt.alloc(), &words, &mut source, &mut sink).code())
        }
    }
}
