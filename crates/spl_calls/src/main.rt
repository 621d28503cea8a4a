// Calls of the libraries, one a line of standard input, and one line of answer each. Its stored input and output are
// tests of the libraries by cases; docs/CALLS.md says how a line looks.
//
// It stands on all crates of the program; on spl_words, which has the calls of those up to algebras, and reads arguments
// and writes answers; and on spl_place_words, which has those of radicals and blocks. `session` takes the lines; each
// other module has the calls of a crate or two.
#![tactic(auto)]

mod devices;
mod evidences;
mod runs;
mod session;
mod tables;

use anyhow::Result;
use std::io;
use std::io::Write;

fn main(rt: HostRuntime) -> Result<()> {
    let alloc = rt.alloc();
    let input = io::read_to_string(alloc, rt.reader())?;
    let out = session::answers(alloc, input.as_str())?;
    let mut writer = io::writer(&rt);
    writer.write_all(out.as_slice())?;
    Ok(())
}
