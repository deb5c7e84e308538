//! The program `cedr_keys`: by which column of each source a plan can be answered key by key. `keys` is the program in
//! memory, and ends as the record `KeysEnd` in `specs/Ends.antt` says.
#![tactic(auto)]

mod keys;
mod open;
mod outcome;
mod text;

use cedr_io::{DiskFiles, StdSink, write_all};
use keys::keys;
use std::io::ErrorKind;
use std::process::ExitCode;
use std::{env, io};

fn main(rt: HostRuntime) -> ExitCode {
    let code = match words(&rt) {
        Ok(words) => answer(&rt, &words),
        Err(error) if error.kind() == ErrorKind::OutOfMemory => {
            let _ = write_all(&mut StdSink::err(&rt), b"out of memory\n");
            6
        }
        // A word that is no text names no plan, as no word does.
        Err(_) => answer(&rt, &[]),
    };
    ExitCode::from(code)
}

/// The words after the program's name.
fn words(rt: &HostRuntime) -> io::Result<Vec<String>> {
    let words = env::args(rt)?.skip(1).collect(rt.alloc())?;
    Ok(words)
}

fn answer(rt: &HostRuntime, words: &[String]) -> u8 {
    let mut files = DiskFiles::new(rt);
    let mut out = StdSink::out(rt);
    let mut err = StdSink::err(rt);
    keys(rt.alloc(), words, &mut files, &mut out, &mut err)
}
