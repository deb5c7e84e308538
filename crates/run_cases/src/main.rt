//! Worked cases of the program's commands, over files and streams in memory. The cases are text: what a command finds, and
//! then its words. What each leads to is written, and the file stdout says what that must be.
//!
//! Each line of the input is written again, unless it is of a file's bytes:
//!
//! - `case TITLE`: a new case. Of the files so far it has those that stand before the first case.
//! - `file NAME`: a file, in place of any that had this name. The lines behind it are its bytes:
//!   - `|TEXT`: this text and a line feed,
//!   - `=TEXT`: what this text spells, and no line feed,
//!   - `*COUNT TEXT`: the one byte that this text spells, as often as makes the file COUNT bytes long.
//! - `pieces read COUNT`: a read of a file gives at most so many bytes. `pieces out COUNT`, `pieces err COUNT`: a write to
//!   the output, or to the error stream, takes at most so many.
//! - `refuse find CALL`: of the searches for a file the one of this number, from 1 on, is refused. `refuse read NAME CALL`: of
//!   the reads of a file. `refuse out CALL`, `refuse err CALL`: of the writes to the output, or to the error stream.
//! - `front TEXT`: how much is written to the output depends on the schedule. It is some front of what this text spells.
//! - `run WORD ..`: the top call carries out the words that these spell. Its exit status is written, the files that it asked
//!   for, and what it wrote to the output and to the error stream, with the escapes of a byte string; of over 1,000 bytes only
//!   how many there are. A line more is written only where a source that was found isn't given back, where a source is read
//!   behind the read that gave nothing or was refused, where something is written behind a refused write, or where a command
//!   that writes at its end writes a piece before its whole text is known.
//! - `alone WORD ..`: the same by the call that starts no thread.
//! - `found WORD ..`: as `run`, and then how many sources were found, and how many of them were given back.
//! - `edges WORD ..`: as `run`, and then how many edges and workers there were, and whether each worker took and put what its
//!   edges carried. The nodes of the plan are a chain.
//!
//! Pieces, refusals and a front are those of the next `run`, `alone`, `found` or `edges` only. An empty line says nothing.
//!
//! Where a text spells, `\n` stands for a line feed, `\r` for a carriage return, `\s` for a space, `\\` for a backslash, `\e`
//! for nothing and `\x` with two digits for the byte of this hexadecimal number.
#![tactic(auto)]

mod play;
mod telling;

use anyhow::{Result, bail};
use play::{play_alone, play_on_threads};
use std::alloc::Global;
use std::sync::Wait;
use std::thread::Threads;
use std::time::Clock;
use telling::{tell, tell_edges, tell_found};
use test_outside::Case;

fn main(rt: HostRuntime) -> Result<()> {
    let alloc = rt.alloc();
    let mut case = Case::new(alloc);
    for line in rt.lines(alloc) {
        let line = line?;
        step(rt, alloc, &mut case, line.as_str())?;
    }
    Ok(())
}

/// Does what a line says.
fn step<R: Threads + Wait + Clock + Print + Copy + Drop + Send + Sync + 'static>(
    rt: R,
    alloc: Global,
    case: &mut Case,
    line: &str,
) -> Result<()> {
    if case.takes_bytes(line)? {
        return Ok(());
    }
    println!(rt; "{line}")?;
    let words: Vec<&str> = line.split_whitespace().collect(alloc)?;
    if case.is_arranged(words.as_slice())? {
        return Ok(());
    }
    carry_out(rt, alloc, case, words.as_slice())
}

/// Carries out a command, and writes what it led to.
fn carry_out<R: Threads + Wait + Clock + Print + Copy + Drop + Send + Sync + 'static>(
    rt: R,
    alloc: Global,
    case: &mut Case,
    words: &[&str],
) -> Result<()> {
    match words {
        ["run", words @ ..] => tell(&rt, &play_on_threads(rt, alloc, case, words)?),
        ["edges", words @ ..] => {
            let played = play_on_threads(rt, alloc, case, words)?;
            tell(&rt, &played)?;
            tell_edges(&rt, &played.ending)
        }
        ["found", words @ ..] => {
            let played = play_on_threads(rt, alloc, case, words)?;
            tell(&rt, &played)?;
            tell_found(&rt, &played)
        }
        ["alone", words @ ..] => tell(&rt, &play_alone(alloc, case, words)?),
        _ => bail!("no such line: {words:?}"),
    }
}
