//! Worked cases of the lowest layers, as text: times, rows, payloads, changes and messages, tables, tests over columns and
//! kept columns, files and sinks in memory, and the real files and streams.
//!
//! The standard input has cases, each up to an empty line. A case begins with a title: its subject, a colon and what the
//! case shows. Each further line asks the subject something, and is written with its answer behind an arrow. Where a call
//! refuses, the answer is the text of its fault. A line that the subject doesn't know ends the program. The file stdout
//! says what has to be written.
//!
//! A time is a number or `inf`. A field that is a number is one; any other is a text, of which quotes at its ends are no
//! part, so that `'7'` is the text of one digit and `''` the empty one. In bytes `%20` stands for a blank, and so on for
//! any byte. A column of two payloads is written `c0`, `c1`, .., and a word of `n` and `t` gives the types of columns, number
//! or text; `-` is the word of none. The subjects:
//!
//! - `values`: see [`values`].
//! - `table`: a table, empty at first; see [`tables`].
//! - `columns`: tests over columns, none at first, and kept columns; see [`columns`].
//! - `files` and `disk`: files in memory, none at first, and the files of the file system; see [`files`].
//! - `sink`, `out` and `err`: a sink in memory, standard output and standard error; see [`sinks`].
#![tactic(auto)]

mod columns;
mod files;
mod sinks;
mod tables;
mod values;
mod words;
mod written;

use anyhow::{Result, bail};
use cedr_expr::Tests;
use cedr_io::{DiskFiles, MemFiles, MemSink, StdSink};
use cedr_table::Table;
use std::alloc::Global;
use values::Values;

/// What a case asks.
trait Subject {
    /// Writes the answer to a line of these words. None where there is no such line.
    fn answer(&mut self, rt: &impl Print, alloc: Global, words: &[&str]) -> Option<Result<()>>;
}

fn main(rt: HostRuntime) -> Result<()> {
    let alloc = rt.alloc();
    let mut lines = Vec::new(alloc);
    for line in rt.lines(alloc) {
        let line = line?;
        if line.as_str().is_empty() {
            begin(&rt, alloc, lines.as_slice())?;
            lines = Vec::new(alloc);
        } else {
            lines.push(line)?;
        }
    }
    begin(&rt, alloc, lines.as_slice())
}

/// Writes a case's title and asks its subject, which is new.
fn begin(rt: &HostRuntime, alloc: Global, lines: &[String]) -> Result<()> {
    let Some((title, lines)) = lines.split_first() else {
        return Ok(());
    };
    println!(rt; "{title}")?;
    match title.split_once(':') {
        Some(("values", _)) => ask(rt, alloc, &mut Values, lines),
        Some(("table", _)) => ask(rt, alloc, &mut Table::new(alloc), lines),
        Some(("columns", _)) => ask(
            rt,
            alloc,
            &mut Tests::new(Vec::new(alloc), &[], &[])?,
            lines,
        ),
        Some(("files", _)) => ask(rt, alloc, &mut MemFiles::new(alloc), lines),
        Some(("disk", _)) => ask(rt, alloc, &mut DiskFiles::new(rt), lines),
        Some(("sink", _)) => ask(rt, alloc, &mut MemSink::new(alloc), lines),
        Some(("out", _)) => ask(rt, alloc, &mut StdSink::out(rt), lines),
        Some(("err", _)) => ask(rt, alloc, &mut StdSink::err(rt), lines),
        _ => bail!("no such subject: {title}"),
    }
}

/// Asks a subject the lines of a case, one after the other.
fn ask<S: Subject>(
    rt: &impl Print,
    alloc: Global,
    subject: &mut S,
    lines: &[String],
) -> Result<()> {
    for line in lines {
        let words: Vec<&str> = line.split_whitespace().collect(alloc)?;
        print!(rt; "{line} ->")?;
        match subject.answer(rt, alloc, words.as_slice()) {
            Some(Ok(())) => println!(rt;)?,
            Some(Err(fault)) => println!(rt; " {fault}")?,
            None => bail!("no such line: {line}"),
        }
    }
    Ok(())
}
