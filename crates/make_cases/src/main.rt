//! Worked cases of the workload that the program makes: its sources, its plan and the summary of its answer. The cases are text.
//!
//! Each line of the input is written again, unless it is of a file's bytes:
//!
//! - `case TITLE`, `file NAME`: a new case, and a file with its bytes, as `test_outside` reads them.
//! - `source NAME COUNT`: the lines of the source `a` or `b` of the workload of so many events a source.
//! - `workload`: the plan of the workload: what `check` says of it, how many messages an edge holds, and each node.
//! - `plan NAME`: the same of the plan that this file describes.
//! - `summary BEGIN-END ..`: the summary of rows that are valid so long.
//!
//! An empty line says nothing.
#![tactic(auto)]

mod made;

use anyhow::{Result, bail};
use made::{tell_made_plan, tell_read_plan, tell_source, tell_summary};
use std::alloc::Global;
use test_outside::Case;

fn main(rt: HostRuntime) -> Result<()> {
    let alloc = rt.alloc();
    let mut case = Case::new(alloc);
    for line in rt.lines(alloc) {
        let line = line?;
        step(&rt, alloc, &mut case, line.as_str())?;
    }
    Ok(())
}

/// Does what a line says.
fn step(rt: &impl Print, alloc: Global, case: &mut Case, line: &str) -> Result<()> {
    if case.takes_bytes(line)? {
        return Ok(());
    }
    println!(rt; "{line}")?;
    let words: Vec<&str> = line.split_whitespace().collect(alloc)?;
    if case.is_arranged(words.as_slice())? {
        return Ok(());
    }
    show(rt, alloc, case, words.as_slice())
}

/// Writes of the workload what is asked for, or a plan.
fn show(rt: &impl Print, alloc: Global, case: &Case, words: &[&str]) -> Result<()> {
    match words {
        ["source", name, count] => tell_source(rt, alloc, name, count),
        ["workload"] => tell_made_plan(rt, alloc),
        ["plan", name] => tell_read_plan(rt, alloc, case.bytes_of(name)?),
        ["summary", spans @ ..] => tell_summary(rt, alloc, spans),
        _ => bail!("no such line: {words:?}"),
    }
}
