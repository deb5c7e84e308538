use crate::word::{read_field, read_time};
use anyhow::{Result, bail};
use cedr_base::{Change, Payload, Row, Time};
use std::alloc::Global;

/// A step of a case.
#[derive(Drop)]
pub(crate) enum Step {
    /// A change comes on a port.
    Come(usize, Change),
    /// The mark of a port rises to a time.
    Rise(usize, Time),
    /// The bound is asked for at marks.
    Bound(Vec<Time>),
    /// What the answers are, or lead to, is asked for.
    Ask(Asked),
}

/// What is asked for of an operator's answers.
#[derive(Clone, Copy)]
pub(crate) enum Asked {
    Answers,
    Count,
    Rows,
}

/// The step that a line says.
pub(crate) fn read_step(alloc: Global, line: &str) -> Result<Step> {
    let words: Vec<&str> = line.split_whitespace().collect(alloc)?;
    match words.as_slice() {
        ["+", port, begin, end, fields @ ..] => {
            let row = read_row(alloc, begin, end, fields)?;
            Ok(Step::Come(port.parse::<usize>()?, Change::Add(row)))
        }
        ["-", port, begin, end, "to", time, fields @ ..] => {
            let row = read_row(alloc, begin, end, fields)?;
            let cut = Change::Cut(row, read_time(time)?);
            Ok(Step::Come(port.parse::<usize>()?, cut))
        }
        ["mark", port, mark] => Ok(Step::Rise(port.parse::<usize>()?, read_time(mark)?)),
        ["bound", marks @ ..] => Ok(Step::Bound(read_times(alloc, marks)?)),
        ["answers"] => Ok(Step::Ask(Asked::Answers)),
        ["count"] => Ok(Step::Ask(Asked::Count)),
        ["rows"] => Ok(Step::Ask(Asked::Rows)),
        _ => bail!("no step: {line}"),
    }
}

fn read_row(alloc: Global, begin: &str, end: &str, fields: &[&str]) -> Result<Row> {
    Ok(Row {
        end: read_time(end)?,
        begin: read_time(begin)?,
        payload: read_payload(alloc, fields)?,
    })
}

fn read_payload(alloc: Global, fields: &[&str]) -> Result<Payload> {
    let mut payload = Payload::new(alloc);
    for word in fields {
        payload.push(read_field(alloc, word)?)?;
    }
    Ok(payload)
}

fn read_times(alloc: Global, words: &[&str]) -> Result<Vec<Time>> {
    let mut times = Vec::new(alloc);
    for word in words {
        times.push(read_time(word)?)?;
    }
    Ok(times)
}
