use crate::bytes::{bytes, shown};
use crate::source::put_messages;
use anyhow::{Result, bail};
use cedr_base::{Interval, Message, OutOfMemory};
use cedr_guard::{Guard, GuardFault, Judge};
use cedr_source::judge_line;
use cedr_text::{EventLine, LineFault, Shape, read_line};
use std::alloc::{AllocError, Global};

/// Judges lines one after the other, and writes the messages or the fault of each, and the mark after it.
pub(crate) fn guard(rt: &impl Print, alloc: Global, lines: &[&str]) -> Result<()> {
    let mut guard = Guard::new(alloc);
    for line in lines {
        let line = bytes(alloc, line)?;
        let mut messages = Vec::new(alloc);
        let judged = judge_line(
            alloc,
            &mut guard,
            &Shape::AnyText,
            line.as_slice(),
            &mut messages,
        );
        let text = judged_text(alloc, judged, messages.as_slice())?;
        println!(rt; "  {text}, mark {}", guard.mark())?;
    }
    Ok(())
}

/// The messages, or the fault.
fn judged_text(
    alloc: Global,
    judged: Result<(), GuardFault>,
    messages: &[Message],
) -> Result<String> {
    match judged {
        Ok(()) if messages.is_empty() => Ok(String::from_str(alloc, "no message")?),
        Ok(()) => Ok(messages_text(alloc, messages)?),
        Err(GuardFault::Line(fault)) => Ok(fault_text(alloc, fault)?),
        Err(GuardFault::OutOfMemory) => bail!("out of memory"),
    }
}

fn messages_text(alloc: Global, messages: &[Message]) -> Result<String, OutOfMemory> {
    let mut text = Vec::new(alloc);
    put_messages(messages, &mut text)?;
    Ok(shown(alloc, text.as_slice())?)
}

fn fault_text(alloc: Global, fault: LineFault) -> Result<String, AllocError> {
    format!(in alloc; "fault {}: {fault}", fault.number())
}

/// Judges lines by ids and times alone, and writes the valid intervals that they leave.
pub(crate) fn judge(rt: &impl Print, alloc: Global, lines: &[&str]) -> Result<()> {
    let mut judge = Judge::new(alloc);
    for line in lines {
        let line = bytes(alloc, line)?;
        let judged = judge_event(alloc, &mut judge, line.as_slice());
        println!(rt; "  {}, mark {}", told_text(alloc, judged)?, judge.mark())?;
    }
    tell_intervals(rt, judge.into_intervals().as_slice())
}

/// Whether the line says something that wasn't said before.
fn judge_event(alloc: Global, judge: &mut Judge, line: &[u8]) -> Result<bool, GuardFault> {
    match read_line(alloc, line, &Shape::AnyText)? {
        None => Ok(false),
        Some(EventLine::Insert { id, row }) => {
            judge.insert(id, row.begin, row.end)?;
            Ok(true)
        }
        Some(EventLine::Retract { id, end }) => {
            judge.retract(id, end)?;
            Ok(true)
        }
        Some(EventLine::Revise { id, row }) => {
            judge.revise(id, row.begin, row.end)?;
            Ok(true)
        }
        Some(EventLine::Promise(time)) => Ok(judge.promise(time)),
    }
}

fn told_text(alloc: Global, judged: Result<bool, GuardFault>) -> Result<String> {
    match judged {
        Ok(true) => Ok(String::from_str(alloc, "accepted")?),
        Ok(false) => Ok(String::from_str(alloc, "nothing new")?),
        Err(GuardFault::Line(fault)) => Ok(fault_text(alloc, fault)?),
        Err(GuardFault::OutOfMemory) => bail!("out of memory"),
    }
}

fn tell_intervals(rt: &impl Print, intervals: &[Interval]) -> Result<()> {
    for interval in intervals {
        println!(rt; "  from {} to {}", interval.begin, interval.end)?;
    }
    Ok(())
}
