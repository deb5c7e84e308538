ghost use Rattle.node_laws.specs.Pass.{HasBlockWithin};

use crate::line::message;
use crate::shown::{Moment, word_of, write_messages};
use anyhow::Result;
use cedr_align::{Aligner, Fate};
use cedr_base::{Level, Message, OutOfMemory};
use std::alloc::Global;
use test_feeding::{Came, message_of};

/// The aligner of a port, and what came there.
#[derive(Drop)]
struct FedPort {
    aligner: Aligner,
    came: Came,
}

/// What became of a message, and what was passed on.
type Taken = (Fate, Vec<Message>);

/// Feeds a new port line by line, and writes what it passes on.
pub(crate) fn play(rt: &impl Print, alloc: Global, level: Level, lines: &[String]) -> Result<()>
    requires { HasBlockWithin level }
{
    let mut port = FedPort {
        aligner: Aligner::new(level, alloc),
        came: Came::new(alloc),
    };
    for line in lines {
        step(rt, alloc, &mut port, line.as_str())?;
    }
    Ok(())
}

/// One line: a message, `front` or `high`.
fn step(rt: &impl Print, alloc: Global, port: &mut FedPort, line: &str) -> Result<()> {
    match line {
        "front" => println!(rt; "{line}: {}", Moment(port.aligner.front()))?,
        "high" => println!(rt; "{line}: {}", Moment(port.aligner.high()))?,
        _ => answer(rt, alloc, port, line)?,
    }
    Ok(())
}

/// Takes the message of a line, and writes what became of it and what is passed on.
fn answer(rt: &impl Print, alloc: Global, port: &mut FedPort, line: &str) -> Result<()> {
    let words: Vec<&str> = line.split_whitespace().collect(alloc)?;
    let message = message_of(alloc, message(words.as_slice())?)?;
    match take(alloc, port, message)? {
        None => println!(rt; "{line}: may not come")?,
        Some((fate, out)) => {
            write_fate(rt, line, &fate)?;
            write_messages(rt, out.as_slice())?;
        }
    }
    Ok(())
}

/// What a port passes on of a message, where it may come.
fn take(alloc: Global, port: &mut FedPort, message: Message) -> Result<Option<Taken>, OutOfMemory> {
    if !port.came.may_come(&message) {
        return Ok(None);
    }
    port.came.note(alloc, &message)?;
    let mut out = Vec::new(alloc);
    let fate = port.aligner.take(alloc, message, &mut out)?;
    Ok(Some((fate, out)))
}

/// Writes what became of the message of a line.
fn write_fate(rt: &impl Print, line: &str, fate: &Fate) -> Result<()> {
    match fate {
        Fate::Kept => println!(rt; "{line}: kept")?,
        Fate::Forgotten(one) => {
            println!(rt; "{line}: {} {}", word_of(one.cause), Moment(one.high))?
        }
    }
    Ok(())
}
