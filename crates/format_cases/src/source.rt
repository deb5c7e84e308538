ghost use Rattle.std.specs.Prelude.{◌≡◌, false, OnOk};
ghost use Rattle.cedr_source.specs.Reads.{is_ended};

use crate::bytes::{bytes, tell};
use crate::event::shape_of;
use anyhow::{Result, bail};
use cedr_base::{Message, OutOfMemory};
use cedr_guard::Refusal;
use cedr_io::{Files, MemFiles, MemSource, Source};
use cedr_source::{Entries, SourceLines, SourceStep, Unread, read_by_line};
use cedr_text::{write_change, write_number, write_time};
use std::alloc::Global;

/// Feeds a source with pieces, and writes what it gives.
pub(crate) fn source(
    rt: &impl Print,
    alloc: Global,
    shape: &str,
    asks: &str,
    last: &str,
    pieces: &[&str],
) -> Result<()> {
    let (asks, last) = (asks.parse::<u8>()?, last.parse::<u8>()?);
    let mut lines = SourceLines::new(alloc, shape_of(alloc, shape)?);
    let mut text = Vec::new(alloc);
    for piece in pieces {
        feed(alloc, &mut lines, piece, asks, &mut text)?;
    }
    if last > 0 {
        lines.finish();
        ask(&mut lines, last, &mut text)?;
    }
    tell(rt, alloc, text.as_slice())
}

/// Feeds a piece as often as it says, and asks so often after each time.
fn feed(
    alloc: Global,
    lines: &mut SourceLines,
    piece: &str,
    asks: u8,
    text: &mut Vec<u8>,
) -> Result<()>
    requires { is_ended lines.old ≡ false }
    ensures { OnOk result (is_ended lines.new ≡ false) }
{
    let (count, piece) = counted(piece)?;
    let piece = bytes(alloc, piece)?;
    for _ in 0..count {
        lines.feed(piece.as_slice())?;
        ask(lines, asks, text)?;
    }
    Ok(())
}

/// How often a piece comes.
fn counted(piece: &str) -> Result<(u32, &str)> {
    let Some(rest) = piece.strip_prefix("\\*") else {
        return Ok((1, piece));
    };
    match rest.split_once('*') {
        Some((count, piece)) => Ok((count.parse::<u32>()?, piece)),
        None => bail!("no count: {piece}"),
    }
}

/// Takes all messages that there are, so often.
fn ask(lines: &mut SourceLines, times: u8, text: &mut Vec<u8>) -> Result<(), OutOfMemory>
    ensures { is_ended lines.new ≡ is_ended lines.old }
{
    for _ in 0..times {
        take_messages(lines, text)?;
    }
    Ok(())
}

/// Takes all messages that there are, and says why there isn't one more.
fn take_messages(lines: &mut SourceLines, text: &mut Vec<u8>) -> Result<(), OutOfMemory>
    ensures { is_ended lines.new ≡ is_ended lines.old }
{
    for _ in 0..u64::MAX {
        let mut messages = Vec::new(*text.allocator());
        match lines.take_line(&mut messages)? {
            SourceStep::Line => put_messages(messages.as_slice(), text)?,
            SourceStep::NotYet => {
                text.push(b'?')?;
                break;
            }
            SourceStep::Closed => {
                text.extend_from_slice(b"closed")?;
                break;
            }
            SourceStep::Refused(refusal) => {
                put_refusal(&refusal, text)?;
                break;
            }
        }
    }
    Ok(())
}

fn put_refusal(refusal: &Refusal, text: &mut Vec<u8>) -> Result<(), OutOfMemory> {
    text.extend_from_slice(b"line ")?;
    write_number(refusal.line, text)?;
    text.extend_from_slice(b" fault ")?;
    write_number(refusal.fault.number(), text)
}

/// Appends the messages of a line, with `&` before each but the first.
pub(crate) fn put_messages(messages: &[Message], text: &mut Vec<u8>) -> Result<(), OutOfMemory> {
    let mut first = true;
    for message in messages {
        if !first {
            text.push(b'&')?;
        }
        put_message(message, text)?;
        first = false;
    }
    Ok(())
}

/// Appends a change as its line, a guarantee as `=` and its time, and the end as a dot.
fn put_message(message: &Message, text: &mut Vec<u8>) -> Result<(), OutOfMemory> {
    match message {
        Message::Change(change) => return write_change(change, text),
        Message::Mark(time) => {
            text.push(b'=')?;
            write_time(*time, text)?;
            text.push(b'\n')?;
        }
        Message::End => text.extend_from_slice(b".\n")?,
        Message::Broken => text.extend_from_slice(b"broken\n")?,
    }
    Ok(())
}

/// Reads a source in memory.
pub(crate) fn memory(rt: &impl Print, alloc: Global, shape: &str, content: &str) -> Result<()> {
    let mut source = MemSource::new(bytes(alloc, content)?);
    read_whole(rt, alloc, shape, &mut source)
}

/// Reads a file in memory, of which a read gives at most so many bytes, and the read of this number is refused.
pub(crate) fn file(
    rt: &impl Print,
    alloc: Global,
    shape: &str,
    piece: &str,
    refused: &str,
    content: &str,
) -> Result<()> {
    let piece = piece.parse::<usize>()?;
    if piece == 0 {
        bail!("reads that give no byte");
    }
    let mut files = MemFiles::new(alloc);
    files.set_piece(piece);
    files.add("events", bytes(alloc, content)?.as_slice())?;
    files.fail_read("events", refused.parse::<u64>()?)?;
    let mut source = files.find(b"events")?;
    read_whole(rt, alloc, shape, &mut source)
}

/// Reads a source to its end, and writes its messages line by line, or why there are none.
fn read_whole<S: Source>(
    rt: &impl Print,
    alloc: Global,
    shape: &str,
    source: &mut S,
) -> Result<()> {
    match read_by_line(alloc, shape_of(alloc, shape)?, source) {
        Ok(mut entries) => {
            let mut text = Vec::new(alloc);
            put_entries(alloc, &mut entries, &mut text)?;
            tell(rt, alloc, text.as_slice())
        }
        Err(Unread::Refused(refusal)) => tell_refusal(rt, &refusal),
        Err(Unread::Failed) => {
            println!(rt; "  a read was refused")?;
            Ok(())
        }
        Err(Unread::OutOfMemory) => bail!("out of memory"),
    }
}

/// Appends the messages of each line, and an underscore for a line that has none.
fn put_entries(
    alloc: Global,
    entries: &mut Entries,
    text: &mut Vec<u8>,
) -> Result<(), OutOfMemory> {
    for _ in 0..u64::MAX {
        let Some(messages) = entries.pop(alloc)? else {
            break;
        };
        if messages.is_empty() {
            text.push(b'_')?;
        }
        put_messages(messages.as_slice(), text)?;
    }
    Ok(())
}

fn tell_refusal(rt: &impl Print, refusal: &Refusal) -> Result<()> {
    let fault = refusal.fault;
    println!(rt;
        "  line {}, fault {}: {fault}",
        refusal.line,
        fault.number()
    )?;
    Ok(())
}
