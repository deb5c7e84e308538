ghost use Rattle.std.specs.Prelude.{◌≡◌};

use crate::bytes::{bytes, tell};
use anyhow::Result;
use cedr_base::OutOfMemory;
use cedr_text::{LineStep, Lines};
use std::alloc::Global;

/// Cuts pieces into lines, and writes what is there after each piece and after the end.
pub(crate) fn cut(rt: &impl Print, alloc: Global, pieces: &[&str]) -> Result<()> {
    let mut lines = Lines::new(alloc);
    let mut text = Vec::new(alloc);
    for piece in pieces {
        let piece = bytes(alloc, piece)?;
        lines.feed(piece.as_slice())?;
        take_lines(alloc, &mut lines, &mut text)?;
    }
    lines.finish();
    take_lines(alloc, &mut lines, &mut text)?;
    tell(rt, alloc, text.as_slice())
}

/// Takes all lines that there are.
fn take_lines(alloc: Global, lines: &mut Lines, text: &mut Vec<u8>) -> Result<(), OutOfMemory>
    ensures { lines.new.finished ≡ lines.old.finished }
{
    let mut line = Vec::new(alloc);
    for _ in 0..u64::MAX {
        let step = lines.next_line(&mut line)?;
        put_step(step, line.as_slice(), text)?;
        if step != LineStep::Line {
            break;
        }
    }
    Ok(())
}

/// Appends a line between brackets, or why there isn't one.
fn put_step(step: LineStep, line: &[u8], text: &mut Vec<u8>) -> Result<(), OutOfMemory> {
    match step {
        LineStep::Line => {
            text.push(b'[')?;
            text.extend_from_slice(line)?;
            text.push(b']')?;
        }
        LineStep::TooLong => text.extend_from_slice(b"too long")?,
        LineStep::NotYet => text.push(b'?')?,
        LineStep::Finished => text.push(b'.')?,
    }
    Ok(())
}
