ghost use Rattle.std.specs.Prelude.{◌≡◌, ◌++◌, IfOk, OnOk, OnErr, length, take};
ghost use Rattle.cedr_text.specs.Texts.{change_text, forgotten_text};

use crate::write::{write_number, write_row, write_time};
use cedr_base::{Change, OutOfMemory, Text, Time};
use std::alloc::Global;

/// Where memory runs out some of the text may stand there.
fn push_change(change: &Change, out: &mut Vec<u8>) -> Result<(), OutOfMemory>
    ensures ok { OnOk result (out.new.items ≡ out.old.items ++ change_text change.now) }
    ensures kept { take (length out.old.items) out.new.items ≡ out.old.items }
{
    match change {
        Change::Add(row) => {
            out.extend_from_slice(b"+,")?;
            write_row(row, out)
        }
        Change::Cut(row, end) => {
            out.extend_from_slice(b"-,")?;
            write_time(*end, out)?;
            out.push(b',')?;
            write_row(row, out)
        }
    }
}

/// Appends the change as one line: `+,BEGIN,END,FIELD..` for an insertion, and `-,NEWEND,BEGIN,END,FIELD..` with the
/// row as it was for a retraction. Where memory runs out `out` is as before.
pub fn write_change(change: &Change, out: &mut Vec<u8>) -> Result<(), OutOfMemory>
    ensures ok { OnOk result (out.new.items ≡ out.old.items ++ change_text change.now) }
    ensures err { OnErr result (out.new.items ≡ out.old.items) }
{
    let before = out.len();
    let result = push_change(change, out);
    if result.is_err() {
        out.truncate(before);
    }
    result
}

fn forgotten_line(
    alloc: Global,
    name: &[u8],
    port: usize,
    cause: &[u8],
    high: Time,
    change: &Change,
) -> Result<Vec<u8>, OutOfMemory>
    ensures { IfOk result (λ text. text.items ≡ forgotten_text name.now port cause.now high change.now) }
{
    let mut text = Vec::from_slice(alloc, name)?;
    text.push(b',')?;
    write_number(port, &mut text)?;
    text.push(b',')?;
    text.extend_from_slice(cause)?;
    text.push(b',')?;
    write_time(high, &mut text)?;
    text.push(b',')?;
    write_change(change, &mut text)?;
    Ok(text)
}

/// Appends a change that a port of a node left out as one line: `NODE,PORT,CAUSE,HIGH,` and the change. `high` is the
/// greatest sync or mark that came before it. The line is made in memory of its own. Where memory runs out `out` is as
/// before.
pub fn write_forgotten(
    name: &Text,
    port: usize,
    cause: &str,
    high: Time,
    change: &Change,
    out: &mut Vec<u8>,
) -> Result<(), OutOfMemory>
    ensures ok { OnOk result (out.new.items ≡ out.old.items ++ forgotten_text name.now port cause.now high change.now) }
    ensures err { OnErr result (out.new.items ≡ out.old.items) }
{
    let alloc = *out.allocator();
    let text = forgotten_line(alloc, name.bytes(), port, cause.as_bytes(), high, change)?;
    out.extend_from_slice(text.as_slice())?;
    Ok(())
}
