//! Worked cases of what is read and written, as text: event lines and their faults, lines that are judged one after the
//! other, sources in pieces, rows and changes as lines, plans, checkpoints. Each line of the input is written, and then what
//! is answered for it, in lines that begin with two spaces. The file stdout says what all of that must be.
//!
//! A line that begins with `#` is a title, and an empty line parts cases. Each other line is a command and its words, with one
//! space between two words:
//!
//! - `read SHAPE LINE`: what an event line says, or its fault. The shape is `any` for fields that are texts, `bare` for the
//!   same where they stay in the line, or the types of the fields, as `int,text`.
//! - `guard LINE..`: the lines are judged one after the other, each with its messages or its fault, and the mark after it.
//!   Where a line has two messages, `&` stands before the second one.
//! - `judge LINE..`: the same by ids and times alone, and then the valid intervals that all of them leave.
//! - `cut PIECE..`: bytes in pieces are cut into lines. After each piece and at the end all lines that there are are taken:
//!   each stands in brackets, `?` says that more is needed, and a dot that all were taken.
//! - `source SHAPE ASKS LAST PIECE..`: a source is fed with the pieces. It is asked so often after each piece, and so often
//!   after the end, which doesn't come where that is 0. Each time it gives all messages that there are, and then `?`
//!   where more is needed, `closed`, or the line and the fault. `\*COUNT*PIECE` is a piece that comes so often.
//! - `memory SHAPE BYTES`: a source in memory is read whole, and gives the messages of each line that isn't empty, or an
//!   underscore where that line has none. `file SHAPE PIECE REFUSED BYTES` has reads of at most so many bytes, of which the
//!   one of this number is refused.
//! - `rows FRONT ROW..`: the rows are written behind these bytes. `changes FRONT CHANGE..` does so with changes, and
//!   `forgotten FRONT NAME PORT CAUSE HIGH CHANGE` with a change that a port left out.
//! - `sorted FRONT ROW..`: the same with rows whose payload may stand in a line, which are sorted first.
//! - `plan DOCUMENT`: the edge of a plan, a line for each node and what its ports are, or its fault. `node NODES` has a
//!   document of a source `l` of a text and a number, a source `r` of a number, these nodes, and an output that reads `n`.
//!   `newer NODES` has such a document of version 2.
//! - `copied LEFT RIGHT DOCUMENT`: the same of a copy of each node, and then what these nodes do to two payloads.
//! - `checkpoint TYPES BYTES`: the bytes are read as a checkpoint of a plan with one source `s`, whose fields have the types
//!   that stand between quotes, and the states are written anew; or the line that is refused. `events TYPES BYTES` has bytes
//!   that stand behind the lines `checkpoint,1` and `source,s,5`.
//!
//! A row is `BEGIN;END;FIELD..` with fields as `int:-7` or `text:a`. A change is `+;` and its row, or `-;TO;` and the row that it
//! cuts. Before a row that is sorted stands `read;`, or it is `bare;BEGIN;END;TEXT` with its fields in one text.
//!
//! Words stand for bytes: `\n` and `\r`, `\xHH` for any byte, `\{COUNT*BYTES\}` for bytes that are repeated, and `\-` for
//! none. Answers are written so too, and there a run of over twenty equal bytes is `\{COUNT*BYTE\}`.
#![tactic(auto)]

mod bytes;
mod checkpoint;
mod event;
mod judging;
mod lines;
mod plan;
mod row;
mod source;
mod written;

use anyhow::{Result, bail};
use checkpoint::{checkpoint, events};
use event::read;
use judging::{guard, judge};
use lines::cut;
use plan::{copied, node, plan};
use source::{file, memory, source};
use std::alloc::Global;
use written::{changes, forgotten, rows, sorted};

fn main(rt: HostRuntime) -> Result<()> {
    let alloc = rt.alloc();
    for line in rt.lines(alloc) {
        let line = line?;
        println!(rt; "{line}")?;
        if !line.as_str().is_empty() && !line.as_str().starts_with('#') {
            answer(&rt, alloc, line.as_str())?;
        }
    }
    Ok(())
}

/// Carries out the command of a line.
fn answer(rt: &impl Print, alloc: Global, line: &str) -> Result<()> {
    let words: Vec<&str> = line.split(' ').collect(alloc)?;
    match words.as_slice() {
        ["read", shape, line] => read(rt, alloc, shape, line),
        ["guard", lines @ ..] => guard(rt, alloc, lines),
        ["judge", lines @ ..] => judge(rt, alloc, lines),
        ["cut", pieces @ ..] => cut(rt, alloc, pieces),
        ["source", shape, asks, last, pieces @ ..] => source(rt, alloc, shape, asks, last, pieces),
        ["memory", shape, bytes] => memory(rt, alloc, shape, bytes),
        ["file", shape, piece, refused, bytes] => file(rt, alloc, shape, piece, refused, bytes),
        ["plan", document] => plan(rt, alloc, document),
        ["node", nodes] => node(rt, alloc, 1, nodes),
        ["newer", nodes] => node(rt, alloc, 2, nodes),
        ["copied", left, right, document] => copied(rt, alloc, left, right, document),
        ["checkpoint", types, bytes] => checkpoint(rt, alloc, types, bytes),
        ["events", types, bytes] => events(rt, alloc, types, bytes),
        [command, front, items @ ..] => write_items(rt, alloc, command, front, items),
        _ => bail!("no command: {line}"),
    }
}

/// Carries out a command that writes items behind the bytes that stand in front.
fn write_items(
    rt: &impl Print,
    alloc: Global,
    command: &str,
    front: &str,
    items: &[&str],
) -> Result<()> {
    match command {
        "rows" => rows(rt, alloc, front, items),
        "changes" => changes(rt, alloc, front, items),
        "forgotten" => forgotten(rt, alloc, front, items),
        "sorted" => sorted(rt, alloc, front, items),
        _ => bail!("no command: {command}"),
    }
}
