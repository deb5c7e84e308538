//! Times, payloads, rows and messages, each line on its own:
//!
//! - `later TIME BY`: the time that is so much later, as a number.
//! - `order FIELD.. : FIELD.. : ..`: a copy of each payload in turn, compared with all of them.
//! - `join FIELD.. : FIELD..`: the fields of the one payload and then those of the other.
//! - `code FIELD.. : ..`: the code of each payload, two hexadecimal digits a byte.
//! - `sort BEGIN END FIELD.. : ..`: rows in canonical order.
//! - `message MESSAGE`: the message's copy, and of a change from when on it is seen. A message is `+ BEGIN END FIELD..`,
//!   `- BEGIN END TO FIELD..`, `mark TIME`, `end` or `broken`.

use crate::Subject;
use crate::words::{change, payloads, row, time};
use crate::written::{At, write_payload, write_row, write_rows};
use anyhow::{Result, bail};
use cedr_base::{Change, FOREVER, Message, Payload, later, sort_rows};
use std::alloc::Global;

/// The longest time that `later` adds.
const LONGEST: u64 = 1 << 41;

/// The subject of lines that stand on their own.
#[derive(Drop)]
pub(crate) struct Values;

impl Subject for Values {
    fn answer(&mut self, rt: &impl Print, alloc: Global, words: &[&str]) -> Option<Result<()>> {
        match words {
            ["later", time, by] => Some(write_later(rt, time, by)),
            ["order", payloads @ ..] => Some(write_order(rt, alloc, payloads)),
            ["join", payloads @ ..] => Some(write_joined(rt, alloc, payloads)),
            ["code", payloads @ ..] => Some(write_codes(rt, alloc, payloads)),
            ["sort", rows @ ..] => Some(write_sorted(rt, alloc, rows)),
            ["message", message @ ..] => Some(write_copy(rt, alloc, message)),
            _ => None,
        }
    }
}

fn write_later(rt: &impl Print, from: &str, by: &str) -> Result<()> {
    let (from, by) = (time(from)?, by.parse::<u64>()?);
    if from > FOREVER || by > LONGEST {
        bail!("out of range");
    }
    print!(rt; " {}", later(from, by))?;
    Ok(())
}

fn write_order(rt: &impl Print, alloc: Global, words: &[&str]) -> Result<()> {
    let payloads = payloads(alloc, words)?;
    for payload in &payloads {
        write_signs(rt, &payload.copy(alloc)?, payloads.as_slice())?;
    }
    Ok(())
}

/// Writes how a payload compares with each of the others.
fn write_signs(rt: &impl Print, payload: &Payload, others: &[Payload]) -> Result<()> {
    print!(rt; " ")?;
    for other in others {
        let sign = if *payload == *other {
            "="
        } else if *payload < *other {
            "<"
        } else {
            ">"
        };
        print!(rt; "{sign}")?;
    }
    Ok(())
}

fn write_joined(rt: &impl Print, alloc: Global, words: &[&str]) -> Result<()> {
    let payloads = payloads(alloc, words)?;
    let [left, right] = payloads.as_slice() else {
        bail!("not two payloads");
    };
    write_payload(rt, alloc, &left.joined(alloc, right)?)
}

fn write_codes(rt: &impl Print, alloc: Global, words: &[&str]) -> Result<()> {
    for payload in &payloads(alloc, words)? {
        print!(rt; " ")?;
        for byte in payload.code() {
            print!(rt; "{byte:02x}")?;
        }
    }
    Ok(())
}

fn write_sorted(rt: &impl Print, alloc: Global, words: &[&str]) -> Result<()> {
    let mut rows = Vec::new(alloc);
    for part in words.split(|word| *word == ":") {
        let [begin, end, fields @ ..] = part else {
            bail!("no row");
        };
        rows.push(row(alloc, begin, end, fields)?)?;
    }
    sort_rows(&mut rows)?;
    write_rows(rt, alloc, rows.as_slice())
}

fn message(alloc: Global, words: &[&str]) -> Result<Message> {
    match words {
        ["mark", word] => Ok(Message::Mark(time(word)?)),
        ["end"] => Ok(Message::End),
        ["broken"] => Ok(Message::Broken),
        _ => Ok(Message::Change(change(alloc, words)?)),
    }
}

fn write_copy(rt: &impl Print, alloc: Global, words: &[&str]) -> Result<()> {
    match message(alloc, words)?.copy(alloc)? {
        Message::Change(change) => write_change(rt, alloc, &change)?,
        Message::Mark(time) => print!(rt; " mark {}", At(time))?,
        Message::End => print!(rt; " end")?,
        Message::Broken => print!(rt; " broken")?,
    }
    Ok(())
}

fn write_change(rt: &impl Print, alloc: Global, change: &Change) -> Result<()> {
    match change {
        Change::Add(_) => print!(rt; " +")?,
        Change::Cut(_, end) => print!(rt; " - to {} of", At(*end))?,
    }
    write_row(rt, alloc, change.row())?;
    print!(rt; ", seen from {}", At(change.sync()))?;
    Ok(())
}
