use anyhow::Result;
use cedr_base::{Change, FOREVER, FieldRef, Message, Row, Time};
use node_laws::{Cause, Forgotten};
use std::fmt;
use test_feeding::{Brief, brief_of, brief_of_change};

/// A time as lines have it: `inf` where it is `FOREVER`.
#[derive(Clone, Copy)]
pub(crate) struct Moment(pub(crate) Time);

impl fmt::Display for Moment {
    fn fmt<W: fmt::Write>(&self, f: &mut fmt::Formatter<W>) -> fmt::Result {
        if self.0 == FOREVER {
            return write!(f, "inf");
        }
        write!(f, "{}", self.0)
    }
}

/// A message as lines have it.
#[derive(Clone, Copy)]
struct Words(Brief);

impl fmt::Display for Words {
    fn fmt<W: fmt::Write>(&self, f: &mut fmt::Formatter<W>) -> fmt::Result {
        match self.0 {
            Brief::Add(number, begin, end) => write!(f, "+ {number} {begin} {}", Moment(end)),
            Brief::Cut(number, begin, end, to) => {
                write!(f, "- {number} {begin} {} {to}", Moment(end))
            }
            Brief::Mark(time) => write!(f, "= {}", Moment(time)),
            Brief::End => write!(f, "end"),
            Brief::Broken => write!(f, "broken"),
        }
    }
}

/// A row as lines have it: its begin, its end and its fields.
#[derive(Clone, Copy)]
struct Valid<'a>(&'a Row);

impl fmt::Display for Valid<'_> {
    fn fmt<W: fmt::Write>(&self, f: &mut fmt::Formatter<W>) -> fmt::Result {
        write!(f, "{} {}", self.0.begin, Moment(self.0.end))?;
        for field in self.0.payload.fields() {
            write_field(f, &field)?;
        }
        Ok(())
    }
}

/// A field behind a blank. A text that isn't UTF-8, or that has a byte 0 or 1, is refused, since no line brings it.
fn write_field<W: fmt::Write>(f: &mut fmt::Formatter<W>, field: &FieldRef<'_>) -> fmt::Result {
    if let Some(number) = field.number() {
        return write!(f, " {number}");
    }
    match std::str::from_utf8(field.plain_text().ok_or(fmt::Error)?) {
        Ok(text) => write!(f, " {text}"),
        Err(_) => Err(fmt::Error),
    }
}

/// Writes messages, each in a line.
pub(crate) fn write_messages(rt: &impl Print, messages: &[Message]) -> Result<()> {
    for message in messages {
        println!(rt; "  {}", Words(brief_of(message)))?;
    }
    Ok(())
}

/// Writes changes, each in a line.
pub(crate) fn write_changes(rt: &impl Print, changes: &[Change]) -> Result<()> {
    for change in changes {
        println!(rt; "  {}", Words(brief_of_change(change)))?;
    }
    Ok(())
}

/// Writes rows, each in a line.
pub(crate) fn write_rows(rt: &impl Print, rows: &[Row]) -> Result<()> {
    for row in rows {
        println!(rt; "  {}", Valid(row))?;
    }
    Ok(())
}

/// Why a change was forgotten, as lines have it.
pub(crate) fn word_of(cause: Cause) -> &'static str {
    match cause {
        Cause::Late => "late",
        Cause::Orphan => "orphan",
    }
}

/// Writes what was forgotten, each change in a line, with the cause and the greatest time before it.
pub(crate) fn write_forgotten(rt: &impl Print, forgotten: &[Forgotten]) -> Result<()> {
    for one in forgotten {
        let change = Words(brief_of_change(&one.change));
        println!(rt; "  {change}: {} {}", word_of(one.cause), Moment(one.high))?;
    }
    Ok(())
}
