use cedr_base::{Change, FOREVER, FieldRef, Row, Time};
use std::fmt;

/// A time is shown as before `inf` where it is no more than this before it.
const NEAR: u64 = 1000;

/// A time, as a line has it.
#[derive(Clone, Copy)]
pub(crate) struct ShownTime(pub Time);

impl fmt::Display for ShownTime {
    fn fmt<W: fmt::Write>(&self, f: &mut fmt::Formatter<W>) -> fmt::Result {
        let earlier = FOREVER.saturating_sub(self.0);
        if self.0 == FOREVER {
            write!(f, "inf")
        } else if earlier == 0 || earlier > NEAR {
            write!(f, "{}", self.0)
        } else {
            write!(f, "inf-{earlier}")
        }
    }
}

/// A field, as a line has it. A text that isn't UTF-8, or that has a byte 0 or 1, is refused, since no line brings it.
#[derive(Clone, Copy)]
struct ShownField<'a>(&'a FieldRef<'a>);

impl fmt::Display for ShownField<'_> {
    fn fmt<W: fmt::Write>(&self, f: &mut fmt::Formatter<W>) -> fmt::Result {
        if let Some(number) = self.0.number() {
            return write!(f, "{number}");
        }
        match std::str::from_utf8(self.0.plain_text().ok_or(fmt::Error)?) {
            Ok(text) => write!(f, "'{text}"),
            Err(_) => Err(fmt::Error),
        }
    }
}

/// The fields of a row, each behind a blank.
#[derive(Clone, Copy)]
struct ShownFields<'a>(&'a Row);

impl fmt::Display for ShownFields<'_> {
    fn fmt<W: fmt::Write>(&self, f: &mut fmt::Formatter<W>) -> fmt::Result {
        for field in self.0.payload.fields() {
            write!(f, " {}", ShownField(&field))?;
        }
        Ok(())
    }
}

/// A row: its begin, its end and its fields.
#[derive(Clone, Copy)]
pub(crate) struct ShownRow<'a>(pub &'a Row);

impl fmt::Display for ShownRow<'_> {
    fn fmt<W: fmt::Write>(&self, f: &mut fmt::Formatter<W>) -> fmt::Result {
        let (begin, end) = (ShownTime(self.0.begin), ShownTime(self.0.end));
        write!(f, "{begin} {end}{}", ShownFields(self.0))
    }
}

/// A change: a row behind a `+`, or behind a `-` one with its new end.
#[derive(Clone, Copy)]
pub(crate) struct ShownChange<'a>(pub &'a Change);

impl fmt::Display for ShownChange<'_> {
    fn fmt<W: fmt::Write>(&self, f: &mut fmt::Formatter<W>) -> fmt::Result {
        match self.0 {
            Change::Add(row) => write!(f, "+ {}", ShownRow(row)),
            Change::Cut(row, time) => {
                let (begin, end) = (ShownTime(row.begin), ShownTime(row.end));
                let (time, fields) = (ShownTime(*time), ShownFields(row));
                write!(f, "- {begin} {end} to {time}{fields}")
            }
        }
    }
}
