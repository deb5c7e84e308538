//! Writes values, each after a blank.

use anyhow::Result;
use cedr_base::{FOREVER, Field, FieldRef, Payload, Row, Time};
use percent_encoding::{CONTROLS, PercentEncode, percent_encode};
use std::alloc::Global;
use std::fmt;

/// A time as it is read.
#[derive(Drop)]
pub(crate) struct At(pub Time);

impl fmt::Display for At {
    fn fmt<W: fmt::Write>(&self, f: &mut fmt::Formatter<W>) -> fmt::Result {
        if self.0 == FOREVER {
            return f.write_str("inf");
        }
        write!(f, "{}", self.0)
    }
}

/// Bytes as they are read, so that none of them ends a word.
pub(crate) fn encoded(bytes: &[u8]) -> PercentEncode<'_> {
    percent_encode(bytes, CONTROLS.add(b' ').add(b'%'))
}

/// Writes a field, a text in quotes.
fn write_field(rt: &impl Print, alloc: Global, field: &FieldRef<'_>) -> Result<()> {
    let field = field.to_field(alloc)?;
    match &field {
        Field::Number(number) => print!(rt; " {number}")?,
        Field::Bytes(text) => print!(rt; " '{}'", encoded(text.bytes()))?,
    }
    Ok(())
}

pub(crate) fn write_payload(rt: &impl Print, alloc: Global, payload: &Payload) -> Result<()> {
    for field in payload.fields() {
        write_field(rt, alloc, &field)?;
    }
    Ok(())
}

pub(crate) fn write_row(rt: &impl Print, alloc: Global, row: &Row) -> Result<()> {
    print!(rt; " ({} {}", At(row.begin), At(row.end))?;
    write_payload(rt, alloc, &row.payload)?;
    print!(rt; ")")?;
    Ok(())
}

pub(crate) fn write_rows(rt: &impl Print, alloc: Global, rows: &[Row]) -> Result<()> {
    for row in rows {
        write_row(rt, alloc, row)?;
    }
    Ok(())
}
