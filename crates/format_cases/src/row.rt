use crate::bytes::bytes;
use anyhow::{Result, bail};
use cedr_base::{Change, FOREVER, Field, Payload, Row, Text, Time};
use cedr_text::{BareFields, PayloadText, TextRow};
use std::alloc::Global;

/// A time, which may be `inf`.
pub(crate) fn time(word: &str) -> Result<Time> {
    if word == "inf" {
        return Ok(FOREVER);
    }
    Ok(word.parse::<u64>()?)
}

/// The payload of fields with semicolons between.
pub(crate) fn payload(alloc: Global, word: &str) -> Result<Payload> {
    let words: Vec<&str> = word.split(';').collect(alloc)?;
    payload_of(alloc, words.as_slice())
}

fn payload_of(alloc: Global, words: &[&str]) -> Result<Payload> {
    let mut fields = Vec::new(alloc);
    for word in words {
        fields.push(field(alloc, word)?)?;
    }
    Ok(Payload::from_fields(alloc, fields)?)
}

fn field(alloc: Global, word: &str) -> Result<Field> {
    match word.split_once(':') {
        Some(("int", number)) => Ok(Field::Number(number.parse::<i128>()?)),
        Some(("text", text)) => Ok(Field::Bytes(Text::from(bytes(alloc, text)?))),
        _ => bail!("no field: {word}"),
    }
}

/// A row of its begin, its end and its fields, with semicolons between.
pub(crate) fn row(alloc: Global, word: &str) -> Result<Row> {
    let words: Vec<&str> = word.split(';').collect(alloc)?;
    row_of(alloc, words.as_slice())
}

fn row_of(alloc: Global, words: &[&str]) -> Result<Row> {
    let [begin, end, fields @ ..] = words else {
        bail!("no row");
    };
    Ok(Row {
        end: time(end)?,
        begin: time(begin)?,
        payload: payload_of(alloc, fields)?,
    })
}

/// A change of a row: `+;` before the row, or `-;`, the time it is cut to and the row.
pub(crate) fn change(alloc: Global, word: &str) -> Result<Change> {
    let words: Vec<&str> = word.split(';').collect(alloc)?;
    match words.as_slice() {
        ["+", row @ ..] => Ok(Change::Add(row_of(alloc, row)?)),
        ["-", to, row @ ..] => Ok(Change::Cut(row_of(alloc, row)?, time(to)?)),
        _ => bail!("no change: {word}"),
    }
}

/// A row whose payload may stand in the word, as it would in a line.
pub(crate) fn text_row<'a>(alloc: Global, word: &'a str) -> Result<TextRow<'a>> {
    let words: Vec<&'a str> = word.split(';').collect(alloc)?;
    match words.as_slice() {
        ["bare", begin, end] => bare_row(begin, end, None),
        ["bare", begin, end, text] => bare_row(begin, end, Some(text.as_bytes())),
        ["read", row @ ..] => {
            let row = row_of(alloc, row)?;
            Ok(TextRow {
                end: row.end,
                begin: row.begin,
                payload: PayloadText::read(alloc, row.into_payload())?,
            })
        }
        _ => bail!("no row: {word}"),
    }
}

fn bare_row<'a>(begin: &str, end: &str, text: Option<&'a [u8]>) -> Result<TextRow<'a>> {
    Ok(TextRow {
        end: time(end)?,
        begin: time(begin)?,
        payload: PayloadText::from(BareFields::new(text)),
    })
}
