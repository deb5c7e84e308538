//! Reads the words of a line.

use anyhow::{Result, bail};
use cedr_base::{Change, FOREVER, Field, FieldType, Payload, Row, Text, Time};
use percent_encoding::percent_decode;
use std::alloc::{AllocError, Global};

pub(crate) fn time(word: &str) -> Result<Time> {
    if word == "inf" {
        return Ok(FOREVER);
    }
    Ok(word.parse::<u64>()?)
}

pub(crate) fn bytes(alloc: Global, word: &str) -> Result<Vec<u8>, AllocError> {
    let mut bytes = Vec::new(alloc);
    percent_decode(word.trim_matches('\'').as_bytes()).append_to(&mut bytes)?;
    Ok(bytes)
}

fn field(alloc: Global, word: &str) -> Result<Field, AllocError> {
    match word.parse::<i128>() {
        Ok(number) => Ok(Field::Number(number)),
        Err(_) => Ok(Field::Bytes(Text::from(bytes(alloc, word)?))),
    }
}

pub(crate) fn payload(alloc: Global, words: &[&str]) -> Result<Payload> {
    let mut payload = Payload::new(alloc);
    for word in words {
        payload.push(field(alloc, word)?)?;
    }
    Ok(payload)
}

/// The payloads of words between which a `:` stands.
pub(crate) fn payloads(alloc: Global, words: &[&str]) -> Result<Vec<Payload>> {
    let mut payloads = Vec::new(alloc);
    for part in words.split(|word| *word == ":") {
        payloads.push(payload(alloc, part)?)?;
    }
    Ok(payloads)
}

pub(crate) fn row(alloc: Global, begin: &str, end: &str, fields: &[&str]) -> Result<Row> {
    let payload = payload(alloc, fields)?;
    Ok(Row::new(time(begin)?, time(end)?, payload)?)
}

/// The change of `+ BEGIN END FIELD..`, which adds a row, or of `- BEGIN END TO FIELD..`, which cuts one.
pub(crate) fn change(alloc: Global, words: &[&str]) -> Result<Change> {
    match words {
        ["+", begin, end, fields @ ..] => Ok(Change::Add(row(alloc, begin, end, fields)?)),
        ["-", begin, end, to, fields @ ..] => {
            let row = row(alloc, begin, end, fields)?;
            Ok(Change::cut(row, time(to)?)?)
        }
        _ => bail!("no change"),
    }
}

pub(crate) fn types(alloc: Global, word: &str) -> Result<Vec<FieldType>> {
    let mut types = Vec::new(alloc);
    for letter in word.chars() {
        match letter {
            'n' => types.push(FieldType::Number)?,
            't' => types.push(FieldType::Bytes)?,
            '-' => {}
            _ => bail!("no types: {word}"),
        }
    }
    Ok(types)
}
