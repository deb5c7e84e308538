ghost use Rattle.std.specs.Prelude.{◌≡◌, ◌≤◌, true, IfOk};
ghost use Rattle.cedr_base.specs.Rows.{IsRow};
ghost use Rattle.cedr_base.specs.declared.time.TheConstants.{FOREVER};
ghost use Rattle.node_laws.specs.Pass.{HasBlockWithin};

use anyhow::{Result, bail};
use cedr_base::{FOREVER, Field, Level, OutOfMemory, Payload, Row, Text, Time};
use std::alloc::Global;
use test_feeding::{Brief, MIDDLE, STRONG};

/// A time, which may be `inf`.
pub(crate) fn time(word: &str) -> Result<Time>
    ensures { IfOk result (λ time. time ≤ FOREVER) }
{
    if word == "inf" {
        return Ok(FOREVER);
    }
    let time = word.parse::<u64>()?;
    if time > FOREVER {
        bail!("no such time: {word}");
    }
    Ok(time)
}

/// A block or a memory, which may be `inf`: then it is without limit.
fn bound(word: &str) -> Result<Option<u64>> {
    if word == "inf" {
        return Ok(None);
    }
    Ok(Some(word.parse::<u64>()?))
}

/// Whether the block isn't over the memory.
fn is_level(level: Level) -> bool
    ensures { result ≡ true → HasBlockWithin level }
{
    match (level.block, level.memory) {
        (_, None) => true,
        (None, Some(_)) => false,
        (Some(block), Some(memory)) => block <= memory,
    }
}

/// A port's level: `strong`, `middle`, or `block BOUND memory BOUND`.
pub(crate) fn level(words: &[&str]) -> Result<Level>
    ensures { IfOk result HasBlockWithin }
{
    let level = match words {
        ["strong"] => STRONG,
        ["middle"] => MIDDLE,
        ["block", block, "memory", memory] => Level {
            block: bound(block)?,
            memory: bound(memory)?,
        },
        _ => bail!("no such level"),
    };
    if !is_level(level) {
        bail!("the block is over the memory");
    }
    Ok(level)
}

/// An addition of a row of one number.
fn addition(number: &str, begin: &str, end: &str) -> Result<Brief> {
    Ok(Brief::Add(number.parse::<i128>()?, time(begin)?, time(end)?))
}

/// A retraction of a row that was added.
fn retraction(added: Brief, to: &str) -> Result<Brief> {
    match added {
        Brief::Add(number, begin, end) => Ok(Brief::Cut(number, begin, end, time(to)?)),
        _ => bail!("only a row is retracted"),
    }
}

/// A message: `+ NUMBER BEGIN END`, `- NUMBER BEGIN END TO`, `= MARK`, `end` or `broken`.
pub(crate) fn message(words: &[&str]) -> Result<Brief> {
    match words {
        ["+", number, begin, end] => addition(number, begin, end),
        ["-", number, begin, end, to] => retraction(addition(number, begin, end)?, to),
        ["=", mark] => Ok(Brief::Mark(time(mark)?)),
        ["end"] => Ok(Brief::End),
        ["broken"] => Ok(Brief::Broken),
        _ => bail!("no such message"),
    }
}

/// A field: a number where the word is one, else a text.
fn field(alloc: Global, word: &str) -> Result<Field, OutOfMemory> {
    match word.parse::<i128>() {
        Ok(number) => Ok(Field::Number(number)),
        Err(_) => Ok(Field::Bytes(Text::from_slice(alloc, word.as_bytes())?)),
    }
}

/// A row with these fields.
pub(crate) fn row(alloc: Global, begin: &str, end: &str, fields: &[&str]) -> Result<Row>
    ensures { IfOk result IsRow }
{
    let mut payload = Payload::new(alloc);
    for word in fields {
        payload.push(field(alloc, word)?)?;
    }
    Ok(Row::new(time(begin)?, time(end)?, payload)?)
}
