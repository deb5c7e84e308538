ghost use Rattle.std.specs.Prelude.{◌≤◌, IfOk};
ghost use Rattle.change_laws.specs.Times.{IsWhile};

use anyhow::{Result, bail};
use cedr_base::{FOREVER, Field, FieldType, Text, Time};
use cedr_expr::{Op, Operand, Test};
use std::alloc::Global;

/// The longest scope, width or way in time.
const LONGEST: u64 = 1 << 40;

/// A time: a number, `inf`, or `inf-` and how much earlier.
pub(crate) fn read_time(word: &str) -> Result<Time> {
    match word.strip_prefix("inf") {
        None => Ok(word.parse::<u64>()?),
        Some("") => Ok(FOREVER),
        Some(earlier) => Ok(FOREVER.saturating_sub(read_earlier(earlier)?)),
    }
}

fn read_earlier(word: &str) -> Result<u64> {
    match word.strip_prefix('-') {
        Some(number) => Ok(number.parse::<u64>()?),
        None => bail!("no time: inf{word}"),
    }
}

/// A while in time, as a scope or a width is.
pub(crate) fn read_while(word: &str) -> Result<u64>
    ensures { IfOk result IsWhile }
{
    let time = word.parse::<u64>()?;
    if time < 1 || time > LONGEST {
        bail!("no while in time: {word}");
    }
    Ok(time)
}

/// A number of ports, of an operator that may have 2 to 4.
pub(crate) fn read_ports(word: &str) -> Result<usize>
    ensures { IfOk result (λ ports. (2 ≤ ports) × (ports ≤ 4)) }
{
    let ports = word.parse::<usize>()?;
    if ports < 2 || ports > 4 {
        bail!("not 2 to 4 ports: {word}");
    }
    Ok(ports)
}

/// A number of so many ports, of which there is to be one at least.
pub(crate) fn read_number(word: &str, ports: usize) -> Result<usize>
    ensures { IfOk result (λ number. (1 ≤ number) × (number ≤ ports)) }
{
    let number = word.parse::<usize>()?;
    if number < 1 || number > ports {
        bail!("not 1 to {ports}: {word}");
    }
    Ok(number)
}

fn text_of(alloc: Global, word: &str) -> Result<Text> {
    Ok(Text::from_slice(alloc, word.as_bytes())?)
}

/// A field of a payload: a text behind a `'`, or a number.
pub(crate) fn read_field(alloc: Global, word: &str) -> Result<Field> {
    match word.strip_prefix('\'') {
        Some(text) => Ok(Field::Bytes(text_of(alloc, text)?)),
        None => Ok(Field::Number(word.parse::<i128>()?)),
    }
}

/// The columns of a word such as `0,2`; a `-` has none.
pub(crate) fn read_columns(alloc: Global, word: &str) -> Result<Vec<usize>> {
    let mut columns = Vec::new(alloc);
    if word != "-" {
        for part in word.split(',') {
            columns.push(part.parse::<usize>()?)?;
        }
    }
    Ok(columns)
}

/// The types of a word such as `text,int`; a `-` has none.
pub(crate) fn read_types(alloc: Global, word: &str) -> Result<Vec<FieldType>> {
    let mut types = Vec::new(alloc);
    if word != "-" {
        for part in word.split(',') {
            types.push(read_type(part)?)?;
        }
    }
    Ok(types)
}

fn read_type(word: &str) -> Result<FieldType> {
    match word {
        "text" => Ok(FieldType::Bytes),
        "int" => Ok(FieldType::Number),
        _ => bail!("no type: {word}"),
    }
}

/// A test such as `0,=,#2`.
pub(crate) fn read_test(alloc: Global, word: &str) -> Result<Test> {
    let parts: Vec<&str> = word.split(',').collect(alloc)?;
    match parts.as_slice() {
        [left, comparison, right] => Ok(Test {
            left: left.parse::<usize>()?,
            op: read_comparison(comparison)?,
            right: read_operand(alloc, right)?,
        }),
        _ => bail!("no test: {word}"),
    }
}

fn read_comparison(word: &str) -> Result<Op> {
    match word {
        "=" => Ok(Op::Eq),
        "!=" => Ok(Op::Ne),
        "<" => Ok(Op::Lt),
        "<=" => Ok(Op::Le),
        ">" => Ok(Op::Gt),
        ">=" => Ok(Op::Ge),
        _ => bail!("no comparison: {word}"),
    }
}

/// What a column is compared with: another one behind a `#`, a text behind a `'`, or a number.
fn read_operand(alloc: Global, word: &str) -> Result<Operand> {
    if let Some(column) = word.strip_prefix('#') {
        return Ok(Operand::Column(column.parse::<usize>()?));
    }
    match word.strip_prefix('\'') {
        Some(text) => Ok(Operand::Bytes(text_of(alloc, text)?)),
        None => Ok(Operand::Number(word.parse::<i64>()?)),
    }
}
