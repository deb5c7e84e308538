//! Tests over the columns of a left and a right payload, and kept columns. A test is a column, one of `= != < <= > >=`,
//! and a column or a constant.
//!
//! - `tests TYPES TYPES : TEST : TEST ..`: the tests for payloads of these types. Where they are refused those before stay.
//! - `holds FIELD.. : FIELD..`: whether the tests hold of the two payloads, and whether a copy of them holds of these as one.
//! - `compare COLUMN OPERAND : FIELD.. : FIELD..`: the operators by which the test of these sides, alone, holds of the two
//!   payloads. It is made for four columns on each side, all of them texts where the operand is one, else numbers.
//! - `keep TYPES COLUMNS FIELD..`: what a copy of these columns, as `2,0`, keeps of the payload.

use crate::Subject;
use crate::words::{bytes, payload, payloads, types};
use crate::written::write_payload;
use anyhow::{Context, Result, bail};
use cedr_base::{FieldType, Payload, Text};
use cedr_expr::{Keep, Op, Operand, Test, Tests};
use std::alloc::Global;

const OPS: [(&str, Op); 6] = [
    ("=", Op::Eq),
    ("!=", Op::Ne),
    ("<", Op::Lt),
    ("<=", Op::Le),
    (">", Op::Gt),
    (">=", Op::Ge),
];

impl Subject for Tests {
    fn answer(&mut self, rt: &impl Print, alloc: Global, words: &[&str]) -> Option<Result<()>> {
        match words {
            ["tests", left, right, tests @ ..] => Some(set(alloc, self, left, right, tests)),
            ["holds", payloads @ ..] => Some(write_held(rt, alloc, self, payloads)),
            ["compare", left, right, ":", payloads @ ..] => {
                Some(compare(rt, alloc, left, right, payloads))
            }
            ["keep", types, columns, fields @ ..] => {
                Some(write_kept(rt, alloc, types, columns, fields))
            }
            _ => None,
        }
    }
}

/// The column of a word such as `c0`.
fn column(word: &str) -> Option<usize> {
    word.strip_prefix('c')?.parse::<usize>().ok()
}

fn operand(alloc: Global, word: &str) -> Result<Operand> {
    if let Some(column) = column(word) {
        return Ok(Operand::Column(column));
    }
    match word.parse::<i64>() {
        Ok(number) => Ok(Operand::Number(number)),
        Err(_) => Ok(Operand::Bytes(Text::from(bytes(alloc, word)?))),
    }
}

fn op(word: &str) -> Option<Op> {
    for (name, op) in OPS {
        if name == word {
            return Some(op);
        }
    }
    None
}

fn test(alloc: Global, left: &str, name: &str, right: &str) -> Result<Test> {
    Ok(Test {
        left: column(left).context("no column")?,
        op: op(name).context("no operator")?,
        right: operand(alloc, right)?,
    })
}

fn test_list(alloc: Global, words: &[&str]) -> Result<Vec<Test>> {
    let mut list = Vec::new(alloc);
    for part in words.chunks(4) {
        let [":", left, name, right] = part else {
            bail!("no test");
        };
        list.push(test(alloc, left, name, right)?)?;
    }
    Ok(list)
}

/// Sets the tests.
fn set(alloc: Global, tests: &mut Tests, left: &str, right: &str, words: &[&str]) -> Result<()> {
    let list = test_list(alloc, words)?;
    let (left, right) = (types(alloc, left)?, types(alloc, right)?);
    *tests = Tests::new(list, left.as_slice(), right.as_slice())?;
    Ok(())
}

fn write_held(rt: &impl Print, alloc: Global, tests: &Tests, words: &[&str]) -> Result<()> {
    let payloads = payloads(alloc, words)?;
    let [left, right] = payloads.as_slice() else {
        bail!("not two payloads");
    };
    let joined = left.joined(alloc, right)?;
    let copied = tests.copy(alloc)?;
    print!(rt;
        " {} {}",
        tests.holds(left, right),
        copied.holds_alone(&joined)
    )?;
    Ok(())
}

fn compare(rt: &impl Print, alloc: Global, left: &str, right: &str, words: &[&str]) -> Result<()> {
    let payloads = payloads(alloc, words)?;
    for (name, _) in OPS {
        let test = test(alloc, left, name, right)?;
        if passes(alloc, test, payloads.as_slice())? {
            print!(rt; " {name}")?;
        }
    }
    Ok(())
}

/// Whether a test alone holds of two payloads.
fn passes(alloc: Global, test: Test, payloads: &[Payload]) -> Result<bool> {
    let [left, right] = payloads else {
        bail!("not two payloads");
    };
    let types = match &test.right {
        Operand::Bytes(_) => [FieldType::Bytes; 4],
        _ => [FieldType::Number; 4],
    };
    let tests = Tests::new(vec![in alloc; test]?, &types, &types)?;
    Ok(tests.holds(left, right))
}

/// The columns of a word such as `2,0`.
fn columns(alloc: Global, word: &str) -> Result<Vec<usize>> {
    let mut columns = Vec::new(alloc);
    if word != "-" {
        for part in word.split(',') {
            columns.push(part.parse::<usize>()?)?;
        }
    }
    Ok(columns)
}

fn write_kept(
    rt: &impl Print,
    alloc: Global,
    letters: &str,
    list: &str,
    words: &[&str],
) -> Result<()> {
    let keep = Keep::new(columns(alloc, list)?, types(alloc, letters)?.as_slice())?;
    let payload = payload(alloc, words)?;
    write_payload(rt, alloc, &keep.copy(alloc)?.apply(alloc, &payload)?)
}
