//! A table:
//!
//! - `+ BEGIN END FIELD..` and `- BEGIN END TO FIELD..`: applies the change, and writes how many rows there are then.
//! - `rows`: how many rows there are, and the rows in canonical order.
//! - `count BEGIN END FIELD..`: how many copies of the row there are.
//! - `take BEGIN END FIELD..`: takes a copy of the row, and writes whether there was one, how many rows stay, and how many
//!   rows a copy of the table has that was made before, and how many of them are this row.
//! - `from BEGIN END FIELD..` and `below BEGIN END FIELD..`: the rows from this row on, or before it, each after the number of
//!   its copies.

use crate::Subject;
use crate::words::{change, row};
use crate::written::{write_row, write_rows};
use anyhow::Result;
use cedr_base::Row;
use cedr_table::Table;
use std::alloc::Global;
use std::collections::btree_map::Range;

impl Subject for Table {
    fn answer(&mut self, rt: &impl Print, alloc: Global, words: &[&str]) -> Option<Result<()>> {
        match words {
            ["rows"] => Some(write_table(rt, alloc, self)),
            ["+", ..] => Some(apply(rt, alloc, self, words)),
            ["-", ..] => Some(apply(rt, alloc, self, words)),
            [question, begin, end, fields @ ..] => match row(alloc, begin, end, fields) {
                Ok(row) => answer_about(rt, alloc, self, question, row),
                Err(fault) => Some(Err(fault)),
            },
            _ => None,
        }
    }
}

fn write_table(rt: &impl Print, alloc: Global, table: &Table) -> Result<()> {
    print!(rt; " {}:", table.len())?;
    write_rows(rt, alloc, table.canonical()?.as_slice())
}

fn apply(rt: &impl Print, alloc: Global, table: &mut Table, words: &[&str]) -> Result<()> {
    table.apply(change(alloc, words)?)?;
    print!(rt; " {} rows", table.len())?;
    Ok(())
}

/// Answers a question about a row.
fn answer_about(
    rt: &impl Print,
    alloc: Global,
    table: &mut Table,
    question: &str,
    row: Row,
) -> Option<Result<()>> {
    match question {
        "count" => Some(write_count(rt, table.count(&row))),
        "take" => Some(take(rt, table, &row)),
        "from" => Some(write_range(rt, alloc, table.range(row..))),
        "below" => Some(write_range(rt, alloc, table.range(..row))),
        _ => None,
    }
}

fn write_count(rt: &impl Print, count: usize) -> Result<()> {
    print!(rt; " {count}")?;
    Ok(())
}

fn take(rt: &impl Print, table: &mut Table, row: &Row) -> Result<()> {
    let before = table.copy()?;
    let taken = table.take(row);
    print!(rt;
        " {taken}, {} rows stay; before {}, {} of them this one",
        table.len(),
        before.len(),
        before.count(row)
    )?;
    Ok(())
}

fn write_range(rt: &impl Print, alloc: Global, range: Range<'_, Row, usize>) -> Result<()> {
    for (row, count) in range {
        print!(rt; " {count}")?;
        write_row(rt, alloc, row)?;
    }
    Ok(())
}
