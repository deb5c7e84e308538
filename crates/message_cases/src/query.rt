ghost use Rattle.std.specs.Prelude.{◌≡◌, true, IfOk, OnOk, length};
ghost use Rattle.cedr_base.specs.Rows.{IsRow, AreRows};
ghost use Rattle.cedr_plan.specs.Rules.{IsPlan};
ghost use Rattle.cedr_plan.specs.Places.{source_count};
ghost use Rattle.cedr_table.specs.Operators.{AreTimes, HaveRows};

use crate::line::{row, time};
use crate::shown::{Moment, write_rows};
use anyhow::{Result, bail};
use cedr_base::{Row, Time};
use cedr_plan::{Plan, count_sources};
use cedr_query::{evaluate, reach};
use cedr_table::Table;
use std::alloc::Global;
use test_feeding::no_tables;

/// Fills the tables of a plan's sources line by line, and writes what the query makes of them.
pub(crate) fn play(rt: &impl Print, alloc: Global, plan: &Plan, lines: &[String]) -> Result<()>
    requires { IsPlan plan.now }
{
    let mut tables = no_tables(alloc, count_sources(plan.nodes.as_slice()))?;
    for line in lines {
        step(rt, alloc, plan, &mut tables, line.as_str())?;
    }
    Ok(())
}

/// One line: `row SOURCE BEGIN END FIELD..`, `rows` or `reach MARK..`.
fn step(
    rt: &impl Print,
    alloc: Global,
    plan: &Plan,
    tables: &mut Vec<Table>,
    line: &str,
) -> Result<()>
    requires plan { IsPlan plan.now }
    requires count { length tables.old.items ≡ source_count plan.now.nodes.items }
    requires rows { HaveRows tables.old.items }
    ensures count { OnOk result (length tables.new.items ≡ source_count plan.now.nodes.items) }
    ensures rows { OnOk result (HaveRows tables.new.items) }
{
    let words: Vec<&str> = line.split_whitespace().collect(alloc)?;
    match words.as_slice() {
        ["row", source, begin, end, fields @ ..] => {
            put(
                tables,
                source.parse::<usize>()?,
                row(alloc, begin, end, fields)?,
            )?;
            println!(rt; "{line}")?;
            Ok(())
        }
        ["rows"] => tell_rows(rt, alloc, plan, tables.as_slice(), line),
        ["reach", marks @ ..] => tell_reach(rt, alloc, plan, tables.as_slice(), line, marks),
        _ => bail!("no such line: {line}"),
    }
}

/// The table of a source gets one more row.
fn put(tables: &mut Vec<Table>, source: usize, row: Row) -> Result<()>
    requires row { IsRow row }
    requires rows { HaveRows tables.old.items }
    ensures count { OnOk result (length tables.new.items ≡ length tables.old.items) }
    ensures rows { OnOk result (HaveRows tables.new.items) }
{
    if source >= tables.len() {
        bail!("no such source: {source}");
    }
    tables[source].insert(row)?;
    Ok(())
}

/// Writes the rows of the plan's query from scratch, in canonical order.
fn tell_rows(
    rt: &impl Print,
    alloc: Global,
    plan: &Plan,
    tables: &[Table],
    line: &str,
) -> Result<()>
    requires plan { IsPlan plan.now }
    requires count { length tables.now ≡ source_count plan.now.nodes.items }
    requires rows { HaveRows tables.now }
{
    let rows = evaluate(alloc, plan, tables)?.canonical()?;
    println!(rt; "{line}")?;
    write_rows(rt, rows.as_slice())
}

/// The marks that words name.
fn marks_of(alloc: Global, words: &[&str]) -> Result<Vec<Time>>
    ensures { IfOk result (λ marks. AreTimes marks.items) }
{
    let mut marks = Vec::new(alloc);
    for word in words {
        marks.push(time(word)?)?;
    }
    Ok(marks)
}

/// Writes how far the plan's output reaches from scratch, at a mark for each source.
fn tell_reach(
    rt: &impl Print,
    alloc: Global,
    plan: &Plan,
    tables: &[Table],
    line: &str,
    words: &[&str],
) -> Result<()>
    requires plan { IsPlan plan.now }
    requires count { length tables.now ≡ source_count plan.now.nodes.items }
    requires rows { HaveRows tables.now }
{
    let marks = marks_of(alloc, words)?;
    if marks.len() != tables.len() {
        bail!("not a mark for each source: {line}");
    }
    let reached = reach(alloc, plan, tables, marks.as_slice())?;
    println!(rt; "{line}: {}", Moment(reached))?;
    Ok(())
}
