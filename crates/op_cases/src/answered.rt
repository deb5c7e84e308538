use crate::shown::{ShownChange, ShownRow};
use crate::step::Asked;
use anyhow::{Result, bail};
use cedr_base::Change;
use cedr_table::Table;
use std::alloc::Global;
use std::mem;
use test_feeding::repair;

/// What an operator answered with.
#[derive(Drop)]
pub(crate) struct Answered {
    /// The changes that nothing was written of yet.
    pub changes: Vec<Change>,
    /// The rows that those before them lead to.
    rows: Table,
}

impl Answered {
    /// No answers. It takes no memory.
    pub(crate) fn new(alloc: Global) -> Answered {
        Answered {
            changes: Vec::new(alloc),
            rows: Table::new(alloc),
        }
    }

    /// Writes what is asked for.
    pub(crate) fn tell(&mut self, rt: &impl Print, alloc: Global, asked: Asked) -> Result<()> {
        match asked {
            Asked::Answers => {
                write_changes(rt, self.changes.as_slice())?;
                self.settle(alloc)
            }
            Asked::Count => {
                println!(rt; "  {}", self.changes.len())?;
                self.settle(alloc)
            }
            Asked::Rows => {
                self.settle(alloc)?;
                write_rows(rt, &self.rows)
            }
        }
    }

    /// Applies the changes to the rows that those before them lead to.
    pub(crate) fn settle(&mut self, alloc: Global) -> Result<()> {
        let changes = mem::replace(&mut self.changes, Vec::new(alloc));
        if !repair(&mut self.rows, changes) {
            bail!("an answer that may not come");
        }
        Ok(())
    }
}

fn write_changes(rt: &impl Print, changes: &[Change]) -> Result<()> {
    for change in changes {
        println!(rt; "  {}", ShownChange(change))?;
    }
    Ok(())
}

fn write_rows(rt: &impl Print, table: &Table) -> Result<()> {
    for row in &table.canonical()? {
        println!(rt; "  {}", ShownRow(row))?;
    }
    Ok(())
}
