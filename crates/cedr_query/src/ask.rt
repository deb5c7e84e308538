ghost use Rattle.std.specs.Prelude.{ℕ, ◌≡◌, ◌<◌, ◌++◌, ◌∷◌, [], List, All, OnOk, IfOk, length, map, replicate, slice_index};
ghost use Rattle.cedr_base.specs.Rows.{IsRow, AreRows};
ghost use Rattle.cedr_table.specs.Operators.{Tables, AreTimes, SameTables, table_at, with_table, HaveRows};
ghost use Rattle.cedr_query.specs.Asked.{MadeOfTables, IsAnswer};

use cedr_base::{Change, OutOfMemory, Row, Time};
use cedr_table::{Operator, Table, apply_all};
use std::alloc::Global;

/// What an operator makes of tables and marks on its ports.
#[derive(Drop)]
pub(crate) struct Answer {
    /// The rows of its result.
    pub(crate) rows: Table,
    /// The guarantee that it may hand on.
    pub(crate) mark: Time,
}

/// A copy of a row comes on a port, and what has been made takes the answers.
fn add_row<O: Operator>(
    alloc: Global,
    op: &mut O,
    port: usize,
    row: &Row,
    made: &mut Table,
) -> Result<(), OutOfMemory>
    requires row { IsRow row.now }
    requires port { port < (O.meaning op.old).ports }
    requires works { (tables : Tables) × MadeOfTables (O.meaning op.old) (O.stands op.old) tables made.old }
    ensures works { OnOk result ((tables : Tables) → MadeOfTables (O.meaning op.old) (O.stands op.old) tables made.old → MadeOfTables (O.meaning op.new) (O.stands op.new) (with_table tables port (table_at tables port ++ row.now ∷ [])) made.new) }
    ensures meaning { OnOk result (O.meaning op.new ≡ O.meaning op.old) }
{
    let change = Change::Add(row.copy(alloc)?);
    let mut answers = Vec::new(alloc);
    op.apply(alloc, port, change, &mut answers)?;
    apply_all(alloc, made, answers.as_slice())
}

/// Each of some rows comes on a port.
fn add_rows<O: Operator>(
    alloc: Global,
    op: &mut O,
    port: usize,
    rows: &[Row],
    made: &mut Table,
) -> Result<(), OutOfMemory>
    requires rows { AreRows rows.now }
    requires port { port < (O.meaning op.old).ports }
    requires works { (tables : Tables) × MadeOfTables (O.meaning op.old) (O.stands op.old) tables made.old }
    ensures works { OnOk result ((tables : Tables) → MadeOfTables (O.meaning op.old) (O.stands op.old) tables made.old → MadeOfTables (O.meaning op.new) (O.stands op.new) (with_table tables port (table_at tables port ++ rows.now)) made.new) }
    ensures meaning { OnOk result (O.meaning op.new ≡ O.meaning op.old) }
{
    for row in rows {
        add_row(alloc, op, port, row, made)?;
    }
    Ok(())
}

/// The tables that are read come on a new operator's ports, one after the other.
fn add_tables<O: Operator>(
    alloc: Global,
    op: &mut O,
    tables: &[Table],
    inputs: &[usize],
    made: &mut Table,
) -> Result<(), OutOfMemory>
    requires new { O.stands op.old (replicate (O.meaning op.old).ports []) (replicate (O.meaning op.old).ports 0) }
    requires ports { length inputs.now ≡ (O.meaning op.old).ports }
    requires inputs { All (λ place. place < length tables.now) inputs.now }
    requires rows { HaveRows tables.now }
    requires empty { made.old ≡ [] }
    ensures works { OnOk result ((others : Tables) → SameTables (map (table_at tables.now) inputs.now) others → MadeOfTables (O.meaning op.new) (O.stands op.new) others made.new) }
    ensures meaning { OnOk result (O.meaning op.new ≡ O.meaning op.old) }
{
    for (port, input) in inputs.iter().enumerate() {
        let rows = tables[*input].canonical()?;
        add_rows(alloc, op, port, rows.as_slice(), made)?;
    }
    Ok(())
}

/// What a new operator makes of the tables that are read, one for each port, and of a mark for each port. It takes
/// a change for each row.
pub(crate) fn ask<O: Operator + Drop>(
    alloc: Global,
    mut op: O,
    tables: &[Table],
    inputs: &[usize],
    marks: &[Time],
) -> Result<Answer, OutOfMemory>
    requires new { O.stands op (replicate (O.meaning op).ports []) (replicate (O.meaning op).ports 0) }
    requires ports { length inputs.now ≡ (O.meaning op).ports }
    requires inputs { All (λ place. place < length tables.now) inputs.now }
    requires rows { HaveRows tables.now }
    requires marks { length marks.now ≡ length inputs.now }
    requires times { AreTimes marks.now }
    ensures { IfOk result (λ answer. (others : Tables) → SameTables (map (table_at tables.now) inputs.now) others → IsAnswer (O.meaning op) others marks.now answer.rows answer.mark) }
{
    let mut rows = Table::new(alloc);
    add_tables(alloc, &mut op, tables, inputs, &mut rows)?;
    let mark = op.bound(marks);
    Ok(Answer { rows, mark })
}
