ghost use Rattle.std.specs.Prelude.{◌≡◌, ◌++◌, ◌<◌, [], true, OnOk, IfOk, replicate};
ghost use Rattle.cedr_base.specs.Rows.{IsRow, SameRows};
ghost use Rattle.cedr_base.specs.Changes.{MayFollow, puts, takes};
ghost use Rattle.cedr_table.specs.Operators.{AreTimes};

use cedr_base::{Change, FOREVER, OutOfMemory, Row, Time};
use cedr_table::{Operator, Table};
use std::alloc::Global;

fn is_row(row: &Row) -> bool
    ensures { result ≡ true → IsRow row.now }
{
    row.begin < row.end && row.begin < FOREVER && row.end <= FOREVER
}

/// Whether a change may come on a port with this table.
pub(crate) fn may_come(table: &Table, change: &Change) -> bool
    ensures { result ≡ true → MayFollow table.now [] change.now }
{
    match change {
        Change::Add(row) => is_row(row),
        Change::Cut(row, end) => {
            is_row(row) && row.begin <= *end && *end < row.end && table.count(row) > 0
        }
    }
}

/// Applies a change that may come.
pub(crate) fn note(table: &mut Table, change: Change) -> Result<(), OutOfMemory>
    ensures { OnOk result (SameRows (table.new ++ takes change) (table.old ++ puts change)) }
{
    match table.apply(change) {
        Ok(()) => Ok(()),
        Err(_) => Err(OutOfMemory),
    }
}

/// Feeds an operator with a change where it may come at these marks: the answer says whether it was. There are a table
/// and a mark for each of the operator's ports.
pub fn feed<O: Operator>(
    alloc: Global,
    op: &mut O,
    tables: &mut Vec<Table>,
    marks: &[Time],
    port: usize,
    change: &Change,
    out: &mut Vec<Change>,
) -> Result<bool, OutOfMemory>
    requires { O.stands op.old tables.old.items marks.now }
    ensures { OnOk result (O.stands op.new tables.new.items marks.now) }
{
    if port >= tables.len() || port >= marks.len() || change.sync() < marks[port] {
        return Ok(false);
    }
    if !may_come(&tables[port], change) {
        return Ok(false);
    }
    op.apply(alloc, port, change.copy(alloc)?, out)?;
    note(&mut tables[port], change.copy(alloc)?)?;
    Ok(true)
}

/// Raises the mark of one of an operator's ports where it may rise to that, and trims the operator at its marks: the
/// answer says whether it was. The mark may stay as it is.
pub fn raise<O: Operator>(
    op: &mut O,
    tables: &[Table],
    marks: &mut Vec<Time>,
    port: usize,
    mark: Time,
) -> bool
    requires stands { O.stands op.old tables.now marks.old.items }
    requires times { AreTimes marks.old.items }
    ensures stands { O.stands op.new tables.now marks.new.items }
    ensures times { AreTimes marks.new.items }
{
    if port >= marks.len() || mark < marks[port] || mark > FOREVER {
        return false;
    }
    marks[port] = mark;
    op.trim(marks.as_slice());
    true
}

/// The tables of an operator's ports to which no change has come.
pub fn no_tables(alloc: Global, ports: usize) -> Result<Vec<Table>, OutOfMemory>
    ensures { IfOk result (λ tables. tables.items ≡ replicate ports []) }
{
    let mut tables = Vec::new(alloc);
    for _ in 0..ports {
        tables.push(Table::new(alloc))?;
    }
    Ok(tables)
}

/// Applies the answers of an operator to the rows of its result, up to the first one that may not come. Whether all
/// of them came.
pub fn repair(rows: &mut Table, answers: Vec<Change>) -> bool {
    for answer in answers {
        if !may_come(rows, &answer) || rows.apply(answer).is_err() {
            return false;
        }
    }
    true
}
