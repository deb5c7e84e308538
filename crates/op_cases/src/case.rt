ghost use Rattle.std.specs.Prelude.{◌≡◌, [], replicate, true, OnOk};
ghost use Rattle.cedr_table.specs.Operators.{AllRise, AreTimes};

use crate::answered::Answered;
use crate::shown::ShownTime;
use crate::step::{Step, read_step};
use anyhow::{Result, bail};
use cedr_base::{Change, FOREVER, Time};
use cedr_table::{Operator, Table, no_marks};
use std::alloc::Global;
use test_feeding::{feed, no_tables, raise};

/// A new operator takes the steps that lines say. Each line is written, and what it leads to.
pub(crate) fn play<O: Operator + Drop>(
    rt: &impl Print,
    alloc: Global,
    op: O,
    ports: usize,
    lines: &[String],
) -> Result<()>
    requires { O.stands op (replicate ports []) (replicate ports 0) }
{
    let mut op = op;
    let mut tables = no_tables(alloc, ports)?;
    let mut marks = no_marks(alloc, ports)?;
    let mut answered = Answered::new(alloc);
    for line in lines {
        println!(rt; "{line}")?;
        let step = read_step(alloc, line.as_str())?;
        take_step(
            rt,
            alloc,
            &mut op,
            &mut tables,
            &mut marks,
            &mut answered,
            step,
        )?;
    }
    answered.settle(alloc)
}

/// Takes a step, and writes what it asks for.
fn take_step<O: Operator>(
    rt: &impl Print,
    alloc: Global,
    op: &mut O,
    tables: &mut Vec<Table>,
    marks: &mut Vec<Time>,
    answered: &mut Answered,
    step: Step,
) -> Result<()>
    requires stands { O.stands op.old tables.old.items marks.old.items }
    requires times { AreTimes marks.old.items }
    ensures stands { OnOk result (O.stands op.new tables.new.items marks.new.items) }
    ensures times { OnOk result (AreTimes marks.new.items) }
{
    match step {
        Step::Come(port, change) => take(
            alloc,
            op,
            tables,
            marks.as_slice(),
            port,
            &change,
            &mut answered.changes,
        ),
        Step::Rise(port, mark) => rise(op, tables.as_slice(), marks, port, mark),
        Step::Bound(later) => write_bound(
            rt,
            op,
            tables.as_slice(),
            marks.as_slice(),
            later.as_slice(),
        ),
        Step::Ask(asked) => answered.tell(rt, alloc, asked),
    }
}

/// Takes a change on a port, and appends what the operator answers with.
fn take<O: Operator>(
    alloc: Global,
    op: &mut O,
    tables: &mut Vec<Table>,
    marks: &[Time],
    port: usize,
    change: &Change,
    out: &mut Vec<Change>,
) -> Result<()>
    requires { O.stands op.old tables.old.items marks.now }
    ensures { OnOk result (O.stands op.new tables.new.items marks.now) }
{
    if !feed(alloc, op, tables, marks, port, change, out)? {
        bail!("a change that may not come");
    }
    Ok(())
}

/// Raises the mark of a port, and trims the operator.
fn rise<O: Operator>(
    op: &mut O,
    tables: &[Table],
    marks: &mut Vec<Time>,
    port: usize,
    mark: Time,
) -> Result<()>
    requires stands { O.stands op.old tables.now marks.old.items }
    requires times { AreTimes marks.old.items }
    ensures stands { OnOk result (O.stands op.new tables.now marks.new.items) }
    ensures times { OnOk result (AreTimes marks.new.items) }
{
    if !raise(op, tables, marks, port, mark) {
        bail!("a mark that may not come");
    }
    Ok(())
}

/// Writes the bound at marks to which those of the ports may rise.
fn write_bound<O: Operator>(
    rt: &impl Print,
    op: &O,
    tables: &[Table],
    marks: &[Time],
    later: &[Time],
) -> Result<()>
    requires stands { O.stands op.now tables.now marks.now }
{
    if may_rise(marks, later) {
        println!(rt; "  {}", ShownTime(op.bound(later)))?;
        return Ok(());
    }
    bail!("marks that may not come")
}

/// Whether marks may rise to these.
fn may_rise(marks: &[Time], later: &[Time]) -> bool
    ensures { result ≡ true → AllRise marks.now later.now × AreTimes later.now }
{
    match marks {
        [] => later.is_empty(),
        [mark, marks @ ..] => match later {
            [] => false,
            [time, later @ ..] => mark <= time && *time <= FOREVER && may_rise(marks, later),
        },
    }
}
