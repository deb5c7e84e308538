ghost use Rattle.std.specs.Prelude.{◌≡◌, ◌<◌, ◌++◌, [], OnOk, OnErr, IfOk, option_to_list, replicate, take, length};
ghost use Rattle.cedr_base.specs.declared.time.TheConstants.{FOREVER};
ghost use Rattle.cedr_base.specs.Changes.{sync_of, changed_row};
ghost use Rattle.cedr_table.specs.Counted.{spread};
ghost use Rattle.cedr_expr.specs.Tests.{passes};
ghost use Rattle.op_join.specs.Pairs.{passes_on, both_on, met, pair_changes, all_changes};

use cedr_base::{Change, OutOfMemory, Payload, Row};
use cedr_expr::{Side, Tests};
use filed_rows::Spans;
use std::alloc::Global;
use std::collections::btree_map::Range;

fn passes_on(tests: &Tests, side: Side, payload: &Payload, other: &Payload) -> bool
    ensures { result ≡ passes_on (passes tests.now) side payload.now other.now }
{
    match side {
        Side::Left => tests.holds(payload, other),
        Side::Right => tests.holds(other, payload),
    }
}

fn both_on(
    alloc: Global,
    side: Side,
    payload: &Payload,
    other: &Payload,
) -> Result<Payload, OutOfMemory>
    ensures { IfOk result (λ p. p ≡ both_on side payload.now other.now) }
{
    match side {
        Side::Left => payload.joined(alloc, other),
        Side::Right => other.joined(alloc, payload),
    }
}

/// The result's row for a pair, where there is one.
fn pair_row(
    alloc: Global,
    tests: &Tests,
    side: Side,
    row: &Row,
    other: &Row,
) -> Result<Option<Row>, OutOfMemory>
    ensures { IfOk result (λ found. option_to_list found ≡ met (passes tests.now) side row.now other.now) }
{
    let begin = row.begin.max(other.begin);
    let end = row.end.min(other.end);
    if begin >= end || !passes_on(tests, side, &row.payload, &other.payload) {
        return Ok(None);
    }
    let payload = both_on(alloc, side, &row.payload, &other.payload)?;
    Ok(Some(Row {
        end,
        begin,
        payload,
    }))
}

/// Appends what a change does to the row of a pair.
fn repair_row(change: &Change, found: Option<Row>, out: &mut Vec<Change>) -> Result<(), OutOfMemory>
    ensures ok { OnOk result (out.new.items ≡ out.old.items ++ pair_changes change.now (option_to_list found)) }
    ensures err { OnErr result (out.new.items ≡ out.old.items) }
{
    let Some(row) = found else {
        return Ok(());
    };
    match change {
        Change::Add(_) => {
            out.push(Change::Add(row))?;
        }
        Change::Cut(_, end) => {
            if *end < row.end {
                let at = (*end).max(row.begin);
                out.push(Change::Cut(row, at))?;
            }
        }
    }
    Ok(())
}

/// Appends what a change does to the rows of its pairs with copies of a row. Where memory runs out a part may stand
/// there.
fn repair_copies(
    alloc: Global,
    tests: &Tests,
    side: Side,
    change: &Change,
    other: &Row,
    count: usize,
    out: &mut Vec<Change>,
) -> Result<(), OutOfMemory>
    ensures ok { OnOk result (out.new.items ≡ out.old.items ++ all_changes (passes tests.now) side change.now (replicate count other.now)) }
    ensures err { OnErr result (take (length out.old.items) out.new.items ≡ out.old.items) }
{
    for _ in 0..count {
        let found = pair_row(alloc, tests, side, change.row(), other)?;
        repair_row(change, found, out)?;
    }
    Ok(())
}

/// Appends what a change does to the rows of its pairs with the rows of a range. Where memory runs out a part may stand
/// there.
fn repair_range(
    alloc: Global,
    tests: &Tests,
    side: Side,
    change: &Change,
    others: Range<'_, Row, usize>,
    out: &mut Vec<Change>,
) -> Result<(), OutOfMemory>
    ensures ok { OnOk result (out.new.items ≡ out.old.items ++ all_changes (passes tests.now) side change.now (spread others.entry)) }
    ensures err { OnErr result (take (length out.old.items) out.new.items ≡ out.old.items) }
{
    for (other, count) in others {
        repair_copies(alloc, tests, side, change, other, *count, out)?;
    }
    Ok(())
}

/// Appends what a change does to the rows of its pairs with these rows. O(log n) comparisons, and O(1) for each row
/// that ends after the change is seen and, by the longest one, may begin before the changed row ends. Where memory runs
/// out a part may stand there.
pub(crate) fn repair_pairs(
    alloc: Global,
    tests: &Tests,
    side: Side,
    change: &Change,
    others: &Spans,
    out: &mut Vec<Change>,
) -> Result<(), OutOfMemory>
    requires { sync_of change.now < FOREVER }
    ensures ok { OnOk result (out.new.items ≡ out.old.items ++ all_changes (passes tests.now) side change.now others.now) }
    ensures err { OnErr result (take (length out.old.items) out.new.items ≡ out.old.items) }
{
    let (ending, unended) = others.meeting(alloc, change.sync(), change.row().end);
    repair_range(alloc, tests, side, change, ending, out)?;
    repair_range(alloc, tests, side, change, unended, out)
}
