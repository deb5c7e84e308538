ghost use Rattle.std.specs.Prelude.{◌≡◌, ◌<◌, ◌++◌, ◌∷◌, [], ℕ, List, OnOk, OnErr, IfOk, take, length, replicate};
ghost use Rattle.std.specs.List.{flat_map, filter};
ghost use Rattle.cedr_base.specs.declared.time.TheConstants.{FOREVER};
ghost use Rattle.cedr_base.specs.declared.row.Row.{Row as RowValue};
ghost use Rattle.cedr_base.specs.Changes.{sync_of, changed_row};
ghost use Rattle.cedr_table.specs.Counted.{spread};
ghost use Rattle.filed_rows.specs.Filed.{under, right_partners};
ghost use Rattle.filed_rows.specs.Spans.{lives_within};
ghost use Rattle.op_except.specs.Parts.{row_until, row_since};
ghost use Rattle.op_except.specs.Steps.{own_at, came_at, went_at, turn_at};
ghost use Rattle.op_except.specs.Turns.{CanTurn, HasTurned};

use crate::around::parts_around;
use cedr_base::{Change, OutOfMemory, Row, Time};
use cedr_expr::Tests;
use filed_rows::{ByTag, Spans};
use std::alloc::Global;
use std::collections::btree_map::Range;

/// A row as far as a time.
fn row_until(alloc: Global, row: &Row, end: Time) -> Result<Row, OutOfMemory>
    ensures { IfOk result (λ r. r ≡ row_until end row.now) }
{
    let mut part = row.copy(alloc)?;
    part.end = part.end.min(end);
    Ok(part)
}

/// A row from a time on.
fn row_since(alloc: Global, row: &Row, begin: Time) -> Result<Row, OutOfMemory>
    ensures { IfOk result (λ r. r ≡ row_since begin row.now) }
{
    let mut part = row.copy(alloc)?;
    part.begin = part.begin.max(begin);
    Ok(part)
}

/// Appends what a change of a row of port 0 does to its parts. Where memory runs out a part may stand there.
pub(crate) fn push_own(
    change: &Change,
    found: Vec<Row>,
    out: &mut Vec<Change>,
) -> Result<(), OutOfMemory>
    ensures ok { OnOk result (out.new.items ≡ out.old.items ++ flat_map (own_at change.now) found.items) }
    ensures err { OnErr result (take (length out.old.items) out.new.items ≡ out.old.items) }
{
    for part in found {
        match change {
            Change::Add(_) => out.push(Change::Add(part))?,
            Change::Cut(_, end) => {
                if *end < part.end {
                    let at = part.begin.max(*end);
                    out.push(Change::Cut(part, at))?;
                }
            }
        }
    }
    Ok(())
}

/// Appends what becomes of a part where a matching row comes.
fn push_came(
    alloc: Global,
    other: &Row,
    part: Row,
    out: &mut Vec<Change>,
) -> Result<(), OutOfMemory>
    ensures ok { OnOk result (out.new.items ≡ out.old.items ++ came_at other.now part) }
    ensures err { OnErr result (take (length out.old.items) out.new.items ≡ out.old.items) }
{
    if part.begin >= other.end || other.begin >= part.end {
        return Ok(());
    }
    if other.end < part.end {
        let rest = row_since(alloc, &part, other.end)?;
        let at = part.begin.max(other.begin);
        out.push(Change::Cut(part, at))?;
        out.push(Change::Add(rest))?;
    } else {
        let at = part.begin.max(other.begin);
        out.push(Change::Cut(part, at))?;
    }
    Ok(())
}

/// Appends what becomes of what lies around a matching row in a part but for it, where it is cut.
fn push_went(
    alloc: Global,
    other: &Row,
    end: Time,
    part: Row,
    out: &mut Vec<Change>,
) -> Result<(), OutOfMemory>
    ensures ok { OnOk result (out.new.items ≡ out.old.items ++ went_at other.now end part) }
    ensures err { OnErr result (take (length out.old.items) out.new.items ≡ out.old.items) }
{
    if part.begin >= other.end || end >= part.end {
        return Ok(());
    }
    if end <= other.begin && part.begin < other.begin {
        let before = row_until(alloc, &part, other.begin)?;
        out.push(Change::Cut(before, part.begin))?;
    }
    if other.end < part.end {
        let rest = row_since(alloc, &part, other.end)?;
        out.push(Change::Cut(rest, other.end))?;
    }
    if end <= other.begin {
        out.push(Change::Add(part))?;
    } else {
        let free = row_since(alloc, &part, end)?;
        out.push(Change::Add(free))?;
    }
    Ok(())
}

/// Appends what a change of a matching row does to a part that is free of the others.
fn turn_part(
    alloc: Global,
    change: &Change,
    part: Row,
    out: &mut Vec<Change>,
) -> Result<(), OutOfMemory>
    ensures ok { OnOk result (out.new.items ≡ out.old.items ++ turn_at change.now part) }
    ensures err { OnErr result (take (length out.old.items) out.new.items ≡ out.old.items) }
{
    match change {
        Change::Add(other) => push_came(alloc, other, part, out),
        Change::Cut(other, end) => push_went(alloc, other, *end, part, out),
    }
}

/// The same with several parts.
fn turn_parts(
    alloc: Global,
    change: &Change,
    found: Vec<Row>,
    out: &mut Vec<Change>,
) -> Result<(), OutOfMemory>
    ensures ok { OnOk result (out.new.items ≡ out.old.items ++ flat_map (turn_at change.now) found.items) }
    ensures err { OnErr result (take (length out.old.items) out.new.items ≡ out.old.items) }
{
    for part in found {
        turn_part(alloc, change, part, out)?;
    }
    Ok(())
}

/// Appends what a change of port 1 does to the parts of a row of port 0 of this tag, beside the other rows of port 1, which
/// are filed without the changed row. Where memory runs out a part may stand there.
fn turn_row(
    alloc: Global,
    tests: &Tests,
    change: &Change,
    row: &Row,
    right: &ByTag,
    tag: u64,
    out: &mut Vec<Change>,
) -> Result<(), OutOfMemory>
    requires { sync_of change.now < FOREVER }
    ensures ok { OnOk result ((t : ℕ) (others : List RowValue) → CanTurn tests.now t change.now (right_partners right.now.entries tag) others (row.now ∷ []) → HasTurned tests.now t change.now others (row.now ∷ []) out.old.items out.new.items) }
    ensures kept { take (length out.old.items) out.new.items ≡ out.old.items }
{
    let other = change.row();
    if tests.holds(&row.payload, &other.payload) {
        let found = parts_around(alloc, tests, right, tag, row, change.sync(), other.end)?;
        turn_parts(alloc, change, found, out)
    } else {
        Ok(())
    }
}

/// The same with copies of a row.
fn turn_copies(
    alloc: Global,
    tests: &Tests,
    change: &Change,
    row: &Row,
    count: usize,
    right: &ByTag,
    tag: u64,
    out: &mut Vec<Change>,
) -> Result<(), OutOfMemory>
    requires { sync_of change.now < FOREVER }
    ensures ok { OnOk result ((t : ℕ) (others : List RowValue) → CanTurn tests.now t change.now (right_partners right.now.entries tag) others (replicate count row.now) → HasTurned tests.now t change.now others (replicate count row.now) out.old.items out.new.items) }
    ensures kept { take (length out.old.items) out.new.items ≡ out.old.items }
{
    for _ in 0..count {
        turn_row(alloc, tests, change, row, right, tag, out)?;
    }
    Ok(())
}

/// Whether a row meets the time from one time to another one.
fn meets_time(row: &Row, from: Time, to: Time) -> bool
    ensures { result ≡ lives_within from to row.now }
{
    from < row.end && row.begin < to
}

/// The same with those rows of a range that meet the time that the change is about.
fn turn_range(
    alloc: Global,
    tests: &Tests,
    change: &Change,
    rows: Range<'_, Row, usize>,
    right: &ByTag,
    tag: u64,
    out: &mut Vec<Change>,
) -> Result<(), OutOfMemory>
    requires { sync_of change.now < FOREVER }
    ensures ok { OnOk result ((t : ℕ) (others : List RowValue) → CanTurn tests.now t change.now (right_partners right.now.entries tag) others (filter (lives_within (sync_of change.now) (changed_row change.now).end) (spread rows.entry))
        → HasTurned tests.now t change.now others (filter (lives_within (sync_of change.now) (changed_row change.now).end) (spread rows.entry)) out.old.items out.new.items) }
    ensures kept { take (length out.old.items) out.new.items ≡ out.old.items }
{
    let from = change.sync();
    let to = change.row().end;
    for (row, count) in rows {
        if meets_time(row, from, to) {
            turn_copies(alloc, tests, change, row, *count, right, tag, out)?;
        }
    }
    Ok(())
}

/// The same with rows of one tag. O(log n) comparisons, and what `parts_around` costs for each row that meets the time that
/// the change is about.
fn turn_spans(
    alloc: Global,
    tests: &Tests,
    change: &Change,
    rows: &Spans,
    right: &ByTag,
    tag: u64,
    out: &mut Vec<Change>,
) -> Result<(), OutOfMemory>
    requires { sync_of change.now < FOREVER }
    ensures ok { OnOk result ((t : ℕ) (others : List RowValue) → CanTurn tests.now t change.now (right_partners right.now.entries tag) others rows.now → HasTurned tests.now t change.now others rows.now out.old.items out.new.items) }
    ensures kept { take (length out.old.items) out.new.items ≡ out.old.items }
{
    let (ending, open) = rows.meeting(alloc, change.sync(), change.row().end);
    turn_range(alloc, tests, change, ending, right, tag, out)?;
    turn_range(alloc, tests, change, open, right, tag, out)
}

/// The same with the rows of port 0 of a tag.
pub(crate) fn turn_under(
    alloc: Global,
    tests: &Tests,
    change: &Change,
    left: &ByTag,
    right: &ByTag,
    tag: u64,
    out: &mut Vec<Change>,
) -> Result<(), OutOfMemory>
    requires { sync_of change.now < FOREVER }
    ensures ok { OnOk result ((t : ℕ) (others : List RowValue) → CanTurn tests.now t change.now (right_partners right.now.entries tag) others (under left.now.entries tag) → HasTurned tests.now t change.now others (under left.now.entries tag) out.old.items out.new.items) }
    ensures kept { take (length out.old.items) out.new.items ≡ out.old.items }
{
    match left.get(&tag) {
        Some(rows) => turn_spans(alloc, tests, change, rows, right, tag, out),
        None => Ok(()),
    }
}
