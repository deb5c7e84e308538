ghost use Rattle.std.specs.Prelude.{◌≡◌, ◌≤◌, ◌<◌, ◌++◌, ◌&&◌, ◌||◌, [], ℕ, true, IfSome, IfOk, OnOk, nat_le};
ghost use Rattle.std.specs.List.{filter};
ghost use Rattle.cedr_base.specs.declared.time.TheConstants.{FOREVER};
ghost use Rattle.cedr_base.specs.declared.row.Row.{Row as RowValue};
ghost use Rattle.cedr_base.specs.Rows.{count_of, AreRows, SameRows};
ghost use Rattle.cedr_table.specs.Counted.{spread, AreThere};
ghost use Rattle.cedr_expr.specs.Tests.{passes};
ghost use Rattle.filed_rows.specs.Filed.{under, all_under, right_partners};
ghost use Rattle.filed_rows.specs.Spans.{lives_within};
ghost use Rattle.op_except.specs.Parts.{row_until, parts, matching, excepted};
ghost use Rattle.op_except.specs.Around.{Narrows, Gathers, unflipped, AreFlipped};

use cedr_base::{FOREVER, OutOfMemory, Payload, Row, Time};
use cedr_expr::Tests;
use cedr_table::Table;
use filed_rows::{ByTag, Spans};
use std::alloc::Global;
use std::collections::btree_map::Range;

/// The end of the last one of these rows that passes with a payload and ends at a time or before.
fn last_end(
    alloc: Global,
    tests: &Tests,
    rows: &Spans,
    payload: &Payload,
    time: Time,
) -> Option<Time>
    requires { time < FOREVER }
    ensures { IfSome result (λ end. (n : RowValue) × (0 < count_of n rows.now) × (passes tests.now payload.now n.payload ≡ true) × (n.end ≡ end) × (end ≤ time)) }
{
    let mut ended = rows.ended_by(alloc, time);
    while let Some((other, _)) = ended.next_back() {
        if tests.holds(payload, &other.payload) {
            return Some(other.end);
        }
    }
    None
}

/// Whether a row begins at a time or later, or doesn't end before another one does.
fn is_beyond(other: &Row, to: Time, part: &Row) -> bool
    ensures { result ≡ (nat_le to other.now.begin || nat_le part.now.end other.now.end) }
{
    to <= other.begin || part.end <= other.end
}

/// A row ends where the first one of these others begins that passes with it, and begins at a time or later or doesn't
/// end before the row does.
fn end_at_next(tests: &Tests, others: Range<'_, Row, usize>, to: Time, part: &mut Row)
    requires { AreThere others }
    ensures { (from : ℕ) → Narrows tests.now from to (spread others.entry) part.old part.new }
{
    for (other, _) in others {
        if is_beyond(other, to, part) && tests.holds(&part.payload, &other.payload) {
            part.end = part.end.min(other.begin);
            return;
        }
    }
}

/// A row ends where none of its parts beyond is looked for.
fn narrow_end(alloc: Global, tests: &Tests, rows: &Spans, from: Time, to: Time, part: &mut Row)
    requires { from < FOREVER }
    ensures { Narrows tests.now from to rows.now part.old part.new }
{
    let (_, open) = rows.meeting(alloc, from, part.end);
    end_at_next(tests, open, to, part);
    if to < part.end && to < FOREVER {
        let (ending, _) = rows.meeting(alloc, to, part.end);
        end_at_next(tests, ending, to, part);
    }
}

/// A row begins where none of its parts before is looked for.
fn narrow_begin(alloc: Global, tests: &Tests, rows: &Spans, from: Time, part: &mut Row)
    requires { from < FOREVER }
    ensures { (to : ℕ) → Narrows tests.now from to rows.now part.old part.new }
{
    if let Some(end) = last_end(alloc, tests, rows, &part.payload, from) {
        part.begin = part.begin.max(end);
    }
}

/// A row begins and ends where none of its parts before and beyond is looked for, by what these rows leave of it: those
/// parts are looked for that meet the time from one time to another one.
fn narrow(alloc: Global, tests: &Tests, rows: &Spans, from: Time, to: Time, part: &mut Row)
    requires { from < FOREVER }
    ensures { Narrows tests.now from to rows.now part.old part.new }
{
    narrow_begin(alloc, tests, rows, from, part);
    narrow_end(alloc, tests, rows, from, to, part);
}

/// The same by the rows under a tag.
fn narrow_under(
    alloc: Global,
    tests: &Tests,
    right: &ByTag,
    tag: u64,
    from: Time,
    to: Time,
    part: &mut Row,
)
    requires { from < FOREVER }
    ensures { Narrows tests.now from to (under right.now.entries tag) part.old part.new }
{
    if let Some(rows) = right.get(&tag) {
        narrow(alloc, tests, rows, from, to, part);
    }
}

/// The same by the rows under all tags.
fn narrow_all(alloc: Global, tests: &Tests, right: &ByTag, from: Time, to: Time, part: &mut Row)
    requires { from < FOREVER }
    ensures { Narrows tests.now from to (all_under right.now.entries) part.old part.new }
{
    for (_, rows) in right {
        narrow(alloc, tests, rows, from, to, part);
    }
}

/// The same by the right rows that may pass with a left row of a tag.
fn narrow_beside(
    alloc: Global,
    tests: &Tests,
    right: &ByTag,
    tag: u64,
    from: Time,
    to: Time,
    part: &mut Row,
)
    requires { from < FOREVER }
    ensures { Narrows tests.now from to (right_partners right.now.entries tag) part.old part.new }
{
    if tag == 0 {
        narrow_all(alloc, tests, right, from, to, part);
    } else {
        narrow_under(alloc, tests, right, tag, from, to, part);
    }
}

/// Whether a row meets another one and passes with it.
fn is_busy(tests: &Tests, other: &Row, part: &Row) -> bool
    ensures { result ≡ (lives_within part.now.begin part.now.end other.now && passes tests.now part.now.payload other.now.payload) }
{
    part.begin < other.end && other.begin < part.end && tests.holds(&part.payload, &other.payload)
}

/// Adds those of these rows to a table that pass with a row and meet it, with their begins and ends exchanged: so they stand
/// in order of begin.
fn gather_range(
    alloc: Global,
    tests: &Tests,
    others: Range<'_, Row, usize>,
    part: &Row,
    busy: &mut Table,
) -> Result<(), OutOfMemory>
    requires { AreThere others }
    ensures { OnOk result (AreRows (spread others.entry) → Gathers tests.now (spread others.entry) part.now busy.old busy.new) }
{
    for (other, _) in others {
        if is_busy(tests, other, part) {
            busy.insert(Row {
                end: other.begin,
                begin: other.end,
                payload: Payload::new(alloc),
            })?;
        }
    }
    Ok(())
}

/// The same of these rows.
fn gather(
    alloc: Global,
    tests: &Tests,
    rows: &Spans,
    part: &Row,
    busy: &mut Table,
) -> Result<(), OutOfMemory>
    ensures { OnOk result (AreRows rows.now → Gathers tests.now rows.now part.now busy.old busy.new) }
{
    if part.begin < FOREVER {
        let (ending, open) = rows.meeting(alloc, part.begin, part.end);
        gather_range(alloc, tests, ending, part, busy)?;
        gather_range(alloc, tests, open, part, busy)?;
    }
    Ok(())
}

/// The same of the rows under a tag.
fn gather_under(
    alloc: Global,
    tests: &Tests,
    right: &ByTag,
    tag: u64,
    part: &Row,
    busy: &mut Table,
) -> Result<(), OutOfMemory>
    ensures { OnOk result (AreRows (under right.now.entries tag) → Gathers tests.now (under right.now.entries tag) part.now busy.old busy.new) }
{
    match right.get(&tag) {
        Some(rows) => gather(alloc, tests, rows, part, busy),
        None => Ok(()),
    }
}

/// The same of the rows under all tags.
fn gather_all(
    alloc: Global,
    tests: &Tests,
    right: &ByTag,
    part: &Row,
    busy: &mut Table,
) -> Result<(), OutOfMemory>
    ensures { OnOk result (AreRows (all_under right.now.entries) → Gathers tests.now (all_under right.now.entries) part.now busy.old busy.new) }
{
    for (_, rows) in right {
        gather(alloc, tests, rows, part, busy)?;
    }
    Ok(())
}

/// The same of the right rows that may pass with a left row of a tag.
fn gather_beside(
    alloc: Global,
    tests: &Tests,
    right: &ByTag,
    tag: u64,
    part: &Row,
    busy: &mut Table,
) -> Result<(), OutOfMemory>
    ensures { OnOk result (AreRows (right_partners right.now.entries tag) → Gathers tests.now (right_partners right.now.entries tag) part.now busy.old busy.new) }
{
    if tag == 0 {
        gather_all(alloc, tests, right, part, busy)
    } else {
        gather_under(alloc, tests, right, tag, part, busy)
    }
}

/// Appends what a row is up to a time, where that isn't empty and meets the time from one time to another one.
fn push_free(
    alloc: Global,
    row: &Row,
    end: Time,
    from: Time,
    to: Time,
    found: &mut Vec<Row>,
) -> Result<(), OutOfMemory>
    ensures { OnOk result (found.new.items ≡ found.old.items ++ filter (lives_within from to) (parts (row_until end row.now) [])) }
{
    let end = row.end.min(end);
    if row.begin < end && from < end && row.begin < to {
        let mut free = row.copy(alloc)?;
        free.end = end;
        found.push(free)?;
    }
    Ok(())
}

/// The parts of a row in which none of these rows lives, of which begins and ends are exchanged: those that meet the time
/// from one time to another one.
fn free_parts(
    alloc: Global,
    row: Row,
    mut busy: Table,
    from: Time,
    to: Time,
) -> Result<Vec<Row>, OutOfMemory>
    ensures { IfOk result (λ found. AreFlipped busy → SameRows found.items (filter (lives_within from to) (parts row (unflipped busy)))) }
{
    let mut found = Vec::new(alloc);
    let mut rest = row;
    while let Some((next, _)) = busy.pop_first() {
        push_free(alloc, &rest, next.end, from, to, &mut found)?;
        rest.begin = rest.begin.max(next.begin);
    }
    push_free(alloc, &rest, rest.end, from, to, &mut found)?;
    Ok(found)
}

/// The parts of a left row of a tag in which no right row lives that passes with it: those that meet the time from one time
/// to another one. O(log n) comparisons, and O(log k) for each of the k right rows that may pass with it and meet those
/// parts, or stand next to them.
pub(crate) fn parts_around(
    alloc: Global,
    tests: &Tests,
    right: &ByTag,
    tag: u64,
    row: &Row,
    from: Time,
    to: Time,
) -> Result<Vec<Row>, OutOfMemory>
    requires { from < FOREVER }
    ensures { IfOk result (λ found. AreRows (right_partners right.now.entries tag) → SameRows found.items (filter (lives_within from to) (excepted tests.now (right_partners right.now.entries tag) row.now))) }
{
    let mut part = row.copy(alloc)?;
    narrow_beside(alloc, tests, right, tag, from, to, &mut part);
    let mut busy = Table::new(alloc);
    gather_beside(alloc, tests, right, tag, &part, &mut busy)?;
    free_parts(alloc, part, busy, from, to)
}
