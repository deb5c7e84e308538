ghost use Rattle.std.specs.Prelude.{◌≡◌, ◌≤◌, ◌<◌, ◌++◌, ◌^◌, ◌∷◌, [], OnOk, IfOk, map, replicate, length};
ghost use Rattle.std.specs.List.{flat_map, filter};
ghost use Rattle.cedr_base.specs.declared.time.TheConstants.{FOREVER};
ghost use Rattle.pat_state.specs.Starts.{begins_within};
ghost use Rattle.pat_state.specs.Groups.{seen, all_seen};
ghost use Rattle.pat_state.specs.Steps.{begun, stage_tests, follows, next_passing, grown_passing, near_at, firsts, picked, is_match, matches, AreAmongPorts};

use crate::keyed::Keyed;
use cedr_base::{OutOfMemory, Payload, Row, Time, later};
use cedr_expr::Tests;
use std::alloc::Global;

/// Which tests a row has to pass with the row so far of a choice.
#[derive(Clone, Copy, PartialEq, Eq)]
pub(crate) enum Stage {
    /// Those of which the two have the columns, since more rows come after it.
    Before,
    /// All of them, since it is the last one.
    Last,
}

/// The row so far of a choice that begins with this row: it ends when the scope does.
pub(crate) fn begun(alloc: Global, scope: u64, row: &Row) -> Result<Row, OutOfMemory>
    requires begin { row.now.begin ≤ FOREVER }
    requires scope { scope ≤ 2 ^ 40 }
    ensures { IfOk result (λ r. r ≡ begun scope row.now) }
{
    let payload = row.payload.copy(alloc)?;
    Ok(Row {
        end: later(row.begin, scope),
        begin: row.begin,
        payload,
    })
}

/// Appends the row so far of a choice that begins with this row, once for each copy of the row.
fn push_begun(
    alloc: Global,
    scope: u64,
    row: &Row,
    count: usize,
    rows: &mut Vec<Row>,
) -> Result<(), OutOfMemory>
    requires begin { row.now.begin ≤ FOREVER }
    requires scope { scope ≤ 2 ^ 40 }
    ensures { OnOk result (rows.new.items ≡ rows.old.items ++ replicate count (begun scope row.now)) }
{
    for _ in 0..count {
        let first = begun(alloc, scope, row)?;
        rows.push(first)?;
    }
    Ok(())
}

/// The rows so far of the choices that begin with a row within these times.
fn begun_within(
    alloc: Global,
    scope: u64,
    kept: &Keyed,
    tag: Option<u64>,
    from: Time,
    before: Time,
) -> Result<Vec<Row>, OutOfMemory>
    requires before { before ≤ FOREVER }
    requires scope { scope ≤ 2 ^ 40 }
    ensures { IfOk result (λ rows. rows.items ≡ map (begun scope) (filter (begins_within from before) (seen tag kept.now))) }
{
    let mut rows = Vec::new(alloc);
    for (row, count) in kept.within(alloc, tag, from, before) {
        push_begun(alloc, scope, row, *count, &mut rows)?;
    }
    Ok(rows)
}

/// The rows so far of the choices in which a changed row may stand on its port.
fn first_rows(
    alloc: Global,
    scope: u64,
    kept: &Keyed,
    tag: Option<u64>,
    changed: usize,
    row: &Row,
) -> Result<Vec<Row>, OutOfMemory>
    requires begin { row.now.begin < FOREVER }
    requires scope { scope ≤ 2 ^ 40 }
    ensures { IfOk result (λ rows. rows.items ≡ map (begun scope) (firsts scope row.now changed (seen tag kept.now))) }
{
    if changed == 0 {
        let mut rows = Vec::new(alloc);
        push_begun(alloc, scope, row, 1, &mut rows)?;
        Ok(rows)
    } else {
        let from = (row.begin + 1).saturating_sub(scope);
        begun_within(alloc, scope, kept, tag, from, row.begin)
    }
}

/// Appends the row so far with one row more, once for each copy of the row.
fn push_joined(
    alloc: Global,
    so_far: &Row,
    row: &Row,
    count: usize,
    rows: &mut Vec<Row>,
) -> Result<(), OutOfMemory>
    ensures { OnOk result (rows.new.items ≡ rows.old.items ++ replicate count (record { end = so_far.now.end; begin = row.now.begin; payload = so_far.now.payload ++ row.now.payload })) }
{
    for _ in 0..count {
        let payload = so_far.payload.joined(alloc, &row.payload)?;
        rows.push(Row {
            end: so_far.end,
            begin: row.begin,
            payload,
        })?;
    }
    Ok(())
}

/// Whether a row may be the next one of a choice: it begins later and within the scope, and with the row so far it
/// passes what it has to.
fn follows(tests: &Tests, stage: Stage, so_far: &Row, row: &Row) -> bool
    ensures { result ≡ follows (stage_tests stage tests.now) so_far.now row.now }
{
    if so_far.begin >= row.begin || row.begin >= so_far.end {
        return false;
    }
    match stage {
        Stage::Before => tests.may_hold(&so_far.payload, &row.payload),
        Stage::Last => tests.holds(&so_far.payload, &row.payload),
    }
}

/// Appends the row so far with one row more where that may be the next one, once for each copy of the row.
pub(crate) fn push_next(
    alloc: Global,
    tests: &Tests,
    stage: Stage,
    so_far: &Row,
    row: &Row,
    count: usize,
    rows: &mut Vec<Row>,
) -> Result<(), OutOfMemory>
    ensures { OnOk result (rows.new.items ≡ rows.old.items ++ flat_map (next_passing (stage_tests stage tests.now) so_far.now) (replicate count row.now)) }
{
    if follows(tests, stage, so_far, row) {
        push_joined(alloc, so_far, row, count, rows)
    } else {
        Ok(())
    }
}

/// The same for each row that begins before a time.
fn push_before(
    alloc: Global,
    tests: &Tests,
    stage: Stage,
    kept: &Keyed,
    tag: Option<u64>,
    so_far: &Row,
    before: Time,
    rows: &mut Vec<Row>,
) -> Result<(), OutOfMemory>
    ensures { OnOk result (rows.new.items ≡ rows.old.items ++ flat_map (next_passing (stage_tests stage tests.now) so_far.now) (filter (begins_within so_far.now.begin before) (seen tag kept.now))) }
{
    for (row, count) in kept.within(alloc, tag, so_far.begin, before) {
        push_next(alloc, tests, stage, so_far, row, *count, rows)?;
    }
    Ok(())
}

/// The same for each row of a port. On its own place the changed row stands alone, and before that only the rows count that
/// begin before it.
fn push_port(
    alloc: Global,
    tests: &Tests,
    stage: Stage,
    kept: &Keyed,
    tag: Option<u64>,
    changed: usize,
    row: &Row,
    place: usize,
    so_far: &Row,
    rows: &mut Vec<Row>,
) -> Result<(), OutOfMemory>
    ensures { OnOk result (rows.new.items ≡ rows.old.items ++ flat_map (next_passing (stage_tests stage tests.now) so_far.now) (near_at row.now changed place (seen tag kept.now))) }
{
    if place == changed {
        push_next(alloc, tests, stage, so_far, row, 1, rows)
    } else if place < changed {
        let before = so_far.end.min(row.begin);
        push_before(alloc, tests, stage, kept, tag, so_far, before, rows)
    } else {
        push_before(alloc, tests, stage, kept, tag, so_far, so_far.end, rows)
    }
}

/// The rows so far with one row more of a port, with which they pass what they have to.
fn grown(
    alloc: Global,
    tests: &Tests,
    stage: Stage,
    kept: &Keyed,
    tag: Option<u64>,
    changed: usize,
    row: &Row,
    place: usize,
    so_far: &[Row],
) -> Result<Vec<Row>, OutOfMemory>
    ensures { IfOk result (λ rows. rows.items ≡ grown_passing (stage_tests stage tests.now) so_far.now (near_at row.now changed place (seen tag kept.now))) }
{
    let mut rows = Vec::new(alloc);
    for partial in so_far {
        push_port(
            alloc, tests, stage, kept, tag, changed, row, place, partial, &mut rows,
        )?;
    }
    Ok(rows)
}

/// The row of the choice of this row alone, where it passes the tests.
fn find_alone(alloc: Global, scope: u64, tests: &Tests, row: &Row) -> Result<Vec<Row>, OutOfMemory>
    requires begin { row.now.begin < FOREVER }
    requires scope { scope ≤ 2 ^ 40 }
    ensures { IfOk result (λ rows. rows.items ≡ filter (is_match tests.now) (begun scope row.now ∷ [])) }
{
    let mut rows = Vec::new(alloc);
    let only = begun(alloc, scope, row)?;
    if only.begin < only.end && tests.holds(&only.payload, &Payload::new(alloc)) {
        rows.push(only)?;
    }
    Ok(rows)
}

/// The rows of the choices of one row of each of some ports, begun one after the other in their order, with a changed row on
/// its place among them: all rows of the ports, or those that have a tag.
///
/// Only rows are looked at that begin less than the scope before or after it. On each port it runs the tests first, on the
/// payload so far and that of the next row, and joins only what passes: on the last port all tests, and before it those of
/// which the two have the columns, since a choice that fails one of them fails it whatever rows come after.
pub(crate) fn find_among(
    alloc: Global,
    scope: u64,
    tests: &Tests,
    kept: &[Keyed],
    tag: Option<u64>,
    order: &[usize],
    changed: usize,
    row: &Row,
) -> Result<Vec<Row>, OutOfMemory>
    requires begin { row.now.begin < FOREVER }
    requires scope { scope ≤ 2 ^ 40 }
    requires changed { changed < length order.now }
    requires order { AreAmongPorts (length kept.now) order.now }
    ensures { IfOk result (λ rows. rows.items ≡ matches scope tests.now row.now changed (picked order.now (all_seen tag kept.now))) }
{
    if order.len() == 1 {
        return find_alone(alloc, scope, tests, row);
    }
    let last = order.len() - 1;
    let mut rows = first_rows(alloc, scope, &kept[order[0]], tag, changed, row)?;
    for place in 1..last {
        let bag = &kept[order[place]];
        rows = grown(
            alloc,
            tests,
            Stage::Before,
            bag,
            tag,
            changed,
            row,
            place,
            rows.as_slice(),
        )?;
    }
    let bag = &kept[order[last]];
    grown(
        alloc,
        tests,
        Stage::Last,
        bag,
        tag,
        changed,
        row,
        last,
        rows.as_slice(),
    )
}
