ghost use Rattle.std.specs.Prelude.{ℕ, List, ◌≡◌, ◌≤◌, ◌<◌, ◌++◌, ◌∷◌, ◌^◌, [], OnOk, IfOk, replicate};
ghost use Rattle.std.specs.List.{flat_map};
ghost use Rattle.cedr_base.specs.declared.time.TheConstants.{FOREVER};
ghost use Rattle.cedr_base.specs.Rows.{SameRows};
ghost use Rattle.cedr_table.specs.Counted.{spread};
ghost use Rattle.pat_state.specs.Starts.{AreInScope};
ghost use Rattle.cedr_base.specs.declared.row.Row.{Row as RowValue};
ghost use Rattle.cedr_expr.specs.Tags.{left_tag, right_tag};
ghost use Rattle.cedr_expr.specs.Tests.{passes};
ghost use Rattle.pat_state.specs.Tags.{IsTagged};
ghost use Rattle.pat_state.specs.Tied.{left_rows, right_rows, AreTied};
ghost use Rattle.pat_state.specs.Steps.{begun, next_passing, matches};

use crate::by_tag::ByTag;
use crate::matches::{Stage, begun, push_next};
use crate::tied::{Tied, beside_left, beside_right};
use cedr_base::{OutOfMemory, Row};
use cedr_expr::Tests;
use std::alloc::Global;
use std::collections::btree_map::Range;

/// Appends the row so far with one row more for each of some rows that may be the next one, once for each copy of it.
fn push_seconds(
    alloc: Global,
    tests: &Tests,
    so_far: &Row,
    some: Range<'_, Row, usize>,
    rows: &mut Vec<Row>,
) -> Result<(), OutOfMemory>
    ensures { OnOk result (rows.new.items ≡ rows.old.items ++ flat_map (next_passing (passes tests.now) so_far.now) (spread some.entry)) }
{
    for (row, count) in some {
        push_next(alloc, tests, Stage::Last, so_far, row, *count, rows)?;
    }
    Ok(())
}

/// Appends the row of the choice of a first row and a second one where it passes, once for each copy of the first one.
fn push_first(
    alloc: Global,
    scope: u64,
    tests: &Tests,
    first: &Row,
    count: usize,
    second: &Row,
    rows: &mut Vec<Row>,
) -> Result<(), OutOfMemory>
    requires begin { first.now.begin ≤ FOREVER }
    requires scope { scope ≤ 2 ^ 40 }
    ensures { OnOk result (rows.new.items ≡ rows.old.items ++ flat_map (next_passing (passes tests.now) (begun scope first.now)) (replicate count second.now)) }
{
    if !tests.holds(&first.payload, &second.payload) {
        return Ok(());
    }
    let so_far = begun(alloc, scope, first)?;
    push_next(alloc, tests, Stage::Last, &so_far, second, count, rows)
}

/// The same for each of some first rows.
fn push_firsts(
    alloc: Global,
    scope: u64,
    tests: &Tests,
    some: Range<'_, Row, usize>,
    second: &Row,
    rows: &mut Vec<Row>,
) -> Result<(), OutOfMemory>
    requires scope { scope ≤ 2 ^ 40 }
    requires within { (from before : ℕ) × (before ≤ FOREVER) × AreInScope from before some }
    ensures { OnOk result (rows.new.items ≡ rows.old.items ++ flat_map (λ r. next_passing (passes tests.now) (begun scope r) second.now) (spread some.entry)) }
{
    for (first, count) in some {
        push_first(alloc, scope, tests, first, *count, second, rows)?;
    }
    Ok(())
}

/// The rows of the result of the choices with a changed first row, in some order. Second rows have the tags that they have on
/// the right, beside left payloads of this width.
pub(crate) fn find_seconds(
    alloc: Global,
    scope: u64,
    tests: &Tests,
    width: usize,
    tags: &ByTag,
    row: &Row,
) -> Result<Vec<Row>, OutOfMemory>
    requires begin { row.now.begin < FOREVER }
    requires scope { scope ≤ 2 ^ 40 }
    ensures { IfOk result (λ rows. (firsts seconds : List RowValue) → IsTagged (right_tag width tests.now) seconds tags.now → SameRows rows.items (matches scope tests.now row.now 0 (firsts ∷ seconds ∷ []))) }
{
    let so_far = begun(alloc, scope, row)?;
    let (payload, from, before) = (&row.payload, so_far.begin, so_far.end);
    let some = beside_left(alloc, tests, width, tags, payload, from, before);
    let mut rows = Vec::new(alloc);
    push_seconds(alloc, tests, &so_far, some, &mut rows)?;
    Ok(rows)
}

/// The rows of the result of the choices with a changed second row, in some order. First rows have the tags that they have on
/// the left, where payloads have this width.
pub(crate) fn find_firsts(
    alloc: Global,
    scope: u64,
    tests: &Tests,
    width: usize,
    tags: &ByTag,
    row: &Row,
) -> Result<Vec<Row>, OutOfMemory>
    requires begin { row.now.begin < FOREVER }
    requires scope { scope ≤ 2 ^ 40 }
    ensures { IfOk result (λ rows. (firsts seconds : List RowValue) → IsTagged (left_tag width tests.now) firsts tags.now → SameRows rows.items (matches scope tests.now row.now 1 (firsts ∷ seconds ∷ []))) }
{
    let from = (row.begin + 1).saturating_sub(scope);
    let payload = &row.payload;
    let (tagged, others) = beside_right(alloc, tests, width, tags, payload, from, row.begin);
    let mut rows = Vec::new(alloc);
    push_firsts(alloc, scope, tests, tagged, row, &mut rows)?;
    push_firsts(alloc, scope, tests, others, row, &mut rows)?;
    Ok(rows)
}

/// The rows of the result of the choices of two rows with a changed row on its port, in some order: the rows beside it that
/// may pass the tests with it are looked at, and their payloads are joined only where they do.
pub fn find_pairs(
    alloc: Global,
    scope: u64,
    tests: &Tests,
    tied: &Tied,
    changed: usize,
    row: &Row,
) -> Result<Vec<Row>, OutOfMemory>
    requires begin { row.now.begin < FOREVER }
    requires scope { scope ≤ 2 ^ 40 }
    requires changed { changed < 2 }
    requires tags { AreTied tests.now tied.now }
    ensures { IfOk result (λ rows. SameRows rows.items (matches scope tests.now row.now changed (left_rows tied.now ∷ right_rows tied.now ∷ []))) }
{
    if changed == 0 {
        find_seconds(alloc, scope, tests, tied.width, tied.right.tags(), row)
    } else {
        find_firsts(alloc, scope, tests, tied.width, tied.left.tags(), row)
    }
}
