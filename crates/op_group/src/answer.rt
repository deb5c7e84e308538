ghost use Rattle.std.specs.Prelude.{◌≡◌, ◌++◌, ◌≤◌, ◌<◌, ℕ, List, Option, IfOk, OnOk, OnErr, nat_lt, length, take};
ghost use Rattle.std.specs.List.{flat_map};
ghost use Rattle.std.specs.List.Sorted.{IsSorted};
ghost use Rattle.std.specs.BTreeMap.{IsOrdered};
ghost use Rattle.std.specs.BTreeMap.Range.{entries_between};
ghost use Rattle.std.specs.Ordering.{nat_cmp};
ghost use Rattle.std.specs.declared.ops.Bound.TheVariants.{Included};
ghost use Rattle.cedr_base.specs.Rows.{count_of, row_cmp};
ghost use Rattle.op_group.specs.Cuts.{row_begun, ended_at, rows_of_cuts, withdrawn_unless, added_unless, differences};

use crate::cuts::Cuts;
use crate::segment::Segment;
use cedr_base::{Change, OutOfMemory, Payload, PayloadWriter, Row, Time};
use std::alloc::Global;

/// The row of the result that begins at a cut point, without its end.
fn begun(
    alloc: Global,
    counted: bool,
    key: &Payload,
    at: Time,
    segment: &Segment,
) -> Result<Option<(Time, Payload)>, OutOfMemory>
    ensures { IfOk result (λ row. row ≡ row_begun counted key.now at segment.now) }
{
    if segment.living == 0 {
        return Ok(None);
    }
    let fields = PayloadWriter::new(alloc).with_all(key)?;
    let payload = segment.write_to(counted, fields)?.finish()?;
    Ok(Some((at, payload)))
}

/// The row of the result ends.
fn end_row(row: Option<(Time, Payload)>, end: Time, rows: &mut Vec<Row>) -> Result<(), OutOfMemory>
    ensures { OnOk result (rows.new.items ≡ rows.old.items ++ ended_at row end) }
{
    if let Some((begin, payload)) = row {
        rows.push(Row {
            end,
            begin,
            payload,
        })?;
    }
    Ok(())
}

/// The rows of the result that one group makes between two times. O(log n) and a step for each cut point between
/// them.
pub(crate) fn rows_between(
    alloc: Global,
    counted: bool,
    key: &Payload,
    cuts: &Cuts,
    from: Time,
    to: Time,
) -> Result<Vec<Row>, OutOfMemory>
    requires { from ≤ to }
    ensures made { IfOk result (λ rows. rows.items ≡ rows_of_cuts counted key.now (entries_between nat_cmp (Included from) (Included to) cuts.now.entries)) }
    ensures sorted { IfOk result (λ rows. IsSorted row_cmp rows.items) }
    ensures ordered { IsOrdered nat_cmp cuts.now }
{
    let mut rows = Vec::new(alloc);
    let mut open = None;
    for (at, segment) in cuts.range(from..=to) {
        end_row(open, *at, &mut rows)?;
        open = begun(alloc, counted, key, *at, segment)?;
    }
    Ok(rows)
}

/// Whether a row is among rows in canonical order. O(log n) comparisons.
fn has(rows: &[Row], row: &Row) -> bool
    requires { IsSorted row_cmp rows.now }
    ensures { result ≡ nat_lt 0 (count_of row.now rows.now) }
{
    rows.binary_search(row).is_ok()
}

/// Withdraws the old rows that aren't among the new ones.
fn withdraw(
    alloc: Global,
    olds: &[Row],
    news: &[Row],
    out: &mut Vec<Change>,
) -> Result<(), OutOfMemory>
    requires { IsSorted row_cmp news.now }
    ensures ok { OnOk result (out.new.items ≡ out.old.items ++ flat_map (withdrawn_unless news.now) olds.now) }
    ensures err { OnErr result (take (length out.old.items) out.new.items ≡ out.old.items) }
{
    for row in olds {
        if !has(news, row) {
            let copied = row.copy(alloc)?;
            out.push(Change::Cut(copied, row.begin))?;
        }
    }
    Ok(())
}

/// Adds the new rows that weren't among the old ones.
fn add(alloc: Global, olds: &[Row], news: &[Row], out: &mut Vec<Change>) -> Result<(), OutOfMemory>
    requires { IsSorted row_cmp olds.now }
    ensures ok { OnOk result (out.new.items ≡ out.old.items ++ flat_map (added_unless olds.now) news.now) }
    ensures err { OnErr result (take (length out.old.items) out.new.items ≡ out.old.items) }
{
    for row in news {
        if !has(olds, row) {
            let copied = row.copy(alloc)?;
            out.push(Change::Add(copied))?;
        }
    }
    Ok(())
}

/// Appends the changes that make the new rows of the old ones, and leave those that are the same.
pub(crate) fn push_differences(
    alloc: Global,
    olds: &[Row],
    news: &[Row],
    out: &mut Vec<Change>,
) -> Result<(), OutOfMemory>
    requires olds { IsSorted row_cmp olds.now }
    requires news { IsSorted row_cmp news.now }
    ensures ok { OnOk result (out.new.items ≡ out.old.items ++ differences olds.now news.now) }
    ensures err { OnErr result (take (length out.old.items) out.new.items ≡ out.old.items) }
{
    withdraw(alloc, olds, news, out)?;
    add(alloc, olds, news, out)
}
