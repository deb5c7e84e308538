ghost use Rattle.std.specs.Prelude.{◌≡◌, ◌+◌, ◌*◌, ◌^◌, ◌<◌, ◌++◌, [], OnOk, OnErr, IfOk, IfSome, IfNone, nat_lt, replicate};
ghost use Rattle.std.specs.BTreeMap.{IsOrdered};
ghost use Rattle.cedr_base.specs.declared.row.Row.{Row};
ghost use Rattle.cedr_base.specs.Rows.{row_cmp, one_if_same};
ghost use Rattle.cedr_table.specs.Counted.{copies, spread, EachIsThere, IsFirst};

use cedr_base::{OutOfMemory, Row};
use std::alloc::Global;
use std::collections::BTreeMap;

/// How many copies of a row there are.
pub(crate) fn copies_in(map: &BTreeMap<Row, usize>, row: &Row) -> usize
    ensures { result ≡ copies map.now.entries row.now }
{
    map.get(row).copied().unwrap_or(0)
}

/// Adds a copy of a row. One search.
pub(crate) fn add_one(map: &mut BTreeMap<Row, usize>, row: Row) -> Result<(), OutOfMemory>
    requires ordered { IsOrdered row_cmp map.old }
    requires there { EachIsThere map.old.entries }
    requires fits { copies map.old.entries row + 1 < 2 ^ 64 }
    ensures ok { OnOk result ((q : Row) → copies map.new.entries q ≡ copies map.old.entries q + one_if_same q row) }
    ensures err { OnErr result (map.new.entries ≡ map.old.entries) }
    ensures ordered { IsOrdered row_cmp map.new }
    ensures there { EachIsThere map.new.entries }
{
    let count = map.entry(row)?.or_insert(0);
    *count += 1;
    Ok(())
}

/// Takes a copy of a row away where there are two or more, and says how many there were. One search.
fn lower(map: &mut BTreeMap<Row, usize>, row: &Row) -> usize
    requires there { EachIsThere map.old.entries }
    ensures count { result ≡ copies map.old.entries row.now }
    ensures lowered { 1 < result → (q : Row) → copies map.new.entries q + one_if_same q row.now ≡ copies map.old.entries q }
    ensures others { result < 2 → map.new.entries ≡ map.old.entries }
    ensures ordered { IsOrdered row_cmp map.new }
    ensures there { EachIsThere map.new.entries }
{
    match map.get_mut(row) {
        Some(count) => lower_count(count),
        None => 0,
    }
}

/// Takes one from a number above one, and says what it was.
fn lower_count(count: &mut usize) -> usize
    ensures was { result ≡ count.old }
    ensures lowered { 1 < count.old → count.new + 1 ≡ count.old }
    ensures others { count.old < 2 → count.new ≡ count.old }
{
    let was = *count;
    if was > 1 {
        *count = was - 1;
    }
    was
}

/// Takes a copy of a row away, and says whether there was one. One search, and one more where it was the last copy.
pub(crate) fn take_one(map: &mut BTreeMap<Row, usize>, row: &Row) -> bool
    requires there { EachIsThere map.old.entries }
    ensures was_there { result ≡ nat_lt 0 (copies map.old.entries row.now) }
    ensures counts { 0 < copies map.old.entries row.now → (q : Row) → copies map.new.entries q + one_if_same q row.now ≡ copies map.old.entries q }
    ensures missing { copies map.old.entries row.now ≡ 0 → map.new.entries ≡ map.old.entries }
    ensures ordered { IsOrdered row_cmp map.new }
    ensures there { EachIsThere map.new.entries }
{
    let count = lower(map, row);
    if count == 1 {
        map.remove(row);
        return true;
    }
    count > 0
}

/// Appends this many copies of a row.
fn push_copies(
    alloc: Global,
    rows: &mut Vec<Row>,
    row: &Row,
    count: usize,
) -> Result<(), OutOfMemory>
    ensures { OnOk result (rows.new.items ≡ rows.old.items ++ replicate count row.now) }
{
    for _ in 0..count {
        let copied = row.copy(alloc)?;
        rows.push(copied)?;
    }
    Ok(())
}

/// Copies of all rows, in order.
pub(crate) fn all_rows(alloc: Global, map: &BTreeMap<Row, usize>) -> Result<Vec<Row>, OutOfMemory>
    ensures { IfOk result (λ rows. rows.items ≡ spread map.now.entries) }
{
    let mut rows = Vec::new(alloc);
    for (row, count) in map {
        push_copies(alloc, &mut rows, row, *count)?;
    }
    Ok(rows)
}

/// The first row in order.
pub(crate) fn first_row(map: &BTreeMap<Row, usize>) -> Option<&Row>
    requires ordered { IsOrdered row_cmp map.now }
    requires there { EachIsThere map.now.entries }
    ensures some { IfSome result (λ row. IsFirst row.now (spread map.now.entries)) }
    ensures none { IfNone result (spread map.now.entries ≡ []) }
{
    match map.first_key_value() {
        None => None,
        Some((row, _)) => Some(row),
    }
}

/// Takes the first row in order away, with the number of its copies.
pub(crate) fn pop_first_row(map: &mut BTreeMap<Row, usize>) -> Option<(Row, usize)>
    requires ordered { IsOrdered row_cmp map.old }
    requires there { EachIsThere map.old.entries }
    ensures some { IfSome result (λ found. IsFirst found.0 (spread map.old.entries) × (found.1 ≡ copies map.old.entries found.0)) }
    ensures counts { IfSome result (λ found. (q : Row) → copies map.new.entries q + found.1 * one_if_same q found.0 ≡ copies map.old.entries q) }
    ensures none { IfNone result ((spread map.old.entries ≡ []) × (map.new.entries ≡ map.old.entries)) }
    ensures ordered { IsOrdered row_cmp map.new }
    ensures there { EachIsThere map.new.entries }
{
    match map.pop_first() {
        Some((row, count)) => Some((row, count)),
        None => None,
    }
}

/// Takes all copies of a row away, and says how many there were.
pub(crate) fn take_all(map: &mut BTreeMap<Row, usize>, row: &Row) -> usize
    requires there { EachIsThere map.old.entries }
    ensures count { result ≡ copies map.old.entries row.now }
    ensures counts { (q : Row) → copies map.new.entries q + result * one_if_same q row.now ≡ copies map.old.entries q }
    ensures ordered { IsOrdered row_cmp map.new }
    ensures there { EachIsThere map.new.entries }
{
    map.remove(row).unwrap_or(0)
}
