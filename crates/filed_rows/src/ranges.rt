ghost use Rattle.std.specs.Prelude.{◌≡◌, ◌<◌, []};
ghost use Rattle.std.specs.List.{filter};
ghost use Rattle.cedr_base.specs.declared.time.TheConstants.{FOREVER};
ghost use Rattle.cedr_table.specs.Counted.{spread, ends_after, AreThere};
ghost use Rattle.filed_rows.specs.Spans.{AreAmong, AreShort, AreOpen, ends_by, ends_within, begins_before, lives_within};

use cedr_base::{FOREVER, Payload, Row, Time};
use cedr_table::Table;
use std::alloc::Global;
use std::collections::btree_map::Range;

/// What comes before each row that ends at a time.
fn first_at(alloc: Global, end: Time) -> Row
    ensures { result ≡ record { end = end; begin = 0; payload = [] } }
{
    Row {
        end,
        begin: 0,
        payload: Payload::new(alloc),
    }
}

/// The rows that end after a time, in order, with the number of their copies.
fn ending_after(alloc: Global, rows: &Table, time: Time) -> Range<'_, Row, usize>
    requires { time < FOREVER }
    ensures rows { spread result ≡ filter (ends_after time) rows.now }
    ensures there { AreThere result }
{
    rows.range(first_at(alloc, time + 1)..)
}

/// The rows that end after a time and before another one, in order, with the number of their copies.
fn ending_within(alloc: Global, rows: &Table, time: Time, last: Time) -> Range<'_, Row, usize>
    requires { (time < FOREVER) × (time < last) }
    ensures rows { spread result ≡ filter (ends_within time last) rows.now }
    ensures there { AreThere result }
{
    rows.range(first_at(alloc, time + 1)..first_at(alloc, last))
}

/// The rows without end that begin before a time, in order, with the number of their copies.
pub(crate) fn begun_before(alloc: Global, rows: &Table, time: Time) -> Range<'_, Row, usize>
    requires { AreOpen rows.now }
    ensures rows { spread result ≡ filter (begins_before time) rows.now }
    ensures there { AreThere result }
{
    let last = Row {
        end: FOREVER,
        begin: time,
        payload: Payload::new(alloc),
    };
    rows.range(..last)
}

/// The rows that end at a time or before, in order, with the number of their copies.
pub(crate) fn ended_by(alloc: Global, rows: &Table, time: Time) -> Range<'_, Row, usize>
    requires { time < FOREVER }
    ensures rows { spread result ≡ filter (ends_by time) rows.now }
    ensures there { AreThere result }
{
    rows.range(..first_at(alloc, time + 1))
}

/// The rows that end after a time and begin before another one, and maybe others, in order of end, with the number of
/// their copies: those that, where none is valid for longer than this, may begin before the second time.
pub(crate) fn ending_meeting(
    alloc: Global,
    rows: &Table,
    longest: u64,
    time: Time,
    last: Time,
) -> Range<'_, Row, usize>
    requires from { time < FOREVER }
    requires short { AreShort longest rows.now }
    ensures rows { filter (lives_within time last) (spread result) ≡ filter (lives_within time last) rows.now }
    ensures among { AreAmong (spread result) rows.now }
    ensures there { AreThere result }
{
    match last.checked_add(longest) {
        Some(beyond) if time < beyond => ending_within(alloc, rows, time, beyond),
        _ => ending_after(alloc, rows, time),
    }
}
