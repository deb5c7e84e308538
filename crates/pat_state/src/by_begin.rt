ghost use Rattle.std.specs.Prelude.{◌≡◌, ◌++◌, [], length, not, nat_lt, OnOk, OnErr, IfOk, IfSome};
ghost use Rattle.std.specs.List.{filter};
ghost use Rattle.cedr_base.specs.declared.time.TheConstants.{FOREVER};
ghost use Rattle.cedr_base.specs.declared.row.Row.{Row as RowValue};
ghost use Rattle.cedr_base.specs.Rows.{in_order, count_of, SameRows};
ghost use Rattle.cedr_base.specs.Changes.{puts, takes};
ghost use Rattle.change_laws.specs.Times.{later};
ghost use Rattle.cedr_table.specs.Counted.{spread, IsTakenOut};
ghost use Rattle.pat_state.specs.Starts.{endless, all_endless, begins_within, scope_reaches, AreEndless, AreInScope, HasRow};

use cedr_base::{Change, FOREVER, OutOfMemory, Payload, Row, Time};
use cedr_table::Table;
use std::alloc::Global;
use std::collections::btree_map::Range;
use std::marker::Model;

/// A bag of rows of which only the begins and the payloads are kept. Contracts see a list of the rows, each as if
/// it never ended, and only their counts matter.
///
/// It is a table of these rows, whose canonical order is that of the begins since all of them have one end.
pub struct ByBegin {
    rows: Table,
}

impl Drop for ByBegin {
    fn drop(self) {
        let ByBegin { rows: _ } = self;
    }
}

impl Model for ByBegin {
    ghost use Rattle.std.specs.Prelude.{List};
    ghost use Rattle.cedr_base.specs.declared.row.Row.{Row};
    ghost use Rattle.pat_state.specs.Starts.{AreEndless};

    ghost Value = { List Row };

    ghost view = { λ t. t.rows };

    ghost invariant = { λ t. AreEndless t.rows };
}

/// A copy of a row as if it never ended.
fn endless(alloc: Global, row: &Row) -> Result<Row, OutOfMemory>
    ensures { IfOk result (λ r. r ≡ endless row.now) }
{
    let payload = row.payload.copy(alloc)?;
    Ok(Row {
        end: FOREVER,
        begin: row.begin,
        payload,
    })
}

/// What comes before each row that begins at a time and never ends.
fn first_at(alloc: Global, begin: Time) -> Row
    ensures { result ≡ record { end = FOREVER; begin = begin; payload = [] } }
{
    Row {
        end: FOREVER,
        begin,
        payload: Payload::new(alloc),
    }
}

/// Whether a scope ends after a time.
pub(crate) fn reaches(scope: u64, time: Time, begin: Time) -> bool
    ensures { result ≡ nat_lt time (later begin scope) }
{
    time < FOREVER && time < begin.saturating_add(scope)
}

/// Takes the first row away where its scope ends by a time.
fn pop_passed(rows: &mut Table, scope: u64, time: Time) -> Option<(Row, usize)>
    requires { AreEndless rows.old }
    ensures { IsTakenOut (λ r. not (scope_reaches scope time r)) rows.old rows.new result }
{
    match rows.first() {
        Some(row) if !reaches(scope, time, row.begin) => rows.pop_first(),
        _ => None,
    }
}

/// Takes the rows away whose scope ends by a time.
fn drop_passed(rows: &mut Table, scope: u64, time: Time)
    requires { AreEndless rows.old }
    ensures left { SameRows rows.new (filter (scope_reaches scope time) rows.old) }
    ensures endless { AreEndless rows.new }
{
    while let Some(_gone) = pop_passed(rows, scope, time) {}
}

impl ByBegin {
    /// A bag with no row. It takes no memory.
    pub fn new(alloc: Global) -> ByBegin
        ensures { result ≡ [] }
    {
        ByBegin {
            rows: Table::new(alloc),
        }
    }

    /// How many rows there are. It takes no memory. O(1).
    pub fn len(&self) -> usize
        ensures { result ≡ length self.now }
    {
        self.rows.len()
    }

    /// Applies a change, of which the row's begin and its payload count. O(log n) comparisons in the different
    /// rows. Where memory runs out nothing changes.
    pub fn apply(&mut self, alloc: Global, change: &Change) -> Result<(), OutOfMemory>
        requires { HasRow self.old change.now }
        ensures ok { OnOk result (SameRows (self.new ++ all_endless (takes change.now)) (self.old ++ all_endless (puts change.now))) }
        ensures err { OnErr result (self.new ≡ self.old) }
    {
        match change {
            Change::Add(row) => {
                let start = endless(alloc, row)?;
                self.rows.insert(start)?;
            }
            Change::Cut(row, end) => {
                if *end <= row.begin {
                    let start = endless(alloc, row)?;
                    self.rows.take(&start);
                }
            }
        }
        Ok(())
    }

    /// Copies of the rows in order of begin, each as often as it is there. O(n).
    pub(crate) fn canonical(&self) -> Result<Vec<Row>, OutOfMemory>
        ensures { IfOk result (λ rows. rows.items ≡ in_order self.now) }
    {
        self.rows.canonical()
    }

    /// Takes the first row away, all copies of it, where its scope, which begins with it, ends by a time, and gives it with
    /// their number. It takes no memory. O(log n).
    pub(crate) fn pop_passed(&mut self, scope: u64, time: Time) -> Option<(Row, usize)>
        ensures taken { IsTakenOut (λ r. not (scope_reaches scope time r)) self.old self.new result }
        ensures alone { IfSome result (λ gone. (r : RowValue) → r.begin ≡ gone.0.begin → r.payload ≡ gone.0.payload → count_of r self.new ≡ 0) }
    {
        pop_passed(&mut self.rows, scope, time)
    }

    /// Forgets the rows whose scope, which begins with them, ends by a time. It takes no memory. O(log n) for each
    /// different one of them, and for one that stays.
    pub fn forget(&mut self, scope: u64, time: Time)
        ensures { SameRows self.new (filter (scope_reaches scope time) self.old) }
    {
        drop_passed(&mut self.rows, scope, time);
    }

    /// The rows that begin at a time or later, and before another one, with the number of their copies: in order
    /// of begin, and of those with one begin in order of payload. It takes no memory. O(log n) comparisons, and O(1)
    /// for each row that is taken from it.
    pub fn within(&self, alloc: Global, from: Time, before: Time) -> Range<'_, Row, usize>
        ensures rows { spread result ≡ filter (begins_within from before) self.now }
        ensures within { AreInScope from before result }
    {
        let low = first_at(alloc, from);
        let high = first_at(alloc, from.max(before));
        self.rows.range(low..high)
    }
}
