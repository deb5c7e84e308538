ghost use Rattle.std.specs.Prelude.{◌≡◌, ◌<◌, ◌≤◌, ◌++◌, ◌∷◌, [], OnOk, nat_eq, length};
ghost use Rattle.std.specs.List.{filter};
ghost use Rattle.cedr_base.specs.declared.time.TheConstants.{FOREVER};
ghost use Rattle.cedr_base.specs.Rows.{in_order, count_of, SameRows};
ghost use Rattle.cedr_table.specs.Counted.{ends_after, spread, AreThere};
ghost use Rattle.filed_rows.specs.Spans.{AreAmong, ends_by, lives_within};

use crate::ranges::{begun_before, ended_by, ending_meeting};
use cedr_base::{FOREVER, OutOfMemory, Row, Time};
use cedr_table::Table;
use std::alloc::Global;
use std::collections::btree_map::Range;
use std::marker::Model;

/// A bag of rows. Contracts see a list of them, of which only the counts matter.
///
/// Rows that end and rows without end stand apart. Of those that end the longest is known: what ends later than a row and
/// the longest together begins after it. Those without end stand in order of their begins. So a row is compared with those
/// alone that are valid at about its time, also where many others are ahead of it.
pub struct Spans {
    ending: Table,
    unended: Table,
    /// No row that ends has been valid for longer.
    longest: u64,
}

impl Drop for Spans {
    fn drop(self) {
        let Spans {
            ending: _,
            unended: _,
            longest: _,
        } = self;
    }
}

impl Model for Spans {
    ghost use Rattle.std.specs.Prelude.{List, ◌++◌};
    ghost use Rattle.cedr_base.specs.declared.row.Row.{Row};
    ghost use Rattle.filed_rows.specs.Spans.{AreSpans};

    ghost Value = { List Row };

    ghost view = { λ s. s.ending ++ s.unended };

    ghost invariant = { λ s. AreSpans s.longest s.ending s.unended };
}

/// Adds copies of a table's rows at the end.
fn push_rows(rows: &mut Vec<Row>, table: &Table) -> Result<(), OutOfMemory>
    ensures { OnOk result (rows.new.items ≡ rows.old.items ++ in_order table.now) }
{
    let more = table.canonical()?;
    for row in more {
        rows.push(row)?;
    }
    Ok(())
}

impl Spans {
    /// No row. It takes no memory.
    pub fn new(alloc: Global) -> Spans
        ensures { result ≡ [] }
    {
        Spans {
            ending: Table::new(alloc),
            unended: Table::new(alloc),
            longest: 0,
        }
    }

    /// Whether there is no row. It takes no memory. O(1).
    pub fn is_empty(&self) -> bool
        ensures { result ≡ nat_eq (length self.now) 0 }
    {
        self.ending.len() == 0 && self.unended.len() == 0
    }

    /// How many rows end, each copy counted. It takes no memory. O(1).
    pub(crate) fn ending_len(&self) -> usize
        ensures { result ≤ length self.now }
    {
        self.ending.len()
    }

    /// Adds a row. O(log n) comparisons in the different rows.
    pub fn insert(&mut self, row: Row) -> Result<(), OutOfMemory>
        ensures { OnOk result (SameRows self.new (row ∷ self.old)) }
    {
        if row.end == FOREVER {
            return self.unended.insert(row);
        }
        self.longest = self.longest.max(row.end.saturating_sub(row.begin));
        self.ending.insert(row)
    }

    /// Takes a copy of a row away. It takes no memory. O(log n) comparisons in the different rows.
    pub fn take(&mut self, row: &Row)
        requires { 0 < count_of row.now self.old }
        ensures { SameRows (row.now ∷ self.new) self.old }
    {
        if row.end == FOREVER {
            self.unended.take(row);
        } else {
            self.ending.take(row);
        }
    }

    /// Forgets the rows that end at a time or before. It takes no memory. O(log n) for each of them, and a look at the
    /// first one.
    pub fn forget_ended(&mut self, time: Time)
        ensures { SameRows self.new (filter (ends_after time) self.old) }
    {
        self.ending.forget_ended(time);
        self.unended.forget_ended(time);
    }

    /// Adds copies of the rows at the end.
    pub fn push_to(&self, rows: &mut Vec<Row>) -> Result<(), OutOfMemory>
        ensures { OnOk result (SameRows rows.new.items (rows.old.items ++ self.now)) }
    {
        push_rows(rows, &self.ending)?;
        push_rows(rows, &self.unended)
    }

    /// The rows that end after a time and begin before another one, and maybe others, each with the number of its
    /// copies: of those that end the ones that end after the first time and, by the longest of them, may begin before the
    /// second one, in order of end; and the ones without end that begin before the second one, in order of begin. It takes
    /// no memory. O(log n) comparisons, and O(1) for each row that is taken from the two.
    pub fn meeting(
        &self,
        alloc: Global,
        time: Time,
        last: Time,
    ) -> (Range<'_, Row, usize>, Range<'_, Row, usize>)
        requires { time < FOREVER }
        ensures rows { filter (lives_within time last) (spread result.0 ++ spread result.1) ≡ filter (lives_within time last) self.now }
        ensures among { AreAmong (spread result.0) self.now × AreAmong (spread result.1) self.now }
        ensures there { AreThere result.0 × AreThere result.1 }
    {
        (
            ending_meeting(alloc, &self.ending, self.longest, time, last),
            begun_before(alloc, &self.unended, last),
        )
    }

    /// The rows that end at a time or before, in order of end, each with the number of its copies. It takes no memory.
    /// O(log n) comparisons, and O(1) for each row that is taken from them.
    pub fn ended_by(&self, alloc: Global, time: Time) -> Range<'_, Row, usize>
        requires { time < FOREVER }
        ensures rows { SameRows (spread result) (filter (ends_by time) self.now) }
        ensures there { AreThere result }
    {
        ended_by(alloc, &self.ending, time)
    }
}
