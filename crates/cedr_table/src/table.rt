ghost use Rattle.std.specs.Prelude.{◌≡◌, ◌<◌, ◌++◌, ◌∷◌, [], length, replicate, OnOk, OnErr, IfOk, IfSome, IfNone, nat_lt, not, IsErrOf, ◌↔◌};
ghost use Rattle.std.specs.List.{filter};
ghost use Rattle.std.specs.BTreeMap.Range.{IsLeBy, IsLtBy, range_contains};
ghost use Rattle.cedr_base.specs.Rows.{row_cmp, count_of, in_order, SameRows};
ghost use Rattle.cedr_base.specs.Changes.{puts, takes, remnant};
ghost use Rattle.cedr_table.specs.Counted.{LacksRow, IsFirst, IsTakenOut, ends_after, spread, AreThere};
ghost use Rattle.cedr_table.specs.declared.fault.TableFault.TheVariants.{NoSuchRow};

use crate::counted::{add_one, all_rows, copies_in, first_row, pop_first_row, take_all, take_one};
use crate::fault::TableFault;
use cedr_base::{Change, OutOfMemory, Row, Time};
use std::alloc::Global;
use std::collections::BTreeMap;
use std::collections::btree_map::Range;
use std::marker::Model;
use std::ops::RangeBounds;

/// A bag of rows. Contracts see a list of its rows, of which only the counts matter.
///
/// It keeps each row once, with the number of its copies.
pub struct Table {
    alloc: Global,
    rows: BTreeMap<Row, usize>,
    len: usize,
}

impl Drop for Table {
    fn drop(self) {
        let Table {
            alloc: _,
            rows: _,
            len: _,
        } = self;
    }
}

impl Model for Table {
    ghost use Rattle.std.specs.Prelude.{List};
    ghost use Rattle.cedr_base.specs.declared.row.Row.{Row};
    ghost use Rattle.cedr_table.specs.Counted.{spread, IsCounted};

    ghost Value = { List Row };

    ghost view = { λ t. spread t.rows.entries };

    ghost invariant = { λ t. IsCounted t.rows.entries t.len };
}

impl Table {
    /// A table with no row. It takes no memory.
    pub fn new(alloc: Global) -> Table
        ensures { result ≡ [] }
    {
        Table {
            alloc,
            rows: BTreeMap::new(alloc),
            len: 0,
        }
    }

    /// Applies a change: an insertion puts its row, and a retraction takes a copy of its row and puts what is left of
    /// it. A refusal changes nothing, and to find that a row isn't there takes no memory. O(log n) comparisons in the
    /// different rows.
    pub fn apply(&mut self, change: Change) -> Result<(), TableFault>
        ensures ok { OnOk result (SameRows (self.new ++ takes change) (self.old ++ puts change)) }
        ensures no_such_row { IsErrOf result NoSuchRow ↔ LacksRow self.old change }
        ensures err { OnErr result (self.new ≡ self.old) }
    {
        match change {
            Change::Add(row) => self.add(row),
            Change::Cut(row, end) => self.cut(row, end),
        }
    }

    /// Adds a row.
    fn add(&mut self, row: Row) -> Result<(), TableFault>
        ensures ok { OnOk result (SameRows self.new (self.old ++ row ∷ [])) }
        ensures no_such_row { IsErrOf result NoSuchRow → ⊥ }
        ensures err { OnErr result (self.new ≡ self.old) }
    {
        self.insert(row)?;
        Ok(())
    }

    /// Takes a copy of a row, and puts what a cut leaves of it. What may be refused comes before the row is taken.
    fn cut(&mut self, row: Row, end: Time) -> Result<(), TableFault>
        ensures ok { OnOk result (SameRows (self.new ++ row ∷ []) (self.old ++ remnant row end)) }
        ensures no_such_row { IsErrOf result NoSuchRow ↔ (count_of row self.old ≡ 0) }
        ensures err { OnErr result (self.new ≡ self.old) }
    {
        if row.begin >= end {
            return self.withdraw(&row);
        }
        if self.count(&row) == 0 {
            return Err(TableFault::NoSuchRow);
        }
        let mut shorter = row.copy(self.alloc)?;
        shorter.end = end;
        self.insert(shorter)?;
        self.take(&row);
        Ok(())
    }

    /// Takes a copy of a row that leaves nothing.
    fn withdraw(&mut self, row: &Row) -> Result<(), TableFault>
        ensures ok { OnOk result (SameRows (self.new ++ row.now ∷ []) self.old) }
        ensures no_such_row { IsErrOf result NoSuchRow ↔ (count_of row.now self.old ≡ 0) }
        ensures err { OnErr result (self.new ≡ self.old) }
    {
        if self.take(row) {
            Ok(())
        } else {
            Err(TableFault::NoSuchRow)
        }
    }

    /// How many copies of a row are in the table. O(log n) comparisons.
    pub fn count(&self, row: &Row) -> usize
        ensures { result ≡ count_of row.now self.now }
    {
        copies_in(&self.rows, row)
    }

    /// How many rows there are, each copy counted. O(1).
    pub fn len(&self) -> usize
        ensures { result ≡ length self.now }
    {
        self.len
    }

    /// Adds a copy of a row. Where memory runs out the table is as before. O(log n) comparisons.
    pub fn insert(&mut self, row: Row) -> Result<(), OutOfMemory>
        ensures ok { OnOk result (SameRows self.new (row ∷ self.old)) }
        ensures err { OnErr result (self.new ≡ self.old) }
    {
        if self.len == usize::MAX {
            return Err(OutOfMemory);
        }
        add_one(&mut self.rows, row)?;
        self.len += 1;
        Ok(())
    }

    /// Takes a copy of a row away, and says whether there was one. It takes no memory. O(log n) comparisons.
    pub fn take(&mut self, row: &Row) -> bool
        ensures was_there { result ≡ nat_lt 0 (count_of row.now self.old) }
        ensures taken { 0 < count_of row.now self.old → SameRows (row.now ∷ self.new) self.old }
        ensures missing { count_of row.now self.old ≡ 0 → self.new ≡ self.old }
    {
        let found = take_one(&mut self.rows, row);
        if found {
            self.len -= 1;
        }
        found
    }

    /// Takes all copies of a row away, and says how many there were. It takes no memory. O(log n) comparisons.
    pub fn remove(&mut self, row: &Row) -> usize
        ensures count { result ≡ count_of row.now self.old }
        ensures removed { SameRows (replicate result row.now ++ self.new) self.old }
    {
        let count = take_all(&mut self.rows, row);
        self.len -= count;
        count
    }

    /// The first row in canonical order. It takes no memory. O(log n).
    pub fn first(&self) -> Option<&Row>
        ensures some { IfSome result (λ row. IsFirst row.now self.now) }
        ensures none { IfNone result (self.now ≡ []) }
    {
        first_row(&self.rows)
    }

    /// Takes the first row in canonical order away, all copies of it, and gives it with their number. It takes no memory.
    /// O(log n).
    pub fn pop_first(&mut self) -> Option<(Row, usize)>
        ensures some { IfSome result (λ found. IsFirst found.0 self.old × (found.1 ≡ count_of found.0 self.old) × SameRows (replicate found.1 found.0 ++ self.new) self.old) }
        ensures none { IfNone result ((self.old ≡ []) × (self.new ≡ [])) }
    {
        match pop_first_row(&mut self.rows) {
            Some((row, count)) => {
                self.len -= count;
                Some((row, count))
            }
            None => None,
        }
    }

    /// Takes the first row in canonical order away, all copies of it, where it ends at a time or before, and gives it
    /// with their number. It takes no memory. O(log n).
    pub fn pop_ended(&mut self, time: Time) -> Option<(Row, usize)>
        ensures taken { IsTakenOut (λ r. not (ends_after time r)) self.old self.new result }
        ensures first { IfSome result (λ found. IsFirst found.0 self.old) }
    {
        match self.first() {
            Some(row) if row.end <= time => self.pop_first(),
            _ => None,
        }
    }

    /// Takes the rows away that end at a time or before. It takes no memory. O(log n) for each of them that differs
    /// from the others, and for one that stays.
    pub fn forget_ended(&mut self, time: Time)
        ensures { SameRows self.new (filter (ends_after time) self.old) }
    {
        while let Some(_gone) = self.pop_ended(time) {}
    }

    /// Copies of the rows in canonical order, each as often as it is there. O(n).
    pub fn canonical(&self) -> Result<Vec<Row>, OutOfMemory>
        ensures { IfOk result (λ rows. rows.items ≡ in_order self.now) }
    {
        all_rows(self.alloc, &self.rows)
    }

    /// The rows that lie within a range of rows in canonical order, each with the number of its copies. It takes no
    /// memory. O(log n) comparisons, and O(1) for each row that is taken from it.
    pub fn range<R: RangeBounds<Row> + Drop>(&self, range: R) -> Range<'_, Row, usize>
        requires { R.is_forward range (IsLeBy row_cmp) (IsLtBy row_cmp) }
        ensures rows { R.has_bounds range → spread result ≡ filter (range_contains row_cmp (R.start_bound range) (R.end_bound range)) self.now }
        ensures copies { R.has_bounds range → AreThere result }
    {
        self.rows.range(range)
    }

    /// A table with the same rows, in memory of its own. O(n log n).
    pub fn copy(&self) -> Result<Table, OutOfMemory>
        ensures { IfOk result (λ copied. SameRows copied self.now) }
    {
        let rows = self.canonical()?;
        let mut copied = Table::new(self.alloc);
        for row in rows.as_slice() {
            let row = row.copy(self.alloc)?;
            copied.insert(row)?;
        }
        Ok(copied)
    }
}
