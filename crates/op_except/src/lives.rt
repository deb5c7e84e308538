ghost use Rattle.std.specs.Prelude.{◌≡◌, ◌≤◌, ◌<◌, ◌+◌, ◌++◌, ◌∷◌, [], OnOk};
ghost use Rattle.std.specs.List.{filter};
ghost use Rattle.cedr_base.specs.declared.row.Row.{Row as RowValue};
ghost use Rattle.cedr_base.specs.Rows.{count_of, SameRows};
ghost use Rattle.cedr_base.specs.Changes.{takes, puts, all_takes, all_puts};
ghost use Rattle.op_except.specs.Parts.{growing_from};
ghost use Rattle.op_except.specs.Lives.{life_row, bares, AreLives, IsEarliest, lasts_to};

use cedr_base::{Change, OutOfMemory, Payload, Row, Time};
use cedr_table::Table;
use std::alloc::Global;
use std::collections::BTreeSet;

/// A begin and an end. Lives compare by their begins, then by their ends.
#[derive(PartialEq, Eq, PartialOrd, Ord, Drop)]
pub(crate) struct Life {
    pub(crate) begin: Time,
    pub(crate) end: Time,
}

/// A bag of lives, in order of their ends with the number of copies, and each once in order of their begins.
pub(crate) struct Lives {
    pub(crate) by_end: Table,
    pub(crate) by_begin: BTreeSet<Life>,
}

impl Drop for Lives {
    fn drop(self) {
        let Lives {
            by_end: _,
            by_begin: _,
        } = self;
    }
}

/// A life as a row with no field.
fn life_row(alloc: Global, begin: Time, end: Time) -> Row
    ensures { result ≡ life_row begin end }
{
    Row {
        end,
        begin,
        payload: Payload::new(alloc),
    }
}

impl Lives {
    /// No life. It takes no memory.
    pub(crate) fn new(alloc: Global) -> Lives
        ensures lives { AreLives result.by_begin.keys result.by_end }
        ensures none { result.by_end ≡ [] }
    {
        Lives {
            by_end: Table::new(alloc),
            by_begin: BTreeSet::new(alloc),
        }
    }

    /// Adds a life. O(log n) comparisons. Where memory runs out it may stand in one order alone.
    fn add(&mut self, alloc: Global, begin: Time, end: Time) -> Result<(), OutOfMemory>
        ensures { OnOk result (AreLives self.old.by_begin.keys self.old.by_end → AreLives self.new.by_begin.keys self.new.by_end × SameRows self.new.by_end (life_row begin end ∷ self.old.by_end)) }
    {
        self.by_end.insert(life_row(alloc, begin, end))?;
        self.by_begin.insert(Life { begin, end })?;
        Ok(())
    }

    /// Takes a copy of a life away. It takes no memory. O(log n) comparisons.
    fn take(&mut self, alloc: Global, begin: Time, end: Time)
        ensures { AreLives self.old.by_begin.keys self.old.by_end → 0 < count_of (life_row begin end) self.old.by_end → AreLives self.new.by_begin.keys self.new.by_end × SameRows (life_row begin end ∷ self.new.by_end) self.old.by_end }
    {
        let row = life_row(alloc, begin, end);
        self.by_end.take(&row);
        if self.by_end.count(&row) == 0 {
            self.by_begin.remove(&Life { begin, end });
        }
    }

    /// The life of a changed row changes. O(log n) comparisons. Where memory runs out a life may be lost.
    pub(crate) fn note(&mut self, alloc: Global, change: &Change) -> Result<(), OutOfMemory>
        ensures { OnOk result (AreLives self.old.by_begin.keys self.old.by_end → ((r : RowValue) → 0 < count_of r (bares (takes change.now)) → 0 < count_of r self.old.by_end)
            → AreLives self.new.by_begin.keys self.new.by_end × SameRows (self.new.by_end ++ bares (takes change.now)) (self.old.by_end ++ bares (puts change.now))) }
    {
        match change {
            Change::Add(row) => self.add(alloc, row.begin, row.end),
            Change::Cut(row, end) => {
                self.take(alloc, row.begin, row.end);
                if row.begin < *end {
                    self.add(alloc, row.begin, *end)?;
                }
                Ok(())
            }
        }
    }

    /// The lives of the rows change that changes are about. O(log n) comparisons for each. Where memory runs out lives may be
    /// lost.
    pub(crate) fn note_all(&mut self, alloc: Global, changes: &[Change]) -> Result<(), OutOfMemory>
        ensures { OnOk result (AreLives self.old.by_begin.keys self.old.by_end → ((r : RowValue) → count_of r (bares (all_takes changes.now)) ≤ count_of r self.old.by_end)
            → AreLives self.new.by_begin.keys self.new.by_end × SameRows (self.new.by_end ++ bares (all_takes changes.now)) (self.old.by_end ++ bares (all_puts changes.now))) }
    {
        for change in changes {
            self.note(alloc, change)?;
        }
        Ok(())
    }

    /// Forgets the lives that end at a time or before. It takes no memory. O(log n) comparisons for each different one of
    /// them, and a look at the first end where there is none.
    fn forget_ended(&mut self, time: Time)
        requires { AreLives self.old.by_begin.keys self.old.by_end }
        ensures lives { AreLives self.new.by_begin.keys self.new.by_end }
        ensures left { SameRows self.new.by_end (filter (lasts_to (time + 1)) self.old.by_end) }
    {
        while let Some((gone, _)) = self.by_end.pop_ended(time) {
            self.by_begin.remove(&Life {
                begin: gone.begin,
                end: gone.end,
            });
        }
    }

    /// Forgets the lives that end before a time, likewise.
    pub(crate) fn forget_before(&mut self, mark: Time)
        requires { AreLives self.old.by_begin.keys self.old.by_end }
        ensures lives { AreLives self.new.by_begin.keys self.new.by_end }
        ensures left { SameRows self.new.by_end (filter (lasts_to mark) self.old.by_end) }
    {
        if let Some(last) = mark.checked_sub(1) {
            self.forget_ended(last);
        }
    }

    /// The least begin of a life that begins before a mark and doesn't end before it, or else the mark. It looks at this
    /// one, and at those before it, which `forget_before` takes away at the same mark. It takes no memory.
    pub(crate) fn first_open(&self, mark: Time) -> Time
        ensures { AreLives self.now.by_begin.keys self.now.by_end → result ≡ growing_from mark self.now.by_end }
    {
        for life in self.by_begin.iter() {
            if life.begin >= mark {
                return mark;
            }
            if life.end >= mark {
                return life.begin;
            }
        }
        mark
    }

    /// The least begin, or else a mark where that isn't above it. It takes no memory. O(log n).
    pub(crate) fn earliest(&self, mark: Time) -> Time
        ensures { AreLives self.now.by_begin.keys self.now.by_end → IsEarliest self.now.by_end mark result }
    {
        match self.by_begin.first() {
            Some(life) if life.begin < mark => life.begin,
            _ => mark,
        }
    }
}
