ghost use Rattle.std.specs.Prelude.{◌≡◌, ◌++◌, ◌∷◌, [], ◌-◌, ◌↔◌, max, OnOk, Option, filter, length, take, true, if◌then◌else◌};
ghost use Rattle.cedr_base.specs.Rows.{SameRows};
ghost use Rattle.node_laws.specs.Lists.{mark_above};
ghost use Rattle.cedr_base.specs.declared.change.Message.TheVariants as message;
ghost use Rattle.node_laws.specs.Pass.{front_at, additions, is_held};
ghost use Rattle.cedr_align.specs.Remembered.{is_remembered};
ghost use Rattle.cedr_align.specs.Released.{GoesThrough, IsKeptAndSettled, IsSettled};

use crate::aligner::Aligner;
use crate::held::must_wait;
use crate::keep::{apply_where, keep};
use cedr_base::{Change, FOREVER, Message, OutOfMemory, Row, Time};
use cedr_table::Table;
use std::alloc::Global;
use std::mem::replace;

/// The time such that a row that ends by it can't be named any more.
fn named_after(memory: u64, mark: Time, high: Time) -> Time
    ensures { result ≡ max mark (high - memory) }
{
    mark.max(high.saturating_sub(memory))
}

/// A row that passed must be remembered: the memory has a limit, and a retraction may still name it. O(1).
fn must_remember(memory: Option<u64>, ended: bool, mark: Time, high: Time, row: &Row) -> bool
    ensures { result ≡ is_remembered memory ended mark high row.now }
{
    match memory {
        None => false,
        Some(memory) => !ended && row.end > named_after(memory, mark, high),
    }
}

/// Passes a mark on where it is above an earlier one.
fn push_mark(before: Time, front: Time, out: &mut Vec<Message>) -> Result<(), OutOfMemory>
    ensures out { OnOk result (out.new.items ≡ out.old.items ++ mark_above before front) }
    ensures kept { take (length out.old.items) out.new.items ≡ out.old.items }
{
    if front > before {
        out.push(Message::Mark(front))?;
    }
    Ok(())
}

/// How an aligner settles. Where memory runs out it is only to be dropped.
impl Aligner {
    ghost use Rattle.cedr_align.specs.Aligner.{HasSameTimes, must_remember, must_wait};

    /// The guarantee that is passed on. O(log n) in the rows that wait.
    pub(crate) fn guarantee(&self) -> Time
        ensures { result ≡ front_at self.now.ended self.now.mark self.now.held }
    {
        if self.ended {
            FOREVER
        } else {
            self.held.least_begin(self.mark)
        }
    }

    /// Forgets the passed rows that needn't be remembered any longer. It takes no memory. O(log n) for each of them,
    /// and one look at the first one that stays.
    pub(crate) fn forget(&mut self, alloc: Global)
        ensures passed { SameRows self.new.passed (filter (must_remember self.old) self.old.passed) }
        ensures held { self.new.held ≡ self.old.held }
        ensures same { HasSameTimes self.old self.new }
    {
        match self.level.memory {
            Some(memory) if !self.ended => {
                let time = named_after(memory, self.mark, self.high);
                self.passed.forget_ended(time);
            }
            _ => self.passed = Table::new(alloc),
        }
    }

    /// Remembers a copy of a row that passes, where it must.
    fn remember(&mut self, alloc: Global, row: &Row) -> Result<(), OutOfMemory>
        ensures passed { OnOk result (SameRows self.new.passed (self.old.passed ++ filter (must_remember self.old) (row.now ∷ []))) }
        ensures held { self.new.held ≡ self.old.held }
        ensures same { HasSameTimes self.old self.new }
    {
        if must_remember(self.level.memory, self.ended, self.mark, self.high, row) {
            let copied = row.copy(alloc)?;
            self.passed.insert(copied)?;
        }
        Ok(())
    }

    /// Moves rows out of their list, passes their additions on, and remembers those of them that it must.
    fn pass_rows(
        &mut self,
        alloc: Global,
        rows: &mut Vec<Row>,
        out: &mut Vec<Message>,
    ) -> Result<(), OutOfMemory>
        ensures passed { OnOk result (SameRows self.new.passed (self.old.passed ++ filter (must_remember self.old) rows.old.items)) }
        ensures out { OnOk result (out.new.items ≡ out.old.items ++ additions rows.old.items) }
        ensures emptied { OnOk result (rows.new.items ≡ []) }
        ensures held { self.new.held ≡ self.old.held }
        ensures same { HasSameTimes self.old self.new }
        ensures kept { take (length out.old.items) out.new.items ≡ out.old.items }
    {
        for row in rows.drain(..) {
            self.remember(alloc, &row)?;
            out.push(Message::Change(Change::Add(row)))?;
        }
        Ok(())
    }

    /// Lets the rows pass that needn't wait any longer, forgets what needn't be remembered, and then passes the front
    /// on where it rose above an earlier one.
    pub(crate) fn settle(
        &mut self,
        alloc: Global,
        before: Time,
        out: &mut Vec<Message>,
    ) -> Result<(), OutOfMemory>
        ensures settled { OnOk result (IsSettled (must_wait self.old) (must_remember self.old) self.old.ended self.old.mark before self.old.held self.old.passed out.old.items self.new.held self.new.passed out.new.items) }
        ensures same { HasSameTimes self.old self.new }
        ensures kept { take (length out.old.items) out.new.items ≡ out.old.items }
    {
        // the list is taken out, so that the aligner may change while the rows pass
        let mut rows = replace(&mut self.released, Vec::new(alloc));
        self.held.release(
            alloc,
            self.level.block,
            self.ended,
            self.mark,
            self.high,
            &mut rows,
        )?;
        self.forget(alloc);
        self.pass_rows(alloc, &mut rows, out)?;
        self.released = rows;
        push_mark(before, self.guarantee(), out)?;
        Ok(())
    }

    /// No row waits, and the change needn't at this greatest time. It takes no memory. O(1).
    pub(crate) fn goes_through(&self, high: Time, change: &Change) -> bool
        ensures { result ≡ true ↔ GoesThrough (is_held self.now.level.block self.now.ended self.now.mark high) self.now.held change.now }
    {
        if !self.held.is_empty() {
            return false;
        }
        match change {
            Change::Add(row) => { !must_wait(self.level.block, self.ended, self.mark, high, row) }
            Change::Cut(_, _) => true,
        }
    }

    /// Keeps a change that goes through, and then settles: it is all that passes, and the front stays. So it is put among
    /// no rows that wait. O(1) where the memory has no limit, and else O(log n) in the rows that are remembered.
    pub(crate) fn keep_through(&mut self, alloc: Global, change: &Change) -> Result<(), OutOfMemory>
        requires { GoesThrough (must_wait self.old) self.old.held change.now }
        ensures settled { OnOk result (IsKeptAndSettled self.old.level.memory (must_wait self.old) (must_remember self.old) self.old.ended self.old.mark change.now self.old.held self.old.passed [] self.new.held self.new.passed (message.Change change.now ∷ [])) }
        ensures same { HasSameTimes self.old self.new }
    {
        apply_where(alloc, self.level.memory, &mut self.passed, change)?;
        self.forget(alloc);
        Ok(())
    }

    /// Keeps a change that isn't forgotten, and then settles.
    pub(crate) fn keep_and_settle(
        &mut self,
        alloc: Global,
        change: Change,
        out: &mut Vec<Message>,
    ) -> Result<(), OutOfMemory>
        ensures settled { OnOk result (IsKeptAndSettled self.old.level.memory (must_wait self.old) (must_remember self.old) self.old.ended self.old.mark change self.old.held self.old.passed out.old.items self.new.held self.new.passed out.new.items) }
        ensures same { HasSameTimes self.old self.new }
        ensures kept { take (length out.old.items) out.new.items ≡ out.old.items }
    {
        let memory = self.level.memory;
        let before = self.guarantee();
        keep(alloc, memory, &mut self.held, &mut self.passed, change, out)?;
        self.settle(alloc, before, out)
    }
}
