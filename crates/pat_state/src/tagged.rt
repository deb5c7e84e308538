ghost use Rattle.std.specs.Prelude.{◌≡◌, [], All, true, length, OnOk, OnErr, IfOk};
ghost use Rattle.std.specs.List.{filter, Contains};
ghost use Rattle.cedr_base.specs.declared.row.Row.{Row as RowValue};
ghost use Rattle.cedr_base.specs.declared.change.Change.TheVariants.{Add};
ghost use Rattle.cedr_base.specs.Rows.{in_order, SameRows};
ghost use Rattle.pat_state.specs.Due.{AreDue};
ghost use Rattle.pat_state.specs.Starts.{scope_reaches};
ghost use Rattle.pat_state.specs.Tags.{marked, HasMarked, IsRetagged};

use crate::by_tag::{ByTag, apply_tagged};
use crate::due_rows::DueRows;
use cedr_base::{Change, OutOfMemory, Row, Time};
use std::alloc::Global;
use std::marker::Model;

/// A bag of rows with their tags, of which only the begins and the payloads are kept, and which of them begins first. Contracts
/// see a list of the rows, each with its tag as its end, and a list of those that are noted to be due.
///
/// A row that was taken away stays among those that are due, until its scope has ended or these are noted anew: so a retraction
/// has nothing to look for there. It says no more than that a look for the row may be worth it then.
pub(crate) struct Tagged {
    tags: ByTag,
    due: DueRows,
}

impl Drop for Tagged {
    fn drop(self) {
        let Tagged { tags: _, due: _ } = self;
    }
}

impl Model for Tagged {
    ghost use Rattle.pat_state.specs.Due.{AreDue, TaggedRows};

    ghost Value = { TaggedRows };

    ghost view = { λ t. record { tags = t.tags; due = t.due } };

    ghost invariant = { λ t. AreDue t.tags t.due };
}

/// Notes the row that a change adds among those that will be due.
fn note_due(alloc: Global, due: &mut DueRows, tag: u64, change: &Change) -> Result<(), OutOfMemory>
    ensures there { OnOk result ((row : RowValue) → change.now ≡ Add row → Contains due.new (marked tag row)) }
    ensures others { (row : RowValue) → Contains due.old row → Contains due.new row }
{
    match change {
        Change::Add(row) => {
            let payload = row.payload.copy(alloc)?;
            due.push(row.begin, tag, payload)
        }
        Change::Cut(_, _) => Ok(()),
    }
}

/// The rows that will be due, noted anew: those that are there, one for each different row. O(log n) for each of them.
fn renewed_due(alloc: Global, tags: &ByTag) -> Result<DueRows, OutOfMemory>
    ensures { IfOk result (λ due. AreDue tags.now due) }
{
    let mut due = DueRows::new(alloc);
    for (row, _) in tags.all() {
        let payload = row.payload.copy(alloc)?;
        due.push(row.begin, row.end, payload)?;
    }
    Ok(due)
}

/// Notes the rows that will be due anew where they have outgrown the rows that are there, each copy counted: where there are
/// more than twice as many and 64. Where memory runs out nothing changes.
fn limit_due(alloc: Global, tags: &ByTag, due: &mut DueRows) -> Result<(), OutOfMemory>
    requires { AreDue tags.now due.old }
    ensures { AreDue tags.now due.new }
{
    if due.len() > tags.len().saturating_mul(2).saturating_add(64) {
        *due = renewed_due(alloc, tags)?;
    }
    Ok(())
}

/// Forgets the rows whose scope, which begins with them, ends by a time: each is among those that are due, and none of these stays
/// there.
fn forget_passed(tags: &mut ByTag, due: &mut DueRows, scope: u64, time: Time)
    requires { AreDue tags.old due.old }
    ensures due { AreDue tags.new due.new }
    ensures left { SameRows tags.new (filter (scope_reaches scope time) tags.old) }
    ensures reach { All (λ row. scope_reaches scope time row ≡ true) due.new }
{
    while let Some(row) = due.pop_passed(scope, time) {
        tags.remove(&row);
    }
}

impl Tagged {
    /// A bag with no row. It takes no memory.
    pub(crate) fn new(alloc: Global) -> Tagged
        ensures tags { result.tags ≡ [] }
        ensures due { result.due ≡ [] }
    {
        Tagged {
            tags: ByTag::new(alloc),
            due: DueRows::new(alloc),
        }
    }

    /// How many rows there are. It takes no memory. O(1).
    pub(crate) fn len(&self) -> usize
        ensures { result ≡ length self.now.tags }
    {
        self.tags.len()
    }

    /// The rows by their tags.
    pub(crate) fn tags(&self) -> &ByTag
        ensures { result.now ≡ self.now.tags }
    {
        &self.tags
    }

    /// Applies a change to the rows of a tag, of which the row's begin and its payload count. O(log n) comparisons in the
    /// different rows. Where memory runs out they are as before, and more of them may be noted to be due.
    ///
    /// Where it succeeds it leaves at most twice as many rows that will be due as rows, each copy counted, and 66. Where there
    /// are more than twice as many and 64 before the change, they are first noted anew: more changes since the last time took a
    /// row away, or lacked memory, than there are rows and 64, so it costs less than one row noted for each of them. No clause
    /// speaks of this bound and of this cost.
    pub(crate) fn apply(
        &mut self,
        alloc: Global,
        tag: u64,
        change: &Change,
    ) -> Result<(), OutOfMemory>
        requires { HasMarked tag self.old.tags change.now }
        ensures ok { OnOk result (IsRetagged tag change.now self.old.tags self.new.tags) }
        ensures err { OnErr result (self.new.tags ≡ self.old.tags) }
    {
        limit_due(alloc, &self.tags, &mut self.due)?;
        note_due(alloc, &mut self.due, tag, change)?;
        apply_tagged(alloc, &mut self.tags, tag, change)?;
        Ok(())
    }

    /// Forgets the rows whose scope, which begins with them, ends by a time, also of those that are noted to be due. It takes no
    /// memory. O(log n) for each of them, and O(1) where there is none.
    pub(crate) fn forget(&mut self, scope: u64, time: Time)
        ensures left { SameRows self.new.tags (filter (scope_reaches scope time) self.old.tags) }
        ensures reach { All (λ row. scope_reaches scope time row ≡ true) self.new.due }
    {
        forget_passed(&mut self.tags, &mut self.due, scope, time);
    }

    /// Copies of the rows in order of tag, each as often as it is there. O(n).
    pub(crate) fn canonical(&self) -> Result<Vec<Row>, OutOfMemory>
        ensures { IfOk result (λ rows. rows.items ≡ in_order self.now.tags) }
    {
        self.tags.canonical()
    }
}
