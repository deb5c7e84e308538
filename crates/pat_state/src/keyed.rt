ghost use Rattle.std.specs.Prelude.{ℕ, ◌≡◌, ◌++◌, [], Option, length, true, OnOk};
ghost use Rattle.std.specs.List.{filter};
ghost use Rattle.cedr_base.specs.Rows.{SameRows};
ghost use Rattle.cedr_base.specs.Changes.{puts, takes};
ghost use Rattle.cedr_table.specs.Counted.{spread};
ghost use Rattle.pat_state.specs.Starts.{all_endless, begins_within, scope_reaches, AreInScope, HasRow};
ghost use Rattle.pat_state.specs.Keys.{key_tag};
ghost use Rattle.pat_state.specs.Tags.{IsTagged};
ghost use Rattle.pat_state.specs.Groups.{seen, IsKeyed, LacksOthers};

use crate::by_begin::ByBegin;
use crate::by_tag::{ByTag, apply_tagged};
use crate::key::key_tag;
use cedr_base::{Change, OutOfMemory, Row, Time};
use std::alloc::Global;
use std::collections::btree_map::Range;

/// The rows of a port, of which only the begins and the payloads are kept: in order of begin, and each once more by the tag of
/// its field in a column. Rows of another width than that which is given have the tag 0.
pub(crate) struct Keyed {
    pub(crate) rows: ByBegin,
    pub(crate) tags: ByTag,
}

impl Drop for Keyed {
    fn drop(self) {
        let Keyed { rows: _, tags: _ } = self;
    }
}

/// Forgets rows with their tags whose scope, which begins with them, ends by a time.
fn forget_keyed(
    rows: &mut ByBegin,
    tags: &mut ByTag,
    width: usize,
    column: Option<usize>,
    scope: u64,
    time: Time,
)
    requires { IsTagged (key_tag width column) rows.old tags.old }
    ensures tagged { IsTagged (key_tag width column) rows.new tags.new }
    ensures left { SameRows rows.new (filter (scope_reaches scope time) rows.old) }
{
    while let Some((row, _)) = rows.pop_passed(scope, time) {
        let tag = key_tag(width, column, &row.payload);
        tags.remove_copies(tag, row);
    }
}

impl Keyed {
    /// No rows. It takes no memory.
    pub(crate) fn new(alloc: Global) -> Keyed
        ensures rows { result.rows ≡ [] }
        ensures keyed { (width : ℕ) (column : Option ℕ) → IsKeyed width column result }
    {
        Keyed {
            rows: ByBegin::new(alloc),
            tags: ByTag::new(alloc),
        }
    }

    /// How many rows there are. It takes no memory. O(1).
    pub(crate) fn len(&self) -> usize
        ensures { result ≡ length self.now.rows }
    {
        self.rows.len()
    }

    /// Applies a change, of which the row's begin and its payload count. O(log n) comparisons in the different rows. Where
    /// memory runs out rows may be lost.
    pub(crate) fn apply(
        &mut self,
        alloc: Global,
        width: usize,
        column: Option<usize>,
        change: &Change,
    ) -> Result<(), OutOfMemory>
        requires there { HasRow self.old.rows change.now }
        requires keyed { IsKeyed width column self.old }
        ensures keyed { OnOk result (IsKeyed width column self.new) }
        ensures rows { OnOk result (SameRows (self.new.rows ++ all_endless (takes change.now)) (self.old.rows ++ all_endless (puts change.now))) }
    {
        let tag = key_tag(width, column, &change.row().payload);
        apply_tagged(alloc, &mut self.tags, tag, change)?;
        self.rows.apply(alloc, change)
    }

    /// Forgets the rows whose scope, which begins with them, ends by a time. It takes no memory. O(log n) for each different
    /// one of them, and for one that stays.
    pub(crate) fn forget(&mut self, width: usize, column: Option<usize>, scope: u64, time: Time)
        requires { IsKeyed width column self.old }
        ensures keyed { IsKeyed width column self.new }
        ensures rows { SameRows self.new.rows (filter (scope_reaches scope time) self.old.rows) }
    {
        forget_keyed(&mut self.rows, &mut self.tags, width, column, scope, time);
    }

    /// Whether no row has another width. It takes no memory. O(log n).
    pub(crate) fn lacks_others(&self) -> bool
        ensures { result ≡ true → LacksOthers self.now }
    {
        self.tags.lacks_zero()
    }

    /// The rows, or those that have a tag, which begin at a time or later, and before another one, with the number of their
    /// copies: in order of begin. It takes no memory. O(log n) comparisons, and O(1) for each row that is taken from it.
    pub(crate) fn within(
        &self,
        alloc: Global,
        tag: Option<u64>,
        from: Time,
        before: Time,
    ) -> Range<'_, Row, usize>
        ensures rows { spread result ≡ filter (begins_within from before) (seen tag self.now) }
        ensures within { AreInScope from before result }
    {
        match tag {
            Some(tag) => self.tags.within(alloc, tag, from, before),
            None => self.rows.within(alloc, from, before),
        }
    }
}
