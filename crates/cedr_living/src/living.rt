ghost use Rattle.std.specs.Prelude.{◌≡◌, ◌<◌, ◌≤◌, ◌↔◌, ℕ, ◌∷◌, List, OnOk, IfOk, IsTrue, nat_lt, option_copied, max};
ghost use Rattle.cedr_base.specs.declared.time.TheConstants.{FOREVER};
ghost use Rattle.cedr_living.specs.Fields.{least_field, greatest_field};
ghost use Rattle.cedr_living.specs.Lives.{Living, fields_at, IsWith};
ghost use Rattle.cedr_living.specs.Bags.{KeepsLives, IsEmpty};

use crate::counts::{lower, raise};
use crate::ending::Ending;
use crate::ends::pop_ended;
use crate::index::Index;
use crate::outer::Side;
use cedr_base::{Field, OutOfMemory, Time};
use std::alloc::Global;
use std::collections::BTreeMap;

/// An ordered bag of fields, each of which is of a column and lives from a begin on and before an end. It keeps those
/// that end after a time, which moves on, so its memory is that of the lives that end later. Contracts speak of the list
/// of lives that came and didn't go, of which only the bag matters.
///
/// Each life that is kept stands in the index and among the ends, there once for all that are equal to it.
pub struct LivingFields {
    pub(crate) index: Index,
    pub(crate) ends: BTreeMap<Ending, usize>,
    /// Lives that end at this time or before it aren't kept.
    pub(crate) from: Time,
}

impl Drop for LivingFields {
    fn drop(self) {
        let LivingFields {
            index: _,
            ends: _,
            from: _,
        } = self;
    }
}

/// A life with a copy of a field.
fn life_of(
    alloc: Global,
    column: usize,
    begin: Time,
    end: Time,
    field: &Field,
) -> Result<Ending, OutOfMemory>
    ensures { IfOk result (λ e. e ≡ record { end = end; begin = begin; column = column; field = field.now }) }
{
    let copied = field.copy(alloc)?;
    Ok(Ending {
        end,
        begin,
        column,
        field: copied,
    })
}

impl LivingFields {
    /// A bag with no life, which keeps those that end after a time. It takes no memory.
    pub fn new(alloc: Global, from: Time) -> LivingFields
        ensures empty { IsEmpty result }
        ensures from { result.from ≡ from }
    {
        LivingFields {
            index: Index::new(alloc),
            ends: BTreeMap::new(alloc),
            from,
        }
    }

    /// Whether nothing is kept. It takes no memory. O(1).
    pub fn is_empty(&self) -> bool
        ensures { IsTrue result ↔ IsEmpty self.now }
    {
        self.ends.is_empty() && self.index.is_bare()
    }

    /// Whether a life with an end is kept.
    fn keeps(&self, end: Time) -> bool
        ensures { result ≡ nat_lt self.now.from end }
    {
        self.from < end
    }

    /// A field of a column lives from a begin on and before an end; from `FOREVER` on none does. A life that has ended
    /// isn't kept. O(log n) comparisons for each length of its pieces. Where memory runs out nothing is promised of what
    /// the bag keeps.
    pub fn add(
        &mut self,
        alloc: Global,
        column: usize,
        begin: Time,
        end: Time,
        field: &Field,
    ) -> Result<(), OutOfMemory>
        ensures from { self.new.from ≡ self.old.from }
        ensures keeps { OnOk result ((lives : List Living) → KeepsLives self.old lives → KeepsLives self.new (record { column = column; begin = begin; end = end; field = field.now } ∷ lives)) }
    {
        if !self.keeps(end) {
            return Ok(());
        }
        let life = life_of(alloc, column, begin, end, field)?;
        let copied = life.copy(alloc)?;
        raise(&mut self.ends, copied)?;
        self.index.add(alloc, life)
    }

    /// Such a life goes, which was added with the same begin and the same end. O(log n) comparisons for each length of its
    /// pieces. Where memory runs out nothing is promised of what the bag keeps.
    pub fn take(
        &mut self,
        alloc: Global,
        column: usize,
        begin: Time,
        end: Time,
        field: &Field,
    ) -> Result<(), OutOfMemory>
        ensures from { self.new.from ≡ self.old.from }
        ensures keeps { OnOk result ((lives rest : List Living) → KeepsLives self.old lives → IsWith lives (record { column = column; begin = begin; end = end; field = field.now }) rest → KeepsLives self.new rest) }
    {
        if !self.keeps(end) {
            return Ok(());
        }
        let life = life_of(alloc, column, begin, end, field)?;
        lower(&mut self.ends, &life);
        self.index.take(life, 1);
        Ok(())
    }

    /// Forgets the lives that end at a time or before it, and keeps none that do from then on. It takes no memory, and
    /// gives back that of what it forgets. O(log n) comparisons for each length of the pieces of each life that it forgets.
    pub fn forget(&mut self, before: Time)
        ensures from { self.new.from ≡ max self.old.from before }
        ensures keeps { (lives : List Living) → KeepsLives self.old lives → KeepsLives self.new lives }
    {
        let from = self.from.max(before);
        while let Some((life, count)) = pop_ended(&mut self.ends, from) {
            self.index.take(life, count);
        }
        self.from = from;
    }

    /// The least field of a column that lives at a time, if there is any. It takes no memory. O(log n) comparisons for
    /// each length of pieces that are there.
    pub fn least(&self, column: usize, at: Time) -> Option<&Field>
        requires { at < FOREVER }
        ensures { (lives : List Living) → KeepsLives self.now lives → self.now.from ≤ at → option_copied result ≡ least_field (fields_at column at lives) }
    {
        self.index.outermost(Side::Least, column, at)
    }

    /// The greatest field of a column that lives at a time, if there is any. It takes no memory. O(log n) comparisons for
    /// each length of pieces that are there.
    pub fn greatest(&self, column: usize, at: Time) -> Option<&Field>
        requires { at < FOREVER }
        ensures { (lives : List Living) → KeepsLives self.now lives → self.now.from ≤ at → option_copied result ≡ greatest_field (fields_at column at lives) }
    {
        self.index.outermost(Side::Greatest, column, at)
    }
}
