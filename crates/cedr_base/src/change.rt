ghost use Rattle.std.specs.Prelude.{◌≡◌, ◌≤◌, ◌<◌, ◌⊎◌, IfOk, OnErr};
ghost use Rattle.cedr_base.specs.declared.change.Change.TheVariants as change;
ghost use Rattle.cedr_base.specs.Changes.{sync_of, changed_row};

use crate::memory::OutOfMemory;
use crate::row::Row;
use crate::time::Time;
use std::alloc::Global;
use thiserror::Error;

/// A change of a table of rows.
#[derive(Drop)]
pub enum Change {
    /// An insertion: one more copy of the row.
    Add(Row),
    /// A retraction: one copy of the row ends at this earlier time, and is no more where its valid
    /// interval would then be empty. The time is at least the row's begin and below its end.
    Cut(Row, Time),
}

/// The new end isn't from the row's begin on and below its end.
#[derive(Clone, Copy, Debug, PartialEq, Eq, Error)]
#[error("the new end isn't from the row's begin on and below its end")]
pub struct BadCut;

impl Change {
    /// A retraction of this row. It takes no memory. At a fault the row is dropped.
    pub fn cut(row: Row, end: Time) -> Result<Change, BadCut>
        ensures made { IfOk result (λ c. (c ≡ change.Cut row end) × (row.begin ≤ end) × (end < row.end)) }
        ensures refused { OnErr result ((end < row.begin) ⊎ (row.end ≤ end)) }
    {
        if end < row.begin || row.end <= end {
            return Err(BadCut);
        }
        Ok(Change::Cut(row, end))
    }

    /// From when on the change is seen: an insertion from its begin, a retraction from its new end.
    pub fn sync(&self) -> Time
        ensures { result ≡ sync_of self.now }
    {
        match self {
            Change::Add(row) => row.begin,
            Change::Cut(_, end) => *end,
        }
    }

    /// The row that is added or cut.
    pub fn row(&self) -> &Row
        ensures { result.now ≡ changed_row self.now }
    {
        match self {
            Change::Add(row) => row,
            Change::Cut(row, _) => row,
        }
    }

    pub fn copy(&self, alloc: Global) -> Result<Change, OutOfMemory>
        ensures { IfOk result (λ c. c ≡ self.now) }
    {
        match self {
            Change::Add(row) => Ok(Change::Add(row.copy(alloc)?)),
            Change::Cut(row, end) => Ok(Change::Cut(row.copy(alloc)?, *end)),
        }
    }
}

/// What travels from a source to an operator and from operator to operator.
#[derive(Drop)]
pub enum Message {
    Change(Change),
    /// A guarantee: each later change has a sync of at least this time.
    Mark(Time),
    /// Nothing follows, and nothing is missing.
    End,
    /// Nothing follows, and something may be missing.
    Broken,
}

impl Message {
    pub fn copy(&self, alloc: Global) -> Result<Message, OutOfMemory>
        ensures { IfOk result (λ m. m ≡ self.now) }
    {
        match self {
            Message::Change(change) => Ok(Message::Change(change.copy(alloc)?)),
            Message::Mark(time) => Ok(Message::Mark(*time)),
            Message::End => Ok(Message::End),
            Message::Broken => Ok(Message::Broken),
        }
    }
}
