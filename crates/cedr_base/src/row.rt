ghost use Rattle.std.specs.Prelude.{◌≡◌, ◌≤◌, ◌<◌, ◌↔◌, ◌⊎◌, List, IfOk, IsErrOf, OnOk, OnErr};
ghost use Rattle.std.specs.Cmp.{IsTotalOrder};
ghost use Rattle.std.specs.List.Sorted.{IsSorted, IsPermutation};
ghost use Rattle.std.specs.declared.cmp.Ordering.TheVariants.{Equal};
ghost use Rattle.cedr_base.specs.Rows.{IsRow, row_cmp, in_order};
ghost use Rattle.cedr_base.specs.declared.row.Row.{Row};
ghost use Rattle.cedr_base.specs.declared.row.RowFault.TheVariants.{BadTime, EmptyLife};

use crate::memory::OutOfMemory;
use crate::payload::Payload;
use crate::time::{FOREVER, Time};
use std::alloc::Global;
use thiserror::Error;

/// An event as a table has it: a payload that is valid from `begin` on and before `end`.
///
/// Rows compare in the canonical order, by end, then by begin, then by payload. The fields stand in
/// that order, since the comparisons are derived.
#[derive(PartialEq, Eq, PartialOrd, Ord)]
pub struct Row {
    pub end: Time,
    pub begin: Time,
    pub payload: Payload,
}

impl Drop for Row {
    fn drop(self) {
        let Row {
            end: _,
            begin: _,
            payload: _,
        } = self;
    }
}

/// Why no row can be made.
#[derive(Clone, Copy, Debug, PartialEq, Eq, Error)]
pub enum RowFault {
    /// The begin isn't finite, or the end is above `FOREVER`.
    #[error("a time is out of range")]
    BadTime,
    /// The times are in range, and the end isn't above the begin.
    #[error("the valid interval is empty")]
    EmptyLife,
}

impl Row {
    /// A row with this valid interval. It takes no memory. At a fault the payload is dropped.
    pub fn new(begin: Time, end: Time, payload: Payload) -> Result<Row, RowFault>
        ensures made { IfOk result (λ r. IsRow r × (r ≡ record { end = end; begin = begin; payload = payload })) }
        ensures bad_time { IsErrOf result BadTime ↔ ((FOREVER ≤ begin) ⊎ (FOREVER < end)) }
        ensures empty_life { IsErrOf result EmptyLife ↔ ((begin < FOREVER) × (end ≤ FOREVER) × (end ≤ begin)) }
    {
        if begin >= FOREVER || end > FOREVER {
            return Err(RowFault::BadTime);
        }
        if end <= begin {
            return Err(RowFault::EmptyLife);
        }
        Ok(Row {
            end,
            begin,
            payload,
        })
    }

    pub fn copy(&self, alloc: Global) -> Result<Row, OutOfMemory>
        ensures { IfOk result (λ r. r ≡ self.now) }
    {
        let payload = self.payload.copy(alloc)?;
        Ok(Row {
            end: self.end,
            begin: self.begin,
            payload,
        })
    }

    /// Its payload alone.
    pub fn into_payload(self) -> Payload
        ensures { result ≡ self.payload }
    {
        let Row {
            end: _,
            begin: _,
            payload,
        } = self;
        payload
    }
}

/// The law of the canonical order: it is total, it is what `Row` compares by, rows that compare as equal
/// are equal in every field, and whatever sorts the rows of a bag by it puts them into canonical order.
pub fn canonical_order()
    ensures total { IsTotalOrder row_cmp }
    ensures compared { (a b : Row) → ⟦<Row as Ord>⟧.cmp a b ≡ row_cmp a b }
    ensures exact { (a b : Row) → row_cmp a b ≡ Equal → a ≡ b }
    ensures sorted { (rows after : List Row) → IsPermutation rows after → IsSorted row_cmp after → after ≡ in_order rows }
{}

/// Puts rows into canonical order, equal ones beside each other. O(n log n) comparisons. Where memory
/// runs out they stand as before.
pub fn sort_rows(rows: &mut Vec<Row>) -> Result<(), OutOfMemory>
    ensures ok { OnOk result (rows.new.items ≡ in_order rows.old.items) }
    ensures err { OnErr result (rows.new.items ≡ rows.old.items) }
{
    rows.sort()?;
    Ok(())
}
