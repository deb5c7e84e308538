ghost use Rattle.std.specs.Prelude.{◌≡◌, ◌<◌, ℕ, length, nat_eq, OnOk, OnErr, IfOk, IfSome, IfNone, Option, Some, None, if◌then◌else◌};
ghost use Rattle.std.specs.Ordering.{nat_cmp};
ghost use Rattle.std.specs.Option.{option_copied};
ghost use Rattle.std.specs.BTreeMap.{get};
ghost use Rattle.std.proofs.Props.{props};
ghost use Rattle.open_events.specs.Endings.{has_ending, ends_at, still_open, IsFirstEndTaken, NoEndBefore};

use crate::ending::Ending;
use cedr_base::{OutOfMemory, Row, Time};
use std::alloc::Global;
use std::collections::{BTreeMap, BTreeSet};

/// Rows of events, each under the id of its event. Contracts see which row an id has.
///
/// It keeps each row once in order of the ids, and its end once in order of time.
pub struct OpenEvents {
    rows: BTreeMap<u64, Row>,
    ends: BTreeSet<Ending>,
    ghost indexed: { (end : ℕ) (id : ℕ) → has_ending ends.keys end id ≡ ends_at end (get nat_cmp rows id) } by { Prim.hlevel props },
}

impl Drop for OpenEvents {
    fn drop(self) {
        let OpenEvents { rows: _, ends: _ } = self;
    }
}

/// Takes the first ending, where it is before a time.
fn take_ended(ends: &mut BTreeSet<Ending>, time: Time) -> Option<Ending>
    ensures some { IfSome result (IsFirstEndTaken ends.old.keys ends.new.keys time) }
    ensures fewer { IfSome result (λ _. length ends.new.keys < length ends.old.keys) }
    ensures none { IfNone result (NoEndBefore ends.new.keys time) }
    ensures same { IfNone result (ends.new.keys ≡ ends.old.keys) }
{
    match ends.first() {
        Some(first) if first.end < time => ends.pop_first(),
        _ => None,
    }
}

impl OpenEvents {
    ghost use Rattle.open_events.specs.Events.{open_row};

    /// No event. It takes no memory.
    pub fn new(alloc: Global) -> OpenEvents
        ensures { (id : ℕ) → open_row result id ≡ None }
    {
        OpenEvents {
            rows: BTreeMap::new(alloc),
            ends: BTreeSet::new(alloc),
        }
    }

    /// The row of an id. It takes no memory. O(log n).
    pub fn get(&self, id: u64) -> Option<&Row>
        ensures { option_copied result ≡ open_row self.now id }
    {
        self.rows.get(&id)
    }

    /// Puts a row under an id, in place of the one that it had, which is answered. O(log n).
    pub fn put(&mut self, id: u64, row: Row) -> Result<Option<Row>, OutOfMemory>
        ensures old { IfOk result (λ old. old ≡ open_row self.old id) }
        ensures ok { OnOk result ((q : ℕ) → open_row self.new q ≡ (if nat_eq id q then Some row else open_row self.old q)) }
        ensures err { OnErr result ((q : ℕ) → open_row self.new q ≡ open_row self.old q) }
    {
        let end = row.end;
        self.ends.insert(Ending { end, id })?;
        match self.rows.insert(id, row) {
            Ok(Some(old)) => {
                if old.end != end {
                    self.ends.remove(&Ending { end: old.end, id });
                }
                Ok(Some(old))
            }
            Ok(None) => Ok(None),
            Err(_) => {
                self.ends.remove(&Ending { end, id });
                Err(OutOfMemory)
            }
        }
    }

    /// Takes the rows away that end before a time. It takes no memory. O(log n) for each of them, and one look where there
    /// is none.
    pub fn forget_ended(&mut self, time: Time)
        ensures { (id : ℕ) → open_row self.new id ≡ still_open time (open_row self.old id) }
    {
        while let Some(ending) = take_ended(&mut self.ends, time) {
            self.rows.remove(&ending.id);
        }
    }
}
