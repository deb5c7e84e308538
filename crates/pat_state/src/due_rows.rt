ghost use Rattle.std.specs.Prelude.{◌≡◌, ◌∷◌, [], All, true, false, length, slice_index_or, OnOk, OnErr, IfSome, IfNone};
ghost use Rattle.std.specs.List.Sorted.{IsPermutation};
ghost use Rattle.cedr_base.specs.declared.row.Row.{Row as RowValue};
ghost use Rattle.pat_state.specs.Starts.{scope_reaches};

use crate::by_begin::reaches;
use cedr_base::{OutOfMemory, Payload, Row, Time};
use std::alloc::Global;
use std::cmp::Reverse;
use std::collections::BinaryHeap;
use std::marker::Model;

/// Rows, each with its tag as its end, of which the one that begins first is found. Contracts see a list of them, of which
/// only the elements matter.
///
/// It is a heap, whose top begins first. What comes in order of begin is added in one step.
pub(crate) struct DueRows {
    heap: BinaryHeap<Reverse<(Time, u64, Payload)>>,
}

impl Drop for DueRows {
    fn drop(self) {
        let DueRows { heap: _ } = self;
    }
}

impl Model for DueRows {
    ghost use Rattle.std.specs.Prelude.{List, map};
    ghost use Rattle.std.specs.BinaryHeap.{heap_items, IsHeap};
    ghost use Rattle.cedr_base.specs.declared.row.Row.{Row};
    ghost use Rattle.pat_state.specs.Due.{start_cmp, start_row};

    ghost Value = { List Row };

    ghost view = { λ d. map start_row (heap_items d.heap) };

    ghost invariant = { λ d. IsHeap start_cmp (heap_items d.heap) };
}

impl DueRows {
    /// No row. It takes no memory.
    pub(crate) fn new(alloc: Global) -> DueRows
        ensures { result ≡ [] }
    {
        DueRows {
            heap: BinaryHeap::new(alloc),
        }
    }

    /// How many rows there are. It takes no memory. O(1).
    pub(crate) fn len(&self) -> usize
        ensures { result ≡ length self.now }
    {
        self.heap.len()
    }

    /// Adds a row. Where memory runs out nothing changes. O(log n) comparisons, and one where it begins after all others.
    pub(crate) fn push(
        &mut self,
        begin: Time,
        tag: u64,
        payload: Payload,
    ) -> Result<(), OutOfMemory>
        ensures ok { OnOk result (IsPermutation (record { end = tag; begin = begin; payload = payload } ∷ self.old) self.new) }
        ensures err { OnErr result (self.new ≡ self.old) }
    {
        self.heap.push(Reverse((begin, tag, payload)))?;
        Ok(())
    }

    /// Whether the scope of the first row, which begins with it, ends by a time. It takes no memory. O(1).
    fn is_due(&self, scope: u64, time: Time) -> bool
        ensures due { result ≡ true → (first : RowValue) → first ≡ slice_index_or self.now 0 first → scope_reaches scope time first ≡ false }
        ensures none { result ≡ false → All (λ row. scope_reaches scope time row ≡ true) self.now }
    {
        match self.heap.peek() {
            Some(Reverse((begin, _, _))) => !reaches(scope, time, *begin),
            None => false,
        }
    }

    /// Takes the first row away, where its scope, which begins with it, ends by a time. It takes no memory. O(log n).
    pub(crate) fn pop_passed(&mut self, scope: u64, time: Time) -> Option<Row>
        ensures passed { IfSome result (λ row. scope_reaches scope time row ≡ false) }
        ensures left { IfSome result (λ row. IsPermutation self.old (row ∷ self.new)) }
        ensures none { IfNone result (All (λ row. scope_reaches scope time row ≡ true) self.old) }
        ensures same { IfNone result (self.new ≡ self.old) }
    {
        if !self.is_due(scope, time) {
            return None;
        }
        let Some(Reverse((begin, end, payload))) = self.heap.pop() else {
            return None;
        };
        Some(Row {
            end,
            begin,
            payload,
        })
    }
}
