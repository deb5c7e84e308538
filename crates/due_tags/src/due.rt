ghost use Rattle.std.specs.Prelude.{ℕ, ◌≡◌, ◌<◌, ◌≤◌, ◌∷◌, [], All, true, false, length, slice_index_or, OnOk, OnErr, IfSome, IfNone};
ghost use Rattle.std.specs.List.Sorted.{IsPermutation};

use cedr_base::{OutOfMemory, Time};
use std::alloc::Global;
use std::cmp::Reverse;
use std::collections::BinaryHeap;
use std::marker::Model;

/// Times, each with a tag. Contracts see a list of the pairs, of which only the elements matter.
///
/// It is a heap, whose top is the first time. What comes in order of time is added in one step.
pub struct DueTags {
    heap: BinaryHeap<Reverse<(Time, u64)>>,
}

impl Drop for DueTags {
    fn drop(self) {
        let DueTags { heap: _ } = self;
    }
}

impl Model for DueTags {
    ghost use Rattle.std.specs.Prelude.{List, ℕ, map};
    ghost use Rattle.std.specs.BinaryHeap.{heap_items, IsHeap};
    ghost use Rattle.due_tags.specs.Due.{due_cmp};

    ghost Value = { List (ℕ × ℕ) };

    ghost view = { λ d. map (λ due. due.0) (heap_items d.heap) };

    ghost invariant = { λ d. IsHeap due_cmp (heap_items d.heap) };
}

impl DueTags {
    /// No time. It takes no memory.
    pub fn new(alloc: Global) -> DueTags
        ensures { result ≡ [] }
    {
        DueTags {
            heap: BinaryHeap::new(alloc),
        }
    }

    /// How many times there are. It takes no memory. O(1).
    pub fn len(&self) -> usize
        ensures { result ≡ length self.now }
    {
        self.heap.len()
    }

    /// Adds a time with a tag. Where memory runs out nothing changes. O(log n) comparisons, and one where the time comes
    /// after all others.
    pub fn push(&mut self, time: Time, tag: u64) -> Result<(), OutOfMemory>
        ensures ok { OnOk result (IsPermutation ((time, tag) ∷ self.old) self.new) }
        ensures err { OnErr result (self.new ≡ self.old) }
    {
        self.heap.push(Reverse((time, tag)))?;
        Ok(())
    }

    /// Whether the first time is at another one or before. It takes no memory. O(1).
    fn is_due(&self, time: Time) -> bool
        ensures due { result ≡ true → (first : ℕ × ℕ) → first ≡ slice_index_or self.now 0 first → first.0 ≤ time }
        ensures none { result ≡ false → All (λ due. time < due.0) self.now }
    {
        match self.heap.peek() {
            Some(Reverse((first, _))) => *first <= time,
            None => false,
        }
    }

    /// Takes the first time away with its tag, where it is at another one or before. It takes no memory. O(log n).
    pub fn pop_due(&mut self, time: Time) -> Option<(Time, u64)>
        ensures due { IfSome result (λ due. due.0 ≤ time) }
        ensures left { IfSome result (λ due. IsPermutation self.old (due ∷ self.new)) }
        ensures none { IfNone result (All (λ due. time < due.0) self.old) }
        ensures same { IfNone result (self.new ≡ self.old) }
    {
        if !self.is_due(time) {
            return None;
        }
        let Some(Reverse(due)) = self.heap.pop() else {
            return None;
        };
        Some(due)
    }

    /// Takes all times away. It takes no memory, and keeps the room for as many. O(n).
    pub fn clear(&mut self)
        ensures { self.new ≡ [] }
    {
        self.heap.clear();
    }
}
