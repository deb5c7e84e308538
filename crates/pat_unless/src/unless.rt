ghost use Rattle.std.specs.Prelude.{◌≡◌, ◌<◌, ◌∷◌, [], OnOk, OnErr};
ghost use Rattle.cedr_base.specs.declared.time.TheConstants.{FOREVER};
ghost use Rattle.pat_state.specs.Starts.{HasRow};
ghost use Rattle.pat_state.specs.Tied.{left_rows, right_rows, AreTied};
ghost use Rattle.change_laws.specs.Times.{IsWhile};
ghost use Rattle.pat_state.specs.declared.answer.Way.TheVariants.{Comes, Goes};
ghost use Rattle.pat_unless.specs.Blocking.{unless_of, unblocked, AreWhiles};
ghost use Rattle.pat_unless.specs.Steps.{decided, IsStep, Appends};

use crate::terms::Terms;
use cedr_base::{Change, OutOfMemory, Row, Time};
use cedr_expr::Tests;
use cedr_table::{Operator, least_mark};
use pat_state::{Tied, Way, push_answers};
use std::alloc::Global;

/// For each row a of port 0 such that no row b of port 1 has `a.begin < b.begin < later(a.begin, scope)` and passes
/// the tests with it: `[later(a.begin, scope), later(later(a.begin, scope), hold))` with a's payload, and none where
/// that is empty. The bound is the least mark.
///
/// It keeps the rows of its ports without their ends, each until the least mark reaches the end of the scope that
/// begins with it: by then no row of its scope may come or go, nor one that it could block. A change looks only at rows of
/// the other port that have the fields that equality tests between the two compare. One on port 0 takes O(log n) and those
/// of them within the scope of its row, up to the first one that blocks. One on port 1 takes O(log n) and those of them
/// with its row in their scope, and for each that passes the tests with it, the search for another blocker. A retraction
/// that leaves something of its row takes O(1).
pub struct Unless {
    terms: Terms,
    pub(crate) tied: Tied,
}

impl Drop for Unless {
    fn drop(self) {
        let Unless { terms: _, tied: _ } = self;
    }
}

impl Unless {
    /// The scope and the hold are in application time, from 1 to 2^40. The tests see a row of port 0 as the left
    /// payload, and one of port 1 as the right one. It takes no memory.
    pub fn new(alloc: Global, scope: u64, hold: u64, tests: Tests) -> Unless
        requires scope { IsWhile scope }
        requires hold { IsWhile hold }
        ensures meaning { ⟦<Unless as Operator>⟧.meaning result ≡ unless_of scope hold tests }
        ensures stands { ⟦<Unless as Operator>⟧.stands result ([] ∷ [] ∷ []) (0 ∷ 0 ∷ []) }
    {
        Unless {
            terms: Terms { scope, hold, tests },
            tied: Tied::new(alloc),
        }
    }

    /// Takes a change on port 0, and appends a change for the row that the changed row gives.
    fn answer_row(
        &mut self,
        alloc: Global,
        change: &Change,
        way: Way,
        row: &Row,
        out: &mut Vec<Change>,
    ) -> Result<(), OutOfMemory>
        requires whiles { AreWhiles self.old.terms.scope self.old.terms.hold }
        requires begin { row.now.begin < FOREVER }
        requires there { HasRow (left_rows self.old.tied) change.now }
        requires tags { AreTied self.old.terms.tests self.old.tied }
        ensures terms { self.new.terms ≡ self.old.terms }
        ensures ok { OnOk result (((right_rows self.new.tied) ≡ (right_rows self.old.tied)) × IsStep change.now (left_rows self.old.tied) (left_rows self.new.tied) × Appends way (unblocked self.old.terms.scope self.old.terms.hold self.old.terms.tests (right_rows self.old.tied) row.now) out.old.items out.new.items × AreTied self.new.terms.tests self.new.tied) }
        ensures err { OnErr result (out.new.items ≡ out.old.items) }
    {
        let rows = self.terms.unblocked(alloc, &self.tied, row)?;
        self.tied.apply_left(alloc, &self.terms.tests, change)?;
        push_answers(way, rows, out)
    }

    /// Takes a row that comes on port 1, and withdraws the rows that it blocks and no other row does.
    fn block(
        &mut self,
        alloc: Global,
        change: &Change,
        blocker: &Row,
        out: &mut Vec<Change>,
    ) -> Result<(), OutOfMemory>
        requires whiles { AreWhiles self.old.terms.scope self.old.terms.hold }
        requires begin { blocker.now.begin < FOREVER }
        requires there { HasRow (right_rows self.old.tied) change.now }
        requires tags { AreTied self.old.terms.tests self.old.tied }
        ensures terms { self.new.terms ≡ self.old.terms }
        ensures ok { OnOk result (((left_rows self.new.tied) ≡ (left_rows self.old.tied)) × IsStep change.now (right_rows self.old.tied) (right_rows self.new.tied) × Appends Goes (decided self.old.terms.scope self.old.terms.hold self.old.terms.tests (right_rows self.old.tied) blocker.now (left_rows self.old.tied)) out.old.items out.new.items × AreTied self.new.terms.tests self.new.tied) }
        ensures err { OnErr result (out.new.items ≡ out.old.items) }
    {
        let rows = self.terms.decided(alloc, &self.tied, blocker)?;
        self.tied.apply_right(alloc, &self.terms.tests, change)?;
        push_answers(Way::Goes, rows, out)
    }

    /// Takes the withdrawal of a row on port 1, and adds the rows that no other row blocks.
    fn free(
        &mut self,
        alloc: Global,
        change: &Change,
        blocker: &Row,
        out: &mut Vec<Change>,
    ) -> Result<(), OutOfMemory>
        requires whiles { AreWhiles self.old.terms.scope self.old.terms.hold }
        requires begin { blocker.now.begin < FOREVER }
        requires there { HasRow (right_rows self.old.tied) change.now }
        requires tags { AreTied self.old.terms.tests self.old.tied }
        ensures terms { self.new.terms ≡ self.old.terms }
        ensures ok { OnOk result (((left_rows self.new.tied) ≡ (left_rows self.old.tied)) × IsStep change.now (right_rows self.old.tied) (right_rows self.new.tied) × Appends Comes (decided self.old.terms.scope self.old.terms.hold self.old.terms.tests (right_rows self.new.tied) blocker.now (left_rows self.old.tied)) out.old.items out.new.items × AreTied self.new.terms.tests self.new.tied) }
        ensures err { OnErr result (out.new.items ≡ out.old.items) }
    {
        self.tied.apply_right(alloc, &self.terms.tests, change)?;
        let rows = self.terms.decided(alloc, &self.tied, blocker)?;
        push_answers(Way::Comes, rows, out)
    }
}

impl Operator for Unless {
    ghost use Rattle.pat_unless.specs.Readings.{unless_reading};
    ghost use Rattle.pat_unless.specs.BlockingLaws.{unless_laws};

    ghost meaning = { unless_reading.meaning };

    ghost stands = { unless_reading.stands };

    ghost held = { unless_reading.held };

    fn ports(&self) -> usize {
        2
    }

    fn apply(
        &mut self,
        alloc: Global,
        port: usize,
        change: Change,
        out: &mut Vec<Change>,
    ) -> Result<(), OutOfMemory> {
        match &change {
            Change::Add(row) => {
                if port == 0 {
                    self.answer_row(alloc, &change, Way::Comes, row, out)
                } else {
                    self.block(alloc, &change, row, out)
                }
            }
            Change::Cut(row, end) => {
                if row.begin < *end {
                    return Ok(());
                }
                if port == 0 {
                    self.answer_row(alloc, &change, Way::Goes, row, out)
                } else {
                    self.free(alloc, &change, row, out)
                }
            }
        }
    }

    fn bound(&self, marks: &[Time]) -> Time {
        least_mark(marks)
    }

    fn trim(&mut self, marks: &[Time]) {
        let least = least_mark(marks);
        self.tied.forget(self.terms.scope, least);
    }

    ghost lawful = { λ s. unless_laws s.terms s.tied };
}
