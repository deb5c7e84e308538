ghost use Rattle.std.specs.Prelude.{◌≡◌, ◌∷◌, ◌++◌, [], ℕ, List, true, IfOk, OnOk, OnErr, length, take};
ghost use Rattle.cedr_table.specs.Operators.{Tables, CanTake};
ghost use Rattle.cedr_expr.specs.Tags.{side_tag};
ghost use Rattle.op_join.specs.Joins.{join_of, StandsOnTwo, StandsAfter, RepairsAfter};

use crate::partners::{repair_left, repair_right};
use cedr_base::{Change, OutOfMemory, Time};
use cedr_expr::{Side, Tests};
use cedr_table::{Operator, least_mark};
use filed_rows::{Filed, refiled};
use std::alloc::Global;

/// One row for each pair of a left row and a right one whose payloads pass tests: it is valid while both are, and
/// its payload is theirs, left then right. Port 0 is the left one. The bound is the least mark.
///
/// A change costs O(log n) comparisons, and O(1) for each row of the other port that has its row's tag, ends after the
/// change is seen and, by the longest of those rows, may begin before the changed row ends. The tag is a number made of
/// the fields that equality tests between the two sides compare, at the width of the left payloads. Left rows of two
/// widths are allowed: those of another width than the first one meet all rows.
///
/// It keeps a row until the least mark reaches its end, and with each row its end in a second order, so that the rows
/// that ended are found without a look at the others.
pub struct Join {
    alloc: Global,
    tests: Tests,
    width: usize,
    left: Filed,
    right: Filed,
}

impl Drop for Join {
    fn drop(self) {
        let Join {
            alloc: _,
            tests: _,
            width: _,
            left: _,
            right: _,
        } = self;
    }
}

impl Join {
    /// The tests see a left row's payload and a right one's. It takes no memory.
    pub fn new(alloc: Global, tests: Tests) -> Join
        ensures meaning { ⟦<Join as Operator>⟧.meaning result ≡ join_of tests }
        ensures stands { ⟦<Join as Operator>⟧.stands result ([] ∷ [] ∷ []) (0 ∷ 0 ∷ []) }
    {
        Join {
            alloc,
            tests,
            width: 0,
            left: Filed::new(alloc),
            right: Filed::new(alloc),
        }
    }

    /// Takes this width as that of the left payloads, where no left row is held. The right rows are filed anew
    /// then, which costs O(n log n) in them: in a plan all left rows have one width, so it happens once.
    fn settle(&mut self, width: usize) -> Result<(), OutOfMemory>
        ensures stands { OnOk result ((tables : Tables) (marks : List ℕ) → StandsOnTwo self.old.tests self.old.width self.old.left self.old.right tables marks
            → StandsOnTwo self.new.tests self.new.width self.new.left self.new.right tables marks) }
        ensures tests { self.new.tests ≡ self.old.tests }
    {
        if self.width == width || !self.left.by_tag.is_empty() {
            return Ok(());
        }
        self.right = refiled(self.alloc, width, &self.tests, &self.right.by_tag)?;
        self.width = width;
        Ok(())
    }

    /// Answers a change. Where memory runs out a part of the answer may stand there.
    fn answer(
        &mut self,
        alloc: Global,
        port: usize,
        change: Change,
        out: &mut Vec<Change>,
    ) -> Result<(), OutOfMemory>
        requires { (tables : Tables) × (marks : List ℕ) × StandsOnTwo self.old.tests self.old.width self.old.left self.old.right tables marks × CanTake tables marks port change }
        ensures stands { OnOk result (StandsAfter (StandsOnTwo self.old.tests self.old.width self.old.left self.old.right)
            (StandsOnTwo self.new.tests self.new.width self.new.left self.new.right) port change) }
        ensures repairs { OnOk result (RepairsAfter (StandsOnTwo self.old.tests self.old.width self.old.left self.old.right) (join_of self.old.tests) port change out.old.items out.new.items) }
        ensures tests { self.new.tests ≡ self.old.tests }
        ensures err { OnErr result (take (length out.old.items) out.new.items ≡ out.old.items) }
    {
        let row = change.row();
        if port == 0 {
            self.settle(row.payload.len())?;
            let tag = self.tests.side_tag(Side::Left, self.width, &row.payload);
            repair_right(alloc, &self.tests, &change, &self.right.by_tag, tag, out)?;
            self.left.note(alloc, tag, change)?;
            Ok(())
        } else {
            let tag = self.tests.side_tag(Side::Right, self.width, &row.payload);
            repair_left(alloc, &self.tests, &change, &self.left.by_tag, tag, out)?;
            self.right.note(alloc, tag, change)?;
            Ok(())
        }
    }
}

impl Operator for Join {
    ghost use Rattle.op_join.specs.Readings.{join_reading};
    ghost use Rattle.op_join.specs.JoinLaws.{join_laws};

    ghost meaning = { join_reading.meaning };

    ghost stands = { join_reading.stands };

    ghost held = { join_reading.held };

    fn ports(&self) -> usize {
        2
    }

    fn apply(
        &mut self,
        alloc: Global,
        port: usize,
        change: Change,
        out: &mut Vec<Change>,
    ) -> Result<(), OutOfMemory> {
        let before = out.len();
        let done = self.answer(alloc, port, change, out);
        if done.is_err() {
            out.truncate(before);
        }
        done
    }

    fn bound(&self, marks: &[Time]) -> Time {
        least_mark(marks)
    }

    fn trim(&mut self, marks: &[Time]) {
        let least = least_mark(marks);
        self.left.forget_ended(least);
        self.right.forget_ended(least);
    }

    ghost lawful = { λ s. join_laws s.tests s.width s.left s.right };
}
