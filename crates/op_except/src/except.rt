ghost use Rattle.std.specs.Prelude.{◌≡◌, ◌≢◌, ◌<◌, ◌++◌, ◌∷◌, [], ℕ, List, OnOk, OnErr, take, length};
ghost use Rattle.std.specs.List.{filter};
ghost use Rattle.std.specs.BTreeMap.{IsOrdered};
ghost use Rattle.std.specs.Ordering.{nat_cmp};
ghost use Rattle.cedr_base.specs.Rows.{SameRows};
ghost use Rattle.cedr_base.specs.Changes.{takes, puts};
ghost use Rattle.cedr_table.specs.Counted.{LacksRow};
ghost use Rattle.cedr_table.specs.Operators.{Tables, CanTake};
ghost use Rattle.filed_rows.specs.Filed.{under};
ghost use Rattle.filed_rows.specs.Ends.{AreEnds};
ghost use Rattle.op_except.specs.Parts.{except_of};
ghost use Rattle.op_except.specs.Lives.{lasts_to};
ghost use Rattle.op_except.specs.Standing.{SidesStand, ExceptStands};
ghost use Rattle.op_except.specs.Answered.{ExceptAnswers, StandsLater, ExceptRepairs};

use crate::around::parts_around;
use crate::lives::Lives;
use crate::turns::{push_own, turn_under};
use cedr_base::{Change, OutOfMemory, Row, Time};
use cedr_expr::{Side, Tests};
use cedr_table::{Operator, least_mark};
use filed_rows::{Filed, refiled};
use std::alloc::Global;

/// For each row of port 0 the longest parts of its life in which no row of port 1 lives that passes the tests with it, with
/// its payload. The bound is the least mark, or the least begin of a row of the result that begins before it and doesn't end
/// before it: a later retraction on port 1 may join that one with what follows.
///
/// A change of port 0 costs O(log n) comparisons, and O(log k) for each of the k rows of port 1 that have its row's tag and
/// meet its life from the time on that the change is seen. One of port 1 costs the same for each row of port 0 that has its
/// row's tag and meets its life, where only those rows of port 1 count that meet the parts that change, or stand next to
/// them. The tag is a number made of the fields that equality tests between the two sides compare, at the width of the
/// payloads of port 0. Rows of port 0 of two widths are allowed: those of another width than the first one meet all rows.
///
/// It keeps a row of port 0 until the least mark is above its end, and a row of port 1 until the least mark reaches its end
/// and no row of port 0 is kept that begins before it. Beside them stand the lives of the rows of port 0 and of the result,
/// in order of begin and of end, so that the bound and what may be forgotten are found without a look at the others.
pub struct Except {
    alloc: Global,
    tests: Tests,
    width: usize,
    left: Filed,
    right: Filed,
    lives: Lives,
    parts: Lives,
}

impl Drop for Except {
    fn drop(self) {
        let Except {
            alloc: _,
            tests: _,
            width: _,
            left: _,
            right: _,
            lives: _,
            parts: _,
        } = self;
    }
}

/// Takes the row of a retraction out, whole.
fn take_out(alloc: Global, filed: &mut Filed, tag: u64, change: &Change) -> Result<(), OutOfMemory>
    requires there { LacksRow (under filed.old.by_tag.entries tag) change.now → ⊥ }
    requires ends { AreEnds filed.old.by_tag.entries filed.old.ends }
    ensures here { OnOk result (SameRows (takes change.now ++ under filed.new.by_tag.entries tag) (under filed.old.by_tag.entries tag)) }
    ensures others { OnOk result ((q : ℕ) → q ≢ tag → under filed.new.by_tag.entries q ≡ under filed.old.by_tag.entries q) }
    ensures ends { OnOk result (AreEnds filed.new.by_tag.entries filed.new.ends) }
    ensures ordered { OnOk result (IsOrdered nat_cmp filed.old.by_tag → IsOrdered nat_cmp filed.new.by_tag) }
{
    match change {
        Change::Add(_) => Ok(()),
        Change::Cut(row, _) => {
            let whole = row.copy(alloc)?;
            filed.note(alloc, tag, Change::Cut(whole, row.begin))
        }
    }
}

/// Puts in what a change puts.
fn put_in(alloc: Global, filed: &mut Filed, tag: u64, change: Change) -> Result<(), OutOfMemory>
    requires { AreEnds filed.old.by_tag.entries filed.old.ends }
    ensures here { OnOk result (SameRows (under filed.new.by_tag.entries tag) (puts change ++ under filed.old.by_tag.entries tag)) }
    ensures others { OnOk result ((q : ℕ) → q ≢ tag → under filed.new.by_tag.entries q ≡ under filed.old.by_tag.entries q) }
    ensures ends { OnOk result (AreEnds filed.new.by_tag.entries filed.new.ends) }
    ensures ordered { OnOk result (IsOrdered nat_cmp filed.old.by_tag → IsOrdered nat_cmp filed.new.by_tag) }
{
    match change {
        Change::Add(row) => filed.note(alloc, tag, Change::Add(row)),
        Change::Cut(row, end) => {
            if row.begin >= end {
                return Ok(());
            }
            let mut shorter = row;
            shorter.end = end;
            filed.note(alloc, tag, Change::Add(shorter))
        }
    }
}

/// Appends changes. Where memory runs out some of them may stand there.
fn push_changes(changes: Vec<Change>, out: &mut Vec<Change>) -> Result<(), OutOfMemory>
    ensures ok { OnOk result (out.new.items ≡ out.old.items ++ changes.items) }
    ensures err { OnErr result (take (length out.old.items) out.new.items ≡ out.old.items) }
{
    for change in changes {
        out.push(change)?;
    }
    Ok(())
}

/// Forgets the rows that end before a time. It takes no memory. O(log n) comparisons for each of them, and a look at the
/// first end where there is none.
fn forget_before(filed: &mut Filed, mark: Time)
    requires ends { AreEnds filed.old.by_tag.entries filed.old.ends }
    requires ordered { IsOrdered nat_cmp filed.old.by_tag }
    ensures kept { (q : ℕ) → SameRows (under filed.new.by_tag.entries q) (filter (lasts_to mark) (under filed.old.by_tag.entries q)) }
    ensures ends { AreEnds filed.new.by_tag.entries filed.new.ends }
    ensures ordered { IsOrdered nat_cmp filed.new.by_tag }
{
    if let Some(last) = mark.checked_sub(1) {
        filed.forget_ended(last);
    }
}

impl Except {
    /// The tests see the payload of a row of port 0 and that of a row of port 1. It takes no memory.
    pub fn new(alloc: Global, tests: Tests) -> Except
        ensures meaning { ⟦<Except as Operator>⟧.meaning result ≡ except_of tests }
        ensures stands { ⟦<Except as Operator>⟧.stands result ([] ∷ [] ∷ []) (0 ∷ 0 ∷ []) }
    {
        Except {
            alloc,
            tests,
            width: 0,
            left: Filed::new(alloc),
            right: Filed::new(alloc),
            lives: Lives::new(alloc),
            parts: Lives::new(alloc),
        }
    }

    /// Takes this width as that of the payloads of port 0, where no row of it is held. The rows of port 1 are filed anew
    /// then, which costs O(n log n) in them: in a plan all rows of port 0 have one width, so it happens once.
    fn settle(&mut self, width: usize) -> Result<(), OutOfMemory>
        ensures stands { OnOk result ((tables : Tables) (marks : List ℕ) → SidesStand self.old tables marks → SidesStand self.new tables marks) }
        ensures tests { self.new.tests ≡ self.old.tests }
        ensures parts { self.new.parts ≡ self.old.parts }
    {
        if self.width == width || !self.left.by_tag.is_empty() {
            return Ok(());
        }
        self.right = refiled(self.alloc, width, &self.tests, &self.right.by_tag)?;
        self.width = width;
        Ok(())
    }

    /// Answers a change of port 0. Where memory runs out a part of the answer may stand there.
    fn answer_left(
        &mut self,
        alloc: Global,
        change: Change,
        out: &mut Vec<Change>,
    ) -> Result<(), OutOfMemory>
        requires { (tables : Tables) × (marks : List ℕ) × SidesStand self.old tables marks × CanTake tables marks 0 change }
        ensures ok { OnOk result (ExceptAnswers self.old self.new 0 change out.old.items out.new.items) }
        ensures tests { self.new.tests ≡ self.old.tests }
        ensures parts { self.new.parts ≡ self.old.parts }
        ensures err { OnErr result (take (length out.old.items) out.new.items ≡ out.old.items) }
    {
        let row = change.row();
        self.settle(row.payload.len())?;
        let tag = self.tests.side_tag(Side::Left, self.width, &row.payload);
        let found = parts_around(
            alloc,
            &self.tests,
            &self.right.by_tag,
            tag,
            row,
            change.sync(),
            row.end,
        )?;
        push_own(&change, found, out)?;
        self.lives.note(alloc, &change)?;
        self.left.note(alloc, tag, change)?;
        Ok(())
    }

    /// Answers a change of port 1. Where memory runs out a part of the answer may stand there.
    fn answer_right(
        &mut self,
        alloc: Global,
        change: Change,
        out: &mut Vec<Change>,
    ) -> Result<(), OutOfMemory>
        requires { (tables : Tables) × (marks : List ℕ) × SidesStand self.old tables marks × CanTake tables marks 1 change }
        ensures ok { OnOk result (ExceptAnswers self.old self.new 1 change out.old.items out.new.items) }
        ensures tests { self.new.tests ≡ self.old.tests }
        ensures parts { self.new.parts ≡ self.old.parts }
        ensures err { OnErr result (take (length out.old.items) out.new.items ≡ out.old.items) }
    {
        let tag = self
            .tests
            .side_tag(Side::Right, self.width, &change.row().payload);
        take_out(alloc, &mut self.right, tag, &change)?;
        let left = &self.left.by_tag;
        let right = &self.right.by_tag;
        turn_under(alloc, &self.tests, &change, left, right, tag, out)?;
        turn_under(alloc, &self.tests, &change, left, right, 0, out)?;
        put_in(alloc, &mut self.right, tag, change)?;
        Ok(())
    }

    /// Answers a change. Where memory runs out a part of the answer may stand there.
    fn answer(
        &mut self,
        alloc: Global,
        port: usize,
        change: Change,
        out: &mut Vec<Change>,
    ) -> Result<(), OutOfMemory>
        requires { (tables : Tables) × (marks : List ℕ) × SidesStand self.old tables marks × CanTake tables marks port change }
        ensures ok { OnOk result (ExceptAnswers self.old self.new port change out.old.items out.new.items) }
        ensures tests { self.new.tests ≡ self.old.tests }
        ensures parts { self.new.parts ≡ self.old.parts }
        ensures err { OnErr result (take (length out.old.items) out.new.items ≡ out.old.items) }
    {
        if port == 0 {
            self.answer_left(alloc, change, out)
        } else {
            self.answer_right(alloc, change, out)
        }
    }

    /// Answers a change, and keeps the lives of the result. Where memory runs out a part of the answer may stand there.
    fn answer_all(
        &mut self,
        alloc: Global,
        port: usize,
        change: Change,
        out: &mut Vec<Change>,
    ) -> Result<(), OutOfMemory>
        requires { (tables : Tables) × (marks : List ℕ) × ExceptStands self.old tables marks × CanTake tables marks port change }
        ensures stands { OnOk result (StandsLater self.old self.new port change) }
        ensures repairs { OnOk result (ExceptRepairs self.old port change out.old.items out.new.items) }
        ensures tests { self.new.tests ≡ self.old.tests }
        ensures err { OnErr result (take (length out.old.items) out.new.items ≡ out.old.items) }
    {
        let mut changes = Vec::new(alloc);
        self.answer(alloc, port, change, &mut changes)?;
        self.parts.note_all(alloc, changes.as_slice())?;
        push_changes(changes, out)?;
        Ok(())
    }
}

impl Operator for Except {
    ghost use Rattle.op_except.specs.Readings.{except_reading};
    ghost use Rattle.op_except.specs.ExceptLaws.{except_laws};

    ghost meaning = { except_reading.meaning };

    ghost stands = { except_reading.stands };

    ghost held = { except_reading.held };

    fn ports(&self) -> usize {
        2
    }

    fn apply(
        &mut self,
        alloc: Global,
        port: usize,
        change: Change,
        out: &mut Vec<Change>,
    ) -> Result<(), OutOfMemory> {
        let before = out.len();
        let done = self.answer_all(alloc, port, change, out);
        if done.is_err() {
            out.truncate(before);
        }
        done
    }

    fn bound(&self, marks: &[Time]) -> Time {
        self.parts.first_open(least_mark(marks))
    }

    fn trim(&mut self, marks: &[Time]) {
        let least = least_mark(marks);
        self.parts.forget_before(least);
        self.lives.forget_before(least);
        forget_before(&mut self.left, least);
        let first = self.lives.earliest(least);
        self.right.forget_ended(first);
    }

    ghost lawful = { λ s. except_laws s };
}
