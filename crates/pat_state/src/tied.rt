ghost use Rattle.std.specs.Prelude.{ℕ, ◌≡◌, ◌+◌, ◌++◌, [], List, OnOk, IfOk, sum_by};
ghost use Rattle.std.specs.List.{filter};
ghost use Rattle.cedr_base.specs.declared.field.Field.{Field};
ghost use Rattle.cedr_base.specs.declared.row.Row.{Row as RowValue};
ghost use Rattle.cedr_base.specs.Rows.{SameRows};
ghost use Rattle.cedr_base.specs.Changes.{puts, takes};
ghost use Rattle.cedr_expr.specs.declared.test.Test.{Test};
ghost use Rattle.cedr_expr.specs.Tests.{passes};
ghost use Rattle.cedr_table.specs.Counted.{spread, AreThere};
ghost use Rattle.pat_state.specs.Starts.{all_endless, begins_within, scope_reaches, AllReach, AreInScope, HasRow};
ghost use Rattle.cedr_expr.specs.Tags.{left_tag, right_tag};
ghost use Rattle.pat_state.specs.Tags.{bag_of, HaveOwnTags, IsTagged, IsSought};
ghost use Rattle.pat_state.specs.Tied.{left_rows, right_rows, left_held, right_held, AreTied};

use crate::by_tag::ByTag;
use crate::tagged::Tagged;
use cedr_base::{Change, OutOfMemory, Payload, Row, Time};
use cedr_expr::{Side, Tests};
use std::alloc::Global;
use std::collections::btree_map::Range;

/// The rows of a left and of a right port, of which only the begins and the payloads are kept: each by a tag that rows have in
/// common which may pass tests together, and those of one tag in order of begin. So those beside a row are found without a
/// look at the others. Which rows a time has passed is told by their begins, which stand apart.
///
/// The tags are those beside left payloads of one width. Left rows of another width are allowed: they have the tag 0, and
/// meet all rows.
pub struct Tied {
    pub(crate) width: usize,
    pub(crate) left: Tagged,
    pub(crate) right: Tagged,
}

impl Drop for Tied {
    fn drop(self) {
        let Tied {
            width: _,
            left: _,
            right: _,
        } = self;
    }
}

/// The rows of a right port with the tags that they have beside left payloads of this width.
fn tagged_right(
    alloc: Global,
    tests: &Tests,
    width: usize,
    right: &Tagged,
) -> Result<Tagged, OutOfMemory>
    ensures tags { IfOk result (λ tagged. HaveOwnTags (right_tag width tests.now) tagged.tags) }
    ensures rows { IfOk result (λ tagged. bag_of tagged.tags ≡ bag_of right.now.tags) }
{
    let rows = right.canonical()?;
    let mut tagged = Tagged::new(alloc);
    for row in rows {
        let tag = tests.tag(Side::Right, width, &row.payload);
        tagged.apply(alloc, tag, &Change::Add(row))?;
    }
    Ok(tagged)
}

impl Tied {
    /// No rows. It takes no memory.
    pub fn new(alloc: Global) -> Tied
        ensures left { left_rows result ≡ [] }
        ensures right { right_rows result ≡ [] }
        ensures tied { (tests : List Test) → AreTied tests result }
    {
        Tied {
            width: 0,
            left: Tagged::new(alloc),
            right: Tagged::new(alloc),
        }
    }

    /// Takes this width as that of the left payloads, where no left row is kept. The right rows get their tags anew then,
    /// which costs O(n log n) in them: in a plan all left rows have one width, so it happens once.
    fn settle(&mut self, alloc: Global, tests: &Tests, width: usize) -> Result<(), OutOfMemory>
        requires { AreTied tests.now self.old }
        ensures tied { OnOk result (AreTied tests.now self.new) }
        ensures left { left_rows self.new ≡ left_rows self.old }
        ensures right { right_rows self.new ≡ right_rows self.old }
    {
        if self.width == width || self.left.len() > 0 {
            return Ok(());
        }
        self.right = tagged_right(alloc, tests, width, &self.right)?;
        self.width = width;
        Ok(())
    }

    /// Applies a change to the left rows, of which the row's begin and its payload count. O(log n) comparisons in the
    /// different rows. Where memory runs out rows may be lost.
    pub fn apply_left(
        &mut self,
        alloc: Global,
        tests: &Tests,
        change: &Change,
    ) -> Result<(), OutOfMemory>
        requires there { HasRow (left_rows self.old) change.now }
        requires tied { AreTied tests.now self.old }
        ensures tied { OnOk result (AreTied tests.now self.new) }
        ensures left { OnOk result (SameRows (left_rows self.new ++ all_endless (takes change.now)) (left_rows self.old ++ all_endless (puts change.now))) }
        ensures right { right_rows self.new ≡ right_rows self.old }
    {
        let payload = &change.row().payload;
        self.settle(alloc, tests, payload.len())?;
        let tag = tests.side_tag(Side::Left, self.width, payload);
        self.left.apply(alloc, tag, change)
    }

    /// The same with the right rows.
    pub fn apply_right(
        &mut self,
        alloc: Global,
        tests: &Tests,
        change: &Change,
    ) -> Result<(), OutOfMemory>
        requires there { HasRow (right_rows self.old) change.now }
        requires tied { AreTied tests.now self.old }
        ensures tied { OnOk result (AreTied tests.now self.new) }
        ensures right { OnOk result (SameRows (right_rows self.new ++ all_endless (takes change.now)) (right_rows self.old ++ all_endless (puts change.now))) }
        ensures left { left_rows self.new ≡ left_rows self.old }
    {
        let tag = tests.side_tag(Side::Right, self.width, &change.row().payload);
        self.right.apply(alloc, tag, change)
    }

    /// Forgets the rows of both ports whose scope, which begins with them, ends by a time: none of them is held any more, nor one
    /// that was taken away before. It takes no memory. O(log n) for each of them, and for one of each port that stays.
    pub fn forget(&mut self, scope: u64, time: Time)
        ensures tied { (tests : List Test) → AreTied tests self.old → AreTied tests self.new }
        ensures left { SameRows (left_rows self.new) (filter (scope_reaches scope time) (left_rows self.old)) }
        ensures right { SameRows (right_rows self.new) (filter (scope_reaches scope time) (right_rows self.old)) }
        ensures held { AllReach scope time (left_held self.new) × AllReach scope time (right_held self.new) }
    {
        self.left.forget(scope, time);
        self.right.forget(scope, time);
    }

    /// Right rows with the number of their copies: all of those that begin at a time or later and before another one, and may
    /// pass tests with a left payload. Their ends mean nothing, and beside a left payload of another width than the others
    /// there are rows with other begins. It takes no memory. O(log n) comparisons, and O(1) for each row that is taken from it.
    pub fn beside_left(
        &self,
        alloc: Global,
        tests: &Tests,
        payload: &Payload,
        from: Time,
        before: Time,
    ) -> Range<'_, Row, usize>
        requires { AreTied tests.now self.now }
        ensures there { AreThere result }
        ensures rows { (weight : RowValue → ℕ) → IsSought (λ (fields : List Field). passes tests.now payload.now fields) weight → sum_by weight (filter (begins_within from before) (spread result)) ≡ sum_by weight (filter (begins_within from before) (right_rows self.now)) }
    {
        beside_left(
            alloc,
            tests,
            self.width,
            self.right.tags(),
            payload,
            from,
            before,
        )
    }

    /// The same of left rows and a right payload: those of its tag, and those of another width than the left payloads.
    pub fn beside_right(
        &self,
        alloc: Global,
        tests: &Tests,
        payload: &Payload,
        from: Time,
        before: Time,
    ) -> (Range<'_, Row, usize>, Range<'_, Row, usize>)
        requires { AreTied tests.now self.now }
        ensures within { AreInScope from before result.0 × AreInScope from before result.1 }
        ensures rows { (weight : RowValue → ℕ) → IsSought (λ (fields : List Field). passes tests.now fields payload.now) weight → sum_by weight (spread result.0) + sum_by weight (spread result.1) ≡ sum_by weight (filter (begins_within from before) (left_rows self.now)) }
    {
        beside_right(
            alloc,
            tests,
            self.width,
            self.left.tags(),
            payload,
            from,
            before,
        )
    }
}

/// Rows with the tags that they have on the right, beside left payloads of this width: those that begin at a time or later and
/// before another one, and of these all that may pass tests with a left payload.
pub(crate) fn beside_left<'a>(
    alloc: Global,
    tests: &Tests,
    width: usize,
    tags: &'a ByTag,
    payload: &Payload,
    from: Time,
    before: Time,
) -> Range<'a, Row, usize>
    ensures there { AreThere result }
    ensures rows { (rows : List RowValue) (weight : RowValue → ℕ) → IsTagged (right_tag width tests.now) rows tags.now → IsSought (λ (fields : List Field). passes tests.now payload.now fields) weight → sum_by weight (filter (begins_within from before) (spread result)) ≡ sum_by weight (filter (begins_within from before) rows) }
{
    if payload.len() == width {
        let tag = tests.tag(Side::Left, width, payload);
        tags.within(alloc, tag, from, before)
    } else {
        tags.all()
    }
}

/// The same of rows with the tags that they have on the left, and a right payload: those of its tag, and those of another width
/// than the left payloads. The tags are enough.
pub(crate) fn beside_right<'a>(
    alloc: Global,
    tests: &Tests,
    width: usize,
    tags: &'a ByTag,
    payload: &Payload,
    from: Time,
    before: Time,
) -> (Range<'a, Row, usize>, Range<'a, Row, usize>)
    ensures within { AreInScope from before result.0 × AreInScope from before result.1 }
    ensures rows { (rows : List RowValue) (weight : RowValue → ℕ) → IsTagged (left_tag width tests.now) rows tags.now → IsSought (λ (fields : List Field). passes tests.now fields payload.now) weight → sum_by weight (spread result.0) + sum_by weight (spread result.1) ≡ sum_by weight (filter (begins_within from before) rows) }
{
    let tag = tests.tag(Side::Right, width, payload);
    let tagged = tags.within(alloc, tag, from, before);
    let others = tags.within(alloc, 0, from, before);
    (tagged, others)
}
