ghost use Rattle.std.specs.Prelude.{ℕ, ◌≡◌, ◌≤◌, ◌<◌, ◌++◌, ◌∷◌, ◌^◌, [], List, length, OnOk, IfOk};
ghost use Rattle.std.specs.List.{filter};
ghost use Rattle.cedr_base.specs.declared.row.Row.{Row as RowValue};
ghost use Rattle.cedr_base.specs.declared.time.TheConstants.{FOREVER};
ghost use Rattle.cedr_base.specs.Rows.{SameRows};
ghost use Rattle.cedr_base.specs.Changes.{puts, takes};
ghost use Rattle.cedr_expr.specs.Tags.{left_tag, right_tag};
ghost use Rattle.cedr_expr.specs.declared.test.Test.{Test};
ghost use Rattle.pat_state.specs.Starts.{all_endless, scope_reaches, HasRow};
ghost use Rattle.pat_state.specs.Steps.{matches};
ghost use Rattle.pat_state.specs.Tags.{IsTagged};
ghost use Rattle.pat_state.specs.Tied.{AreCrossed};

use crate::by_begin::ByBegin;
use crate::by_tag::{ByTag, apply_tagged};
use crate::pairs::{find_firsts, find_seconds};
use cedr_base::{Change, OutOfMemory, Row, Time};
use cedr_expr::{Side, Tests};
use std::alloc::Global;

/// The rows of a port of which each may be the first or the second one of a choice of two: in order of begin, and each once
/// more by the tag that it has as the first, and by that as the second one. Only the begins and the payloads are kept.
///
/// The tags are those beside left payloads of one width, which is that of all ports.
pub struct Crossing {
    pub(crate) rows: ByBegin,
    pub(crate) first_tags: ByTag,
    pub(crate) second_tags: ByTag,
}

impl Drop for Crossing {
    fn drop(self) {
        let Crossing {
            rows: _,
            first_tags: _,
            second_tags: _,
        } = self;
    }
}

/// Forgets rows with two tags each whose scope, which begins with them, ends by a time.
fn forget_crossed(
    rows: &mut ByBegin,
    first_tags: &mut ByTag,
    second_tags: &mut ByTag,
    tests: &Tests,
    width: usize,
    scope: u64,
    time: Time,
)
    requires first { IsTagged (left_tag width tests.now) rows.old first_tags.old }
    requires second { IsTagged (right_tag width tests.now) rows.old second_tags.old }
    ensures first { IsTagged (left_tag width tests.now) rows.new first_tags.new }
    ensures second { IsTagged (right_tag width tests.now) rows.new second_tags.new }
    ensures left { SameRows rows.new (filter (scope_reaches scope time) rows.old) }
{
    while let Some((row, _)) = rows.pop_passed(scope, time) {
        let first = tests.side_tag(Side::Left, width, &row.payload);
        let second = tests.side_tag(Side::Right, width, &row.payload);
        let row = first_tags.remove_copies(first, row);
        second_tags.remove_copies(second, row);
    }
}

impl Crossing {
    /// No rows. It takes no memory.
    pub fn new(alloc: Global) -> Crossing
        ensures rows { result.rows ≡ [] }
        ensures crossed { (width : ℕ) (tests : List Test) → AreCrossed width tests result }
    {
        Crossing {
            rows: ByBegin::new(alloc),
            first_tags: ByTag::new(alloc),
            second_tags: ByTag::new(alloc),
        }
    }

    /// How many rows there are. It takes no memory. O(1).
    pub fn len(&self) -> usize
        ensures { result ≡ length self.now.rows }
    {
        self.rows.len()
    }

    /// Applies a change, of which the row's begin and its payload count. O(log n) comparisons in the different rows. Where
    /// memory runs out rows may be lost.
    pub fn apply(
        &mut self,
        alloc: Global,
        tests: &Tests,
        width: usize,
        change: &Change,
    ) -> Result<(), OutOfMemory>
        requires there { HasRow self.old.rows change.now }
        requires crossed { AreCrossed width tests.now self.old }
        ensures crossed { OnOk result (AreCrossed width tests.now self.new) }
        ensures rows { OnOk result (SameRows (self.new.rows ++ all_endless (takes change.now)) (self.old.rows ++ all_endless (puts change.now))) }
    {
        let payload = &change.row().payload;
        let first = tests.side_tag(Side::Left, width, payload);
        let second = tests.side_tag(Side::Right, width, payload);
        apply_tagged(alloc, &mut self.first_tags, first, change)?;
        apply_tagged(alloc, &mut self.second_tags, second, change)?;
        self.rows.apply(alloc, change)
    }

    /// Forgets the rows whose scope, which begins with them, ends by a time. It takes no memory. O(log n) for each different
    /// one of them, and for one that stays.
    pub fn forget(&mut self, tests: &Tests, width: usize, scope: u64, time: Time)
        requires { AreCrossed width tests.now self.old }
        ensures crossed { AreCrossed width tests.now self.new }
        ensures rows { SameRows self.new.rows (filter (scope_reaches scope time) self.old.rows) }
    {
        forget_crossed(
            &mut self.rows,
            &mut self.first_tags,
            &mut self.second_tags,
            tests,
            width,
            scope,
            time,
        );
    }

    /// The rows of the choices of another port's changed row and a second one among these, in some order.
    pub fn find_seconds(
        &self,
        alloc: Global,
        scope: u64,
        tests: &Tests,
        width: usize,
        row: &Row,
    ) -> Result<Vec<Row>, OutOfMemory>
        requires begin { row.now.begin < FOREVER }
        requires scope { scope ≤ 2 ^ 40 }
        requires crossed { AreCrossed width tests.now self.now }
        ensures { IfOk result (λ rows. (firsts : List RowValue) → SameRows rows.items (matches scope tests.now row.now 0 (firsts ∷ self.now.rows ∷ []))) }
    {
        find_seconds(alloc, scope, tests, width, &self.second_tags, row)
    }

    /// The rows of the choices of a first one among these and another port's changed row, in some order.
    pub fn find_firsts(
        &self,
        alloc: Global,
        scope: u64,
        tests: &Tests,
        width: usize,
        row: &Row,
    ) -> Result<Vec<Row>, OutOfMemory>
        requires begin { row.now.begin < FOREVER }
        requires scope { scope ≤ 2 ^ 40 }
        requires crossed { AreCrossed width tests.now self.now }
        ensures { IfOk result (λ rows. (seconds : List RowValue) → SameRows rows.items (matches scope tests.now row.now 1 (self.now.rows ∷ seconds ∷ []))) }
    {
        find_firsts(alloc, scope, tests, width, &self.first_tags, row)
    }
}
