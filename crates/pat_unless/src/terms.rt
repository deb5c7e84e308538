ghost use Rattle.std.specs.Prelude.{ℕ, ◌≡◌, ◌≤◌, ◌<◌, ◌++◌, ◌&&◌, OnOk, IfOk, replicate};
ghost use Rattle.std.specs.List.{flat_map};
ghost use Rattle.cedr_base.specs.declared.time.TheConstants.{FOREVER};
ghost use Rattle.cedr_base.specs.Rows.{SameRows};
ghost use Rattle.cedr_table.specs.Counted.{spread};
ghost use Rattle.pat_state.specs.Tied.{left_rows, right_rows, AreTied};
ghost use Rattle.cedr_expr.specs.Tests.{passes};
ghost use Rattle.pat_state.specs.Starts.{begins_within, AreInScope};
ghost use Rattle.pat_unless.specs.Blocking.{is_blocked_by, waited, unblocked, AreWhiles};
ghost use Rattle.pat_unless.specs.Steps.{freed, decided};

use cedr_base::{OutOfMemory, Payload, Row, Time, later};
use cedr_expr::Tests;
use pat_state::Tied;
use std::alloc::Global;
use std::collections::btree_map::Range;

/// For how long a row waits for a blocker, for how long it is held then, and which rows block.
#[derive(Drop)]
pub(crate) struct Terms {
    pub(crate) scope: u64,
    pub(crate) hold: u64,
    pub(crate) tests: Tests,
}

/// Appends this many copies of a row.
fn push_copies(
    alloc: Global,
    begin: Time,
    end: Time,
    payload: &Payload,
    count: usize,
    rows: &mut Vec<Row>,
) -> Result<(), OutOfMemory>
    ensures { OnOk result (rows.new.items ≡ rows.old.items ++ replicate count (record { end = end; begin = begin; payload = payload.now })) }
{
    for _ in 0..count {
        let payload = payload.copy(alloc)?;
        rows.push(Row {
            end,
            begin,
            payload,
        })?;
    }
    Ok(())
}

impl Terms {
    /// Whether a row begins at a time or later and before another one, and passes the tests with this one.
    fn is_blocker(&self, from: Time, until: Time, row: &Row, blocker: &Row) -> bool
        ensures { result ≡ (begins_within from until blocker.now && passes self.now.tests row.now.payload blocker.now.payload) }
    {
        from <= blocker.begin
            && blocker.begin < until
            && self.tests.holds(&row.payload, &blocker.payload)
    }

    /// Whether a right row blocks this one. O(log n) comparisons, and O(1) and the tests for each right row that has its
    /// tag and begins within its scope.
    fn is_blocked(&self, alloc: Global, tied: &Tied, row: &Row) -> bool
        requires whiles { AreWhiles self.now.scope self.now.hold }
        requires begin { row.now.begin < FOREVER }
        requires tags { AreTied self.now.tests tied.now }
        ensures { result ≡ is_blocked_by self.now.scope self.now.tests (right_rows tied.now) row.now }
    {
        let until = later(row.begin, self.scope);
        let from = row.begin + 1;
        for (blocker, _) in tied.beside_left(alloc, &self.tests, &row.payload, from, until) {
            if self.is_blocker(from, until, row, blocker) {
                return true;
            }
        }
        false
    }

    /// Appends the row that a row gives where nothing blocks it, once for each copy of the row.
    fn push_waited(
        &self,
        alloc: Global,
        row: &Row,
        count: usize,
        rows: &mut Vec<Row>,
    ) -> Result<(), OutOfMemory>
        requires whiles { AreWhiles self.now.scope self.now.hold }
        requires begin { row.now.begin < FOREVER }
        ensures { OnOk result (rows.new.items ≡ rows.old.items ++ flat_map (waited self.now.scope self.now.hold) (replicate count row.now)) }
    {
        let begin = later(row.begin, self.scope);
        let end = later(begin, self.hold);
        if begin < end {
            push_copies(alloc, begin, end, &row.payload, count, rows)
        } else {
            Ok(())
        }
    }

    /// The row that a row gives, where nothing blocks it.
    pub(crate) fn unblocked(
        &self,
        alloc: Global,
        tied: &Tied,
        row: &Row,
    ) -> Result<Vec<Row>, OutOfMemory>
        requires whiles { AreWhiles self.now.scope self.now.hold }
        requires begin { row.now.begin < FOREVER }
        requires tags { AreTied self.now.tests tied.now }
        ensures { IfOk result (λ rows. rows.items ≡ unblocked self.now.scope self.now.hold self.now.tests (right_rows tied.now) row.now) }
    {
        let mut rows = Vec::new(alloc);
        if !self.is_blocked(alloc, tied, row) {
            self.push_waited(alloc, row, 1, &mut rows)?;
        }
        Ok(rows)
    }

    /// Appends the row that a row with a blocker in its scope gives where no other row blocks it, once for each
    /// copy of the row.
    fn push_freed(
        &self,
        alloc: Global,
        tied: &Tied,
        blocker: &Row,
        row: &Row,
        count: usize,
        rows: &mut Vec<Row>,
    ) -> Result<(), OutOfMemory>
        requires whiles { AreWhiles self.now.scope self.now.hold }
        requires begin { row.now.begin < FOREVER }
        requires tags { AreTied self.now.tests tied.now }
        ensures { OnOk result (rows.new.items ≡ rows.old.items ++ flat_map (freed self.now.scope self.now.hold self.now.tests (right_rows tied.now) blocker.now) (replicate count row.now)) }
    {
        if self.tests.holds(&row.payload, &blocker.payload) && !self.is_blocked(alloc, tied, row) {
            self.push_waited(alloc, row, count, rows)
        } else {
            Ok(())
        }
    }

    /// The same for each of some rows.
    fn push_all_freed(
        &self,
        alloc: Global,
        tied: &Tied,
        blocker: &Row,
        some: Range<'_, Row, usize>,
        rows: &mut Vec<Row>,
    ) -> Result<(), OutOfMemory>
        requires whiles { AreWhiles self.now.scope self.now.hold }
        requires within { (from before : ℕ) × (before ≤ FOREVER) × AreInScope from before some }
        requires tags { AreTied self.now.tests tied.now }
        ensures { OnOk result (rows.new.items ≡ rows.old.items ++ flat_map (freed self.now.scope self.now.hold self.now.tests (right_rows tied.now) blocker.now) (spread some.entry)) }
    {
        for (row, count) in some {
            self.push_freed(alloc, tied, blocker, row, *count, rows)?;
        }
        Ok(())
    }

    /// The rows of the result of which a right row decides, in some order. O(log n) comparisons, O(1) and the tests for each
    /// left row that has its tag and has it in its scope, and for each of them that passes, the search for another blocker.
    pub(crate) fn decided(
        &self,
        alloc: Global,
        tied: &Tied,
        blocker: &Row,
    ) -> Result<Vec<Row>, OutOfMemory>
        requires whiles { AreWhiles self.now.scope self.now.hold }
        requires begin { blocker.now.begin < FOREVER }
        requires tags { AreTied self.now.tests tied.now }
        ensures { IfOk result (λ rows. SameRows rows.items (decided self.now.scope self.now.hold self.now.tests (right_rows tied.now) blocker.now (left_rows tied.now))) }
    {
        let from = (blocker.begin + 1).saturating_sub(self.scope);
        let (tagged, others) = tied.beside_right(
            alloc,
            &self.tests,
            &blocker.payload,
            from,
            blocker.begin,
        );
        let mut rows = Vec::new(alloc);
        self.push_all_freed(alloc, tied, blocker, tagged, &mut rows)?;
        self.push_all_freed(alloc, tied, blocker, others, &mut rows)?;
        Ok(rows)
    }
}
