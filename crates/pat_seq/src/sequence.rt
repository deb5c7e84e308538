ghost use Rattle.std.specs.Prelude.{◌≡◌, ◌≤◌, ◌<◌, ◌++◌, ◌^◌, [], length, replicate, OnOk, OnErr, IfOk};
ghost use Rattle.cedr_base.specs.declared.time.TheConstants.{FOREVER};
ghost use Rattle.cedr_base.specs.Rows.{SameRows};
ghost use Rattle.cedr_base.specs.Changes.{puts, takes};
ghost use Rattle.cedr_table.specs.Operators.{table_at, with_table};
ghost use Rattle.pat_state.specs.Starts.{all_endless, HasRow};
ghost use Rattle.change_laws.specs.Times.{IsWhile};
ghost use Rattle.pat_seq.specs.Keeping.{rows_in, AreKept};
ghost use Rattle.pat_seq.specs.Sequences.{sequence_of};
ghost use Rattle.pat_state.specs.Answers.{IsAnswered};
ghost use Rattle.pat_state.specs.Steps.{matches};

use crate::kept::Kept;
use cedr_base::{Change, OutOfMemory, Row, Time};
use cedr_expr::Tests;
use cedr_table::{Operator, least_mark};
use pat_state::{Way, push_answers};
use std::alloc::Global;

/// One row for each choice of one row of each port, where they begin one after the other within the scope of the
/// first one and their payloads pass the tests: `[ek.begin, later(e1.begin, scope))`, with the payloads joined in
/// the order of the ports. The bound is the least mark.
///
/// It keeps the rows of its ports without their ends, each until the least mark reaches the end of the scope that
/// begins with it. A change of a row looks only at rows that begin less than a scope before or after it. Of two ports it
/// looks only at those that have the fields that equality tests between the two compare: O(log n), and a step and the
/// tests for each of them. Of more ports it takes O(log n) and the rows that may be the next one for each ascending choice
/// of rows of the first ports in which it may stand and that passes the tests whose columns it has. On each port the tests
/// come first, once for all copies of a row, and a payload is joined only for what passes them. Where the payloads of all
/// ports have one width, and equality tests want one of their columns to be the same in all of them, only rows with the
/// changed row's field in it are looked at. A retraction that leaves something of its row takes O(1).
pub struct Sequence {
    scope: u64,
    tests: Tests,
    pub(crate) kept: Kept,
}

impl Drop for Sequence {
    fn drop(self) {
        let Sequence {
            scope: _,
            tests: _,
            kept: _,
        } = self;
    }
}

impl Sequence {
    /// A sequence has 2 to 4 ports. The scope is in application time, from 1 to 2^40. The tests see all payloads
    /// joined as the left payload, and an empty right one.
    pub fn new(
        alloc: Global,
        ports: usize,
        scope: u64,
        tests: Tests,
    ) -> Result<Sequence, OutOfMemory>
        requires ports { (2 ≤ ports) × (ports ≤ 4) }
        requires scope { IsWhile scope }
        ensures meaning { IfOk result (λ s. ⟦<Sequence as Operator>⟧.meaning s ≡ sequence_of ports scope tests) }
        ensures stands { IfOk result (λ s. ⟦<Sequence as Operator>⟧.stands s (replicate ports []) (replicate ports 0)) }
    {
        let kept = Kept::new(alloc, ports)?;
        Ok(Sequence { scope, tests, kept })
    }

    /// Takes a change, and appends a change for the row of each choice with the changed row.
    fn answer(
        &mut self,
        alloc: Global,
        port: usize,
        change: &Change,
        way: Way,
        row: &Row,
        out: &mut Vec<Change>,
    ) -> Result<(), OutOfMemory>
        requires begin { row.now.begin < FOREVER }
        requires scope { self.old.scope ≤ 2 ^ 40 }
        requires port { port < length (rows_in self.old.kept) }
        requires ports { (2 ≤ length (rows_in self.old.kept)) × (length (rows_in self.old.kept) ≤ 4) }
        requires there { HasRow (table_at (rows_in self.old.kept) port) change.now }
        requires tags { AreKept self.old.tests self.old.kept }
        ensures scope { self.new.scope ≡ self.old.scope }
        ensures tests { self.new.tests ≡ self.old.tests }
        ensures ports { length (rows_in self.new.kept) ≡ length (rows_in self.old.kept) }
        ensures ok { OnOk result (IsAnswered (rows_in self.old.kept) (rows_in self.new.kept) port change.now way (matches self.old.scope self.old.tests row.now port (rows_in self.old.kept)) out.old.items out.new.items × AreKept self.old.tests self.new.kept) }
        ensures err { OnErr result (out.new.items ≡ out.old.items) }
    {
        let rows = self.kept.find(alloc, self.scope, &self.tests, port, row)?;
        self.kept.apply(alloc, &self.tests, port, change)?;
        push_answers(way, rows, out)
    }
}

impl Operator for Sequence {
    ghost use Rattle.pat_seq.specs.Readings.{sequence_reading};
    ghost use Rattle.pat_seq.specs.SequenceLaws.{sequence_laws};

    ghost meaning = { sequence_reading.meaning };

    ghost stands = { sequence_reading.stands };

    ghost held = { sequence_reading.held };

    fn ports(&self) -> usize {
        self.kept.len()
    }

    fn apply(
        &mut self,
        alloc: Global,
        port: usize,
        change: Change,
        out: &mut Vec<Change>,
    ) -> Result<(), OutOfMemory> {
        match &change {
            Change::Add(row) => self.answer(alloc, port, &change, Way::Comes, row, out),
            Change::Cut(row, end) => {
                if row.begin < *end {
                    return Ok(());
                }
                self.answer(alloc, port, &change, Way::Goes, row, out)
            }
        }
    }

    fn bound(&self, marks: &[Time]) -> Time {
        least_mark(marks)
    }

    fn trim(&mut self, marks: &[Time]) {
        self.kept.forget(&self.tests, self.scope, least_mark(marks));
    }

    ghost lawful = { λ s. sequence_laws s.scope s.tests s.kept };
}
