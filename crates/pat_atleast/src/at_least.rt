ghost use Rattle.std.specs.Prelude.{ℕ, ◌≡◌, ◌≤◌, ◌<◌, ◌++◌, ◌^◌, [], All, length, replicate, OnOk, OnErr, IfOk};
ghost use Rattle.cedr_base.specs.declared.time.TheConstants.{FOREVER};
ghost use Rattle.change_laws.specs.Times.{IsWhile};
ghost use Rattle.cedr_table.specs.Operators.{table_at};
ghost use Rattle.pat_state.specs.Answers.{IsAnswered};
ghost use Rattle.pat_state.specs.Starts.{HasRow};
ghost use Rattle.pat_atleast.specs.AtLeasts.{at_least_of};
ghost use Rattle.pat_atleast.specs.Finding.{all_found};
ghost use Rattle.pat_atleast.specs.Keeping.{bags_in, HaveTags, SuitsNumber, IsOrderFor};

use crate::kept::Kept;
use crate::order::{Order, arrange};
use cedr_base::{Change, OutOfMemory, Row, Time};
use cedr_expr::Tests;
use cedr_table::{Operator, least_mark};
use pat_state::{Way, push_answers};
use std::alloc::Global;

/// One row for each choice of so many different ports and of one row of each of them, in whatever order these begin: no two
/// begin together, the last one begins within the scope of the first one, and their payloads, joined in ascending order
/// of begin, pass the tests. It is `[last begin, later(first begin, scope))` with these payloads. The bound is the least
/// mark.
///
/// It keeps the rows of its ports without their ends, each until the least mark reaches the end of the scope that begins
/// with it. A change of a row looks only at rows that begin less than a scope before or after it: it goes through each
/// order of so many ports that has the port, as a sequence of these ports does. Where two ports are to have a row it looks
/// only at those that have the fields that equality tests between the two compare: O(log n), and a step and the tests for
/// each of them. Where more are to have one, it looks only at rows with the changed row's field in a column that equality
/// tests want to be the same in all of them, if there is one. A retraction that leaves something of its row takes O(1).
pub struct AtLeast {
    number: usize,
    scope: u64,
    tests: Tests,
    orders: Vec<Order>,
    pub(crate) kept: Kept,
}

impl Drop for AtLeast {
    fn drop(self) {
        let AtLeast {
            number: _,
            scope: _,
            tests: _,
            orders: _,
            kept: _,
        } = self;
    }
}

impl AtLeast {
    /// There are 2 to 4 ports, and the number of those that are to have rows is from 1 to as many. The scope is in
    /// application time, from 1 to 2^40. The tests see all payloads joined as the left payload, and an empty right one.
    pub fn new(
        alloc: Global,
        ports: usize,
        number: usize,
        scope: u64,
        tests: Tests,
    ) -> Result<AtLeast, OutOfMemory>
        requires ports { (2 ≤ ports) × (ports ≤ 4) }
        requires number { (1 ≤ number) × (number ≤ ports) }
        requires scope { IsWhile scope }
        ensures meaning { IfOk result (λ s. ⟦<AtLeast as Operator>⟧.meaning s ≡ at_least_of ports number scope tests) }
        ensures stands { IfOk result (λ s. ⟦<AtLeast as Operator>⟧.stands s (replicate ports []) (replicate ports 0)) }
    {
        let orders = arrange(alloc, number, 0, ports)?;
        let kept = Kept::new(alloc, ports, number)?;
        Ok(AtLeast {
            number,
            scope,
            tests,
            orders,
            kept,
        })
    }

    /// Takes a change, and appends a change for the row of each choice with the changed row.
    fn answer(
        &mut self,
        alloc: Global,
        port: usize,
        change: &Change,
        way: Way,
        row: &Row,
        out: &mut Vec<Change>,
    ) -> Result<(), OutOfMemory>
        requires begin { row.now.begin < FOREVER }
        requires scope { self.old.scope ≤ 2 ^ 40 }
        requires port { port < length (bags_in self.old.kept) }
        requires orders { All (IsOrderFor self.old.kept) self.old.orders.items }
        requires there { HasRow (table_at (bags_in self.old.kept) port) change.now }
        requires tags { HaveTags self.old.tests self.old.kept }
        ensures number { self.new.number ≡ self.old.number }
        ensures scope { self.new.scope ≡ self.old.scope }
        ensures tests { self.new.tests ≡ self.old.tests }
        ensures orders { self.new.orders.items ≡ self.old.orders.items }
        ensures ports { length (bags_in self.new.kept) ≡ length (bags_in self.old.kept) }
        ensures suits { (number : ℕ) → SuitsNumber number self.old.kept → SuitsNumber number self.new.kept }
        ensures ok { OnOk result (IsAnswered (bags_in self.old.kept) (bags_in self.new.kept) port change.now way (all_found self.old.scope self.old.tests row.now port (bags_in self.old.kept) self.old.orders.items) out.old.items out.new.items × HaveTags self.old.tests self.new.kept) }
        ensures err { OnErr result (out.new.items ≡ out.old.items) }
    {
        let orders = self.orders.as_slice();
        let rows = self
            .kept
            .find(alloc, self.scope, &self.tests, orders, port, row)?;
        self.kept.apply(alloc, &self.tests, port, change)?;
        push_answers(way, rows, out)
    }
}

impl Operator for AtLeast {
    ghost use Rattle.pat_atleast.specs.Readings.{at_least_reading};
    ghost use Rattle.pat_atleast.specs.AtLeastLaws.{at_least_laws};

    ghost meaning = { at_least_reading.meaning };

    ghost stands = { at_least_reading.stands };

    ghost held = { at_least_reading.held };

    fn ports(&self) -> usize {
        self.kept.len()
    }

    fn apply(
        &mut self,
        alloc: Global,
        port: usize,
        change: Change,
        out: &mut Vec<Change>,
    ) -> Result<(), OutOfMemory> {
        match &change {
            Change::Add(row) => self.answer(alloc, port, &change, Way::Comes, row, out),
            Change::Cut(row, end) => {
                if row.begin < *end {
                    return Ok(());
                }
                self.answer(alloc, port, &change, Way::Goes, row, out)
            }
        }
    }

    fn bound(&self, marks: &[Time]) -> Time {
        least_mark(marks)
    }

    fn trim(&mut self, marks: &[Time]) {
        self.kept.forget(&self.tests, self.scope, least_mark(marks));
    }

    ghost lawful = { λ s. at_least_laws s.number s.scope s.tests s.orders.items s.kept };
}
