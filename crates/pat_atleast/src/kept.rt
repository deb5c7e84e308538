ghost use Rattle.std.specs.Prelude.{ℕ, ◌≡◌, ◌≤◌, ◌<◌, ◌^◌, ◌++◌, [], List, All, length, replicate, OnOk, IfOk};
ghost use Rattle.cedr_base.specs.declared.time.TheConstants.{FOREVER};
ghost use Rattle.cedr_base.specs.Rows.{SameRows};
ghost use Rattle.cedr_expr.specs.declared.test.Test.{Test};
ghost use Rattle.cedr_table.specs.Operators.{table_at};
ghost use Rattle.pat_state.specs.Answers.{AreForgotten, IsKeptStep};
ghost use Rattle.pat_state.specs.Starts.{HasRow};
ghost use Rattle.pat_state.specs.Steps.{matches, picked};
ghost use Rattle.pat_atleast.specs.Finding.{found_in, all_found};
ghost use Rattle.pat_atleast.specs.Keeping.{bags_in, HaveTags, SuitsNumber, IsOrderFor};

use crate::append::append;
use crate::order::Order;
use crate::pairs::Pairs;
use cedr_base::{Change, OutOfMemory, Row, Time};
use cedr_expr::Tests;
use pat_state::Grouped;
use std::alloc::Global;

/// The rows of the ports, without their ends. They have tags, by which those that may pass the tests together are found: where
/// two ports are to have a row, one for each of the two places, and else one that all rows of a choice have in common.
#[derive(Drop)]
pub(crate) enum Kept {
    Two(Pairs),
    More(Grouped),
}

impl Kept {
    /// As many bags with no row, of which so many are to have one.
    pub(crate) fn new(alloc: Global, ports: usize, number: usize) -> Result<Kept, OutOfMemory>
        ensures rows { IfOk result (λ kept. bags_in kept ≡ replicate ports []) }
        ensures tags { IfOk result (λ kept. (tests : List Test) → HaveTags tests kept) }
        ensures suits { IfOk result (λ kept. SuitsNumber number kept) }
    {
        if number == 2 {
            let pairs = Pairs::new(alloc, ports)?;
            return Ok(Kept::Two(pairs));
        }
        let grouped = Grouped::new(alloc, ports, number)?;
        Ok(Kept::More(grouped))
    }

    /// How many ports there are.
    pub(crate) fn len(&self) -> usize
        ensures { result ≡ length (bags_in self.now) }
    {
        match self {
            Kept::Two(pairs) => pairs.len(),
            Kept::More(grouped) => grouped.len(),
        }
    }

    /// Applies a change to the rows of a port, of which the row's begin and its payload count. Where memory runs out rows
    /// may be lost.
    pub(crate) fn apply(
        &mut self,
        alloc: Global,
        tests: &Tests,
        port: usize,
        change: &Change,
    ) -> Result<(), OutOfMemory>
        requires port { port < length (bags_in self.old) }
        requires there { HasRow (table_at (bags_in self.old) port) change.now }
        requires tags { HaveTags tests.now self.old }
        ensures ports { length (bags_in self.new) ≡ length (bags_in self.old) }
        ensures suits { (number : ℕ) → SuitsNumber number self.old → SuitsNumber number self.new }
        ensures ok { OnOk result (IsKeptStep (bags_in self.old) (bags_in self.new) port change.now) }
        ensures tags { OnOk result (HaveTags tests.now self.new) }
    {
        match self {
            Kept::Two(pairs) => pairs.apply(alloc, tests, port, change),
            Kept::More(grouped) => grouped.apply(alloc, tests, port, change),
        }
    }

    /// The rows of the choices that begin one after the other in an order, with a changed row of a port on its place there.
    fn find_at(
        &self,
        alloc: Global,
        scope: u64,
        tests: &Tests,
        order: &[usize],
        place: usize,
        row: &Row,
    ) -> Result<Vec<Row>, OutOfMemory>
        requires begin { row.now.begin < FOREVER }
        requires scope { scope ≤ 2 ^ 40 }
        requires place { place < length order.now }
        requires order { IsOrderFor self.now order.now }
        requires tags { HaveTags tests.now self.now }
        ensures { IfOk result (λ rows. SameRows rows.items (matches scope tests.now row.now place (picked order.now (bags_in self.now)))) }
    {
        match self {
            Kept::Two(pairs) => pairs.find(alloc, scope, tests, order, place, row),
            Kept::More(grouped) => grouped.find(alloc, scope, tests, order, place, row),
        }
    }

    /// The same where the order has the port.
    fn find_in(
        &self,
        alloc: Global,
        scope: u64,
        tests: &Tests,
        order: &Order,
        port: usize,
        row: &Row,
    ) -> Result<Vec<Row>, OutOfMemory>
        requires begin { row.now.begin < FOREVER }
        requires scope { scope ≤ 2 ^ 40 }
        requires order { IsOrderFor self.now order.now }
        requires tags { HaveTags tests.now self.now }
        ensures { IfOk result (λ rows. SameRows rows.items (found_in scope tests.now row.now port (bags_in self.now) order.now)) }
    {
        let place = order.place_of(port);
        if place < order.ports().len() {
            self.find_at(alloc, scope, tests, order.ports(), place, row)
        } else {
            Ok(Vec::new(alloc))
        }
    }

    /// Those of each of some orders.
    pub(crate) fn find(
        &self,
        alloc: Global,
        scope: u64,
        tests: &Tests,
        orders: &[Order],
        port: usize,
        row: &Row,
    ) -> Result<Vec<Row>, OutOfMemory>
        requires begin { row.now.begin < FOREVER }
        requires scope { scope ≤ 2 ^ 40 }
        requires orders { All (IsOrderFor self.now) orders.now }
        requires tags { HaveTags tests.now self.now }
        ensures { IfOk result (λ rows. SameRows rows.items (all_found scope tests.now row.now port (bags_in self.now) orders.now)) }
    {
        let mut found = Vec::new(alloc);
        for order in orders {
            let rows = self.find_in(alloc, scope, tests, order, port, row)?;
            append(rows, &mut found)?;
        }
        Ok(found)
    }

    /// Forgets the rows of each port whose scope, which begins with them, ends by a time.
    pub(crate) fn forget(&mut self, tests: &Tests, scope: u64, time: Time)
        requires { HaveTags tests.now self.old }
        ensures rows { AreForgotten scope time (bags_in self.old) (bags_in self.new) }
        ensures tags { HaveTags tests.now self.new }
        ensures suits { (number : ℕ) → SuitsNumber number self.old → SuitsNumber number self.new }
    {
        match self {
            Kept::Two(pairs) => pairs.forget(tests, scope, time),
            Kept::More(grouped) => grouped.forget(tests, scope, time),
        }
    }
}
