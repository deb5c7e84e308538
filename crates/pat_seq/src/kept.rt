ghost use Rattle.std.specs.Prelude.{◌≡◌, ◌≤◌, ◌<◌, ◌^◌, [], List, length, replicate, OnOk, IfOk};
ghost use Rattle.cedr_expr.specs.declared.test.Test.{Test};
ghost use Rattle.cedr_table.specs.Operators.{table_at};
ghost use Rattle.pat_state.specs.Starts.{HasRow, PortsReach};
ghost use Rattle.pat_state.specs.Steps.{matches};
ghost use Rattle.cedr_base.specs.declared.time.TheConstants.{FOREVER};
ghost use Rattle.cedr_base.specs.Rows.{SameRows};
ghost use Rattle.pat_state.specs.Answers.{AreForgotten, IsKeptStep};
ghost use Rattle.pat_seq.specs.Keeping.{rows_in, ports_held, AreKept};

use cedr_base::{Change, OutOfMemory, Row, Time};
use cedr_expr::Tests;
use pat_state::{Grouped, Tied, find_pairs};
use std::alloc::Global;

/// The ports that a sequence may have, in their order.
const PORTS: [usize; 4] = [0, 1, 2, 3];

/// The rows of the ports of a sequence, without their ends. They have tags, by which those that may pass the tests together
/// are found.
#[derive(Drop)]
pub(crate) enum Kept {
    Two(Tied),
    More(Grouped),
}

impl Kept {
    /// As many bags with no row.
    pub(crate) fn new(alloc: Global, ports: usize) -> Result<Kept, OutOfMemory>
        ensures rows { IfOk result (λ kept. rows_in kept ≡ replicate ports []) }
        ensures tags { IfOk result (λ kept. (tests : List Test) → AreKept tests kept) }
    {
        if ports == 2 {
            return Ok(Kept::Two(Tied::new(alloc)));
        }
        let grouped = Grouped::new(alloc, ports, ports)?;
        Ok(Kept::More(grouped))
    }

    /// How many ports there are.
    pub(crate) fn len(&self) -> usize
        ensures { result ≡ length (rows_in self.now) }
    {
        match self {
            Kept::Two(_) => 2,
            Kept::More(grouped) => grouped.len(),
        }
    }

    /// Applies a change to the rows of a port, of which the row's begin and its payload count. Where memory runs out rows
    /// may be lost.
    pub(crate) fn apply(
        &mut self,
        alloc: Global,
        tests: &Tests,
        port: usize,
        change: &Change,
    ) -> Result<(), OutOfMemory>
        requires port { port < length (rows_in self.old) }
        requires there { HasRow (table_at (rows_in self.old) port) change.now }
        requires tags { AreKept tests.now self.old }
        ensures ports { length (rows_in self.new) ≡ length (rows_in self.old) }
        ensures ok { OnOk result (IsKeptStep (rows_in self.old) (rows_in self.new) port change.now) }
        ensures tags { OnOk result (AreKept tests.now self.new) }
    {
        match self {
            Kept::Two(tied) => {
                if port == 0 {
                    tied.apply_left(alloc, tests, change)
                } else {
                    tied.apply_right(alloc, tests, change)
                }
            }
            Kept::More(grouped) => grouped.apply(alloc, tests, port, change),
        }
    }

    /// The rows of the result of the choices with a changed row on its port, in some order.
    pub(crate) fn find(
        &self,
        alloc: Global,
        scope: u64,
        tests: &Tests,
        changed: usize,
        row: &Row,
    ) -> Result<Vec<Row>, OutOfMemory>
        requires begin { row.now.begin < FOREVER }
        requires scope { scope ≤ 2 ^ 40 }
        requires changed { changed < length (rows_in self.now) }
        requires ports { (2 ≤ length (rows_in self.now)) × (length (rows_in self.now) ≤ 4) }
        requires tags { AreKept tests.now self.now }
        ensures { IfOk result (λ rows. SameRows rows.items (matches scope tests.now row.now changed (rows_in self.now))) }
    {
        match self {
            Kept::Two(tied) => find_pairs(alloc, scope, tests, tied, changed, row),
            Kept::More(grouped) => {
                let order = &PORTS[..grouped.len()];
                grouped.find(alloc, scope, tests, order, changed, row)
            }
        }
    }

    /// Forgets the rows of each port whose scope, which begins with them, ends by a time: none of them is held any more.
    pub(crate) fn forget(&mut self, tests: &Tests, scope: u64, time: Time)
        requires { AreKept tests.now self.old }
        ensures rows { AreForgotten scope time (rows_in self.old) (rows_in self.new) }
        ensures held { PortsReach scope time (ports_held self.new) }
        ensures tags { AreKept tests.now self.new }
    {
        match self {
            Kept::Two(tied) => tied.forget(scope, time),
            Kept::More(grouped) => grouped.forget(tests, scope, time),
        }
    }
}
