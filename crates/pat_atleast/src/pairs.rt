ghost use Rattle.std.specs.Prelude.{ℕ, ◌≡◌, ◌≤◌, ◌<◌, ◌^◌, [], List, All, true, length, replicate, OnOk, IfOk};
ghost use Rattle.cedr_base.specs.declared.time.TheConstants.{FOREVER};
ghost use Rattle.cedr_base.specs.Rows.{SameRows};
ghost use Rattle.cedr_expr.specs.declared.test.Test.{Test};
ghost use Rattle.cedr_table.specs.Operators.{table_at};
ghost use Rattle.pat_state.specs.Answers.{AreForgotten, IsKeptStep};
ghost use Rattle.pat_state.specs.Starts.{HasRow};
ghost use Rattle.pat_state.specs.Steps.{matches, picked, AreAmongPorts};
ghost use Rattle.pat_state.specs.Tied.{AreCrossed};
ghost use Rattle.pat_atleast.specs.Crossings.{rows_by_port, crossed_rows, AreAllCrossed, HaveNoRow};

use cedr_base::{Change, OutOfMemory, Row, Time};
use cedr_expr::Tests;
use pat_state::Crossing;
use std::alloc::Global;

/// The rows of the ports where two of these are to have one, without their ends: those that may pass the tests together are
/// found by a tag.
///
/// The tags are those beside payloads of one width. Rows of another width are allowed, and meet all rows.
pub(crate) struct Pairs {
    width: usize,
    ports: Vec<Crossing>,
}

impl Drop for Pairs {
    fn drop(self) {
        let Pairs { width: _, ports: _ } = self;
    }
}

impl Pairs {
    /// As many ports with no row.
    pub(crate) fn new(alloc: Global, count: usize) -> Result<Pairs, OutOfMemory>
        ensures rows { IfOk result (λ pairs. crossed_rows pairs ≡ replicate count []) }
        ensures tags { IfOk result (λ pairs. (tests : List Test) → AreAllCrossed tests pairs) }
    {
        let mut ports = Vec::new(alloc);
        for _ in 0..count {
            let port = Crossing::new(alloc);
            ports.push(port)?;
        }
        Ok(Pairs { width: 0, ports })
    }

    /// How many ports there are.
    pub(crate) fn len(&self) -> usize
        ensures { result ≡ length (crossed_rows self.now) }
    {
        self.ports.len()
    }

    /// Whether no port has a row.
    fn is_empty(&self) -> bool
        ensures { result ≡ true → All HaveNoRow self.now.ports.items }
    {
        for port in &self.ports {
            if port.len() > 0 {
                return false;
            }
        }
        true
    }

    /// Takes this width as that of all payloads, where no row is kept.
    fn settle(&mut self, tests: &Tests, width: usize)
        requires { AreAllCrossed tests.now self.old }
        ensures tags { AreAllCrossed tests.now self.new }
        ensures ports { self.new.ports.items ≡ self.old.ports.items }
    {
        if self.width != width && self.is_empty() {
            self.width = width;
        }
    }

    /// Applies a change to the rows of a port, of which the row's begin and its payload count. Where memory runs out rows
    /// may be lost.
    pub(crate) fn apply(
        &mut self,
        alloc: Global,
        tests: &Tests,
        port: usize,
        change: &Change,
    ) -> Result<(), OutOfMemory>
        requires port { port < length (crossed_rows self.old) }
        requires there { HasRow (table_at (crossed_rows self.old) port) change.now }
        requires tags { AreAllCrossed tests.now self.old }
        ensures ports { length (crossed_rows self.new) ≡ length (crossed_rows self.old) }
        ensures ok { OnOk result (IsKeptStep (crossed_rows self.old) (crossed_rows self.new) port change.now) }
        ensures tags { OnOk result (AreAllCrossed tests.now self.new) }
    {
        self.settle(tests, change.row().payload.len());
        self.ports[port].apply(alloc, tests, self.width, change)
    }

    /// The rows of the choices of two rows that begin one after the other on two ports, with a changed row on one of them.
    pub(crate) fn find(
        &self,
        alloc: Global,
        scope: u64,
        tests: &Tests,
        order: &[usize],
        changed: usize,
        row: &Row,
    ) -> Result<Vec<Row>, OutOfMemory>
        requires begin { row.now.begin < FOREVER }
        requires scope { scope ≤ 2 ^ 40 }
        requires two { length order.now ≡ 2 }
        requires changed { changed < length order.now }
        requires order { AreAmongPorts (length (crossed_rows self.now)) order.now }
        requires tags { AreAllCrossed tests.now self.now }
        ensures { IfOk result (λ rows. SameRows rows.items (matches scope tests.now row.now changed (picked order.now (crossed_rows self.now)))) }
    {
        if changed == 0 {
            let seconds = &self.ports[order[1]];
            seconds.find_seconds(alloc, scope, tests, self.width, row)
        } else {
            let firsts = &self.ports[order[0]];
            firsts.find_firsts(alloc, scope, tests, self.width, row)
        }
    }

    /// Forgets the rows of each port whose scope, which begins with them, ends by a time.
    pub(crate) fn forget(&mut self, tests: &Tests, scope: u64, time: Time)
        requires { AreAllCrossed tests.now self.old }
        ensures rows { AreForgotten scope time (crossed_rows self.old) (crossed_rows self.new) }
        ensures tags { AreAllCrossed tests.now self.new }
    {
        forget_all(&mut self.ports, tests, self.width, scope, time);
    }
}

/// Forgets the rows of each port whose scope, which begins with them, ends by a time.
fn forget_all(ports: &mut Vec<Crossing>, tests: &Tests, width: usize, scope: u64, time: Time)
    requires { All (AreCrossed width tests.now) ports.old.items }
    ensures rows { AreForgotten scope time (rows_by_port ports.old.items) (rows_by_port ports.new.items) }
    ensures tags { All (AreCrossed width tests.now) ports.new.items }
{
    for port in 0..ports.len() {
        ports[port].forget(tests, width, scope, time);
    }
}
