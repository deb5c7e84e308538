ghost use Rattle.std.specs.Prelude.{ℕ, ◌≡◌, ◌≤◌, ◌<◌, ◌^◌, [], List, Option, None, All, true, length, replicate, OnOk, IfOk, IfSome};
ghost use Rattle.cedr_base.specs.declared.time.TheConstants.{FOREVER};
ghost use Rattle.cedr_base.specs.Rows.{SameRows};
ghost use Rattle.cedr_expr.specs.declared.test.Test.{Test};
ghost use Rattle.cedr_table.specs.Operators.{table_at};
ghost use Rattle.pat_state.specs.Answers.{AreForgotten, IsKeptStep};
ghost use Rattle.pat_state.specs.Starts.{HasRow};
ghost use Rattle.pat_state.specs.Steps.{matches, picked, AreAmongPorts};
ghost use Rattle.pat_state.specs.Keys.{key_tag};
ghost use Rattle.pat_state.specs.Groups.{all_seen, grouped_rows, AreGrouped, IsBare, IsKeyed, LacksOthers};

use crate::key::{find_key, key_tag};
use crate::keyed::Keyed;
use crate::matches::find_among;
use cedr_base::{Change, OutOfMemory, Row, Time};
use cedr_expr::Tests;
use std::alloc::Global;

/// The rows of ports of which so many are to have one, without their ends: each in order of begin, and each once more by the
/// tag of one field that equality tests want to be the same in all rows of a choice. So those beside a row are found
/// without a look at the others.
///
/// The tags are those of payloads of one width. Rows of another width are allowed: while there is one, all rows are looked at.
pub struct Grouped {
    number: usize,
    width: usize,
    column: Option<usize>,
    ports: Vec<Keyed>,
}

impl Drop for Grouped {
    fn drop(self) {
        let Grouped {
            number: _,
            width: _,
            column: _,
            ports: _,
        } = self;
    }
}

impl Grouped {
    /// As many ports with no row, of which so many are to have one.
    pub fn new(alloc: Global, count: usize, number: usize) -> Result<Grouped, OutOfMemory>
        ensures rows { IfOk result (λ grouped. grouped_rows grouped ≡ replicate count []) }
        ensures tags { IfOk result (λ grouped. (tests : List Test) → AreGrouped tests grouped) }
    {
        let mut ports = Vec::new(alloc);
        for _ in 0..count {
            let port = Keyed::new(alloc);
            ports.push(port)?;
        }
        Ok(Grouped {
            number,
            width: 0,
            column: None,
            ports,
        })
    }

    /// How many ports there are.
    pub fn len(&self) -> usize
        ensures { result ≡ length (grouped_rows self.now) }
    {
        self.ports.len()
    }

    /// Whether no port has a row.
    fn is_empty(&self) -> bool
        ensures { result ≡ true → All IsBare self.now.ports.items }
    {
        for port in &self.ports {
            if port.len() > 0 {
                return false;
            }
        }
        true
    }

    /// Whether no row has another width.
    fn lacks_others(&self) -> bool
        ensures { result ≡ true → All LacksOthers self.now.ports.items }
    {
        for port in &self.ports {
            if !port.lacks_others() {
                return false;
            }
        }
        true
    }

    /// Takes this width as that of all payloads, where no row is kept. In a plan it happens once.
    fn settle(&mut self, alloc: Global, tests: &Tests, width: usize) -> Result<(), OutOfMemory>
        requires { AreGrouped tests.now self.old }
        ensures tags { OnOk result (AreGrouped tests.now self.new) }
        ensures ports { self.new.ports.items ≡ self.old.ports.items }
    {
        if self.width == width || !self.is_empty() {
            return Ok(());
        }
        self.column = find_key(alloc, tests, width, self.number)?;
        self.width = width;
        Ok(())
    }

    /// Applies a change to the rows of a port, of which the row's begin and its payload count. O(log n) comparisons in the
    /// different rows. Where memory runs out rows may be lost.
    pub fn apply(
        &mut self,
        alloc: Global,
        tests: &Tests,
        port: usize,
        change: &Change,
    ) -> Result<(), OutOfMemory>
        requires port { port < length (grouped_rows self.old) }
        requires there { HasRow (table_at (grouped_rows self.old) port) change.now }
        requires tags { AreGrouped tests.now self.old }
        ensures ports { length (grouped_rows self.new) ≡ length (grouped_rows self.old) }
        ensures ok { OnOk result (IsKeptStep (grouped_rows self.old) (grouped_rows self.new) port change.now) }
        ensures tags { OnOk result (AreGrouped tests.now self.new) }
    {
        self.settle(alloc, tests, change.row().payload.len())?;
        self.ports[port].apply(alloc, self.width, self.column, change)
    }

    /// The tag that all rows beside a row have in a choice of so many that passes the tests, where that is known.
    fn common_tag(&self, number: usize, row: &Row) -> Option<u64>
        ensures number { IfSome result (λ tag. number ≡ self.now.number) }
        ensures width { IfSome result (λ tag. length row.now.payload ≡ self.now.width) }
        ensures tag { IfSome result (λ tag. tag ≡ key_tag self.now.width self.now.column row.now.payload) }
        ensures others { IfSome result (λ tag. All LacksOthers self.now.ports.items) }
    {
        let payload = &row.payload;
        if number != self.number || payload.len() != self.width || !self.lacks_others() {
            return None;
        }
        Some(key_tag(self.width, self.column, payload))
    }

    /// The rows of the choices of one row of each of some ports, begun one after the other in their order, with a changed row
    /// on its place among them, in some order. As `find_among`, and of the rows only those with the field of the changed
    /// row in the column that equality tests tie together.
    pub fn find(
        &self,
        alloc: Global,
        scope: u64,
        tests: &Tests,
        order: &[usize],
        changed: usize,
        row: &Row,
    ) -> Result<Vec<Row>, OutOfMemory>
        requires begin { row.now.begin < FOREVER }
        requires scope { scope ≤ 2 ^ 40 }
        requires changed { changed < length order.now }
        requires order { AreAmongPorts (length (grouped_rows self.now)) order.now }
        requires tags { AreGrouped tests.now self.now }
        ensures { IfOk result (λ rows. SameRows rows.items (matches scope tests.now row.now changed (picked order.now (grouped_rows self.now)))) }
    {
        let tag = self.common_tag(order.len(), row);
        let ports = self.ports.as_slice();
        find_among(alloc, scope, tests, ports, tag, order, changed, row)
    }

    /// Forgets the rows of each port whose scope, which begins with them, ends by a time. It takes no memory. O(log n) for
    /// each different one of them, and for one of each port that stays.
    pub fn forget(&mut self, tests: &Tests, scope: u64, time: Time)
        requires { AreGrouped tests.now self.old }
        ensures rows { AreForgotten scope time (grouped_rows self.old) (grouped_rows self.new) }
        ensures tags { AreGrouped tests.now self.new }
    {
        forget_each(&mut self.ports, self.width, self.column, scope, time);
    }
}

/// Forgets the rows of each port whose scope, which begins with them, ends by a time.
fn forget_each(ports: &mut Vec<Keyed>, width: usize, column: Option<usize>, scope: u64, time: Time)
    requires { All (IsKeyed width column) ports.old.items }
    ensures rows { AreForgotten scope time (all_seen None ports.old.items) (all_seen None ports.new.items) }
    ensures tags { All (IsKeyed width column) ports.new.items }
{
    for port in 0..ports.len() {
        ports[port].forget(width, column, scope, time);
    }
}
