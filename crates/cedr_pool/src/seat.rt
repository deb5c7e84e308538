ghost use Rattle.std.specs.Prelude.{◌≡◌};

use crate::task::{NumberedTask, Pass, Works};

/// Where a thread of the pool takes turns: its pass of the queue, and the tasks that ended there, with room for all.
pub(crate) struct Seat<W: Works> {
    pub(crate) pass: Pass<W>,
    pub(crate) row: Vec<NumberedTask<W>>,
}

impl<W: Works> Seat<W> {
    /// The pass, and the tasks that ended here.
    pub(crate) fn into_parts(self) -> (Pass<W>, Vec<NumberedTask<W>>)
        ensures { result ≡ (self.pass, self.row) }
    {
        let Seat { pass, row } = self;
        (pass, row)
    }
}

impl<W: Works> Drop for Seat<W> {
    fn drop(self) {
        let Seat { pass: _, row: _ } = self;
    }
}
