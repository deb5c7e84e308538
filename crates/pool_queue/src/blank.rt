ghost use Rattle.std.specs.Prelude.{◌≡◌, ◌<◌, ◌-◌, [], length, IfOk};
ghost use Rattle.std.specs.Arc.{arc_value};
ghost use Rattle.crossbeam_queue.specs.Passes.{view as known, ruled_capacity};
ghost use Rattle.pool_queue.specs.Once.{claim};

use crate::numbered::{Numbered, Placed};
use crate::pass::TaskPass;
use crate::rule::{Cut, QueuePass, Tasks};
use cedr_base::OutOfMemory;
use std::alloc::Global;
use std::marker::Model;
use std::sync::Arc;

/// What is made for a pass before any task is moved.
pub(crate) struct Blank<T: Placed<X> + Drop, X: Drop> {
    tasks: Arc<Tasks<T, X>, Global>,
    row: Vec<Numbered<T>>,
}

impl<T: Placed<X> + Drop, X: Drop> Drop for Blank<T, X> {
    fn drop(self) {
        let Blank { tasks: _, row: _ } = self;
    }
}

impl<T: Placed<X> + Drop, X: Drop> Model for Blank<T, X> {
    ghost use Rattle.std.specs.Prelude.{◌≡◌, ◌≤◌, []};
    ghost use Rattle.std.specs.Arc.{arc_value};
    ghost use Rattle.std.specs.Vec.{vec_capacity};
    ghost use Rattle.crossbeam_queue.specs.Passes.{ruled_capacity};
    ghost use Rattle.pool_queue.specs.Passes.{Blankness};

    ghost Value = { Blankness };

    ghost view = { λ b. record { queue = (arc_value b.tasks).table.shared.table_id; size = ruled_capacity (arc_value b.tasks) } };

    ghost invariant = { λ b. (b.row.items ≡ []) × (ruled_capacity (arc_value b.tasks) ≤ vec_capacity b.row) };
}

impl<T: Placed<X> + Drop, X: Drop> Blank<T, X> {
    /// A share of a queue, which has room for so many tasks.
    pub(crate) fn new(
        alloc: Global,
        tasks: &Arc<Tasks<T, X>, Global>,
        size: usize,
    ) -> Result<Blank<T, X>, OutOfMemory>
        requires { ruled_capacity (arc_value tasks.now) ≡ size }
        ensures { IfOk result (λ b. b ≡ record { queue = (arc_value tasks.now).table.shared.table_id; size = size }) }
    {
        let row = Vec::with_capacity(alloc, size)?;
        let tasks = Arc::try_clone(tasks)?;
        Ok(Blank { tasks, row })
    }

    /// Cuts a pass of one part off a pass of the queue, and gives it this share.
    pub(crate) fn cut(self, pass: &mut QueuePass<T, X>) -> TaskPass<T, X>
        requires of { (pass.old.table_id ≡ self.queue) × (pass.old.me.1 ≡ []) }
        requires more { 1 < (known pass.old).parts }
        requires size { self.size ≡ length (known pass.old).opened }
        ensures queue { (pass.new.table_id ≡ pass.old.table_id) × (pass.new.me.1 ≡ []) }
        ensures left { known pass.new ≡ claim ((known pass.old).parts - 1) (known pass.old).opened (known pass.old).held }
        ensures right { result ≡ record { queue = self.queue; parts = 1; opened = (known pass.old).opened; held = []; refused = 0 } }
    {
        let Blank { tasks, row } = self;
        let other = tasks.another::<Cut>(pass);
        TaskPass::new(tasks, other, row)
    }

    /// The pass with its share of the queue.
    pub(crate) fn seat(self, pass: QueuePass<T, X>) -> TaskPass<T, X>
        requires of { (pass.table_id ≡ self.queue) × (pass.me.1 ≡ []) }
        requires live { 0 < (known pass).parts }
        requires size { self.size ≡ length (known pass).opened }
        ensures { result ≡ record { queue = self.queue; parts = (known pass).parts; opened = (known pass).opened; held = (known pass).held; refused = 0 } }
    {
        let Blank { tasks, row } = self;
        TaskPass::new(tasks, pass, row)
    }
}
