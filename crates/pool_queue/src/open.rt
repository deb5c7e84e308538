ghost use Rattle.std.specs.Prelude.{◌≡◌, ◌≤◌, ◌<◌, [], length, map, IfOk, IfErr};
ghost use Rattle.std.specs.List.{All};
ghost use Rattle.pool_queue.specs.Entries.{AreNumberedApart, entry_of};
ghost use Rattle.pool_queue.specs.Passes.{AreAllOf};

use crate::numbered::{Numbered, Placed};
use crate::pass::TaskPass;
use crate::room::TaskRoom;
use std::alloc::Global;
use std::sync::Wait;

/// Memory is lacking for the queue. The tasks are handed back.
pub struct NoTasks<T: Drop> {
    pub tasks: Vec<Numbered<T>>,
}

impl<T: Drop> NoTasks<T> {
    /// The tasks, in the order in which they were given.
    pub fn into_tasks(self) -> Vec<Numbered<T>>
        ensures { result ≡ self.tasks }
    {
        let NoTasks { tasks } = self;
        tasks
    }
}

impl<T: Drop> Drop for NoTasks<T> {
    fn drop(self) {
        let NoTasks { tasks: _ } = self;
    }
}

/// A queue with these tasks by one pass of it for each worker, from 1 to 16. They are put in their order, of which no clause
/// speaks. All memory is taken here: [`TaskPass::take`], [`TaskPass::put`] and [`crate::close_tasks`] take none.
pub fn open_tasks<T: Placed<X> + Send + Drop, X: Drop, R: Wait>(
    rt: &R,
    alloc: Global,
    tasks: Vec<Numbered<T>>,
    workers: usize,
) -> Result<Vec<TaskPass<T, X>>, NoTasks<T>>
    requires some { 0 < length tasks.items }
    requires apart { AreNumberedApart (map (entry_of T.place) tasks.items) }
    requires workers { (1 ≤ workers) × (workers ≤ 16) }
    ensures count { IfOk result (λ passes. length passes.items ≡ workers) }
    ensures all { IfOk result (λ passes. AreAllOf (map (entry_of T.place) tasks.items) passes.items) }
    ensures new { IfOk result (λ passes. All (λ p. (p.held ≡ []) × (p.refused ≡ 0)) passes.items) }
    ensures err { IfErr result (λ n. n.tasks.items ≡ tasks.items) }
{
    let Ok(room) = TaskRoom::new(alloc, tasks.len(), workers) else {
        return Err(NoTasks { tasks });
    };
    Ok(room.fill(rt, tasks))
}
