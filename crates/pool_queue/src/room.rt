//! What is made for a queue before any task is moved.
ghost use Rattle.std.specs.Prelude.{◌≡◌, ◌≤◌, ◌<◌, [], length, map, IfOk};
ghost use Rattle.std.specs.Arc.{arc_value};
ghost use Rattle.std.specs.List.{All};
ghost use Rattle.std.specs.Vec.{vec_capacity};
ghost use Rattle.crossbeam_queue.specs.Passes.{view as known, IsPassOf, IsSamePass, ruled_capacity};
ghost use Rattle.pool_queue.specs.Entries.{AreNumberedApart, entry_of};
ghost use Rattle.pool_queue.specs.Once.{all_parts, claim};
ghost use Rattle.pool_queue.specs.Passes.{AreAllOf, AreBlank, IsNewPass};

use crate::blank::Blank;
use crate::numbered::{Numbered, Placed};
use crate::pass::TaskPass;
use crate::rule::{Opens, QueuePass, Tasks};
use cedr_base::OutOfMemory;
use std::alloc::Global;
use std::collections::VecDeque;
use std::marker::Model;
use std::sync::{Arc, Wait};

/// A queue that is still empty, with what each pass of it needs. Contracts see for how many tasks and passes it has room.
pub struct TaskRoom<T: Placed<X> + Drop, X: Drop> {
    tasks: Arc<Tasks<T, X>, Global>,
    pass: QueuePass<T, X>,
    blanks: Vec<Blank<T, X>>,
    passes: Vec<TaskPass<T, X>>,
}

impl<T: Placed<X> + Drop, X: Drop> Drop for TaskRoom<T, X> {
    fn drop(self) {
        let TaskRoom {
            tasks: _,
            pass: _,
            blanks: _,
            passes: _,
        } = self;
    }
}

impl<T: Placed<X> + Drop, X: Drop> Model for TaskRoom<T, X> {
    ghost use Rattle.std.specs.Prelude.{◌≡◌, ◌≤◌, [], length};
    ghost use Rattle.std.specs.Arc.{arc_value};
    ghost use Rattle.std.specs.Vec.{vec_capacity};
    ghost use Rattle.crossbeam_queue.specs.Passes.{view as known, IsPassOf, ruled_capacity};
    ghost use Rattle.pool_queue.specs.Once.{all_parts, claim};
    ghost use Rattle.pool_queue.specs.Passes.{AreBlank, Roominess};

    ghost Value = { Roominess };

    ghost view = { λ r. record { tasks = ruled_capacity (arc_value r.tasks); workers = length r.blanks.items } };

    ghost invariant = { λ r. IsPassOf (arc_value r.tasks) r.pass × (known r.pass ≡ claim all_parts [] []) × AreBlank (arc_value r.tasks).table.shared.table_id (ruled_capacity (arc_value r.tasks)) r.blanks.items × (r.passes.items ≡ []) × (length r.blanks.items ≤ vec_capacity r.passes) };
}

/// So many shares of a queue.
fn new_blanks<T: Placed<X> + Drop, X: Drop>(
    alloc: Global,
    tasks: &Arc<Tasks<T, X>, Global>,
    size: usize,
    workers: usize,
) -> Result<Vec<Blank<T, X>>, OutOfMemory>
    requires { ruled_capacity (arc_value tasks.now) ≡ size }
    ensures count { IfOk result (λ blanks. length blanks.items ≡ workers) }
    ensures blank { IfOk result (λ blanks. AreBlank (arc_value tasks.now).table.shared.table_id size blanks.items) }
{
    let mut blanks = Vec::new(alloc);
    for _i in 0..workers {
        let blank = Blank::new(alloc, tasks, size)?;
        blanks.push(blank)?;
    }
    Ok(blanks)
}

/// Puts the tasks into the new queue, in order. There is room for each.
fn put_all<T: Placed<X> + Drop, X: Drop, R: Wait>(
    rt: &R,
    queue: &Tasks<T, X>,
    pass: &mut QueuePass<T, X>,
    tasks: Vec<Numbered<T>>,
)
    requires queue { IsPassOf queue.now pass.old }
    requires pass { known pass.old ≡ claim all_parts [] [] }
    requires room { ruled_capacity queue.now ≡ length tasks.items }
    requires apart { AreNumberedApart (map (entry_of T.place) tasks.items) }
    ensures queue { IsSamePass pass.old pass.new }
    ensures pass { known pass.new ≡ claim all_parts (map (entry_of T.place) tasks.items) [] }
{
    let mut left = VecDeque::from_vec(tasks);
    while let Some(task) = left.pop_front() {
        match queue.push_as::<Opens, R>(rt, pass, task) {
            Ok(()) => {}
            Err(_) => unreachable!(),
        }
    }
}

/// Cuts the pass into as many as there are shares of the queue. `passes` has room for them.
fn seat_each<T: Placed<X> + Drop, X: Drop>(
    blanks: Vec<Blank<T, X>>,
    pass: QueuePass<T, X>,
    passes: Vec<TaskPass<T, X>>,
) -> Vec<TaskPass<T, X>>
    requires blanks { AreBlank pass.table_id (length (known pass).opened) blanks.items }
    requires some { (1 ≤ length blanks.items) × (length blanks.items ≤ 16) }
    requires pass { ((known pass).parts ≡ all_parts) × ((known pass).held ≡ []) × (pass.me.1 ≡ []) }
    requires passes { (passes.items ≡ []) × (length blanks.items ≤ vec_capacity passes) }
    ensures count { length result.items ≡ length blanks.items }
    ensures all { AreAllOf (known pass).opened result.items }
    ensures new { All (IsNewPass pass.table_id (known pass).opened) result.items }
{
    let mut passes = passes;
    let mut pass = pass;
    let mut left = VecDeque::from_vec(blanks);
    let Some(mine) = left.pop_front() else {
        unreachable!()
    };
    while let Some(blank) = left.pop_front() {
        let made = blank.cut(&mut pass);
        passes.push_reserved(made);
    }
    let made = mine.seat(pass);
    passes.push_reserved(made);
    passes
}

impl<T: Placed<X> + Drop, X: Drop> TaskRoom<T, X> {
    /// Room for so many tasks and for the passes of so many workers: a place of a task's own size for each task in the queue,
    /// and one more for each task and worker, for whichever pass will close it.
    pub fn new(alloc: Global, tasks: usize, workers: usize) -> Result<TaskRoom<T, X>, OutOfMemory>
        requires { 0 < tasks }
        ensures { IfOk result (λ r. r ≡ record { tasks = tasks; workers = workers }) }
    {
        let (queue, pass) = Tasks::<T, X>::ruled(alloc, tasks)?;
        let queue = Arc::new(alloc, queue)?;
        let blanks = new_blanks(alloc, &queue, tasks, workers)?;
        let passes = Vec::with_capacity(alloc, workers)?;
        Ok(TaskRoom {
            tasks: queue,
            pass,
            blanks,
            passes,
        })
    }

    /// The queue with these tasks, by one pass of it for each worker. They are put in their order, of which no clause speaks.
    /// It takes no memory.
    pub fn fill<R: Wait>(self, rt: &R, tasks: Vec<Numbered<T>>) -> Vec<TaskPass<T, X>>
        requires room { length tasks.items ≡ self.tasks }
        requires apart { AreNumberedApart (map (entry_of T.place) tasks.items) }
        requires workers { (1 ≤ self.workers) × (self.workers ≤ 16) }
        ensures count { length result.items ≡ self.workers }
        ensures all { AreAllOf (map (entry_of T.place) tasks.items) result.items }
        ensures new { All (λ p. (p.held ≡ []) × (p.refused ≡ 0)) result.items }
    {
        let TaskRoom {
            tasks: queue,
            mut pass,
            blanks,
            passes,
        } = self;
        put_all(rt, &*queue, &mut pass, tasks);
        seat_each(blanks, pass, passes)
    }
}
