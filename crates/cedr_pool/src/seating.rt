//! From workers to the seats of the pool.
ghost use Rattle.std.specs.Prelude.{◌≡◌, ◌≤◌, [], ℕ, length, map};
ghost use Rattle.std.specs.List.{All};
ghost use Rattle.std.specs.Vec.{vec_capacity};
ghost use Rattle.cedr_pool.specs.Seats.{HoldsNone, IsRowFor, IsSeated, pass_of};
ghost use Rattle.cedr_pool.specs.Tasks.{numbered_from, tasks_entries};

use crate::seat::Seat;
use crate::task::{NumberedTask, Pass, Task, Works};
use pool_queue::Numbered;
use std::collections::VecDeque;

/// Makes a task of each worker, numbered in order. `tasks` has room for them.
pub(crate) fn open_each<W: Works>(
    workers: Vec<W>,
    tasks: Vec<NumberedTask<W>>,
) -> Vec<NumberedTask<W>>
    requires works { All W.works workers.items }
    requires tasks { (tasks.items ≡ []) × (length workers.items ≤ vec_capacity tasks) }
    ensures { tasks_entries result.items ≡ numbered_from 0 workers.items }
{
    let mut left = VecDeque::from_vec(workers);
    let mut tasks = tasks;
    while let Some(worker) = left.pop_front() {
        let number = tasks.len();
        let task = Task::new(worker);
        tasks.push_reserved(Numbered { number, task });
    }
    tasks
}

/// Puts each pass to a row of its own. `seats` has room for them.
pub(crate) fn seat_each<W: Works>(
    passes: Vec<Pass<W>>,
    rows: Vec<Vec<NumberedTask<W>>>,
    seats: Vec<Seat<W>>,
) -> Vec<Seat<W>>
    requires passes { (size : ℕ) × All (HoldsNone size) passes.items × All (IsRowFor size) rows.items }
    requires rows { length rows.items ≡ length passes.items }
    requires seats { (seats.items ≡ []) × (length passes.items ≤ vec_capacity seats) }
    ensures passes { map pass_of result.items ≡ passes.items }
    ensures seated { All IsSeated result.items }
{
    let mut left = VecDeque::from_vec(passes);
    let mut rows = VecDeque::from_vec(rows);
    let mut seats = seats;
    while let Some(pass) = left.pop_front() {
        let Some(row) = rows.pop_front() else {
            unreachable!()
        };
        seats.push_reserved(Seat { pass, row });
    }
    seats
}
