//! From the seats of the pool back to the workers, in the order of the plan.
ghost use Rattle.std.specs.Prelude.{◌≡◌, ◌≤◌, ◌+◌, ◌++◌, [], List, length, map, IsPermutation};
ghost use Rattle.std.specs.List.{All};
ghost use Rattle.std.specs.List.Sorted.{IsNonDecreasingBy};
ghost use Rattle.std.specs.Vec.{vec_capacity};
ghost use Rattle.pool_queue.specs.Passes.{AreAllOf};
ghost use Rattle.cedr_pool.specs.Seats.{HasEndedTasks, all_rows, pass_of, row_of};
ghost use Rattle.cedr_pool.specs.Tasks.{AllStay, task_number, task_worker, tasks_entries};

use crate::seat::Seat;
use crate::task::{NumberedTask, Pass, Works};
use pool_queue::close_tasks;
use std::collections::VecDeque;
use std::sync::Wait;

/// Parts each seat into its pass and its row. `passes` and `rows` have room for them.
fn stand_up<W: Works>(
    seats: VecDeque<Seat<W>>,
    passes: &mut Vec<Pass<W>>,
    rows: &mut Vec<Vec<NumberedTask<W>>>,
)
    requires passes { length passes.old.items + length seats.items ≤ vec_capacity passes.old }
    requires rows { length rows.old.items + length seats.items ≤ vec_capacity rows.old }
    ensures passes { passes.new.items ≡ passes.old.items ++ map pass_of seats.items }
    ensures rows { rows.new.items ≡ rows.old.items ++ map row_of seats.items }
{
    let mut seats = seats;
    let Some(seat) = seats.pop_front() else {
        return;
    };
    let (pass, row) = seat.into_parts();
    passes.push_reserved(pass);
    rows.push_reserved(row);
    stand_up(seats, passes, rows);
}

/// Moves the tasks of all rows behind some others. `tasks` has room for them.
fn gather_rows<W: Works>(rows: VecDeque<Vec<NumberedTask<W>>>, tasks: &mut Vec<NumberedTask<W>>)
    requires { length tasks.old.items + length (all_rows rows.items) ≤ vec_capacity tasks.old }
    ensures { tasks.new.items ≡ tasks.old.items ++ all_rows rows.items }
{
    let mut rows = rows;
    let Some(row) = rows.pop_front() else {
        return;
    };
    let mut row = row;
    match tasks.append(&mut row) {
        Ok(()) => {}
        Err(_) => unreachable!(),
    }
    gather_rows(rows, tasks);
}

/// Closes the queue whose passes sit here, and answers all tasks: those that ended at the seats, and those that were left in the
/// queue. The lists have room for them.
pub(crate) fn gather<W: Works + Send, Q: Wait>(
    rt: &Q,
    seats: Vec<Seat<W>>,
    passes: Vec<Pass<W>>,
    rows: Vec<Vec<NumberedTask<W>>>,
    tasks: Vec<NumberedTask<W>>,
) -> Vec<NumberedTask<W>>
    requires all { (opened : List _) × AreAllOf opened (map pass_of seats.items) × (length opened ≤ vec_capacity tasks) }
    requires ended { All HasEndedTasks seats.items }
    requires passes { (passes.items ≡ []) × (length seats.items ≤ vec_capacity passes) }
    requires rows { (rows.items ≡ []) × (length seats.items ≤ vec_capacity rows) }
    requires tasks { tasks.items ≡ [] }
    ensures { (opened : List _) → AreAllOf opened (map pass_of seats.items) → IsPermutation (tasks_entries result.items) opened }
{
    let mut passes = passes;
    let mut rows = rows;
    let mut tasks = tasks;
    stand_up(VecDeque::from_vec(seats), &mut passes, &mut rows);
    let mut left = close_tasks(rt, passes);
    match tasks.append(&mut left) {
        Ok(()) => {}
        Err(_) => unreachable!(),
    }
    gather_rows(VecDeque::from_vec(rows), &mut tasks);
    tasks
}

/// Sorts tasks by their numbers. It takes no memory.
pub(crate) fn sort_tasks<W: Works>(tasks: &mut Vec<NumberedTask<W>>)
    ensures same { IsPermutation tasks.old.items tasks.new.items }
    ensures sorted { IsNonDecreasingBy task_number tasks.new.items }
{
    tasks.sort_unstable_by_key(|task| task.number);
}

/// Takes the workers out of their tasks, in order. `workers` has room for them.
pub(crate) fn take_workers<W: Works>(tasks: VecDeque<NumberedTask<W>>, workers: &mut Vec<W>)
    requires { length workers.old.items + length tasks.items ≤ vec_capacity workers.old }
    ensures { (given : List W) → AllStay W.stays given workers.old.items → AllStay W.stays (given ++ map task_worker tasks.items) workers.new.items }
{
    let mut tasks = tasks;
    let Some(task) = tasks.pop_front() else {
        return;
    };
    workers.push_reserved(task.into_task().into_worker());
    take_workers(tasks, workers);
}
