//! What a thread of the pool does.
ghost use Rattle.std.specs.Prelude.{◌≡◌, ◌<◌, ◌≤◌, ℕ, length, slice_index_or, IsPermutation};
ghost use Rattle.std.specs.List.{All};
ghost use Rattle.std.specs.Thread.{IsSync};
ghost use Rattle.std.specs.Vec.{vec_capacity};
ghost use Rattle.pool_queue.specs.Passes.{IsStillPass};
ghost use Rattle.cedr_pool.specs.Seats.{IsSeated, HasPlayed};
ghost use Rattle.cedr_pool.specs.Tasks.{tasks_entries};
ghost use Rattle.cedr_pool.specs.Turns.{TurnsWell};

use crate::seat::Seat;
use crate::task::{NumberedTask, Pass, Works, turn_often};
use cedr_worker::{Turn, rest};
use crossbeam_utils::Backoff;
use std::sync::Wait;
use std::sync::atomic::{AtomicU64, Ordering};
use std::thread;
use std::thread::Threads;
use std::time::Clock;

/// Takes a task, turns it and puts it back, unless it has ended. What the last turn came to, where there was a task to take.
/// Those that have ended are all that the pass holds.
fn take_turns<W: Works, F: Fn(&mut W) -> Turn, Q: Wait>(
    rt: &Q,
    turn: &F,
    pass: &mut Pass<W>,
    row: &mut Vec<NumberedTask<W>>,
    ended: &AtomicU64,
) -> Option<Turn>
    requires turns { TurnsWell F.Fn turn.now W.works W.stays }
    requires row { IsPermutation (tasks_entries row.old.items) pass.old.held }
    requires room { length pass.old.opened ≤ vec_capacity row.old }
    ensures same { IsStillPass pass.old pass.new }
    ensures row { IsPermutation (tasks_entries row.new.items) pass.new.held }
    ensures room { vec_capacity row.new ≡ vec_capacity row.old }
{
    let Some(task) = pass.take(rt) else {
        return None;
    };
    let mut task = task;
    let came = turn_often(turn, &mut task.task);
    if came == Turn::Ended {
        row.push_reserved(task);
        ended.fetch_add(1, Ordering::SeqCst);
        return Some(came);
    }
    pass.put(rt, task);
    Some(came)
}

/// How many takes in a row came to nothing, if a take met an idle task or none. Without a task to take they count as a whole
/// round of so many.
fn idle_after(turn: Option<Turn>, idle: u64, round: u64) -> u64 {
    match turn {
        Some(Turn::Idle) => idle.saturating_add(1),
        Some(Turn::Moved | Turn::Ended) => 0,
        None => round,
    }
}

/// Takes turns of tasks until so many have ended, in whatever thread. Those that ended here stay in the row, and are all that
/// the pass holds. It rests after a round of takes in which nothing happened.
fn play<W: Works, F: Fn(&mut W) -> Turn, Q: Wait + Clock>(
    rt: &Q,
    turn: &F,
    pass: &mut Pass<W>,
    row: &mut Vec<NumberedTask<W>>,
    ended: &AtomicU64,
    count: u64,
)
    requires turns { TurnsWell F.Fn turn.now W.works W.stays }
    requires row { IsPermutation (tasks_entries row.old.items) pass.old.held }
    requires room { length pass.old.opened ≤ vec_capacity row.old }
    ensures same { IsStillPass pass.old pass.new }
    ensures row { IsPermutation (tasks_entries row.new.items) pass.new.held }
{
    let backoff = Backoff::new();
    let mut idle = 0;
    for _ in rt.forever() {
        if ended.load(Ordering::SeqCst) >= count {
            return;
        }
        idle = idle_after(take_turns(rt, turn, pass, row, ended), idle, count);
        if idle == 0 {
            backoff.reset();
        } else if idle >= count {
            rest(rt, &backoff);
        }
    }
    unreachable!()
}

/// The same at a seat.
fn play_at<W: Works, F: Fn(&mut W) -> Turn, Q: Wait + Clock>(
    rt: &Q,
    turn: &F,
    seat: &mut Seat<W>,
    ended: &AtomicU64,
    count: u64,
)
    requires turns { TurnsWell F.Fn turn.now W.works W.stays }
    requires seated { IsSeated seat.old }
    ensures { HasPlayed seat.old seat.new }
{
    play(rt, turn, &mut seat.pass, &mut seat.row, ended, count);
}

/// The same at each of some seats, in as many threads: one of them is the caller's, who also sits where a thread was refused.
pub(crate) fn play_each<
    W: Works + Send,
    F: Fn(&mut W) -> Turn + Sync,
    Q: Threads + Wait + Clock + Sync,
>(rt: &Q, turn: &F, seats: &mut [Seat<W>], threads: usize, ended: &AtomicU64, count: u64)
    requires turns { TurnsWell F.Fn turn.now W.works W.stays }
    requires threads { 0 < threads }
    requires seated { All IsSeated seats.old }
    ensures { (k : ℕ) (d : _) → k < length seats.old → HasPlayed (slice_index_or seats.old k d) (slice_index_or seats.new k d) }
{
    thread::for_each_mut(
        rt,
        seats,
        threads,
        &|_, seat: &mut Seat<W>|
            requires { IsSync Q.row × TurnsWell F.Fn turn.now W.works W.stays × IsSeated seat.now }
            ensures { HasPlayed seat.entry.now seat.exit.now }
        { play_at(rt, turn, seat, ended, count) },
    );
}
