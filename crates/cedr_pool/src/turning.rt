//! All workers of a plan, from their tasks until each has ended.
ghost use Rattle.std.specs.Prelude.{◌≡◌, ◌≤◌, ◌<◌, [], List, length, map};
ghost use Rattle.std.specs.List.{All};
ghost use Rattle.std.specs.Vec.{vec_capacity};
ghost use Rattle.pool_queue.specs.Passes.{AreAllOf};
ghost use Rattle.cedr_pool.specs.Rooms.{HasRoomBack, HasRoomIn};
ghost use Rattle.cedr_pool.specs.Seats.{HasEndedTasks, IsSeated, pass_of};
ghost use Rattle.cedr_pool.specs.Tasks.{AllStay, numbered_from};
ghost use Rattle.cedr_pool.specs.Turns.{TurnsWell};

use crate::gathering::{gather, sort_tasks, take_workers};
use crate::playing::play_each;
use crate::room::{RoomBack, RoomIn};
use crate::seat::Seat;
use crate::seating::{open_each, seat_each};
use crate::task::Works;
use cedr_worker::Turn;
use std::collections::VecDeque;
use std::sync::Wait;
use std::sync::atomic::AtomicU64;
use std::thread::Threads;
use std::time::Clock;

/// Puts the workers into the queue of the pool, and answers its seats.
fn sit_down<W: Works, Q: Wait>(
    rt: &Q,
    crew: Vec<W>,
    threads: usize,
    room: RoomIn<W>,
) -> Vec<Seat<W>>
    requires works { All W.works crew.items }
    requires threads { (1 ≤ threads) × (threads ≤ 16) }
    requires room { HasRoomIn (length crew.items) threads room }
    ensures count { length result.items ≡ threads }
    ensures seated { All IsSeated result.items }
    ensures all { AreAllOf (numbered_from 0 crew.items) (map pass_of result.items) }
{
    let RoomIn {
        queue,
        opened,
        rows,
        seats,
    } = room;
    let tasks = open_each(crew, opened);
    let passes = queue.fill(rt, tasks);
    seat_each(passes, rows, seats)
}

/// The workers that went into the queue whose passes sit here, in their order.
fn come_back<W: Works + Send, Q: Wait>(rt: &Q, seats: Vec<Seat<W>>, room: RoomBack<W>) -> Vec<W>
    requires all { (crew : List W) × AreAllOf (numbered_from 0 crew) (map pass_of seats.items) × HasRoomBack (length crew) (length seats.items) room }
    requires ended { All HasEndedTasks seats.items }
    ensures { (crew : List W) → AreAllOf (numbered_from 0 crew) (map pass_of seats.items) → AllStay W.stays crew result.items }
{
    let RoomBack {
        passes,
        rows,
        tasks,
        workers,
    } = room;
    let mut workers = workers;
    let mut tasks = gather(rt, seats, passes, rows, tasks);
    sort_tasks(&mut tasks);
    take_workers(VecDeque::from_vec(tasks), &mut workers);
    workers
}

/// Turns workers in so many threads, one of which is the caller's, until each has ended. Whatever they were
/// made for, they work as that still.
pub(crate) fn turn_all<
    W: Works + Send,
    F: Fn(&mut W) -> Turn + Sync,
    Q: Threads + Wait + Clock + Sync,
>(
    rt: &Q,
    turn: &F,
    crew: Vec<W>,
    threads: usize,
    room_in: RoomIn<W>,
    room_back: RoomBack<W>,
) -> Vec<W>
    requires turns { TurnsWell F.Fn turn.now W.works W.stays }
    requires works { All W.works crew.items }
    requires threads { (1 ≤ threads) × (threads ≤ 16) }
    requires room_in { HasRoomIn (length crew.items) threads room_in }
    requires room_back { HasRoomBack (length crew.items) threads room_back }
    ensures { AllStay W.stays crew.items result.items }
{
    let count = crew.len() as u64;
    let mut seats = sit_down(rt, crew, threads, room_in);
    let ended = AtomicU64::new(0);
    play_each(rt, turn, seats.as_mut_slice(), threads, &ended, count);
    come_back(rt, seats, room_back)
}
