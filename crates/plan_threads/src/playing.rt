//! All workers of a plan, from the start of their threads until each has ended.
ghost use Rattle.std.specs.Prelude.{◌≡◌, ◌≤◌, [], List, false, length};
ghost use Rattle.std.specs.List.{All};
ghost use Rattle.std.specs.Vec.{vec_capacity};
ghost use Rattle.plan_workers.specs.Roles.{Role, AllWorkAs, HasEnded};
ghost use Rattle.plan_threads.specs.Seats.{AllSeatAs};
ghost use Rattle.plan_report.specs.Watching.{IsAskedNoMore, ReadsOn, Watches};

use crate::post::Post;
use crate::rounds::{join_each, start_each, turn_here};
use crate::seat::Seat;
use cedr_history::Reader;
use cedr_io::{Gate, Source};
use cedr_worker::rest;
use crossbeam_utils::Backoff;
use plan_report::{Watcher, look_once, turn_on};
use plan_workers::Worker;
use std::collections::VecDeque;
use std::snapshot::Snapshot;
use std::sync::Wait;
use std::sync::atomic::{AtomicU64, Ordering};
use std::thread::Threads;
use std::time::Clock;

/// How many workers have a thread of their own.
fn count_away<S: Source + Drop, R: Wait + Drop>(seats: &[Seat<S, R>]) -> usize {
    seats.iter().filter(|seat| seat.is_away()).count()
}

/// Turns the workers that have no thread and lets the watcher look, in rounds, until each worker has ended. It rests
/// after a round in which nothing happened here. Whether the watcher may be asked again.
fn wait_for_each<S: Source + Drop, G: Gate, W: Watcher, R: Wait + Drop, Q: Wait + Clock>(
    rt: &Q,
    gate: &G,
    ended: &AtomicU64,
    seats: &mut Vec<Seat<S, R>>,
    reader: &mut Reader,
    watcher: &mut W,
    out: &mut W::Out,
    start: &Snapshot<W::Out>,
) -> bool
    requires seats { (roles : List Role) × AllSeatAs S.rest S.faults roles seats.old.items }
    requires watches { Watches (W.stands start.now.value) watcher.old out.old reader.old }
    ensures seats { (roles : List Role) → AllSeatAs S.rest S.faults roles seats.old.items → AllSeatAs S.rest S.faults roles seats.new.items }
    ensures reads { ReadsOn reader.old reader.new }
    ensures watches { Watches (W.stands start.now.value) watcher.new out.new reader.new }
    ensures asked { W.lacked watcher.old ≡ false → IsAskedNoMore (W.lacked watcher.new) result }
{
    let away = count_away(seats.as_slice()) as u64;
    let mut looks = true;
    let backoff = Backoff::new();
    for _ in rt.forever() {
        let over = ended.load(Ordering::SeqCst) >= away;
        let round = turn_here(rt, gate, seats);
        looks = look_once(looks, reader, watcher, out, start);
        if over && round.ended {
            return looks;
        }
        if round.moved {
            backoff.reset();
        } else {
            rest(rt, &backoff);
        }
    }
    unreachable!()
}

/// Each worker after it has ended, and whether the watcher may be asked again.
#[derive(Drop)]
pub(crate) struct Played<S: Source + Drop, R: Wait + Drop> {
    pub(crate) workers: Vec<Worker<S, R>>,
    pub(crate) looks: bool,
}

/// Starts a thread for each worker, waits until each has ended, and joins the threads. A worker that a thread gave back before
/// its end is turned here.
pub(crate) fn play<
    S: Source + Drop + Send + 'static,
    G: Gate + Drop + Send + 'static,
    W: Watcher,
    R: Threads + Wait + Clock + Copy + Drop + Send + 'static,
>(
    rt: R,
    gate: &G,
    workers: Vec<Worker<S, R>>,
    posts: VecDeque<Post<G>>,
    seats: Vec<Seat<S, R>>,
    joined: Vec<Worker<S, R>>,
    ended: &AtomicU64,
    reader: &mut Reader,
    watcher: &mut W,
    out: &mut W::Out,
    start: &Snapshot<W::Out>,
) -> Played<S, R>
    requires works { (roles : List Role) × AllWorkAs S.rest S.faults roles workers.items }
    requires posts { length posts.items ≡ length workers.items }
    requires seats { (seats.items ≡ []) × (length workers.items ≤ vec_capacity seats) }
    requires joined { (joined.items ≡ []) × (length workers.items ≤ vec_capacity joined) }
    requires watches { Watches (W.stands start.now.value) watcher.old out.old reader.old }
    ensures works { (roles : List Role) → AllWorkAs S.rest S.faults roles workers.items → AllWorkAs S.rest S.faults roles result.workers.items }
    ensures ended { All HasEnded result.workers.items }
    ensures reads { ReadsOn reader.old reader.new }
    ensures watches { Watches (W.stands start.now.value) watcher.new out.new reader.new }
    ensures asked { W.lacked watcher.old ≡ false → IsAskedNoMore (W.lacked watcher.new) result.looks }
{
    let mut seats = seats;
    let mut joined = joined;
    start_each(rt, VecDeque::from_vec(workers), posts, &mut seats);
    let looks = wait_for_each(&rt, gate, ended, &mut seats, reader, watcher, out, start);
    join_each(&rt, VecDeque::from_vec(seats), &mut joined);
    turn_on(&rt, gate, &mut joined);
    Played {
        workers: joined,
        looks,
    }
}
