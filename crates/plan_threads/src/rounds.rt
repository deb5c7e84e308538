//! Rounds over the workers that have no thread of their own.
ghost use Rattle.std.specs.Prelude.{◌≡◌, ◌≤◌, ◌+◌, ◌++◌, ◌∷◌, [], List, length, IfSome, IfNone};
ghost use Rattle.std.specs.Vec.{vec_capacity};
ghost use Rattle.plan_workers.specs.Roles.{Role, AllWorkAs};
ghost use Rattle.plan_threads.specs.Seats.{AllSeatAs};

use crate::post::Post;
use crate::seat::{Seat, start};
use cedr_io::{Gate, Source};
use cedr_worker::Turn;
use plan_workers::Worker;
use std::collections::VecDeque;
use std::sync::Wait;
use std::thread::Threads;
use std::time::Clock;

/// What a round came to.
#[derive(Clone, Copy)]
pub(crate) struct Round {
    /// Something happened in a turn.
    pub(crate) moved: bool,
    /// Each worker that was turned has ended.
    pub(crate) ended: bool,
}

/// A turn of each worker that has no thread.
pub(crate) fn turn_here<S: Source + Drop, G: Gate, R: Wait + Drop, Q: Wait>(
    rt: &Q,
    gate: &G,
    seats: &mut Vec<Seat<S, R>>,
) -> Round
    requires { (roles : List Role) × AllSeatAs S.rest S.faults roles seats.old.items }
    ensures { (roles : List Role) → AllSeatAs S.rest S.faults roles seats.old.items → AllSeatAs S.rest S.faults roles seats.new.items }
{
    let mut round = Round {
        moved: false,
        ended: true,
    };
    for i in 0..seats.len() {
        let seat = &mut seats[i];
        let turn = seat.turn(rt, gate);
        round.moved = round.moved | (turn == Turn::Moved);
        round.ended = round.ended & (turn == Turn::Ended);
    }
    round
}

/// Takes the first element out, where there is one.
fn next_of<X>(queue: &mut VecDeque<X>) -> Option<X>
    ensures some { IfSome result (λ x. queue.old.items ≡ x ∷ queue.new.items) }
    ensures none { IfNone result (queue.old.items ≡ []) }
{
    queue.pop_front()
}

/// Starts a thread for each worker, in the order of the plan. `seats` has room for them.
pub(crate) fn start_each<
    S: Source + Drop + Send + 'static,
    G: Gate + Drop + Send + 'static,
    R: Threads + Wait + Clock + Copy + Drop + Send + 'static,
>(rt: R, workers: VecDeque<Worker<S, R>>, posts: VecDeque<Post<G>>, seats: &mut Vec<Seat<S, R>>)
    requires works { (roles : List Role) × AllWorkAs S.rest S.faults roles workers.items }
    requires posts { length posts.items ≡ length workers.items }
    requires room { length seats.old.items + length workers.items ≤ vec_capacity seats.old }
    ensures { (roles : List Role) (before : List Role) → AllWorkAs S.rest S.faults roles workers.items → AllSeatAs S.rest S.faults before seats.old.items → AllSeatAs S.rest S.faults (before ++ roles) seats.new.items }
{
    let mut workers = workers;
    let mut posts = posts;
    let Some(worker) = next_of(&mut workers) else {
        return;
    };
    let Some(post) = next_of(&mut posts) else {
        unreachable!()
    };
    seats.push_reserved(start(rt, worker, post));
    start_each(rt, workers, posts, seats);
}

/// Waits for each thread. `workers` has room for what they give back, in the order of the plan.
pub(crate) fn join_each<S: Source + Drop, R: Wait + Drop, Q: Threads>(
    rt: &Q,
    seats: VecDeque<Seat<S, R>>,
    workers: &mut Vec<Worker<S, R>>,
)
    requires room { length workers.old.items + length seats.items ≤ vec_capacity workers.old }
    ensures { (roles : List Role) (before : List Role) → AllSeatAs S.rest S.faults roles seats.items → AllWorkAs S.rest S.faults before workers.old.items → AllWorkAs S.rest S.faults (before ++ roles) workers.new.items }
{
    let mut seats = seats;
    let Some(seat) = next_of(&mut seats) else {
        return;
    };
    workers.push_reserved(seat.join(rt));
    join_each(rt, seats, workers);
}
