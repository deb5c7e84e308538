ghost use Rattle.std.specs.Prelude.{◌≡◌};
ghost use Rattle.cedr_pool.specs.Turns.{TurnsWell};

use cedr_io::Source;
use cedr_worker::Turn;
use plan_workers::Worker;
use pool_queue::{Numbered, Placed, TaskPass};
use std::marker::Model;
use std::snapshot::Snapshot;
use std::sync::Wait;

/// What stays after each turn what it was made for.
pub(crate) trait Works: Drop {
    // it was made for something, and works as that
    ghost works: { Self → Type 0 };

    // whatever the first one was made for, the second works as that still
    ghost stays: { Self → Self → Type 0 };

    ghost still: { (x : Self) → stays x x };

    ghost goes: { (x y : Self) → works x → stays x y → works y };

    ghost on: { (x y z : Self) → stays x y → stays y z → stays x z };
}

impl<S: Source + Drop, R: Wait + Drop> Works for Worker<S, R> {
    ghost use Rattle.plan_workers.specs.Roles.{StaysAs};
    ghost use Rattle.cedr_pool.specs.Tasks.{HasRole};

    ghost works = { HasRole S.rest S.faults };

    ghost stays = { StaysAs S.rest S.faults };

    ghost still = { λ x role works. works };

    ghost goes = { λ x y works stays. (works.0, stays works.0 works.1) };

    ghost on = { λ x y z first then role works. then role (first role works) };
}

/// A worker that goes from thread to thread. Contracts see it as it was when the task was made: whatever that one was made
/// for, the worker works as that still.
pub struct Task<W: Works> {
    worker: W,
    first: Snapshot<W>,
}

impl<W: Works> Drop for Task<W> {
    fn drop(self) {
        let Task {
            worker: _,
            first: _,
        } = self;
    }
}

impl<W: Works> Model for Task<W> {
    ghost Value = { W };

    ghost view = { λ t. t.first.value };

    ghost invariant = { λ t. W.works t.first.value × W.stays t.first.value t.worker };
}

impl<W: Works> Placed<W> for Task<W> {
    ghost place = { λ w. w };
}

/// A task and its number, which is the place of its worker's node.
pub(crate) type NumberedTask<W> = Numbered<Task<W>>;

/// A pass of the queue of tasks.
pub(crate) type Pass<W> = TaskPass<Task<W>, W>;

/// How often a task is turned at most before it is put back.
const TURNS: usize = 64;

impl<W: Works> Task<W> {
    pub(crate) fn new(worker: W) -> Task<W>
        requires { W.works worker }
        ensures { result ≡ worker }
    {
        let first = Snapshot::of(&worker);
        Task { worker, first }
    }

    /// A turn of its worker.
    fn turn_by<F: Fn(&mut W) -> Turn>(&mut self, turn: &F) -> Turn
        requires { TurnsWell F.Fn turn.now W.works W.stays }
        ensures { self.new ≡ self.old }
    {
        turn(&mut self.worker)
    }

    /// The worker.
    pub(crate) fn into_worker(self) -> W
        ensures { W.stays self result }
    {
        let Task { worker, first: _ } = self;
        worker
    }
}

/// Some turns of a task, until one of them is idle or comes to its end. What the last one came to.
pub(crate) fn turn_often<W: Works, F: Fn(&mut W) -> Turn>(turn: &F, task: &mut Task<W>) -> Turn
    requires { TurnsWell F.Fn turn.now W.works W.stays }
    ensures { task.new ≡ task.old }
{
    for _i in 0..TURNS {
        let came = task.turn_by(turn);
        if came != Turn::Moved {
            return came;
        }
    }
    Turn::Moved
}
