//! Where the turns of a worker are taken: on a thread of its own, or where that was refused, by the one who started it.
ghost use Rattle.std.specs.Prelude.{◌≡◌};
ghost use Rattle.plan_workers.specs.Roles.{Role, WorksAs, StaysAs};
ghost use Rattle.plan_threads.specs.Seats.{SeatAs};

use crate::post::{Order, Post};
use cedr_io::{Gate, Source};
use cedr_worker::Turn;
use plan_workers::Worker;
use std::snapshot::Snapshot;
use std::sync::Wait;
use std::sync::atomic::Ordering;
use std::thread;
use std::thread::{Promise, PromisedHandle, Threads};
use std::time::Clock;

/// The worker that a thread was started with.
#[derive(Drop)]
pub struct Started<S: Source + Drop, R: Wait + Drop>(Snapshot<Worker<S, R>>);

impl<S: Source + Drop, R: Wait + Drop> Promise<Worker<S, R>> for Started<S, R> {
    // Whatever it was made for, the worker that comes back works as that.
    ghost kept_by = { λ p w. StaysAs S.rest S.faults p.0.value w };
}

#[derive(Drop)]
pub(crate) enum Seat<S: Source + Drop, R: Wait + Drop> {
    /// The thread was refused, so the one who started it turns the worker.
    Here(Worker<S, R>),
    Away(PromisedHandle<Worker<S, R>, Started<S, R>>),
}

/// Turns a worker until it has ended, or not at all where it is to be handed back.
fn run_there<S: Source + Drop, G: Gate + Drop, R: Wait + Drop, Q: Wait + Clock>(
    rt: &Q,
    worker: &mut Worker<S, R>,
    order: &Order<G>,
)
    requires { (role : Role) × WorksAs S.rest S.faults role worker.old }
    ensures { StaysAs S.rest S.faults worker.old worker.new }
{
    if order.turns() {
        worker.run(rt, &*order.gate);
        order.tell_end();
    }
}

/// Starts the thread of a worker. Where no thread can be made, its closure comes back: it is set to hand the worker
/// back unturned, and then called.
pub(crate) fn start<
    S: Source + Drop + Send + 'static,
    G: Gate + Drop + Send + 'static,
    R: Threads + Wait + Clock + Copy + Drop + Send + 'static,
>(rt: R, worker: Worker<S, R>, post: Post<G>) -> Seat<S, R>
    requires { (role : Role) × WorksAs S.rest S.faults role worker }
    ensures { (role : Role) → WorksAs S.rest S.faults role worker → SeatAs S.rest S.faults role result }
{
    let Post { unturned, order } = post;
    let mut worker = worker;
    let started = Started(Snapshot::of(&worker));
    match thread::spawn_with(
        &rt,
        started,
        move || -> Worker<S, R>
            requires { (role : Role) × WorksAs S.rest S.faults role worker }
            ensures { StaysAs S.rest S.faults worker result }
        {
            run_there(&rt, &mut worker, &order);
            worker
        },
    ) {
        Ok(handle) => Seat::Away(handle),
        Err(refused) => {
            unturned.store(true, Ordering::SeqCst);
            Seat::Here((refused.value)())
        }
    }
}

impl<S: Source + Drop, R: Wait + Drop> Seat<S, R> {
    /// A turn of a worker that has no thread. One that has a thread counts as ended here.
    pub(crate) fn turn<G: Gate, Q: Wait>(&mut self, rt: &Q, gate: &G) -> Turn
        requires { (role : Role) × SeatAs S.rest S.faults role self.old }
        ensures { (role : Role) → SeatAs S.rest S.faults role self.old → SeatAs S.rest S.faults role self.new }
    {
        match self {
            Seat::Here(worker) => worker.turn(rt, gate),
            Seat::Away(_) => Turn::Ended,
        }
    }

    /// Whether the worker has a thread.
    pub(crate) fn is_away(&self) -> bool {
        matches!(self, Seat::Away(_))
    }

    /// The worker, for whose thread it waits. It is as it was made for, whoever turned it.
    pub(crate) fn join<Q: Threads>(self, rt: &Q) -> Worker<S, R>
        ensures { (role : Role) → SeatAs S.rest S.faults role self → WorksAs S.rest S.faults role result }
    {
        match self {
            Seat::Here(worker) => worker,
            Seat::Away(handle) => handle.join(rt),
        }
    }
}
