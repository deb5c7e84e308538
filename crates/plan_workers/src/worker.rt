ghost use Rattle.std.specs.Prelude.{◌≡◌};
ghost use Rattle.cedr_worker.specs.declared.turn.Turn.TheVariants.{Ended};
ghost use Rattle.plan_workers.specs.Roles.{Role, WorksAs, StaysAs, HasEnded};

use crate::held::Held;
use cedr_io::{Gate, Source};
use cedr_worker::{OperatorWorker, SourceWorker, Turn};
use std::sync::Wait;
use std::time::Clock;

/// The worker of one node of a plan.
#[derive(Drop)]
pub enum Worker<S: Source + Drop, R: Wait + Drop> {
    Source(SourceWorker<S>),
    Operator(OperatorWorker),
    Output(Held<R>),
}

impl<S: Source + Drop, R: Wait + Drop> Worker<S, R> {
    /// A turn of the worker, whose first step is to pass the gate. A worker that ended may be turned again, and answers so.
    pub fn turn<G: Gate, Q: Wait>(&mut self, rt: &Q, gate: &G) -> Turn
        requires { (role : Role) × WorksAs S.rest S.faults role self.old }
        ensures works { StaysAs S.rest S.faults self.old self.new }
        ensures ended { result ≡ Ended → HasEnded self.new }
    {
        match self {
            Worker::Source(worker) => worker.turn(rt, gate),
            Worker::Operator(worker) => worker.turn(rt, gate),
            Worker::Output(held) => held.worker.turn(rt, gate),
        }
    }

    /// Turns until the worker has ended. It isn't promised to return, since the workers beside it may never go on.
    pub fn run<G: Gate, Q: Wait + Clock>(&mut self, rt: &Q, gate: &G)
        requires { (role : Role) × WorksAs S.rest S.faults role self.old }
        ensures works { StaysAs S.rest S.faults self.old self.new }
        ensures ended { HasEnded self.new }
    {
        match self {
            Worker::Source(worker) => worker.run(rt, gate),
            Worker::Operator(worker) => worker.run(rt, gate),
            Worker::Output(held) => held.worker.run(rt, gate),
        }
    }
}
