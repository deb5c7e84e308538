ghost use Rattle.std.specs.Prelude.{◌≡◌, ◌≤◌, [], length, map, List, IfOk};
ghost use Rattle.std.specs.List.{All};
ghost use Rattle.std.specs.Vec.{vec_capacity};
ghost use Rattle.logbook.specs.Pages.{Book};
ghost use Rattle.cedr_edge.specs.Ends.{InEnd, OutEnd};
ghost use Rattle.cedr_plan.specs.Rules.{IsPlan};
ghost use Rattle.worker_outlets.specs.Outlets.{AllOver};
ghost use Rattle.plan_edges.specs.Wires.{AreWired, froms};
ghost use Rattle.cedr_worker.specs.OutputTurns.{OutputHasEnded as OutputEnded};
ghost use Rattle.plan_workers.specs.Roles.{Role, AllWorkAs, HasEnded, OperatesAs, ReadsAs, WorksAs, WritesAs};
ghost use Rattle.plan_workers.specs.Crews.{AreRoles};
ghost use Rattle.plan_workers.specs.Closings.{IsClosed, IsDesk};
ghost use Rattle.plan_workers.specs.Ends.{AllEndAs, EndsAs};
ghost use Rattle.plan_workers.specs.Wents.{part_left, putters_left, ran_left, takers_left};

use crate::ended::{Ended, Part};
use crate::held::{Held, HeldWriter};
use crate::worker::Worker;
use cedr_base::OutOfMemory;
use cedr_edge::EdgeRecord;
use cedr_io::Source;
use cedr_plan::Plan;
use cedr_worker::{OperatorEnd, OperatorWorker, OutputEnd, Ran, SourceEnd, SourceWorker};
use plan_edges::{Putters, Takers, close_wires};
use std::alloc::Global;
use std::sync::Wait;

/// What is left of a source's worker. The ends of its edges stand beside the rest.
fn end_source<S: Source + Drop, R: Wait + Drop>(
    alloc: Global,
    worker: SourceWorker<S>,
) -> Ended<S, R>
    requires works { (role : Role) × ReadsAs S.rest S.faults role worker }
    requires over { AllOver worker.outlets }
    ensures { (role : Role) → ReadsAs S.rest S.faults role worker → EndsAs S.rest S.faults role result }
{
    let SourceEnd {
        number,
        source,
        outputs,
        stop,
        ran,
    } = worker.finish();
    Ended {
        takers: Takers::from_vec(Vec::new(alloc)),
        putters: Putters::from_vec(outputs),
        ran,
        part: Part::Source(SourceEnd {
            number,
            source,
            outputs: Vec::new(alloc),
            stop,
            ran,
        }),
    }
}

/// What is left of the worker of a node that is neither a source nor an output.
fn end_operator<S: Source + Drop, R: Wait + Drop>(worker: OperatorWorker) -> Ended<S, R>
    requires works { (role : Role) × OperatesAs role worker }
    requires over { AllOver worker.outlets }
    ensures { (role : Role) → OperatesAs role worker → EndsAs S.rest S.faults role result }
{
    let OperatorEnd {
        number: _,
        node,
        inputs,
        outputs,
        lacked,
        ran,
    } = worker.finish();
    Ended {
        takers: Takers::from_vec(inputs),
        putters: Putters::from_vec(outputs),
        ran,
        part: Part::Operator(node, lacked),
    }
}

/// What is left of an output's worker.
fn end_output<S: Source + Drop, R: Wait + Drop>(alloc: Global, held: Held<R>) -> Ended<S, R>
    requires works { (role : Role) × WritesAs role held }
    requires ended { OutputEnded held.worker }
    ensures { (role : Role) → WritesAs role held → EndsAs S.rest S.faults role result }
{
    let (rt, worker, spare) = held.into_parts();
    let OutputEnd {
        number: _,
        node,
        input,
        writer,
        note: _note,
        lacked,
        ran,
    } = worker.finish();
    let mut takers = spare;
    takers.push_reserved(input);
    Ended {
        takers: Takers::from_vec(takers),
        putters: Putters::from_vec(Vec::new(alloc)),
        ran,
        part: Part::Output(node, lacked, HeldWriter::new(rt, writer)),
    }
}

impl<S: Source + Drop, R: Wait + Drop> Worker<S, R> {
    /// What is left of a worker that ended. It takes no memory.
    pub fn finish(self, alloc: Global) -> Ended<S, R>
        requires works { (role : Role) × WorksAs S.rest S.faults role self }
        requires ended { HasEnded self }
        ensures { (role : Role) → WorksAs S.rest S.faults role self → EndsAs S.rest S.faults role result }
    {
        match self {
            Worker::Source(worker) => end_source(alloc, worker),
            Worker::Operator(worker) => end_operator(worker),
            Worker::Output(held) => end_output(alloc, held),
        }
    }
}

/// Room for what is left of a plan's workers, so that putting it there takes no memory. All lists are empty.
#[derive(Drop)]
pub struct Desk<S: Source + Drop, R: Wait + Drop> {
    pub ends: Vec<Ended<S, R>>,
    pub takers: Vec<Takers>,
    pub putters: Vec<Putters>,
    pub ran: Vec<Ran>,
    pub parts: Vec<Part<S, R>>,
}

impl<S: Source + Drop, R: Wait + Drop> Desk<S, R> {
    /// Room for what is left of so many workers.
    pub fn new(alloc: Global, count: usize) -> Result<Desk<S, R>, OutOfMemory>
        ensures { IfOk result (λ desk. IsDesk count desk) }
    {
        Ok(Desk {
            ends: Vec::with_capacity(alloc, count)?,
            takers: Vec::with_capacity(alloc, count)?,
            putters: Vec::with_capacity(alloc, count)?,
            ran: Vec::with_capacity(alloc, count)?,
            parts: Vec::with_capacity(alloc, count)?,
        })
    }
}

/// What is left of each of some workers, in order. It takes no memory.
pub fn finish_each<S: Source + Drop, R: Wait + Drop>(
    alloc: Global,
    workers: Vec<Worker<S, R>>,
    room: Vec<Ended<S, R>>,
) -> Vec<Ended<S, R>>
    requires works { (roles : List Role) × AllWorkAs S.rest S.faults roles workers.items }
    requires ended { All HasEnded workers.items }
    requires room { (room.items ≡ []) × (length workers.items ≤ vec_capacity room) }
    ensures left { (roles : List Role) → AllWorkAs S.rest S.faults roles workers.items → AllEndAs S.rest S.faults roles result.items }
    ensures count { length result.items ≡ length workers.items }
{
    let mut ends = room;
    for worker in workers {
        ends.push_reserved(worker.finish(alloc));
    }
    ends
}

/// Puts what is left of each of some workers into lists, in order.
fn take_apart<S: Source + Drop, R: Wait + Drop>(
    ends: Vec<Ended<S, R>>,
    takers: &mut Vec<Takers>,
    putters: &mut Vec<Putters>,
    ran: &mut Vec<Ran>,
    parts: &mut Vec<Part<S, R>>,
)
    requires takers { (takers.old.items ≡ []) × (length ends.items ≤ vec_capacity takers.old) }
    requires putters { (putters.old.items ≡ []) × (length ends.items ≤ vec_capacity putters.old) }
    requires ran { (ran.old.items ≡ []) × (length ends.items ≤ vec_capacity ran.old) }
    requires parts { (parts.old.items ≡ []) × (length ends.items ≤ vec_capacity parts.old) }
    ensures takers { takers.new.items ≡ map takers_left ends.items }
    ensures putters { putters.new.items ≡ map putters_left ends.items }
    ensures ran { ran.new.items ≡ map ran_left ends.items }
    ensures parts { parts.new.items ≡ map part_left ends.items }
{
    for end in ends {
        let Ended {
            takers: taking,
            putters: putting,
            ran: done,
            part,
        } = end;
        takers.push_reserved(taking);
        putters.push_reserved(putting);
        ran.push_reserved(done);
        parts.push_reserved(part);
    }
}

/// What went over the edges of a plan, how much each worker's turns did, and the rest, each in the order of the plan.
#[derive(Drop)]
pub struct Closed<S: Source + Drop, R: Wait + Drop> {
    pub edges: Vec<EdgeRecord>,
    pub ran: Vec<Ran>,
    pub parts: Vec<Part<S, R>>,
}

/// Finishes all workers of a plan and closes all its edges. It takes no memory.
pub fn close_all<S: Source + Drop, R: Wait + Drop>(
    alloc: Global,
    plan: &Plan,
    workers: Vec<Worker<S, R>>,
    desk: Desk<S, R>,
    records: Vec<EdgeRecord>,
) -> Closed<S, R>
    requires plan { IsPlan plan.now }
    requires works { (takers : List (List InEnd)) × (putters : List (List OutEnd)) × (sources : List S) × (history : Book) × (roles : List Role) × AreWired plan.now.nodes.items takers putters × AreRoles S.rest S.faults plan.now.nodes.items takers putters sources history roles × AllWorkAs S.rest S.faults roles workers.items }
    requires ended { All HasEnded workers.items }
    requires desk { IsDesk (length workers.items) desk }
    requires records { (records.items ≡ []) × (length (froms plan.now.nodes.items) ≤ vec_capacity records) }
    ensures { IsClosed S.rest S.faults plan.now.nodes.items workers.items result }
{
    let Desk {
        ends,
        mut takers,
        mut putters,
        mut ran,
        mut parts,
    } = desk;
    let ends = finish_each(alloc, workers, ends);
    take_apart(ends, &mut takers, &mut putters, &mut ran, &mut parts);
    Closed {
        edges: close_wires(plan, takers, putters, records),
        ran,
        parts,
    }
}
