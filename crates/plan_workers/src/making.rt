ghost use Rattle.std.specs.Prelude.{◌≡◌, ◌<◌, ◌≤◌, ◌+◌, ◌++◌, ◌∷◌, List, [], true, false, None, length, OnOk, OnErr, IfOk, IfErr};
ghost use Rattle.std.specs.Vec.{vec_capacity};
ghost use Rattle.logbook.specs.Pages.{Book};
ghost use Rattle.cedr_edge.specs.Ends.{InEnd, OutEnd};
ghost use Rattle.cedr_history.specs.Lists.{nothing};
ghost use Rattle.cedr_plan.specs.Rules.{IsPlan};
ghost use Rattle.cedr_plan.specs.Places.{is_output, is_source, source_count};
ghost use Rattle.cedr_text.specs.declared.event_line.Shape.{Shape};
ghost use Rattle.cedr_text.specs.declared.event_line.Shape.TheVariants.{AnyText};
ghost use Rattle.plan_edges.specs.Wires.{AreNew, AreWired, froms};
ghost use Rattle.plan_workers.specs.declared.worker.Worker.{Worker};
ghost use Rattle.plan_workers.specs.Crews.{IsCrew};
ghost use Rattle.plan_workers.specs.Making.{AllCanWork, AreMade, Awaits, CanWork, HasWriter, IsMade, IsNewWriter, role_for, sources_of_worker, sources_of};
ghost use Rattle.plan_workers.specs.Roles.{OperatesAs, ReadsAs, WritesAs};

use crate::held::{Held, HeldWriter};
use crate::worker::Worker;
use cedr_base::OutOfMemory;
use cedr_edge::EdgeRecord;
use cedr_history::{Reader, new_history};
use cedr_io::Source;
use cedr_node::Node;
use cedr_plan::{Plan, PlanNode, is_output, is_source};
use cedr_text::Shape;
use cedr_worker::{NoSource, OperatorWorker, OutputWorker, SourceWorker};
use plan_edges::{Putters, Takers, Wires, new_wires};
use std::alloc::Global;
use std::collections::VecDeque;
use std::sync::Wait;

/// Memory is lacking for a plan's workers. The sources are handed back as they were, in order; nothing was read of them.
#[derive(Drop)]
pub struct NoMemory<S: Drop> {
    pub sources: Vec<S>,
}

/// The workers of a plan, and what is made beside them before anything is read.
#[derive(Drop)]
pub struct Crew<S: Source + Drop, R: Wait + Drop> {
    /// One for each node, in the order of the plan.
    pub workers: Vec<Worker<S, R>>,
    /// The reader of the result.
    pub reader: Reader,
    /// Room for the record of each edge once it is closed.
    pub records: Vec<EdgeRecord>,
}

/// The workers that were made, the sources that no worker reads yet, and the writer of the result until an output has it.
#[derive(Drop)]
struct Making<S: Source + Drop, R: Wait + Drop> {
    workers: Vec<Worker<S, R>>,
    left: VecDeque<S>,
    writer: Option<HeldWriter<R>>,
}

/// The worker of a source's node, for the next source that is left.
fn make_source<S: Source + Drop>(
    alloc: Global,
    number: usize,
    node: &PlanNode,
    outs: Putters,
    left: &mut VecDeque<S>,
) -> Result<SourceWorker<S>, OutOfMemory>
    requires kind { is_source node.now.kind ≡ true }
    requires can { (takers : List InEnd) × CanWork node.now takers outs }
    requires some { 0 < length left.old.items }
    ensures made { IfOk result (λ w. (shape : Shape) × ((history : Book) → ReadsAs S.rest S.faults (role_for number node.now [] outs history shape (S.rest w.source) (S.faults w.source)) w)) }
    ensures source { IfOk result (λ w. left.old.items ≡ w.source ∷ left.new.items) }
    ensures err { OnErr result (left.new.items ≡ left.old.items) }
{
    let types = Vec::from_slice(alloc, node.types.as_slice())?;
    let Some(source) = left.pop_front() else {
        unreachable!()
    };
    match SourceWorker::new(alloc, number, source, Shape::Fields(types), outs.into_vec()) {
        Ok(worker) => Ok(worker),
        Err(NoSource { source }) => {
            left.push_front_reserved(source);
            Err(OutOfMemory)
        }
    }
}

/// The worker of a node that is neither a source nor an output.
fn make_operator(
    alloc: Global,
    number: usize,
    node: &PlanNode,
    ends: Takers,
    outs: Putters,
) -> Result<OperatorWorker, OutOfMemory>
    requires source { is_source node.now.kind ≡ false }
    requires output { is_output node.now.kind ≡ false }
    requires can { CanWork node.now ends outs }
    ensures { IfOk result (λ w. (history : Book) → OperatesAs (role_for number node.now ends outs history AnyText None 0) w) }
{
    let made = Node::new(alloc, node)?;
    OperatorWorker::new(alloc, number, made, ends.into_vec(), outs.into_vec())
}

/// The worker of an output's node, which has the writer.
fn make_output<R: Wait + Drop>(
    alloc: Global,
    number: usize,
    node: &PlanNode,
    ends: Takers,
    writer: HeldWriter<R>,
) -> Result<Held<R>, OutOfMemory>
    requires kind { is_output node.now.kind ≡ true }
    requires can { (putters : List OutEnd) × CanWork node.now ends putters }
    requires writer { (history : Book) × IsNewWriter history writer.writer }
    ensures { IfOk result (λ h. (history : Book) → IsNewWriter history writer.writer → WritesAs (role_for number node.now ends [] history AnyText None 0) h) }
{
    let made = Node::new(alloc, node)?;
    let mut ends = ends.into_vec();
    let Some(input) = ends.pop() else {
        unreachable!()
    };
    let (rt, writer) = writer.into_parts();
    let worker = OutputWorker::new(alloc, number, made, input, writer);
    Ok(Held::new(rt, worker, ends))
}

/// The worker of a node.
fn make_worker<S: Source + Drop, R: Wait + Drop>(
    alloc: Global,
    number: usize,
    node: &PlanNode,
    ends: Takers,
    outs: Putters,
    left: &mut VecDeque<S>,
    writer: &mut Option<HeldWriter<R>>,
) -> Result<Worker<S, R>, OutOfMemory>
    requires can { CanWork node.now ends outs }
    requires source { is_source node.now.kind ≡ true → 0 < length left.old.items }
    requires writer { is_output node.now.kind ≡ true → (history : Book) × HasWriter history writer.old }
    ensures made { IfOk result (λ w. (history : Book) → (is_output node.now.kind ≡ true → HasWriter history writer.old) → IsMade S.rest S.faults number node.now ends outs history w) }
    ensures sources { IfOk result (λ w. left.old.items ≡ sources_of_worker w ++ left.new.items) }
    ensures output { OnOk result (is_output node.now.kind ≡ true → writer.new ≡ None) }
    ensures other { OnOk result (is_output node.now.kind ≡ false → writer.new ≡ writer.old) }
    ensures err { OnErr result (left.new.items ≡ left.old.items) }
{
    if is_source(&node.kind) {
        return Ok(Worker::Source(make_source(alloc, number, node, outs, left)?));
    }
    if !is_output(&node.kind) {
        return Ok(Worker::Operator(make_operator(alloc, number, node, ends, outs)?));
    }
    let Some(writer) = writer.take() else {
        unreachable!()
    };
    Ok(Worker::Output(make_output(alloc, number, node, ends, writer)?))
}

/// The workers of some nodes, the first of which has this number. It goes as deep as there are nodes.
fn make_workers<S: Source + Drop, R: Wait + Drop>(
    alloc: Global,
    number: usize,
    nodes: &[PlanNode],
    takers: VecDeque<Takers>,
    putters: VecDeque<Putters>,
    making: &mut Making<S, R>,
) -> Result<(), OutOfMemory>
    requires can { AllCanWork nodes.now takers.items putters.items }
    requires few { number + length nodes.now ≤ 64 }
    requires sources { length making.old.left.items ≡ source_count nodes.now }
    requires writer { (history : Book) × Awaits history making.old.writer nodes.now }
    requires room { length making.old.workers.items + length nodes.now ≤ vec_capacity making.old.workers }
    ensures made { OnOk result ((history : Book) → Awaits history making.old.writer nodes.now → (made : List (Worker S R)) × ((making.new.workers.items ≡ making.old.workers.items ++ made) × AreMade S.rest S.faults number nodes.now takers.items putters.items making.old.left.items history made)) }
    ensures sources { sources_of making.new.workers.items ++ making.new.left.items ≡ sources_of making.old.workers.items ++ making.old.left.items }
{
    let mut takers = takers;
    let mut putters = putters;
    let Some((node, others)) = nodes.split_first() else {
        return Ok(());
    };
    let Some(ends) = takers.pop_front() else {
        unreachable!()
    };
    let Some(outs) = putters.pop_front() else {
        unreachable!()
    };
    let worker = make_worker(
        alloc,
        number,
        node,
        ends,
        outs,
        &mut making.left,
        &mut making.writer,
    )?;
    making.workers.push_reserved(worker);
    make_workers(alloc, number + 1, others, takers, putters, making)
}

/// The source of a worker goes after the others.
fn keep_source<S: Source + Drop, R: Wait + Drop>(sources: &mut Vec<S>, worker: Worker<S, R>)
    requires { length sources.old.items + length (sources_of_worker worker) ≤ vec_capacity sources.old }
    ensures sources { sources.new.items ≡ sources.old.items ++ sources_of_worker worker }
    ensures room { vec_capacity sources.new ≡ vec_capacity sources.old }
{
    if let Worker::Source(worker) = worker {
        sources.push_reserved(worker.into_source());
    }
}

/// The sources of the workers that were made and then those that are left, in a list that has room for them.
fn give_back<S: Source + Drop, R: Wait + Drop>(room: Vec<S>, making: Making<S, R>) -> Vec<S>
    requires none { room.items ≡ [] }
    requires room { length (sources_of making.workers.items ++ making.left.items) ≤ vec_capacity room }
    ensures { result.items ≡ sources_of making.workers.items ++ making.left.items }
{
    let Making {
        workers,
        mut left,
        writer: _writer,
    } = making;
    let mut sources = room;
    let mut workers = VecDeque::from_vec(workers);
    while let Some(worker) = workers.pop_front() {
        keep_source(&mut sources, worker);
    }
    while let Some(source) = left.pop_front() {
        sources.push_reserved(source);
    }
    sources
}

/// The edges of a plan, and the two ends of the result's history.
fn open_edges<R: Wait + Drop>(
    alloc: Global,
    rt: R,
    plan: &Plan,
) -> Result<(Wires, HeldWriter<R>, Reader), OutOfMemory>
    requires { IsPlan plan.now }
    ensures wired { IfOk result (λ r. AreWired plan.now.nodes.items r.0.takers.items r.0.putters.items) }
    ensures new { IfOk result (λ r. AreNew plan.now.edge r.0.takers.items r.0.putters.items) }
    ensures records { IfOk result (λ r. (r.0.records.items ≡ []) × (length (froms plan.now.nodes.items) ≤ vec_capacity r.0.records)) }
    ensures writer { IfOk result (λ r. IsNewWriter r.2.history r.1.writer) }
    ensures reader { IfOk result (λ r. (r.2.seen ≡ nothing) × (r.2.last ≡ None)) }
{
    let wires = new_wires(alloc, plan)?;
    let (writer, reader) = new_history(alloc, &rt)?;
    Ok((wires, HeldWriter::new(rt, writer), reader))
}

/// The workers of a plan over its edges, which are made with them. Nothing is read. Where memory is lacking the sources
/// are handed back, and all that was made is dropped.
pub fn new_crew<S: Source + Drop, R: Wait + Drop>(
    alloc: Global,
    rt: R,
    plan: &Plan,
    sources: Vec<S>,
) -> Result<Crew<S, R>, NoMemory<S>>
    requires plan { IsPlan plan.now }
    requires sources { length sources.items ≡ source_count plan.now.nodes.items }
    ensures made { IfOk result (λ crew. IsCrew S.rest S.faults plan.now.nodes.items sources.items crew.workers.items crew.reader) }
    ensures records { IfOk result (λ crew. (crew.records.items ≡ []) × (length (froms plan.now.nodes.items) ≤ vec_capacity crew.records)) }
    ensures err { IfErr result (λ e. e.sources.items ≡ sources.items) }
{
    let nodes = plan.nodes.as_slice();
    let Ok(room) = Vec::with_capacity(alloc, sources.len()) else {
        return Err(NoMemory { sources });
    };
    let Ok(workers) = Vec::with_capacity(alloc, nodes.len()) else {
        return Err(NoMemory { sources });
    };
    let Ok((wires, writer, reader)) = open_edges(alloc, rt, plan) else {
        return Err(NoMemory { sources });
    };
    let mut making = Making {
        workers,
        left: VecDeque::from_vec(sources),
        writer: Some(writer),
    };
    let takers = VecDeque::from_vec(wires.takers);
    let putters = VecDeque::from_vec(wires.putters);
    match make_workers(alloc, 0, nodes, takers, putters, &mut making) {
        Ok(()) => Ok(Crew {
            workers: making.workers,
            reader,
            records: wires.records,
        }),
        Err(_) => Err(NoMemory {
            sources: give_back(room, making),
        }),
    }
}
