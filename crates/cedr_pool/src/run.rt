ghost use Rattle.std.specs.Prelude.{◌≡◌, ◌≤◌, ◌<◌, IfErr, IfOk, length};
ghost use Rattle.cedr_plan.specs.Rules.{IsPlan};
ghost use Rattle.cedr_plan.specs.Places.{source_count};
ghost use Rattle.cedr_pool.specs.Rooms.{HasRoomBack, HasRoomIn};
ghost use Rattle.cedr_pool.specs.Tasks.{HasRole};
ghost use Rattle.plan_workers.specs.Roles.{StaysAs};
ghost use Rattle.plan_report.specs.Reports.{IsReport};
ghost use Rattle.plan_report.specs.Rooms.{IsReportRoom};

use crate::room::{RoomBack, RoomIn};
use crate::turning::turn_all;
use cedr_base::OutOfMemory;
use cedr_io::{Gate, Source};
use cedr_plan::Plan;
use cedr_worker::Turn;
use plan_report::{NoMemory, Quiet, Report, ReportRoom, report_run, turn_on};
use plan_workers::{Crew, Worker, new_crew};
use std::alloc::Global;
use std::snapshot::Snapshot;
use std::sync::Wait;
use std::thread::Threads;
use std::time::Clock;

/// What is made for a run in a pool before its workers.
#[derive(Drop)]
struct Rooms<S: Source + Drop + Send, R: Wait + Drop + Send> {
    room_in: RoomIn<Worker<S, R>>,
    room_back: RoomBack<Worker<S, R>>,
    report: ReportRoom<S, R>,
}

/// Room for so many nodes and threads.
fn new_rooms<S: Source + Drop + Send, R: Wait + Drop + Send>(
    alloc: Global,
    count: usize,
    threads: usize,
) -> Result<Rooms<S, R>, OutOfMemory>
    requires { 0 < count }
    ensures room_in { IfOk result (λ rooms. HasRoomIn count threads rooms.room_in) }
    ensures room_back { IfOk result (λ rooms. HasRoomBack count threads rooms.room_back) }
    ensures report { IfOk result (λ rooms. IsReportRoom count rooms.report) }
{
    Ok(Rooms {
        room_in: RoomIn::new(alloc, count, threads)?,
        room_back: RoomBack::new(alloc, count, threads)?,
        report: ReportRoom::new(alloc, count)?,
    })
}

/// Runs a plan over sources, one for each of its source nodes in order, with so many threads for all its workers, from 1
/// to 16, one of which is the caller's.
///
/// All edges, the ends of the result, the queue of the tasks and the lists for the threads are made before anything is read;
/// where memory is lacking for them the sources are handed back. Each turn of a worker passes the gate with the node's place.
/// Where a thread is refused, the caller takes turns in its place. It returns once each worker has ended and each thread was
/// joined; that this ever comes isn't promised. The result is read at the end.
pub fn run_pool<
    S: Source + Drop + Send,
    G: Gate,
    R: Threads + Wait + Clock + Copy + Drop + Send + Sync,
>(
    rt: R,
    alloc: Global,
    workers: usize,
    plan: &Plan,
    sources: Vec<S>,
    gate: &G,
) -> Result<Report<S>, NoMemory<S>>
    requires plan { IsPlan plan.now }
    requires sources { length sources.items ≡ source_count plan.now.nodes.items }
    requires workers { (1 ≤ workers) × (workers ≤ 16) }
    ensures report { IfOk result (λ report. IsReport S.rest S.faults plan.now.nodes.items sources.items report) }
    ensures err { IfErr result (λ e. e.sources.items ≡ sources.items) }
{
    let Ok(rooms) = new_rooms(alloc, plan.nodes.len(), workers) else {
        return Err(NoMemory { sources });
    };
    let crew = new_crew(alloc, rt, plan, sources)?;
    let Crew {
        workers: crew,
        reader,
        records,
    } = crew;
    let turn = |worker: &mut Worker<S, R>| -> Turn
        requires { HasRole S.rest S.faults worker.now }
        ensures { StaysAs S.rest S.faults worker.entry.now worker.exit.now }
    { worker.turn(&rt, gate) };
    let mut turned = turn_all(&rt, &turn, crew, workers, rooms.room_in, rooms.room_back);
    turn_on(&rt, gate, &mut turned);
    let mut quiet = Quiet::new(alloc);
    let start = Snapshot::of(&());
    Ok(report_run(
        &rt,
        alloc,
        plan,
        turned,
        records,
        rooms.report,
        true,
        reader,
        &mut quiet,
        &mut (),
        &start,
    ))
}
