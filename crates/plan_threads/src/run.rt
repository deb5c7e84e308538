ghost use Rattle.std.specs.Prelude.{◌≡◌, [], List, true, false, IfErr, IfOk, OnErr, length};
ghost use Rattle.cedr_base.specs.declared.change.Change.{Change};
ghost use Rattle.cedr_plan.specs.Rules.{IsPlan};
ghost use Rattle.cedr_plan.specs.Places.{source_count};
ghost use Rattle.plan_report.specs.declared.report.Outcome.TheVariants.{Done, Memory};
ghost use Rattle.plan_report.specs.Reports.{IsReport};
ghost use Rattle.plan_report.specs.SoFar.{IsSoFar};

use crate::playing::play;
use crate::room::Room;
use cedr_io::{Gate, Source};
use cedr_plan::Plan;
use plan_report::{Report, Watcher, report_run};
use plan_workers::{Crew, NoMemory, new_crew};
use std::alloc::Global;
use std::snapshot::Snapshot;
use std::sync::{Arc, Wait};
use std::thread::Threads;
use std::time::Clock;

/// Runs a plan over sources, one for each of its source nodes in order, with a thread for each worker. The watcher
/// looks at the result while it grows, and reports it to `out`. It stands for the whole of it at
/// [`plan_report::Outcome::Done`], and at any outcome for first changes of what the output gives in a partial run over what
/// was read of the sources. Where a look lacked memory the outcome is [`plan_report::Outcome::Memory`].
///
/// All edges, the ends of the result and the lists for the threads are made before anything is read; where memory is lacking
/// for them the sources are handed back. A worker whose thread is refused is turned by the caller, beside the looks of the
/// watcher. Each turn of a worker passes the gate with the node's place. It returns once each worker has ended and each thread
/// was joined; that this ever comes isn't promised.
pub fn run_threads<
    S: Source + Drop + Send + 'static,
    G: Gate + Drop + Send + 'static,
    W: Watcher,
    R: Threads + Wait + Clock + Copy + Drop + Send + 'static,
>(
    rt: R,
    alloc: Global,
    plan: &Plan,
    sources: Vec<S>,
    watcher: &mut W,
    out: &mut W::Out,
    gate: &Arc<G, Global>,
) -> Result<Report<S>, NoMemory<S>>
    requires plan { IsPlan plan.now }
    requires sources { length sources.items ≡ source_count plan.now.nodes.items }
    requires watcher { W.stands out.old watcher.old out.old [] }
    ensures report { IfOk result (λ report. IsReport S.rest S.faults plan.now.nodes.items sources.items report) }
    ensures so_far { IfOk result (λ report. (list : List Change) × (W.stands out.old watcher.new out.new list × IsSoFar S.rest S.faults plan.now.nodes.items sources.items report.sources.items list)) }
    ensures whole { IfOk result (λ report. report.outcome ≡ Done → W.stands out.old watcher.new out.new report.changes.items) }
    ensures short { W.lacked watcher.old ≡ false → W.lacked watcher.new ≡ true → IfOk result (λ report. report.outcome ≡ Memory) }
    ensures err { IfErr result (λ e. e.sources.items ≡ sources.items) }
    ensures unwatched { OnErr result ((watcher.new ≡ watcher.old) × (out.new ≡ out.old)) }
{
    let start = Snapshot::of(&*out);
    let Ok(room) = Room::new(alloc, plan.nodes.len(), gate) else {
        return Err(NoMemory { sources });
    };
    let crew = new_crew(alloc, rt, plan, sources)?;
    let Crew {
        workers,
        mut reader,
        records,
    } = crew;
    let played = play(
        rt,
        &**gate,
        workers,
        room.posts,
        room.seats,
        room.joined,
        &*room.ended,
        &mut reader,
        watcher,
        out,
        &start,
    );
    Ok(report_run(
        &rt,
        alloc,
        plan,
        played.workers,
        records,
        room.report,
        played.looks,
        reader,
        watcher,
        out,
        &start,
    ))
}
