//! The answer of a plan whose workers run on threads.
ghost use Rattle.std.specs.Prelude.{◌≡◌, ◌≢◌, ◌<◌, IfErr, IfOk, List, ℕ, length};
ghost use Rattle.std.specs.List.{All};
ghost use Rattle.plan_answer.specs.Finds.{AreFound};
ghost use Rattle.cedr_io.specs.Counts.{last_count};
ghost use Rattle.cedr_plan.specs.Rules.{IsPlan};
ghost use Rattle.cedr_plan.specs.Places.{source_count};
ghost use Rattle.plan_answer.specs.Sources.{AsksFirst, source_files};
ghost use Rattle.plan_report.specs.Reports.{IsReport};
ghost use Rattle.cedr_commands.specs.declared.command.Job.{Job};
ghost use Rattle.cedr_commands.specs.declared.command.Job.TheVariants.{Stream};
ghost use Rattle.cedr_commands.specs.declared.outcome.Outcome.TheVariants as outcome;
ghost use Rattle.cedr_commands.specs.Commands.{Command};
ghost use Rattle.cedr_commands.specs.Outcomes.{CommandEnds, AsksOnly};
ghost use Rattle.cedr_commands.specs.Seen.{SinkSeen, seen_files, seen_sink};
ghost use Rattle.cedr_run.specs.Strong.{StreamsPlan, WroteStrong};
ghost use Rattle.cedr_run.specs.Threads.{AreBare, IsReported, IsStreamed, IsThreaded, RunEnds, WroteRun};

use crate::progress::Progress;
use crate::streaming::Streamer;
use crate::telling::{end_of, end_of_stream};
use cedr_commands::{Job, Outcome, open_plan};
use cedr_edge::EdgeRecord;
use cedr_guard::message_laws;
use cedr_io::{Files, Gate, OutsideFault, Sink, Source};
use cedr_plan::Plan;
use cedr_pool::run_pool;
use cedr_worker::Ran;
use plan_answer::{accepted_sources, find_sources, give_back_each, streamed_changes};
use plan_report::{NoMemory, Quiet, Report};
use plan_threads::run_threads;
use plan_workers::give_back_ends;
use std::alloc::Global;
use std::sync::{Arc, Wait};
use std::thread::Threads;
use std::time::Clock;

/// How a run on threads went, the closed edges, and how much the turns of each worker did.
#[derive(Drop)]
pub(crate) struct Threaded {
    pub(crate) outcome: Outcome,
    pub(crate) edges: Vec<EdgeRecord>,
    pub(crate) ran: Vec<Ran>,
}

/// No worker took a turn.
fn without(alloc: Global, outcome: Outcome) -> Threaded
    ensures outcome { result.outcome ≡ outcome }
    ensures bare { AreBare result.edges.items result.ran.items }
{
    Threaded {
        outcome,
        edges: Vec::new(alloc),
        ran: Vec::new(alloc),
    }
}

/// Gives the sources of a run back, and writes its text or says why there is none. It is the same for each command that writes
/// its rows at the end.
fn tell<F: Files, K: Sink>(
    alloc: Global,
    plan: &Plan,
    report: Report<F::Source>,
    files: &mut F,
    out: &mut K,
) -> Threaded
where
    F::Source: Drop,
    requires plan { IsPlan plan.now }
    requires files_count { F.faults files.old < last_count }
    requires out_counts { K.faults out.old < last_count }
    requires report { IsReported F.Source.rest F.Source.faults (F.content files.old) plan.now.nodes.items report }
    ensures ends { (job : Job) → IsThreaded job → job ≢ Stream → RunEnds job plan.now.nodes.items (seen_files F.content F.faults F.asked files.old) (seen_files F.content F.faults F.asked files.new)
        (seen_sink K.written K.faults out.old) (seen_sink K.written K.faults out.new) result.edges.items result.ran.items result.outcome }
    ensures asked { F.asked files.new ≡ F.asked files.old }
    ensures contents { (n : List ℕ) → F.content files.new n ≡ F.content files.old n }
{
    accepted_sources();
    let Report {
        outcome,
        forgotten,
        edges,
        ran,
        changes,
        sources,
    } = report;
    give_back_ends(files, sources);
    let nodes = plan.nodes.as_slice();
    let outcome = end_of(alloc, nodes, outcome, &changes, &forgotten, out);
    Threaded {
        outcome,
        edges,
        ran,
    }
}

/// Gives the sources of a stream back, of whose changes so much was written, and ends it.
fn tell_stream<F: Files, K: Sink>(
    alloc: Global,
    plan: &Plan,
    report: Report<F::Source>,
    progress: Progress,
    files: &mut F,
    out: &mut K,
) -> Threaded
where
    F::Source: Drop,
    requires plan { IsPlan plan.now }
    requires files_count { F.faults files.old < last_count }
    requires streamed { (start : SinkSeen) × IsStreamed F.Source.rest F.Source.faults (F.content files.old) plan.now.nodes.items report progress start (seen_sink K.written K.faults out.old) }
    ensures ends { (start : SinkSeen) → IsStreamed F.Source.rest F.Source.faults (F.content files.old) plan.now.nodes.items report progress start (seen_sink K.written K.faults out.old)
        → RunEnds Stream plan.now.nodes.items (seen_files F.content F.faults F.asked files.old) (seen_files F.content F.faults F.asked files.new) start (seen_sink K.written K.faults out.new) result.edges.items result.ran.items result.outcome }
    ensures strong { (start : SinkSeen) → IsStreamed F.Source.rest F.Source.faults (F.content files.old) plan.now.nodes.items report progress start (seen_sink K.written K.faults out.old)
        → WroteStrong (F.content files.old) plan.now.nodes.items start (seen_sink K.written K.faults out.new) }
    ensures asked { F.asked files.new ≡ F.asked files.old }
    ensures contents { (n : List ℕ) → F.content files.new n ≡ F.content files.old n }
{
    accepted_sources();
    streamed_changes();
    message_laws();
    let Report {
        outcome,
        forgotten,
        edges,
        ran,
        changes: _changes,
        sources,
    } = report;
    give_back_ends(files, sources);
    let nodes = plan.nodes.as_slice();
    let outcome = end_of_stream(alloc, nodes, outcome, progress, &forgotten, out);
    Threaded {
        outcome,
        edges,
        ran,
    }
}

/// Runs the workers of a plan over sources that were found, each on a thread of its own or, for `pool`, all on so many.
fn report_of<
    R: Threads + Wait + Clock + Copy + Drop + Send + Sync + 'static,
    S: Source + Drop + Send + 'static,
    G: Gate + Drop + Send + 'static,
>(
    rt: R,
    alloc: Global,
    job: Job,
    plan: &Plan,
    sources: Vec<S>,
    gate: &Arc<G, Global>,
) -> Result<Report<S>, NoMemory<S>>
    requires plan { IsPlan plan.now }
    requires job { IsThreaded job }
    requires count { length sources.items ≡ source_count plan.now.nodes.items }
    ensures report { IfOk result (λ report. IsReport S.rest S.faults plan.now.nodes.items sources.items report) }
    ensures err { IfErr result (λ e. e.sources.items ≡ sources.items) }
{
    match job {
        Job::Pool(threads) => run_pool(rt, alloc, threads as usize, plan, sources, &**gate),
        _ => {
            let mut quiet = Quiet::new(alloc);
            run_threads(rt, alloc, plan, sources, &mut quiet, &mut (), gate)
        }
    }
}

/// Runs a plan over sources that were found, whose rows are written at the end.
fn run_sources<
    R: Threads + Wait + Clock + Copy + Drop + Send + Sync + 'static,
    F: Files,
    K: Sink,
    G: Gate + Drop + Send + 'static,
>(
    rt: R,
    alloc: Global,
    job: Job,
    plan: &Plan,
    sources: Vec<F::Source>,
    files: &mut F,
    out: &mut K,
    gate: &Arc<G, Global>,
) -> Threaded
where
    F::Source: Drop + 'static,
    requires plan { IsPlan plan.now }
    requires files_count { F.faults files.old < last_count }
    requires out_counts { K.faults out.old < last_count }
    requires job { IsThreaded job }
    requires at_end { job ≢ Stream }
    requires found { AreFound F.Source.rest (F.content files.old) plan.now.nodes.items sources.items }
    requires count { length sources.items ≡ source_count plan.now.nodes.items }
    requires fresh { All (λ s. F.Source.faults s ≡ 0) sources.items }
    ensures ends { RunEnds job plan.now.nodes.items (seen_files F.content F.faults F.asked files.old) (seen_files F.content F.faults F.asked files.new)
        (seen_sink K.written K.faults out.old) (seen_sink K.written K.faults out.new) result.edges.items result.ran.items result.outcome }
    ensures asked { F.asked files.new ≡ F.asked files.old }
    ensures contents { (n : List ℕ) → F.content files.new n ≡ F.content files.old n }
{
    match report_of(rt, alloc, job, plan, sources, gate) {
        Ok(report) => tell(alloc, plan, report, files, out),
        Err(lacking) => {
            give_back_each(files, lacking.sources);
            without(alloc, Outcome::OutOfMemory)
        }
    }
}

/// The same, whose changes are written as they come.
fn stream_sources<
    R: Threads + Wait + Clock + Copy + Drop + Send + 'static,
    F: Files,
    K: Sink,
    G: Gate + Drop + Send + 'static,
>(
    rt: R,
    alloc: Global,
    plan: &Plan,
    sources: Vec<F::Source>,
    files: &mut F,
    out: &mut K,
    gate: &Arc<G, Global>,
) -> Threaded
where
    F::Source: Drop + 'static,
    requires plan { IsPlan plan.now }
    requires files_count { F.faults files.old < last_count }
    requires out_counts { K.faults out.old < last_count }
    requires found { AreFound F.Source.rest (F.content files.old) plan.now.nodes.items sources.items }
    requires count { length sources.items ≡ source_count plan.now.nodes.items }
    requires fresh { All (λ s. F.Source.faults s ≡ 0) sources.items }
    ensures ends { RunEnds Stream plan.now.nodes.items (seen_files F.content F.faults F.asked files.old) (seen_files F.content F.faults F.asked files.new)
        (seen_sink K.written K.faults out.old) (seen_sink K.written K.faults out.new) result.edges.items result.ran.items result.outcome }
    ensures strong { WroteStrong (F.content files.old) plan.now.nodes.items (seen_sink K.written K.faults out.old) (seen_sink K.written K.faults out.new) }
    ensures asked { F.asked files.new ≡ F.asked files.old }
    ensures contents { (n : List ℕ) → F.content files.new n ≡ F.content files.old n }
{
    let mut streamer = Streamer::new(alloc);
    match run_threads(rt, alloc, plan, sources, &mut streamer, out, gate) {
        Ok(report) => tell_stream(alloc, plan, report, streamer.progress, files, out),
        Err(lacking) => {
            give_back_each(files, lacking.sources);
            without(alloc, Outcome::OutOfMemory)
        }
    }
}

/// Finds the sources of a plan, and runs it. `stream` writes the changes of its answer as they come, and `run` and `pool` the rows
/// at the end.
fn run_plan<
    R: Threads + Wait + Clock + Copy + Drop + Send + Sync + 'static,
    F: Files,
    K: Sink,
    G: Gate + Drop + Send + 'static,
>(
    rt: R,
    alloc: Global,
    job: Job,
    plan: &Plan,
    files: &mut F,
    out: &mut K,
    gate: &Arc<G, Global>,
) -> Threaded
where
    F::Source: Drop + 'static,
    requires plan { IsPlan plan.now }
    requires files_count { F.faults files.old < last_count }
    requires out_counts { K.faults out.old < last_count }
    requires job { IsThreaded job }
    ensures ends { RunEnds job plan.now.nodes.items (seen_files F.content F.faults F.asked files.old) (seen_files F.content F.faults F.asked files.new)
        (seen_sink K.written K.faults out.old) (seen_sink K.written K.faults out.new) result.edges.items result.ran.items result.outcome }
    ensures strong { job ≡ Stream → WroteStrong (F.content files.old) plan.now.nodes.items (seen_sink K.written K.faults out.old) (seen_sink K.written K.faults out.new) }
    ensures asked { AsksFirst (F.asked files.old) (F.asked files.new) (source_files plan.now.nodes.items) }
    ensures contents { (n : List ℕ) → F.content files.new n ≡ F.content files.old n }
{
    match find_sources(alloc, plan.nodes.as_slice(), files) {
        Ok(sources) => match job {
            Job::Stream => stream_sources(rt, alloc, plan, sources, files, out, gate),
            _ => run_sources(rt, alloc, job, plan, sources, files, out, gate),
        },
        Err(OutsideFault::Failed) => without(alloc, Outcome::Read),
        Err(OutsideFault::OutOfMemory) => without(alloc, Outcome::OutOfMemory),
    }
}

/// Reads a plan, runs its workers on threads, and writes its answer, or for `stream` the changes of that as they come. It may
/// wait.
pub(crate) fn on_threads<
    R: Threads + Wait + Clock + Copy + Drop + Send + Sync + 'static,
    F: Files,
    K: Sink,
    G: Gate + Drop + Send + 'static,
>(
    rt: R,
    alloc: Global,
    job: Job,
    file: &[u8],
    files: &mut F,
    out: &mut K,
    gate: &Arc<G, Global>,
) -> Threaded
where
    F::Source: Drop + 'static,
    requires files_count { F.faults files.old < last_count }
    requires out_counts { K.faults out.old < last_count }
    requires job { IsThreaded job }
    ensures ends { (checkpoint script : List ℕ) → CommandEnds (record { job = job; file = file.now; checkpoint = checkpoint; script = script })
        (seen_files F.content F.faults F.asked files.old) (seen_files F.content F.faults F.asked files.new)
        (seen_sink K.written K.faults out.old) (seen_sink K.written K.faults out.new) result.outcome }
    ensures strong { job ≡ Stream → StreamsPlan (seen_files F.content F.faults F.asked files.old) file.now (seen_sink K.written K.faults out.old) (seen_sink K.written K.faults out.new) }
    ensures asked { (checkpoint script : List ℕ) → AsksOnly (record { job = job; file = file.now; checkpoint = checkpoint; script = script })
        (seen_files F.content F.faults F.asked files.old) (seen_files F.content F.faults F.asked files.new) }
    ensures contents { (n : List ℕ) → F.content files.new n ≡ F.content files.old n }
    ensures ran { result.outcome ≡ outcome.Done → (checkpoint script : List ℕ) → WroteRun (seen_files F.content F.faults F.asked files.old) (record { job = job; file = file.now; checkpoint = checkpoint; script = script })
        (seen_sink K.written K.faults out.old) (seen_sink K.written K.faults out.new) result.edges.items result.ran.items }
{
    match open_plan(alloc, file, files) {
        Ok(plan) => run_plan(rt, alloc, job, &plan, files, out, gate),
        Err(outcome) => without(alloc, outcome),
    }
}
