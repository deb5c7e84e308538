ghost use Rattle.std.specs.Prelude.{◌≡◌, ◌≢◌, ◌<◌, List, ℕ, IfOk};
ghost use Rattle.cedr_io.specs.Counts.{last_count};
ghost use Rattle.cedr_plan.specs.Rules.{IsPlan};
ghost use Rattle.plan_serial.specs.Feeding.{AreSources};
ghost use Rattle.plan_answer.specs.Sources.{AsksFirst, AreTold, source_files};
ghost use Rattle.cedr_commands.specs.Answers.{AnswersInTurns};
ghost use Rattle.cedr_commands.specs.declared.command.Job.TheVariants.{Stream};
ghost use Rattle.cedr_commands.specs.Commands.{Command};
ghost use Rattle.cedr_commands.specs.Outcomes.{CommandEnds, AsksOnly};
ghost use Rattle.cedr_commands.specs.Seen.{seen_files, seen_sink};
ghost use Rattle.cedr_commands.specs.Steps.{CountsStep, StopsSources, OpensSources, ReadsSources, EndsPlan, EndsWith, EndsSources};

use crate::command::Job;
use crate::outcome::Outcome;
use crate::plan::open_plan;
use crate::saying::{refuse_sources, write_text};
use cedr_base::OutOfMemory;
use cedr_io::{Files, Sink};
use cedr_plan::Plan;
use cedr_source::Entries;
use plan_answer::accepted_sources;
use plan_serial::{SourcesFault, answer_sources, read_sources};
use std::alloc::Global;

/// All messages of a plan's sources line by line, or how the command ends without them.
fn open_sources<F: Files>(
    alloc: Global,
    plan: &Plan,
    files: &mut F,
) -> Result<Vec<Entries>, Outcome>
    requires { F.faults files.old < last_count }
    ensures sources { IfOk result (λ left. AreSources plan.now.nodes.items left.items) }
    ensures stops { StopsSources result }
    ensures opened { (told : List ℕ → List ℕ) → AreTold (F.content files.old) told (source_files plan.now.nodes.items) → OpensSources result told plan.now.nodes.items }
    ensures counted { CountsStep result (F.faults files.old) (F.faults files.new) }
    ensures asked { AsksFirst (F.asked files.old) (F.asked files.new) (source_files plan.now.nodes.items) }
    ensures contents { (n : List ℕ) → F.content files.new n ≡ F.content files.old n }
{
    let nodes = plan.nodes.as_slice();
    match read_sources(alloc, nodes, files) {
        Ok(left) => Ok(left),
        Err(SourcesFault::Events(faulty)) => Err(refuse_sources(alloc, nodes, &faulty)),
        Err(SourcesFault::Read) => Err(Outcome::Read),
        Err(SourcesFault::OutOfMemory) => Err(Outcome::OutOfMemory),
    }
}

/// Writes the answer of a plan over its sources, and what was forgotten where `always` or where some port has a finite memory.
fn answer<K: Sink>(
    alloc: Global,
    always: bool,
    plan: &Plan,
    left: Vec<Entries>,
    out: &mut K,
) -> Outcome
    requires counts { K.faults out.old < last_count }
    requires plan { IsPlan plan.now }
    requires sources { AreSources plan.now.nodes.items left.items }
    ensures { EndsWith (AnswersInTurns always) (AnswersInTurns always) plan.now.nodes.items left.items (seen_sink K.written K.faults out.old) (seen_sink K.written K.faults out.new) result }
{
    accepted_sources();
    match answer_sources(alloc, plan, always, left) {
        Ok(text) => write_text(out, &text),
        Err(OutOfMemory) => Outcome::OutOfMemory,
    }
}

/// Writes what a command gives of a plan and its sources, where it waits for nobody.
fn give<K: Sink>(alloc: Global, job: Job, plan: &Plan, left: Vec<Entries>, out: &mut K) -> Outcome
    requires counts { K.faults out.old < last_count }
    requires job { ReadsSources job }
    requires alone { job ≢ Stream }
    requires plan { IsPlan plan.now }
    requires sources { AreSources plan.now.nodes.items left.items }
    ensures { EndsSources job plan.now.nodes.items left.items (seen_sink K.written K.faults out.old) (seen_sink K.written K.faults out.new) result }
{
    match job {
        Job::Audit => answer(alloc, true, plan, left, out),
        _ => answer(alloc, false, plan, left, out),
    }
}

/// Reads the sources of a plan, and writes what the command gives of them, on one thread: of `run`, `pool` and `parts` what
/// `serial` gives. The text is written as a whole. At every outcome each source that was found was given back.
pub fn on_plan<F: Files, K: Sink>(
    alloc: Global,
    job: Job,
    plan: &Plan,
    files: &mut F,
    out: &mut K,
) -> Outcome
    requires files_count { F.faults files.old < last_count }
    requires out_counts { K.faults out.old < last_count }
    requires job { ReadsSources job }
    requires alone { job ≢ Stream }
    requires plan { IsPlan plan.now }
    ensures ends { EndsPlan job plan.now.nodes.items (seen_files F.content F.faults F.asked files.old) (seen_files F.content F.faults F.asked files.new)
        (seen_sink K.written K.faults out.old) (seen_sink K.written K.faults out.new) result }
    ensures asked { AsksFirst (F.asked files.old) (F.asked files.new) (source_files plan.now.nodes.items) }
    ensures contents { (n : List ℕ) → F.content files.new n ≡ F.content files.old n }
{
    match open_sources(alloc, plan, files) {
        Ok(left) => give(alloc, job, plan, left, out),
        Err(outcome) => outcome,
    }
}

/// Reads a plan and its sources, and writes what the command gives of them, where it waits for nobody.
pub(crate) fn on_sources<F: Files, K: Sink>(
    alloc: Global,
    job: Job,
    file: &[u8],
    files: &mut F,
    out: &mut K,
) -> Outcome
    requires files_count { F.faults files.old < last_count }
    requires out_counts { K.faults out.old < last_count }
    requires job { ReadsSources job }
    requires alone { job ≢ Stream }
    ensures ends { (checkpoint script : List ℕ) → CommandEnds (record { job = job; file = file.now; checkpoint = checkpoint; script = script })
        (seen_files F.content F.faults F.asked files.old) (seen_files F.content F.faults F.asked files.new)
        (seen_sink K.written K.faults out.old) (seen_sink K.written K.faults out.new) result }
    ensures asked { (checkpoint script : List ℕ) → AsksOnly (record { job = job; file = file.now; checkpoint = checkpoint; script = script })
        (seen_files F.content F.faults F.asked files.old) (seen_files F.content F.faults F.asked files.new) }
    ensures contents { (n : List ℕ) → F.content files.new n ≡ F.content files.old n }
{
    match open_plan(alloc, file, files) {
        Ok(plan) => on_plan(alloc, job, &plan, files, out),
        Err(outcome) => outcome,
    }
}
