ghost use Rattle.std.specs.Prelude.{◌≡◌, ◌<◌, List, ℕ, Some};
ghost use Rattle.cedr_io.specs.Counts.{last_count};
ghost use Rattle.cedr_plan.specs.Rules.{IsPlan};
ghost use Rattle.plan_answer.specs.Sources.{AsksFirst, source_files};
ghost use Rattle.cedr_commands.specs.declared.command.Job.TheVariants.{Parts};
ghost use Rattle.cedr_commands.specs.Commands.{Command, IsNumbered};
ghost use Rattle.cedr_commands.specs.Ending.{Ends};
ghost use Rattle.cedr_commands.specs.Outcomes.{AsksOnly, CommandEnds};
ghost use Rattle.cedr_commands.specs.Seen.{seen_files, seen_sink};
ghost use Rattle.cedr_commands.specs.Steps.{EndsPlan};

use crate::answer::answer_divided;
use crate::choice::dividing_columns;
use cedr_base::OutOfMemory;
use cedr_commands::{Job, Outcome, Status, on_plan, open_plan};
use cedr_io::{Files, Sink};
use cedr_plan::Plan;
use std::alloc::Global;
use std::thread::Threads;

/// Answers a plan by so many parts of its keys, or as a whole where it can't be divided.
fn on_parts<R: Threads + Sync, F: Files, K: Sink>(
    rt: &R,
    alloc: Global,
    count: u64,
    plan: &Plan,
    files: &mut F,
    out: &mut K,
) -> Outcome
where
    F::Source: Drop,
    requires files_count { F.faults files.old < last_count }
    requires out_counts { K.faults out.old < last_count }
    requires number { IsNumbered (Parts count) }
    requires plan { IsPlan plan.now }
    ensures ends { EndsPlan (Parts count) plan.now.nodes.items (seen_files F.content F.faults F.asked files.old) (seen_files F.content F.faults F.asked files.new)
        (seen_sink K.written K.faults out.old) (seen_sink K.written K.faults out.new) result }
    ensures asked { AsksFirst (F.asked files.old) (F.asked files.new) (source_files plan.now.nodes.items) }
    ensures contents { (n : List ℕ) → F.content files.new n ≡ F.content files.old n }
{
    let parts = count as usize;
    match dividing_columns(alloc, plan, parts) {
        Ok(Some(columns)) => answer_divided(rt, alloc, parts, plan, columns.as_slice(), files, out),
        Ok(None) => on_plan(alloc, Job::Parts(count), plan, files, out),
        Err(OutOfMemory) => Outcome::OutOfMemory,
    }
}

/// Reads a plan and answers it.
fn carry_out<R: Threads + Sync, F: Files, K: Sink>(
    rt: &R,
    alloc: Global,
    count: u64,
    file: &[u8],
    files: &mut F,
    out: &mut K,
) -> Outcome
where
    F::Source: Drop,
    requires files_count { F.faults files.old < last_count }
    requires out_counts { K.faults out.old < last_count }
    requires number { IsNumbered (Parts count) }
    ensures ends { (checkpoint script : List ℕ) → CommandEnds (record { job = Parts count; file = file.now; checkpoint = checkpoint; script = script })
        (seen_files F.content F.faults F.asked files.old) (seen_files F.content F.faults F.asked files.new)
        (seen_sink K.written K.faults out.old) (seen_sink K.written K.faults out.new) result }
    ensures asked { (checkpoint script : List ℕ) → AsksOnly (record { job = Parts count; file = file.now; checkpoint = checkpoint; script = script })
        (seen_files F.content F.faults F.asked files.old) (seen_files F.content F.faults F.asked files.new) }
    ensures contents { (n : List ℕ) → F.content files.new n ≡ F.content files.old n }
{
    match open_plan(alloc, file, files) {
        Ok(plan) => on_parts(rt, alloc, count, &plan, files, out),
        Err(outcome) => outcome,
    }
}

/// Carries out `parts N PLAN`, and answers how it ended. Where the plan can be divided each part but one is answered on a
/// thread of its own, and where no thread can be made on the one that asked for it.
pub fn run_parts<R: Threads + Sync, F: Files, K: Sink, E: Sink>(
    rt: &R,
    alloc: Global,
    count: u64,
    file: &[u8],
    files: &mut F,
    out: &mut K,
    err: &mut E,
) -> Status
where
    F::Source: Drop,
    requires files_count { F.faults files.old < last_count }
    requires out_counts { K.faults out.old < last_count }
    requires number { IsNumbered (Parts count) }
    ensures { (checkpoint script : List ℕ) → Ends (Some (record { job = Parts count; file = file.now; checkpoint = checkpoint; script = script }))
        (seen_files F.content F.faults F.asked files.old) (seen_files F.content F.faults F.asked files.new)
        (seen_sink K.written K.faults out.old) (seen_sink K.written K.faults out.new)
        (seen_sink E.written E.faults err.old) (seen_sink E.written E.faults err.new) result }
{
    let outcome = carry_out(rt, alloc, count, file, files, out);
    outcome.report(alloc, err)
}
