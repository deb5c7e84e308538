ghost use Rattle.std.specs.Prelude.{◌≡◌, ◌<◌, ◌≤◌, [], List, ℕ, Some, IfOk, codes};
ghost use Rattle.cedr_io.specs.Counts.{last_count};
ghost use Rattle.cedr_make.specs.BuiltIn.{built_in};
ghost use Rattle.cedr_make.specs.Generator.{made_text};
ghost use Rattle.cedr_plan.specs.Drawn.{drawn};
ghost use Rattle.plan_serial.specs.Feeding.{AreSources};
ghost use Rattle.plan_serial.specs.Sources.{AreReadByLine};
ghost use Rattle.cedr_commands.specs.declared.command.Job.TheVariants.{Make};
ghost use Rattle.cedr_commands.specs.Answers.{GivesSummary, made_file};
ghost use Rattle.cedr_commands.specs.Commands.{Command};
ghost use Rattle.cedr_commands.specs.Outcomes.{CommandEnds};
ghost use Rattle.cedr_commands.specs.Seen.{FilesSeen, seen_sink};

use crate::outcome::Outcome;
use crate::saying::write_text;
use cedr_base::OutOfMemory;
use cedr_io::{Files, MemFiles, Sink};
use cedr_make::{made_bytes, made_plan, made_sources, write_summary};
use cedr_plan::Plan;
use cedr_source::Entries;
use plan_answer::accepted_sources;
use plan_serial::{SourcesFault, answer_rows, read_sources};
use std::alloc::Global;

/// Writes the summary of the answer to a workload of so many events a source.
pub(crate) fn make<K: Sink>(alloc: Global, events: u64, out: &mut K) -> Outcome
    requires least { 0 < events }
    requires most { events ≤ 100000 }
    requires counts { K.faults out.old < last_count }
    ensures { (files : FilesSeen) (file checkpoint script : List ℕ) → CommandEnds (record { job = Make events; file = file; checkpoint = checkpoint; script = script }) files files
        (seen_sink K.written K.faults out.old) (seen_sink K.written K.faults out.new) result }
{
    match summary(alloc, events) {
        Ok(text) => write_text(out, &text),
        Err(OutOfMemory) => Outcome::OutOfMemory,
    }
}

/// The summary of the answer of the workload's plan over its sources.
fn summary(alloc: Global, events: u64) -> Result<Vec<u8>, OutOfMemory>
    requires least { 0 < events }
    requires most { events ≤ 100000 }
    ensures { IfOk result (λ text. GivesSummary events text.items) }
{
    accepted_sources();
    let plan = made_plan(alloc)?;
    let left = read_made(alloc, events, &plan)?;
    let rows = answer_rows(alloc, &plan, left)?;
    let mut text = Vec::new(alloc);
    write_summary(&rows, &mut text)?;
    Ok(text)
}

/// All messages of the workload's sources line by line, each of which is accepted.
fn read_made(alloc: Global, events: u64, plan: &Plan) -> Result<Vec<Entries>, OutOfMemory>
    requires least { 0 < events }
    requires most { events ≤ 100000 }
    requires plan { drawn plan.now ≡ built_in }
    ensures sources { IfOk result (λ left. AreSources plan.now.nodes.items left.items) }
    ensures read { IfOk result (λ left. AreReadByLine (made_file events) plan.now.nodes.items left.items []) }
{
    made_sources();
    let mut files = made_files(alloc, events)?;
    match read_sources(alloc, plan.nodes.as_slice(), &mut files) {
        Ok(left) => Ok(left),
        Err(SourcesFault::Events(_)) => unreachable!(),
        Err(SourcesFault::Read | SourcesFault::OutOfMemory) => Err(OutOfMemory),
    }
}

/// The files of the workload's sources.
fn made_files(alloc: Global, events: u64) -> Result<MemFiles, OutOfMemory>
    requires least { 0 < events }
    requires most { events ≤ 100000 }
    ensures files_count { IfOk result (λ files. ⟦<MemFiles as Files>⟧.faults files < last_count) }
    ensures first { IfOk result (λ files. ⟦<MemFiles as Files>⟧.content files (codes "a") ≡ Some (made_text 0 events)) }
    ensures second { IfOk result (λ files. ⟦<MemFiles as Files>⟧.content files (codes "b") ≡ Some (made_text 1 events)) }
{
    let mut files = MemFiles::new(alloc);
    files.add("a", &made_bytes(alloc, events, 0)?)?;
    files.add("b", &made_bytes(alloc, events, 1)?)?;
    Ok(files)
}
