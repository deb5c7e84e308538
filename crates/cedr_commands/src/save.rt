ghost use Rattle.std.specs.Prelude.{◌≡◌, ◌<◌, List, ℕ};
ghost use Rattle.cedr_io.specs.Counts.{last_count};
ghost use Rattle.cedr_save.specs.Checkpoints.{plan_sources, checkpoint_text};
ghost use Rattle.plan_live.specs.Judged.{ComesToStates};
ghost use Rattle.plan_live.specs.Resumed.{states_in};
ghost use Rattle.cedr_commands.specs.declared.command.Job.TheVariants.{Save};
ghost use Rattle.cedr_commands.specs.Commands.{Command};
ghost use Rattle.cedr_commands.specs.Outcomes.{CommandEnds, AsksOnly};
ghost use Rattle.cedr_commands.specs.Seen.{seen_files, seen_sink};
ghost use Rattle.cedr_commands.specs.Steps.{WritesText};

use crate::file::read_file;
use crate::outcome::Outcome;
use crate::plan::open_saved;
use crate::saying::{refuse, write_text};
use cedr_guard::{FILE_LIMIT, SourceState};
use cedr_io::{Files, OutsideFault, Sink};
use cedr_plan::Plan;
use cedr_save::write_checkpoint;
use plan_live::{ScriptFault, saved_scripts, script_states};
use std::alloc::Global;

/// Judges a script over a plan, and writes the checkpoint to which it comes. At a line that isn't accepted it writes nothing.
pub(crate) fn save<F: Files, K: Sink>(
    alloc: Global,
    file: &[u8],
    script: &[u8],
    files: &mut F,
    out: &mut K,
) -> Outcome
    requires files_count { F.faults files.old < last_count }
    requires out_counts { K.faults out.old < last_count }
    ensures ends { (checkpoint : List ℕ) → CommandEnds (record { job = Save; file = file.now; checkpoint = checkpoint; script = script.now })
        (seen_files F.content F.faults F.asked files.old) (seen_files F.content F.faults F.asked files.new)
        (seen_sink K.written K.faults out.old) (seen_sink K.written K.faults out.new) result }
    ensures asked { (checkpoint : List ℕ) → AsksOnly (record { job = Save; file = file.now; checkpoint = checkpoint; script = script.now })
        (seen_files F.content F.faults F.asked files.old) (seen_files F.content F.faults F.asked files.new) }
    ensures contents { (n : List ℕ) → F.content files.new n ≡ F.content files.old n }
{
    let plan = match open_saved(alloc, file, files) {
        Ok(plan) => plan,
        Err(outcome) => return outcome,
    };
    let bytes = match read_file(alloc, FILE_LIMIT, files, script) {
        Ok(bytes) => bytes,
        Err(OutsideFault::Failed) => return Outcome::Read,
        Err(OutsideFault::OutOfMemory) => return Outcome::OutOfMemory,
    };
    match script_states(alloc, &plan, &bytes) {
        Ok(states) => write_states(alloc, &plan, &states, out),
        Err(ScriptFault::Refused(refusal)) => refuse(alloc, script, &refusal),
        Err(ScriptFault::OutOfMemory) => Outcome::OutOfMemory,
    }
}

/// Writes the checkpoint of the states to which a script came.
fn write_states<K: Sink>(alloc: Global, plan: &Plan, states: &[SourceState], out: &mut K) -> Outcome
    requires counts { K.faults out.old < last_count }
    requires states { (script : List ℕ) × ComesToStates plan.now.nodes.items script (states_in states.now) }
    ensures { WritesText result (seen_sink K.written K.faults out.old) (seen_sink K.written K.faults out.new) (checkpoint_text (plan_sources plan.now.nodes.items) (states_in states.now)) }
{
    saved_scripts();
    let mut text = Vec::new(alloc);
    match write_checkpoint(plan, states, &mut text) {
        Ok(()) => write_text(out, &text),
        Err(_) => Outcome::OutOfMemory,
    }
}
