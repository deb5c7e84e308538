ghost use Rattle.std.specs.Prelude.{◌≡◌, ◌<◌, List, ℕ};
ghost use Rattle.cedr_io.specs.Counts.{last_count};
ghost use Rattle.cedr_plan.specs.Rules.{IsPlan};
ghost use Rattle.cedr_commands.specs.declared.command.Job.TheVariants.{Resume};
ghost use Rattle.cedr_commands.specs.Commands.{Command};
ghost use Rattle.cedr_commands.specs.Outcomes.{CommandEnds, AsksOnly};
ghost use Rattle.cedr_commands.specs.Seen.{seen_files, seen_sink};
ghost use Rattle.cedr_commands.specs.Files.{AsksFile};
ghost use Rattle.cedr_commands.specs.Steps.{OpensCheckpoint, CountsStep};

use crate::file::read_file;
use crate::outcome::Outcome;
use crate::plan::open_saved;
use crate::saying::refuse;
use cedr_guard::{FILE_LIMIT, SourceState};
use cedr_io::{Files, OutsideFault, Sink};
use cedr_plan::Plan;
use cedr_save::{CHECKPOINT_LIMIT, CheckpointFault, read_checkpoint};
use plan_live::{play_from, resumed_scripts};
use std::alloc::Global;

/// The states that a checkpoint of a plan spells, or how the command ends without them.
pub fn open_checkpoint<F: Files>(
    alloc: Global,
    plan: &Plan,
    checkpoint: &[u8],
    files: &mut F,
) -> Result<Vec<SourceState>, Outcome>
    requires counts { F.faults files.old < last_count }
    requires plan { IsPlan plan.now }
    ensures opened { OpensCheckpoint result plan.now.nodes.items (F.content files.old checkpoint.now) }
    ensures counted { CountsStep result (F.faults files.old) (F.faults files.new) }
    ensures asked { AsksFile result (F.asked files.old) (F.asked files.new) checkpoint.now }
    ensures contents { (n : List ℕ) → F.content files.new n ≡ F.content files.old n }
{
    let bytes = match read_file(alloc, CHECKPOINT_LIMIT, files, checkpoint) {
        Ok(bytes) => bytes,
        Err(OutsideFault::Failed) => return Err(Outcome::Read),
        Err(OutsideFault::OutOfMemory) => return Err(Outcome::OutOfMemory),
    };
    match read_checkpoint(alloc, plan, &bytes) {
        Ok(states) => Ok(states),
        Err(CheckpointFault::BadLine { line }) => Err(Outcome::BadCheckpoint(line)),
        Err(CheckpointFault::OutOfMemory) => Err(Outcome::OutOfMemory),
    }
}

/// Plays a script over a plan from a checkpoint. It writes at each `?`, and stops at the first line that isn't accepted.
pub(crate) fn resume<F: Files, K: Sink>(
    alloc: Global,
    file: &[u8],
    checkpoint: &[u8],
    script: &[u8],
    files: &mut F,
    out: &mut K,
) -> Outcome
    requires files_count { F.faults files.old < last_count }
    requires out_counts { K.faults out.old < last_count }
    ensures ends { CommandEnds (record { job = Resume; file = file.now; checkpoint = checkpoint.now; script = script.now })
        (seen_files F.content F.faults F.asked files.old) (seen_files F.content F.faults F.asked files.new)
        (seen_sink K.written K.faults out.old) (seen_sink K.written K.faults out.new) result }
    ensures asked { AsksOnly (record { job = Resume; file = file.now; checkpoint = checkpoint.now; script = script.now })
        (seen_files F.content F.faults F.asked files.old) (seen_files F.content F.faults F.asked files.new) }
    ensures contents { (n : List ℕ) → F.content files.new n ≡ F.content files.old n }
{
    let plan = match open_saved(alloc, file, files) {
        Ok(plan) => plan,
        Err(outcome) => return outcome,
    };
    let states = match open_checkpoint(alloc, &plan, checkpoint, files) {
        Ok(states) => states,
        Err(outcome) => return outcome,
    };
    let bytes = match read_file(alloc, FILE_LIMIT, files, script) {
        Ok(bytes) => bytes,
        Err(OutsideFault::Failed) => return Outcome::Read,
        Err(OutsideFault::OutOfMemory) => return Outcome::OutOfMemory,
    };
    resumed_scripts();
    match play_from(alloc, &plan, &states, &bytes, out) {
        Ok(None) => Outcome::Done,
        Ok(Some(refusal)) => refuse(alloc, script, &refusal),
        Err(OutsideFault::Failed) => Outcome::Write,
        Err(OutsideFault::OutOfMemory) => Outcome::OutOfMemory,
    }
}
