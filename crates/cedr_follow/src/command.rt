ghost use Rattle.std.specs.Prelude.{ℕ, ◌<◌, List};
ghost use Rattle.cedr_commands.specs.Answers.{IsPlanOf};
ghost use Rattle.cedr_commands.specs.Commands.{Command};
ghost use Rattle.cedr_commands.specs.Seen.{seen_files, seen_sink};
ghost use Rattle.cedr_commands.specs.declared.command.Job.TheVariants.{Follow, FollowFrom};
ghost use Rattle.cedr_follow.specs.FollowEnds.{EndsFollowing};
ghost use Rattle.cedr_io.specs.Counts.{last_count};
ghost use Rattle.cedr_plan.specs.Rules.{IsPlan};
ghost use Rattle.plan_live.specs.Resumed.{AreStates};

use crate::script::{find_script, outcome_of};
use crate::wire::{follow_file, follow_file_from};
use cedr_commands::{Status, open_checkpoint, open_saved};
use cedr_guard::SourceState;
use cedr_io::{Files, Sink};
use cedr_plan::Plan;
use std::alloc::Global;

/// Follows the script of this name over the plan that the file describes, and answers how that ended.
pub fn run_follow<F: Files, K: Sink, E: Sink>(
    alloc: Global,
    file: &[u8],
    script: &[u8],
    files: &mut F,
    out: &mut K,
    err: &mut E,
) -> Status
    requires files_count { F.faults files.old < last_count }
    requires out_counts { K.faults out.old < last_count }
    ensures { (checkpoint : List ℕ) → EndsFollowing (record { job = Follow; file = file.now; checkpoint = checkpoint; script = script.now })
        (seen_files F.content F.faults F.asked files.old) (seen_files F.content F.faults F.asked files.new)
        (seen_sink K.written K.faults out.old) (seen_sink K.written K.faults out.new)
        (seen_sink E.written E.faults err.old) (seen_sink E.written E.faults err.new) result }
{
    let plan = match open_saved(alloc, file, files) {
        Ok(plan) => plan,
        Err(outcome) => return outcome.report(alloc, err),
    };
    let mut source = match find_script(files, script) {
        Ok(source) => source,
        Err(outcome) => return outcome.report(alloc, err),
    };
    let result = follow_file(alloc, &plan, script, &mut source, out, err);
    files.give_back(source);
    outcome_of(alloc, result).report(alloc, err)
}

/// Follows the script of this name over the plan that the file describes, from a checkpoint of it, and answers how that ended.
pub fn run_follow_from<F: Files, K: Sink, E: Sink>(
    alloc: Global,
    file: &[u8],
    checkpoint: &[u8],
    script: &[u8],
    files: &mut F,
    out: &mut K,
    err: &mut E,
) -> Status
    requires files_count { F.faults files.old < last_count }
    requires out_counts { K.faults out.old < last_count }
    ensures { EndsFollowing (record { job = FollowFrom; file = file.now; checkpoint = checkpoint.now; script = script.now })
        (seen_files F.content F.faults F.asked files.old) (seen_files F.content F.faults F.asked files.new)
        (seen_sink K.written K.faults out.old) (seen_sink K.written K.faults out.new)
        (seen_sink E.written E.faults err.old) (seen_sink E.written E.faults err.new) result }
{
    let plan = match open_saved(alloc, file, files) {
        Ok(plan) => plan,
        Err(outcome) => return outcome.report(alloc, err),
    };
    let states = match open_checkpoint(alloc, &plan, checkpoint, files) {
        Ok(states) => states,
        Err(outcome) => return outcome.report(alloc, err),
    };
    let mut source = match find_script(files, script) {
        Ok(source) => source,
        Err(outcome) => return outcome.report(alloc, err),
    };
    let result = follow_file_from(alloc, &plan, &states, script, &mut source, out, err);
    files.give_back(source);
    outcome_of(alloc, result).report(alloc, err)
}
