ghost use Rattle.std.specs.Prelude.{◌≡◌, ◌<◌, List, ℕ};
ghost use Rattle.cedr_io.specs.Counts.{last_count};
ghost use Rattle.cedr_commands.specs.declared.command.Job.TheVariants.{Live};
ghost use Rattle.cedr_commands.specs.Commands.{Command};
ghost use Rattle.cedr_commands.specs.Outcomes.{CommandEnds, AsksOnly};
ghost use Rattle.cedr_commands.specs.Seen.{seen_files, seen_sink};

use crate::file::read_file;
use crate::outcome::Outcome;
use crate::plan::open_plan;
use crate::saying::refuse;
use cedr_guard::FILE_LIMIT;
use cedr_io::{Files, OutsideFault, Sink};
use plan_live::play;
use std::alloc::Global;

/// Plays a script over a plan. It writes at each `?`, and stops at the first line that isn't accepted.
pub(crate) fn live<F: Files, K: Sink>(
    alloc: Global,
    file: &[u8],
    script: &[u8],
    files: &mut F,
    out: &mut K,
) -> Outcome
    requires files_count { F.faults files.old < last_count }
    requires out_counts { K.faults out.old < last_count }
    ensures ends { (checkpoint : List ℕ) → CommandEnds (record { job = Live; file = file.now; checkpoint = checkpoint; script = script.now })
        (seen_files F.content F.faults F.asked files.old) (seen_files F.content F.faults F.asked files.new)
        (seen_sink K.written K.faults out.old) (seen_sink K.written K.faults out.new) result }
    ensures asked { (checkpoint : List ℕ) → AsksOnly (record { job = Live; file = file.now; checkpoint = checkpoint; script = script.now })
        (seen_files F.content F.faults F.asked files.old) (seen_files F.content F.faults F.asked files.new) }
    ensures contents { (n : List ℕ) → F.content files.new n ≡ F.content files.old n }
{
    let plan = match open_plan(alloc, file, files) {
        Ok(plan) => plan,
        Err(outcome) => return outcome,
    };
    let bytes = match read_file(alloc, FILE_LIMIT, files, script) {
        Ok(bytes) => bytes,
        Err(OutsideFault::Failed) => return Outcome::Read,
        Err(OutsideFault::OutOfMemory) => return Outcome::OutOfMemory,
    };
    match play(alloc, &plan, &bytes, out) {
        Ok(None) => Outcome::Done,
        Ok(Some(refusal)) => refuse(alloc, script, &refusal),
        Err(OutsideFault::Failed) => Outcome::Write,
        Err(OutsideFault::OutOfMemory) => Outcome::OutOfMemory,
    }
}
