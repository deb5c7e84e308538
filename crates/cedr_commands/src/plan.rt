ghost use Rattle.std.specs.Prelude.{◌≡◌, ◌<◌, List, ℕ, IfOk};
ghost use Rattle.cedr_io.specs.Counts.{last_count};
ghost use Rattle.cedr_plan.specs.Rules.{IsPlan};
ghost use Rattle.cedr_commands.specs.declared.command.Job.TheVariants.{Check};
ghost use Rattle.cedr_commands.specs.Commands.{Command};
ghost use Rattle.cedr_commands.specs.Outcomes.{CommandEnds, AsksOnly};
ghost use Rattle.cedr_commands.specs.Seen.{seen_files, seen_sink};
ghost use Rattle.cedr_commands.specs.Files.{AsksFile};
ghost use Rattle.cedr_commands.specs.Steps.{OpensPlan, OpensSaved, CountsStep};
ghost use Rattle.cedr_commands.specs.Resuming.{CanSavePlan};

use crate::file::read_file;
use crate::outcome::Outcome;
use crate::saying::write_text;
use cedr_io::{Files, OutsideFault, Sink};
use cedr_plan::{PLAN_LIMIT, Plan, PlanFault, read_plan, write_check};
use cedr_save::can_save;
use std::alloc::Global;

/// The plan that a file describes, or how the command ends without one.
pub fn open_plan<F: Files>(alloc: Global, file: &[u8], files: &mut F) -> Result<Plan, Outcome>
    requires { F.faults files.old < last_count }
    ensures plan { IfOk result IsPlan }
    ensures opened { OpensPlan result (F.content files.old file.now) }
    ensures counted { CountsStep result (F.faults files.old) (F.faults files.new) }
    ensures asked { AsksFile result (F.asked files.old) (F.asked files.new) file.now }
    ensures contents { (n : List ℕ) → F.content files.new n ≡ F.content files.old n }
{
    let bytes = match read_file(alloc, PLAN_LIMIT, files, file) {
        Ok(bytes) => bytes,
        Err(OutsideFault::Failed) => return Err(Outcome::Read),
        Err(OutsideFault::OutOfMemory) => return Err(Outcome::OutOfMemory),
    };
    match read_plan(alloc, &bytes) {
        Ok(plan) => Ok(plan),
        Err(PlanFault::Refused { kind, node }) => Err(Outcome::BadPlan(kind, node)),
        Err(PlanFault::OutOfMemory) => Err(Outcome::OutOfMemory),
    }
}

/// The plan that a file describes, where it can be saved, or how the command ends without one.
pub fn open_saved<F: Files>(alloc: Global, file: &[u8], files: &mut F) -> Result<Plan, Outcome>
    requires { F.faults files.old < last_count }
    ensures plan { IfOk result IsPlan }
    ensures can { IfOk result (λ plan. CanSavePlan plan.nodes.items) }
    ensures opened { OpensSaved result (F.content files.old file.now) }
    ensures counted { CountsStep result (F.faults files.old) (F.faults files.new) }
    ensures asked { AsksFile result (F.asked files.old) (F.asked files.new) file.now }
    ensures contents { (n : List ℕ) → F.content files.new n ≡ F.content files.old n }
{
    let plan = match open_plan(alloc, file, files) {
        Ok(plan) => plan,
        Err(outcome) => return Err(outcome),
    };
    match can_save(&plan) {
        Ok(()) => Ok(plan),
        Err(fault) => Err(Outcome::Unsaved(fault.node)),
    }
}

/// Writes a line for each node of a plan, with the types of its result.
pub(crate) fn check<F: Files, K: Sink>(
    alloc: Global,
    file: &[u8],
    files: &mut F,
    out: &mut K,
) -> Outcome
    requires files_count { F.faults files.old < last_count }
    requires out_counts { K.faults out.old < last_count }
    ensures ends { (checkpoint script : List ℕ) → CommandEnds (record { job = Check; file = file.now; checkpoint = checkpoint; script = script })
        (seen_files F.content F.faults F.asked files.old) (seen_files F.content F.faults F.asked files.new)
        (seen_sink K.written K.faults out.old) (seen_sink K.written K.faults out.new) result }
    ensures asked { (checkpoint script : List ℕ) → AsksOnly (record { job = Check; file = file.now; checkpoint = checkpoint; script = script })
        (seen_files F.content F.faults F.asked files.old) (seen_files F.content F.faults F.asked files.new) }
    ensures contents { (n : List ℕ) → F.content files.new n ≡ F.content files.old n }
{
    let plan = match open_plan(alloc, file, files) {
        Ok(plan) => plan,
        Err(outcome) => return outcome,
    };
    let mut text = Vec::new(alloc);
    if write_check(&plan, &mut text).is_err() {
        return Outcome::OutOfMemory;
    }
    write_text(out, &text)
}
