ghost use Rattle.std.specs.Prelude.{ℕ, ◌≡◌, ◌<◌, [], List, IfOk};
ghost use Rattle.cedr_commands.specs.Files.{AsksFile};
ghost use Rattle.cedr_commands.specs.Steps.{CountsStep};
ghost use Rattle.cedr_follow.specs.FollowEnds.{GoesAs, IsUnfound};
ghost use Rattle.cedr_io.specs.Counts.{last_count};

use cedr_commands::Outcome;
use cedr_io::{Files, OutsideFault};
use plan_follow::FollowFault;
use std::alloc::Global;

/// The source of a script, or how the command ends without it.
pub(crate) fn find_script<F: Files>(files: &mut F, script: &[u8]) -> Result<F::Source, Outcome>
    requires counts { F.faults files.old < last_count }
    ensures found { IfOk result (λ source. (F.Source.rest source ≡ F.content files.old script.now) × (F.Source.faults source ≡ 0)) }
    ensures unfound { IsUnfound result }
    ensures counted { CountsStep result (F.faults files.old) (F.faults files.new) }
    ensures asked { AsksFile result (F.asked files.old) (F.asked files.new) script.now }
    ensures contents { (n : List ℕ) → F.content files.new n ≡ F.content files.old n }
{
    match files.find(script) {
        Ok(source) => Ok(source),
        Err(OutsideFault::Failed) => Err(Outcome::Read),
        Err(OutsideFault::OutOfMemory) => Err(Outcome::OutOfMemory),
    }
}

/// How the command went, by what following answered.
pub(crate) fn outcome_of(alloc: Global, answer: Result<bool, FollowFault>) -> Outcome
    ensures { GoesAs answer result }
{
    match answer {
        Ok(false) => Outcome::Done,
        Ok(true) => Outcome::Events(Vec::new(alloc)),
        Err(FollowFault::Read) => Outcome::Read,
        Err(FollowFault::Write) => Outcome::Write,
        Err(FollowFault::OutOfMemory) => Outcome::OutOfMemory,
    }
}
