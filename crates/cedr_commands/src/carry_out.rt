ghost use Rattle.std.specs.Prelude.{◌≡◌, ◌<◌, List, ℕ};
ghost use Rattle.cedr_io.specs.Counts.{last_count};
ghost use Rattle.cedr_commands.specs.Commands.{Command, IsNumbered, StandsAlone};
ghost use Rattle.cedr_commands.specs.Outcomes.{CommandEnds, AsksOnly};
ghost use Rattle.cedr_commands.specs.Seen.{seen_files, seen_sink};

use crate::command::Job;
use crate::history::history;
use crate::make::make;
use crate::outcome::Outcome;
use crate::plan::check;
use crate::resume::resume;
use crate::save::save;
use crate::script::live;
use crate::sources::on_sources;
use cedr_io::{Files, Sink};
use std::alloc::Global;

/// Does what a command asks for with its files: any command but `stream`, which may wait, and `follow`, which goes on.
pub(crate) fn carry_out<F: Files, K: Sink>(
    alloc: Global,
    job: Job,
    file: &[u8],
    checkpoint: &[u8],
    script: &[u8],
    files: &mut F,
    out: &mut K,
) -> Outcome
    requires files_count { F.faults files.old < last_count }
    requires out_counts { K.faults out.old < last_count }
    requires job { IsNumbered job }
    requires whole { StandsAlone job }
    ensures ends { CommandEnds (record { job = job; file = file.now; checkpoint = checkpoint.now; script = script.now })
        (seen_files F.content F.faults F.asked files.old) (seen_files F.content F.faults F.asked files.new)
        (seen_sink K.written K.faults out.old) (seen_sink K.written K.faults out.new) result }
    ensures asked { AsksOnly (record { job = job; file = file.now; checkpoint = checkpoint.now; script = script.now })
        (seen_files F.content F.faults F.asked files.old) (seen_files F.content F.faults F.asked files.new) }
    ensures contents { (n : List ℕ) → F.content files.new n ≡ F.content files.old n }
{
    match job {
        Job::History => history(alloc, file, files, out),
        Job::Check => check(alloc, file, files, out),
        Job::Live => live(alloc, file, script, files, out),
        Job::Make(events) => make(alloc, events, out),
        Job::Save => save(alloc, file, script, files, out),
        Job::Resume => resume(alloc, file, checkpoint, script, files, out),
        _ => on_sources(alloc, job, file, files, out),
    }
}
