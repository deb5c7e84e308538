ghost use Rattle.std.specs.Prelude.{◌≡◌, ◌<◌, IfSome, map, option_map};
ghost use Rattle.std.specs.String.{string_bytes};
ghost use Rattle.cedr_io.specs.Counts.{last_count};
ghost use Rattle.cedr_commands.specs.Commands.{Command, command_of, IsAlone, IsNumbered, StandsAlone};
ghost use Rattle.cedr_commands.specs.Seen.{seen_files, seen_sink};
ghost use Rattle.cedr_commands.specs.Ending.{Ends};

use crate::carry_out::carry_out;
use crate::command::{Job, named_command};
use crate::outcome::Outcome;
use crate::status::Status;
use cedr_io::{Files, Sink};
use std::alloc::Global;

/// Carries out the command that the words name, where it is none of `run PLAN`, `stream PLAN`, `pool N PLAN` and
/// `follow PLAN .. SCRIPT`, and answers how it ended. It starts no thread and waits for nobody.
pub fn run_alone<F: Files, K: Sink, E: Sink>(
    alloc: Global,
    words: &[String],
    files: &mut F,
    out: &mut K,
    err: &mut E,
) -> Status
    requires files_count { F.faults files.old < last_count }
    requires out_counts { K.faults out.old < last_count }
    requires alone { IsAlone (map string_bytes words.now) }
    ensures { Ends (command_of (map string_bytes words.now))
        (seen_files F.content F.faults F.asked files.old) (seen_files F.content F.faults F.asked files.new)
        (seen_sink K.written K.faults out.old) (seen_sink K.written K.faults out.new)
        (seen_sink E.written E.faults err.old) (seen_sink E.written E.faults err.new) result }
{
    run_named(alloc, named_command(words), files, out, err)
}

/// The same for what `named_command` answered of the words. Of `run` and `pool` it would write the answer too, as `serial` does: that
/// threads ran and what went over their edges is promised by `cedr_run`, which takes these jobs first.
pub fn run_named<F: Files, K: Sink, E: Sink>(
    alloc: Global,
    named: Option<(Job, &str, &str, &str)>,
    files: &mut F,
    out: &mut K,
    err: &mut E,
) -> Status
    requires files_count { F.faults files.old < last_count }
    requires out_counts { K.faults out.old < last_count }
    requires numbered { IfSome named (λ n. IsNumbered n.0) }
    requires whole { IfSome named (λ n. StandsAlone n.0) }
    ensures { Ends (option_map (λ n. record { job = n.0; file = n.1.now; checkpoint = n.2.now; script = n.3.now }) named.entry)
        (seen_files F.content F.faults F.asked files.old) (seen_files F.content F.faults F.asked files.new)
        (seen_sink K.written K.faults out.old) (seen_sink K.written K.faults out.new)
        (seen_sink E.written E.faults err.old) (seen_sink E.written E.faults err.new) result }
{
    match named {
        None => Outcome::Usage.report(alloc, err),
        Some((job, file, checkpoint, script)) => {
            let outcome = carry_out(
                alloc,
                job,
                file.as_bytes(),
                checkpoint.as_bytes(),
                script.as_bytes(),
                files,
                out,
            );
            outcome.report(alloc, err)
        }
    }
}
