ghost use Rattle.std.specs.Prelude.{◌≡◌, ◌<◌, ℕ, List, Some, map};
ghost use Rattle.std.specs.String.{string_bytes};
ghost use Rattle.cedr_io.specs.Counts.{last_count};
ghost use Rattle.cedr_commands.specs.declared.command.Job.TheVariants.{Stream};
ghost use Rattle.cedr_commands.specs.Commands.{Command, command_of};
ghost use Rattle.cedr_commands.specs.Seen.{seen_files, seen_sink};
ghost use Rattle.cedr_commands.specs.Ending.{Ends};
ghost use Rattle.cedr_follow.specs.FollowEnds.{EndsCommand};
ghost use Rattle.cedr_run.specs.Strong.{StreamsPlan, StreamsStrong};
ghost use Rattle.cedr_run.specs.Threads.{AreBare, HasRun, IsThreaded};

use crate::ending::Ending;
use crate::threads::{Threaded, on_threads};
use cedr_commands::{Job, Status, named_command, run_named};
use cedr_follow::{run_follow, run_follow_from};
use cedr_io::{Files, Gate, Sink};
use cedr_parts::run_parts;
use std::alloc::Global;
use std::sync::{Arc, Wait};
use std::thread::Threads;
use std::time::Clock;

/// Carries out the command that the words name, and answers how it ended. `run`, `stream` and `pool` may wait, and so need not
/// return. They turn the workers of their plan on threads, and each of these turns passes the gate. `parts` takes threads
/// without workers.
pub fn run<
    R: Threads + Wait + Clock + Copy + Drop + Send + Sync + 'static,
    F: Files,
    K: Sink,
    E: Sink,
    G: Gate + Drop + Send + 'static,
>(
    rt: R,
    alloc: Global,
    words: &[String],
    files: &mut F,
    out: &mut K,
    err: &mut E,
    gate: &Arc<G, Global>,
) -> Ending
where
    F::Source: Drop + 'static,
    requires files_count { F.faults files.old < last_count }
    requires out_counts { K.faults out.old < last_count }
    ensures ends { EndsCommand (command_of (map string_bytes words.now))
        (seen_files F.content F.faults F.asked files.old) (seen_files F.content F.faults F.asked files.new)
        (seen_sink K.written K.faults out.old) (seen_sink K.written K.faults out.new)
        (seen_sink E.written E.faults err.old) (seen_sink E.written E.faults err.new) result.status }
    ensures ran { HasRun (command_of (map string_bytes words.now))
        (seen_files F.content F.faults F.asked files.old)
        (seen_sink K.written K.faults out.old) (seen_sink K.written K.faults out.new)
        result.status result.edges.items result.ran.items }
    ensures strong { StreamsStrong (command_of (map string_bytes words.now))
        (seen_files F.content F.faults F.asked files.old)
        (seen_sink K.written K.faults out.old) (seen_sink K.written K.faults out.new) }
{
    match named_command(words) {
        Some((job @ (Job::Run | Job::Pool(_) | Job::Stream), file, _, _)) => {
            call_threads(rt, alloc, job, file.as_bytes(), files, out, err, gate)
        }
        Some((Job::Parts(count), file, _, _)) => {
            let status = run_parts(&rt, alloc, count, file.as_bytes(), files, out, err);
            bare(alloc, status)
        }
        Some((Job::Follow, file, _, script)) => {
            let status = run_follow(alloc, file.as_bytes(), script.as_bytes(), files, out, err);
            bare(alloc, status)
        }
        Some((Job::FollowFrom, file, checkpoint, script)) => {
            let status = run_follow_from(
                alloc,
                file.as_bytes(),
                checkpoint.as_bytes(),
                script.as_bytes(),
                files,
                out,
                err,
            );
            bare(alloc, status)
        }
        named => bare(alloc, run_named(alloc, named, files, out, err)),
    }
}

/// A command that ran no worker ended so.
fn bare(alloc: Global, status: Status) -> Ending
    ensures status { result.status ≡ status }
    ensures bare { AreBare result.edges.items result.ran.items }
{
    Ending {
        status,
        edges: Vec::new(alloc),
        ran: Vec::new(alloc),
    }
}

/// Carries out `run`, `stream` or `pool`, and answers how it ended.
fn call_threads<
    R: Threads + Wait + Clock + Copy + Drop + Send + Sync + 'static,
    F: Files,
    K: Sink,
    E: Sink,
    G: Gate + Drop + Send + 'static,
>(
    rt: R,
    alloc: Global,
    job: Job,
    file: &[u8],
    files: &mut F,
    out: &mut K,
    err: &mut E,
    gate: &Arc<G, Global>,
) -> Ending
where
    F::Source: Drop + 'static,
    requires files_count { F.faults files.old < last_count }
    requires out_counts { K.faults out.old < last_count }
    requires job { IsThreaded job }
    ensures ends { (checkpoint script : List ℕ) → Ends (Some (record { job = job; file = file.now; checkpoint = checkpoint; script = script }))
        (seen_files F.content F.faults F.asked files.old) (seen_files F.content F.faults F.asked files.new)
        (seen_sink K.written K.faults out.old) (seen_sink K.written K.faults out.new)
        (seen_sink E.written E.faults err.old) (seen_sink E.written E.faults err.new) result.status }
    ensures ran { (checkpoint script : List ℕ) → HasRun (Some (record { job = job; file = file.now; checkpoint = checkpoint; script = script }))
        (seen_files F.content F.faults F.asked files.old)
        (seen_sink K.written K.faults out.old) (seen_sink K.written K.faults out.new)
        result.status result.edges.items result.ran.items }
    ensures strong { job ≡ Stream → StreamsPlan (seen_files F.content F.faults F.asked files.old) file.now (seen_sink K.written K.faults out.old) (seen_sink K.written K.faults out.new) }
{
    let Threaded {
        outcome,
        edges,
        ran,
    } = on_threads(rt, alloc, job, file, files, out, gate);
    let status = outcome.report(alloc, err);
    Ending { status, edges, ran }
}
