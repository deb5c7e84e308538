ghost use Rattle.std.specs.Prelude.{◌≡◌, ◌≢◌, true, map, codes};
ghost use Rattle.std.specs.String.{string_bytes};
ghost use Rattle.cedr_commands.specs.Commands.{IsAlone};

use anyhow::{Result, bail};
use cedr_commands::run_alone;
use cedr_io::OpenGate;
use cedr_run::{Ending, run};
use std::alloc::Global;
use std::sync::{Arc, Wait};
use std::thread::Threads;
use std::time::Clock;
use test_outside::{Case, Outside, WatchedFiles, WatchedSink, spelled_words};

/// How a command ended, and what it left outside.
#[derive(Drop)]
pub(crate) struct Played {
    pub(crate) ending: Ending,
    pub(crate) files: WatchedFiles,
    pub(crate) out: WatchedSink,
    pub(crate) err: WatchedSink,
    pub(crate) longest: Option<Vec<u8>>,
    /// It writes as it goes, and not when its whole text is known.
    pub(crate) goes_on: bool,
}

/// Carries out the words by the top call.
pub(crate) fn play_on_threads<R: Threads + Wait + Clock + Copy + Drop + Send + Sync + 'static>(
    rt: R,
    alloc: Global,
    case: &mut Case,
    words: &[&str],
) -> Result<Played> {
    let words = spelled_words(alloc, words)?;
    let gate = Arc::new(alloc, OpenGate)?;
    let Outside {
        mut files,
        mut out,
        mut err,
        longest,
    } = case.prepared()?;
    let ending = run(rt, alloc, &words, &mut files, &mut out, &mut err, &gate);
    Ok(Played {
        ending,
        files,
        out,
        err,
        longest,
        goes_on: goes_on(&words),
    })
}

/// Carries out the words by the call that starts no thread.
pub(crate) fn play_alone(alloc: Global, case: &mut Case, words: &[&str]) -> Result<Played> {
    let words = spelled_words(alloc, words)?;
    if !is_alone(&words) {
        bail!("a command on threads");
    }
    let Outside {
        mut files,
        mut out,
        mut err,
        longest,
    } = case.prepared()?;
    let status = run_alone(alloc, &words, &mut files, &mut out, &mut err);
    let ending = Ending {
        status,
        edges: Vec::new(alloc),
        ran: Vec::new(alloc),
    };
    Ok(Played {
        ending,
        files,
        out,
        err,
        longest,
        goes_on: goes_on(&words),
    })
}

/// Whether a command writes as it goes.
fn goes_on(words: &[String]) -> bool {
    match words {
        [command, ..] => matches!(command.as_str(), "stream" | "live" | "resume"),
        [] => false,
    }
}

/// Whether a command with one word behind it isn't one on threads.
fn is_alone_with_one(command: &str) -> bool
    ensures { result ≡ true → (command.now ≢ codes "run") × (command.now ≢ codes "stream") }
{
    command != "run" && command != "stream"
}

/// Whether a command with two words behind it is neither one on threads, whatever the first word is, nor one that follows a script.
fn is_alone_with_two(command: &str) -> bool
    ensures { result ≡ true → (command.now ≢ codes "pool") × (command.now ≢ codes "follow") }
{
    command != "pool" && command != "follow"
}

/// Whether a command with three words behind it isn't one that follows a script.
fn is_alone_with_three(command: &str) -> bool
    ensures { result ≡ true → command.now ≢ codes "follow" }
{
    command != "follow"
}

/// Whether the words match none of `run PLAN`, `stream PLAN`, `pool N PLAN`, whatever N is, and `follow PLAN .. SCRIPT`.
fn is_alone(words: &[String]) -> bool
    ensures { result ≡ true → IsAlone (map string_bytes words.now) }
{
    match words {
        [command, _] => is_alone_with_one(command),
        [command, _, _] => is_alone_with_two(command),
        [command, _, _, _] => is_alone_with_three(command),
        _ => true,
    }
}
