//! The program `cedr`: real files and streams around the top call.
#![tactic(auto)]

use cedr_commands::Status;
use cedr_io::{DiskFiles, OpenGate, OutsideFault, StdSink, write_all};
use cedr_run::run;
use std::io::ErrorKind;
use std::process::ExitCode;
use std::sync::{Arc, Wait};
use std::thread::Threads;
use std::time::Clock;
use std::{env, io};

const HELP: &str = "usage: cedr COMMAND; each command, and an example of it:

cedr run PLAN             cedr run plan.json
    writes the rows of the plan's answer over the files of its sources, sorted by end,
    then by begin, then field by field. Where some level of the plan has a finite memory,
    a line -- and a line for each change that came too late to count follow.
cedr stream PLAN          cedr stream plan.json
    writes the changes of the answer as they come: an added row after +, and after - a
    row that ends earlier, with its new end in front.
cedr pool N PLAN          cedr pool 4 plan.json
    writes what run writes, with N threads for all nodes, N from 1 to 16, where run has one
    for each node. It is no quicker than run, and takes no more threads than it is told.
cedr parts N PLAN         cedr parts 4 plan.json
    writes what run writes, by N parts of the keys of its events, each on a thread, N from 1
    to 16. A plan that keeps no key, or has a finite memory, is answered as serial does.
cedr live PLAN SCRIPT     cedr live plan.json script.txt
    reads no event file. Each line of the script is an event line after the name of its
    source and a comma, or ? alone, at which the rows so far are written, and then up to
    which time nothing changes any more.
cedr save PLAN SCRIPT     cedr save plan.json day.txt > saved.txt
    judges the script as live does, and writes the checkpoint to which it comes: for each
    source its greatest guarantee, and each event as it is. A ? writes nothing.
cedr resume PLAN CHECKPOINT SCRIPT  cedr resume plan.json saved.txt next_day.txt
    writes what live writes for the script, behind all that the checkpoint was saved of.
    A plan with a finite memory, or with a finite block other than 0, can't be saved.
cedr follow PLAN SCRIPT   cedr follow plan.json /dev/stdin
    takes the script's lines as they come, for as long as they do, and writes what each
    one changes, as stream does, and =,TIME where nothing before TIME changes any more.
    A faulty line is told and changes nothing; the status is 3 then, at the script's end.
    What is over is forgotten. The plan is one that can be saved.
cedr follow PLAN CHECKPOINT SCRIPT  cedr follow plan.json saved.txt /dev/stdin
    writes the same behind all that the checkpoint was saved of.
cedr serial PLAN          cedr serial plan.json
    writes what run writes, on one thread.
cedr audit PLAN           cedr audit plan.json
    writes the same, with the line -- and the changes that didn't count always.
cedr check PLAN           cedr check plan.json
    writes a line for each node of the plan: its name, its operator and the types of the
    fields of its result. It opens no event file.
cedr history FILE         cedr history events.csv
    writes the canonical history of an event file: for each event its valid interval and
    its fields, as the file's retractions and revisions leave them.
cedr make N               cedr make 1000
    answers a plan over two sources of N events that it makes itself, N from 1 to 100000,
    and writes how many rows there are and for how long they are valid together.
cedr --help, cedr --version
    print this text and the version.

An event file has lines of four kinds:
    +,ID,BEGIN,END,FIELD..    an event is valid from BEGIN on and before END, or inf
    -,ID,END                  it ends earlier; where that is its begin, it is withdrawn
    ~,ID,BEGIN,END,FIELD..    it has this interval and these fields instead, and is back
                              where it was withdrawn
    =,TIME                    no later line changes anything before TIME

Exit status: 0 done, 1 the command line matches no command, 2 the plan has a fault,
3 the events have a fault, 4 a read fault, 5 a write fault, 6 out of memory, 7 what resume
or follow was given is no checkpoint of the plan.

The faults of a line, of which the least is reported:
     1 the line is too long
     2 the line isn't in form
     3 an id or a time isn't in form
     4 the valid interval is empty
     5 a number field isn't in form
     6 the id was inserted before
     7 the id wasn't inserted
     8 the new end isn't from the event's begin on and below its end
     9 the sync is below the guarantee
    10 the file is too large

The faults of a plan, of which the first is reported:
     1 the plan is too long
     2 the plan isn't JSON
     3 a required member is missing or isn't in form
     4 the operator isn't known
     5 there are too many nodes, ports, fields or tests
     6 a number isn't whole or isn't in its range
     7 the level isn't known, or its block is over its memory
     8 the name is an earlier node's
     9 an input is no earlier node, or an output
    10 the result has too many fields
    11 a column isn't there
    12 types differ
    13 there isn't exactly one output
    14 a node is never used
    15 a level can't be saved, for save, resume and follow alone
";

const VERSION: &str = "cedr 0.1.0\n";

fn main(rt: HostRuntime) -> ExitCode {
    let status = match words(&rt) {
        Ok(words) => answer(&rt, rt, &words),
        Err(error) if error.kind() == ErrorKind::OutOfMemory => lacking(&rt),
        // A word that is no text matches no command, as no word does.
        Err(_) => answer(&rt, rt, &[]),
    };
    ExitCode::from(status.code())
}

/// The words after the program's name.
fn words(rt: &HostRuntime) -> io::Result<Vec<String>> {
    let words = env::args(rt)?.skip(1).collect(rt.alloc())?;
    Ok(words)
}

/// Carries out the command that the words name. `threads` is the runtime again: only `main` can hand it on as what may wait
/// and start threads.
fn answer<R: Threads + Wait + Clock + Copy + Drop + Send + Sync + 'static>(
    rt: &HostRuntime,
    threads: R,
    words: &[String],
) -> Status {
    let mut out = StdSink::out(rt);
    if let [word] = words {
        match word.as_str() {
            "--help" => return print(rt, &mut out, HELP),
            "--version" => return print(rt, &mut out, VERSION),
            _ => {}
        }
    }
    let alloc = rt.alloc();
    let Ok(gate) = Arc::new(alloc, OpenGate) else {
        return lacking(rt);
    };
    let mut files = DiskFiles::new(rt);
    let mut err = StdSink::err(rt);
    run(threads, alloc, words, &mut files, &mut out, &mut err, &gate).status
}

/// Prints the text, or reports on standard error why not all of it was printed.
fn print(rt: &HostRuntime, out: &mut StdSink, text: &str) -> Status {
    match write_all(out, text.as_bytes()) {
        Ok(()) => Status::Done,
        Err(OutsideFault::Failed) => {
            let _ = write_all(&mut StdSink::err(rt), b"write fault\n");
            Status::Write
        }
        Err(OutsideFault::OutOfMemory) => lacking(rt),
    }
}

/// Reports on standard error that memory ran out.
fn lacking(rt: &HostRuntime) -> Status {
    let _ = write_all(&mut StdSink::err(rt), b"out of memory\n");
    Status::OutOfMemory
}
