//! The sources of a plan, each read on a thread of its own where one can be made.
ghost use Rattle.std.specs.Prelude.{ℕ, ◌≡◌, ◌<◌, ◌≤◌, ◌∷◌, List, true, false, length, map, Option, IfOk};
ghost use Rattle.std.specs.List.{All, list_any};
ghost use Rattle.std.specs.Vec.{vec_capacity};
ghost use Rattle.cedr_base.specs.Messages.{IsLegal};
ghost use Rattle.cedr_guard.specs.Messages.{messages_in};
ghost use Rattle.cedr_io.specs.Counts.{Counts, last_count};
ghost use Rattle.cedr_plan.specs.Places.{source_count};
ghost use Rattle.plan_answer.specs.Finds.{AreFound, AsksSources, count_with};
ghost use Rattle.plan_answer.specs.Sources.{AsksFirst, AreTold, source_files};
ghost use Rattle.plan_serial.specs.Feeding.{AreSources};
ghost use Rattle.plan_serial.specs.Sources.{AreReadOf, is_failed};
ghost use Rattle.cedr_commands.specs.Steps.{CountsStep, OpensSources, StopsSources};
ghost use Rattle.cedr_parts.specs.Reading.{AreFoundFor, IsRead, IsUnread, ReadsFound, found_read, found_source};

use cedr_base::{FieldType, OutOfMemory};
use cedr_commands::{Outcome, refuse_sources};
use cedr_io::{Files, OutsideFault, Source};
use cedr_plan::{Plan, PlanNode, count_sources, is_source};
use cedr_source::{Entries, Unread};
use plan_answer::find_sources;
use plan_serial::{SourcesFault, note_sources, read_source};
use std::alloc::Global;
use std::collections::VecDeque;
use std::thread::{Threads, for_each_mut};

/// How many threads read at most.
const READERS: usize = 16;

/// A source that was found, the types of its fields, and what was read of it; before that, want of memory.
#[derive(Drop)]
struct FoundSource<'a, S> {
    source: S,
    types: &'a [FieldType],
    read: Result<Entries, Unread>,
}

/// The sources of a plan in its order, each with the types of its node, put into room that is there.
fn with_types<'a, S: Source + Drop>(
    nodes: &'a [PlanNode],
    sources: Vec<S>,
    found: &mut Vec<FoundSource<'a, S>>,
)
    requires count { length sources.items ≡ source_count nodes.now }
    requires none { length found.old.items ≡ 0 }
    requires room { length sources.items ≤ vec_capacity found.old }
    ensures found { (content : List ℕ → Option (List ℕ)) → AreFound S.rest content nodes.now sources.items → AreFoundFor S.rest content nodes.now found.new.items }
    ensures fresh { All (λ s. S.faults s ≡ 0) sources.items → All (IsUnread S.faults) found.new.items }
    ensures count { length found.new.items ≡ source_count nodes.now }
{
    let mut rest = VecDeque::from_vec(sources);
    for node in nodes {
        if is_source(&node.kind) {
            found.push_reserved(FoundSource {
                source: next_source(&mut rest),
                types: node.types.as_slice(),
                read: Err(Unread::OutOfMemory),
            });
        }
    }
}

fn next_source<S>(rest: &mut VecDeque<S>) -> S
    requires { 0 < length rest.old.items }
    ensures { rest.old.items ≡ result ∷ rest.new.items }
{
    match rest.pop_front() {
        Some(source) => source,
        None => unreachable!(),
    }
}

/// Reads a source that was found.
fn read_found<S: Source>(alloc: Global, found: &mut FoundSource<S>)
    ensures { ReadsFound S.rest S.faults found.old found.new }
{
    found.read = read_source(alloc, found.types, &mut found.source);
}

/// Reads each source on a thread, up to so many at a time.
fn read_each<R: Threads + Sync, S: Source + Send>(
    rt: &R,
    alloc: Global,
    found: &mut [FoundSource<S>],
)
    requires { All (IsUnread S.faults) found.old }
    ensures read { (content : List ℕ → Option (List ℕ)) (nodes : List PlanNode) → length found.old ≡ source_count nodes → AreFoundFor S.rest content nodes found.old → AreReadOf content nodes (map found_read found.new) }
    ensures each { All (IsRead S.faults) found.new }
    ensures count { length found.new ≡ length found.old }
{
    let read = |_: usize, one: &mut FoundSource<S>|
        ensures { ReadsFound S.rest S.faults one.entry.now one.exit.now }
    { read_found(alloc, one) };
    for_each_mut(rt, found, READERS, &read);
}

/// Gives the sources back in order, and puts what was read of them into room that is there.
fn give_back_found<F: Files>(
    files: &mut F,
    found: Vec<FoundSource<F::Source>>,
    reads: &mut Vec<Result<Entries, Unread>>,
)
where
    F::Source: Drop,
    requires none { length reads.old.items ≡ 0 }
    requires room { length found.items ≤ vec_capacity reads.old }
    ensures reads { reads.new.items ≡ map found_read found.entry.items }
    ensures counted { F.faults files.new ≡ count_with F.Source.faults (F.faults files.old) (map found_source found.entry.items) }
    ensures asked { F.asked files.new ≡ F.asked files.old }
    ensures contents { (n : List ℕ) → F.content files.new n ≡ F.content files.old n }
{
    let mut rest = VecDeque::from_vec(found);
    while let Some(
        FoundSource {
            source,
            types: _,
            read,
        },
    ) = rest.pop_front()
    {
        files.give_back(source);
        reads.push_reserved(read);
    }
}

/// Whether a read was refused.
fn is_failed(read: &Result<Entries, Unread>) -> bool
    ensures { result ≡ is_failed read.now }
{
    match read {
        Ok(_) => false,
        Err(Unread::Refused(_)) => false,
        Err(Unread::Failed) => true,
        Err(Unread::OutOfMemory) => false,
    }
}

fn have_failed(reads: &[Result<Entries, Unread>]) -> bool
    ensures { result ≡ list_any is_failed reads.now }
{
    reads.iter().any(|read| is_failed(read))
}

/// What was read of each source of a plan, in its order; or that a file wasn't found, or a read was refused. Each source that
/// was found is given back.
fn read_beside<R: Threads + Sync, F: Files>(
    rt: &R,
    alloc: Global,
    nodes: &[PlanNode],
    files: &mut F,
) -> Result<Vec<Result<Entries, Unread>>, OutsideFault>
where
    F::Source: Drop,
    requires { F.faults files.old < last_count }
    ensures read { IfOk result (λ reads. AreReadOf (F.content files.old) nodes.now reads.items) }
    ensures legal { IfOk result (λ reads. All (λ read. IfOk read (λ entries. IsLegal (messages_in entries))) reads.items) }
    ensures count { IfOk result (λ reads. length reads.items ≡ source_count nodes.now) }
    ensures found { IfOk result (λ reads. list_any is_failed reads.items ≡ false) }
    ensures counted { Counts result (F.faults files.old) (F.faults files.new) }
    ensures asked { AsksSources result (F.asked files.old) (F.asked files.new) (source_files nodes.now) }
    ensures contents { (n : List ℕ) → F.content files.new n ≡ F.content files.old n }
{
    let count = count_sources(nodes);
    let mut found = Vec::with_capacity(alloc, count)?;
    let mut reads = Vec::with_capacity(alloc, count)?;
    let sources = find_sources(alloc, nodes, files)?;
    with_types(nodes, sources, &mut found);
    read_each(rt, alloc, found.as_mut_slice());
    give_back_found(files, found, &mut reads);
    if have_failed(&reads) {
        return Err(OutsideFault::Failed);
    }
    Ok(reads)
}

/// All messages of a plan's sources line by line, or how the command ends without them, as `open_sources` of `cedr_commands` says;
/// each source is read on a thread of its own, up to 16 at a time.
pub(crate) fn open_beside<R: Threads + Sync, F: Files>(
    rt: &R,
    alloc: Global,
    plan: &Plan,
    files: &mut F,
) -> Result<Vec<Entries>, Outcome>
where
    F::Source: Drop,
    requires { F.faults files.old < last_count }
    ensures sources { IfOk result (λ left. AreSources plan.now.nodes.items left.items) }
    ensures stops { StopsSources result }
    ensures opened { (told : List ℕ → List ℕ) → AreTold (F.content files.old) told (source_files plan.now.nodes.items) → OpensSources result told plan.now.nodes.items }
    ensures counted { CountsStep result (F.faults files.old) (F.faults files.new) }
    ensures asked { AsksFirst (F.asked files.old) (F.asked files.new) (source_files plan.now.nodes.items) }
    ensures contents { (n : List ℕ) → F.content files.new n ≡ F.content files.old n }
{
    let nodes = plan.nodes.as_slice();
    let reads = match read_beside(rt, alloc, nodes, files) {
        Ok(reads) => reads,
        Err(OutsideFault::Failed) => return Err(Outcome::Read),
        Err(OutsideFault::OutOfMemory) => return Err(Outcome::OutOfMemory),
    };
    match note_sources(alloc, nodes, reads) {
        Ok(left) => Ok(left),
        Err(SourcesFault::Events(faulty)) => Err(refuse_sources(alloc, nodes, &faulty)),
        Err(SourcesFault::Read) => unreachable!(),
        Err(SourcesFault::OutOfMemory) => Err(Outcome::OutOfMemory),
    }
}
