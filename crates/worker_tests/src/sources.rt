//! Workers of sources.
ghost use Rattle.std.specs.Prelude.{◌≡◌, ◌<◌, ◌≤◌, ℕ, true, List, [], Option, length, IfOk};
ghost use Rattle.std.specs.List.{All};
ghost use Rattle.cedr_edge.specs.Ends.{OutEnd};
ghost use Rattle.worker_outlets.specs.Outlets.{AllOver};
ghost use Rattle.cedr_text.specs.declared.event_line.Shape.{Shape as Lined};
ghost use Rattle.cedr_worker.specs.declared.turn.Turn.TheVariants.{Ended};
ghost use Rattle.cedr_worker.specs.Sources.{SourceWorks};

use crate::feeding::{Turnstile, one_edge};
use cedr_base::{FieldType, OutOfMemory};
use cedr_edge::{EdgeIn, EdgeOut, new_edge};
use cedr_io::{Files, ListSource, Source};
use cedr_text::{LineFault, Shape};
use cedr_worker::{SourceStop, SourceWorker, Turn};
use std::alloc::Global;
use std::sync::Wait;
use std::test::Fail;
use test_feeding::{Brief, brief_of};
use test_outside::files_of;

/// Its last line has no line feed.
const EVENTS: &str = "+,1,1,10,7\n=,4\n-,1,5";

const MESSAGES: [Brief; 4] = [
    Brief::Add(7, 1, 10),
    Brief::Mark(4),
    Brief::Cut(7, 1, 10, 5),
    Brief::End,
];

const FIRST_ALONE: [Brief; 2] = [Brief::Add(7, 1, 10), Brief::Broken];

/// Lines, and how they are read.
#[derive(Clone, Copy)]
pub(crate) struct Text {
    pub(crate) lines: &'static str,
    /// A read gives at most so many bytes.
    pub(crate) piece: usize,
    /// The number of the read that is refused.
    pub(crate) refused: u64,
}

/// What a source sends over two edges, of which one has this room.
#[derive(Clone, Copy)]
struct Case {
    title: &'static str,
    text: Text,
    room: usize,
    says: &'static [Brief],
    stop: SourceStop,
}

/// All lines are accepted.
fn whole(title: &'static str, piece: usize, room: usize) -> Case {
    Case {
        title,
        text: Text {
            lines: EVENTS,
            piece,
            refused: 1000,
        },
        room,
        says: &MESSAGES,
        stop: SourceStop::Closed,
    }
}

/// The third line names an event that isn't known.
fn faulty(title: &'static str, piece: usize) -> Case {
    Case {
        title,
        text: Text {
            lines: "+,1,1,10,7\n\n-,2,5\n=,9",
            piece,
            refused: 1000,
        },
        room: 1,
        says: &FIRST_ALONE,
        stop: SourceStop::Refused {
            line: 3,
            fault: LineFault::UnknownId,
        },
    }
}

// The first two reads give `+,1,1,10,7\n=,4`.
const REFUSED: Case = Case {
    title: "the third read is refused",
    text: Text {
        lines: EVENTS,
        piece: 7,
        refused: 3,
    },
    room: 64,
    says: &FIRST_ALONE,
    stop: SourceStop::ReadFault,
};

/// The worker of a source of numbers.
pub(crate) fn source_over(
    alloc: Global,
    number: usize,
    text: Text,
    outputs: Vec<EdgeOut>,
) -> Result<SourceWorker<ListSource>, Fail>
    requires nothing { All (λ (o : OutEnd). o.sent ≡ []) outputs.items }
    requires some { 0 < length outputs.items }
    ensures { IfOk result (λ w. (shape : Lined) × (content : Option (List ℕ)) × (count : ℕ) × SourceWorks ⟦<ListSource as Source>⟧.rest ⟦<ListSource as Source>⟧.faults shape content count w) }
{
    let mut files = files_of(alloc, &[("s", text.lines)], text.piece, ("s", text.refused))?;
    let Ok(source) = files.find(b"s") else {
        return Err(Fail::new("the file is there"));
    };
    let shape = Shape::Fields(vec![in alloc; FieldType::Number]?);
    match SourceWorker::new(alloc, number, source, shape, outputs) {
        Ok(worker) => Ok(worker),
        Err(_) => Err(Fail::new("there is memory")),
    }
}

/// An end that takes, and how much came of what is wanted.
#[derive(Drop)]
struct Listener {
    input: EdgeIn,
    wanted: &'static [Brief],
    seen: usize,
    /// Something else came.
    other: bool,
}

impl Listener {
    fn new(input: EdgeIn, wanted: &'static [Brief]) -> Listener {
        Listener {
            input,
            wanted,
            seen: 0,
            other: false,
        }
    }

    /// Takes what came, up to a hundred messages.
    fn listen<R: Wait>(&mut self, rt: &R) {
        for _ in 0..100u8 {
            let Some(message) = self.input.take(rt) else {
                return;
            };
            match self.wanted.get(self.seen) {
                Some(brief) if brief_of(&message) == *brief => self.seen = self
                    .seen
                    .saturating_add(1),
                _ => self.other = true,
            }
        }
    }

    /// Whether all that is wanted came, and nothing else.
    fn heard_all(&self) -> bool {
        !self.other && self.seen == self.wanted.len()
    }
}

/// Two edges for a worker, of which the first has this room.
fn two_edges(
    alloc: Global,
    room: usize,
    wanted: &'static [Brief],
) -> Result<(Vec<EdgeOut>, Listener, Listener), OutOfMemory>
    requires { (1 ≤ room) × (room ≤ 1024) }
    ensures nothing { IfOk result (λ e. All (λ (o : OutEnd). o.sent ≡ []) e.0.items) }
    ensures some { IfOk result (λ e. 0 < length e.0.items) }
{
    let (one, first) = new_edge(alloc, room)?;
    let (two, second) = new_edge(alloc, 64)?;
    let outputs = vec![in alloc; one, two]?;
    Ok((
        outputs,
        Listener::new(first, wanted),
        Listener::new(second, wanted),
    ))
}

/// Turns a worker until it ended, while what it puts is taken. Whether it ended, and each turn passed the gate once.
fn turn_out<S: Source + Drop, R: Wait>(
    rt: &R,
    worker: &mut SourceWorker<S>,
    gate: &Turnstile,
    first: &mut Listener,
    second: &mut Listener,
) -> bool
    requires { (shape : Lined) × (content : Option (List ℕ)) × (count : ℕ) × SourceWorks S.rest S.faults shape content count worker.old }
    ensures works { (shape : Lined) × (content : Option (List ℕ)) × (count : ℕ) × SourceWorks S.rest S.faults shape content count worker.new }
    ensures over { result ≡ true → AllOver worker.new.outlets }
{
    let mut once = true;
    for _ in 0..1000u16 {
        let ended = ends_now(rt, worker, gate);
        once = once & gate.passed_once();
        first.listen(rt);
        second.listen(rt);
        if ended {
            return once;
        }
    }
    false
}

/// Takes a turn.
fn turn_once<S: Source + Drop, R: Wait>(
    rt: &R,
    worker: &mut SourceWorker<S>,
    gate: &Turnstile,
) -> Turn
    requires { (shape : Lined) × (content : Option (List ℕ)) × (count : ℕ) × SourceWorks S.rest S.faults shape content count worker.old }
    ensures works { (shape : Lined) × (content : Option (List ℕ)) × (count : ℕ) × SourceWorks S.rest S.faults shape content count worker.new }
    ensures over { result ≡ Ended → AllOver worker.new.outlets }
{
    worker.turn(rt, gate)
}

/// Takes a turn, and says whether the worker ended.
fn ends_now<S: Source + Drop, R: Wait>(
    rt: &R,
    worker: &mut SourceWorker<S>,
    gate: &Turnstile,
) -> bool
    requires { (shape : Lined) × (content : Option (List ℕ)) × (count : ℕ) × SourceWorks S.rest S.faults shape content count worker.old }
    ensures works { (shape : Lined) × (content : Option (List ℕ)) × (count : ℕ) × SourceWorks S.rest S.faults shape content count worker.new }
    ensures over { result ≡ true → AllOver worker.new.outlets }
{
    turn_once(rt, worker, gate) == Turn::Ended
}

/// Whether a source sends over both edges what its case says, and stops so.
fn sends<R: Wait>(rt: &R, alloc: Global, case: &Case) -> Result<bool, Fail> {
    let (outputs, mut first, mut second) = two_edges(alloc, case.room.clamp(1, 1024), case.says)?;
    let mut worker = source_over(alloc, 3, case.text, outputs)?;
    let gate = Turnstile::new(3);
    if !turn_out(rt, &mut worker, &gate, &mut first, &mut second) {
        return Ok(false);
    }
    let end = worker.finish();
    let count = case.says.len().saturating_mul(2) as u64;
    let ran = end.ran.number() == 3 && end.ran.taken() == 0 && end.ran.put() == count;
    Ok(ran && end.stop == case.stop && first.heard_all() && second.heard_all())
}

#[test]
fn a_source_sends_the_messages_of_its_lines(rt: HostRuntime) -> Result<(), Fail> {
    for case in &[
        whole("each byte alone, over an edge for one message", 1, 1),
        whole("each byte alone, over wide edges", 1, 64),
        whole("pieces of 7 bytes, over an edge for one message", 7, 1),
        whole("pieces of 7 bytes, over wide edges", 7, 64),
        whole("all at once, over an edge for one message", 4096, 1),
        whole("all at once, over wide edges", 4096, 64),
        faulty("a faulty line, each byte alone", 1),
        faulty("a faulty line, all at once", 4096),
        REFUSED,
    ] {
        assert!(rt; sends(&rt, rt.alloc(), case)?, "{}", case.title);
    }
    Ok(())
}

/// What a test does with a source that puts on an edge for one message, and what it wants to see.
#[derive(Clone, Copy)]
enum Act {
    /// The next turn comes to this.
    Turn(Turn),
    /// A message is taken from the edge.
    Take,
}

/// The block is read, the first line is taken, it is put and the next line is taken. Then the queue is full, until a message
/// is taken: the second message is put and a read gives nothing, then the last line is taken.
const FULL: [Act; 9] = [
    Act::Turn(Turn::Moved),
    Act::Turn(Turn::Moved),
    Act::Turn(Turn::Moved),
    Act::Turn(Turn::Idle),
    Act::Turn(Turn::Idle),
    Act::Take,
    Act::Turn(Turn::Moved),
    Act::Turn(Turn::Moved),
    Act::Turn(Turn::Idle),
];

/// Does an act, and says whether what it wants was seen. A turn is to pass the gate once.
fn perform<S: Source + Drop, R: Wait>(
    rt: &R,
    worker: &mut SourceWorker<S>,
    gate: &Turnstile,
    input: &mut EdgeIn,
    act: Act,
) -> bool
    requires { (shape : Lined) × (content : Option (List ℕ)) × (count : ℕ) × SourceWorks S.rest S.faults shape content count worker.old }
    ensures { (shape : Lined) × (content : Option (List ℕ)) × (count : ℕ) × SourceWorks S.rest S.faults shape content count worker.new }
{
    if let Act::Turn(wanted) = act {
        let turn = turn_once(rt, worker, gate);
        return (turn == wanted) & gate.passed_once();
    }
    input.take(rt).is_some()
}

/// Does acts one after the other. The first that didn't see what it wants.
fn play<S: Source + Drop, R: Wait>(
    rt: &R,
    worker: &mut SourceWorker<S>,
    gate: &Turnstile,
    input: &mut EdgeIn,
    acts: &[Act],
) -> Option<usize>
    requires { (shape : Lined) × (content : Option (List ℕ)) × (count : ℕ) × SourceWorks S.rest S.faults shape content count worker.old }
{
    for i in 0..acts.len() {
        if !perform(rt, worker, gate, input, acts[i]) {
            return Some(i);
        }
    }
    None
}

/// Whether a source of the events takes these turns, and is handed back where it was read to: the next read gives this.
fn is_read_to<R: Wait>(
    rt: &R,
    alloc: Global,
    piece: usize,
    acts: &[Act],
    next: &[u8],
) -> Result<bool, Fail> {
    let (outputs, mut input) = one_edge(alloc, 1)?;
    let text = Text {
        lines: EVENTS,
        piece,
        refused: 1000,
    };
    let mut worker = source_over(alloc, 5, text, outputs)?;
    let gate = Turnstile::new(5);
    let unseen = play(rt, &mut worker, &gate, &mut input, acts);
    let mut source = worker.into_source();
    let mut block = [0u8; 8];
    let count = source.read(&mut block)?;
    Ok(unseen.is_none() && &block[..count] == next)
}

#[test]
fn a_source_is_idle_at_a_full_edge(rt: HostRuntime) -> Result<(), Fail> {
    assert!(rt; is_read_to(&rt, rt.alloc(), 4096, &FULL, b"")?);
    assert!(rt; is_read_to(&rt, rt.alloc(), 4, &FULL[..1], b"1,10")?);
    Ok(())
}
