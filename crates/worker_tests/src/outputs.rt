//! Workers of outputs, with a reader of what they publish.
ghost use Rattle.std.specs.Prelude.{◌≡◌, true, [], ◌∷◌, IfOk, IfSome};
ghost use Rattle.cedr_node.specs.Nodes.{made_of, NodeStands};
ghost use Rattle.cedr_plan.specs.declared.plan.NodeKind.TheVariants as kind;
ghost use Rattle.cedr_plan.specs.Rules.{IsPlan};
ghost use Rattle.test_feeding.specs.Came.{CameFor};
ghost use Rattle.cedr_worker.specs.OutputTurns.{OutputWorks};

use crate::feeding::{Feeder, Turnstile, fed_edge, feed};
use cedr_base::{FOREVER, OutOfMemory, Time};
use cedr_edge::EdgeIn;
use cedr_history::{Close, Note, Reader, Seen, new_history};
use cedr_io::OpenGate;
use cedr_node::Node;
use cedr_plan::{NodeKind, Plan, read_plan};
use cedr_worker::{OutputEnd, OutputWorker, Turn};
use std::alloc::Global;
use std::sync::Wait;
use std::test::Fail;
use test_feeding::{Brief, brief_of_change};

const MIDDLE: &str = r#"{"version":1,"nodes":[
 {"name":"s","op":"source","file":"s.csv","fields":["int"]},
 {"name":"out","op":"output","from":["s"]}]}"#;

pub(crate) const STRONG: &str = r#"{"version":1,"nodes":[
 {"name":"s","op":"source","file":"s.csv","fields":["int"]},
 {"name":"out","op":"output","from":["s"],"level":"strong"}]}"#;

/// What a test does, and what it wants to see.
#[derive(Clone, Copy)]
enum Act {
    /// A message is put on the input.
    Feed(Brief),
    /// The next turn comes to this.
    Turn(Turn),
    /// The reader sees so many of the changes that are wanted, with this mark and this close.
    Sees(usize, Time, Close),
}

/// An output that ends with the last of the acts.
struct Case {
    title: &'static str,
    plan: &'static str,
    /// The room of its input.
    room: usize,
    acts: &'static [Act],
    end: Whole,
}

/// What a reader sees in the end, and how many messages were taken.
#[derive(Clone, Copy)]
pub(crate) struct Whole {
    pub(crate) changes: &'static [Brief],
    pub(crate) mark: Time,
    pub(crate) close: Close,
    pub(crate) taken: u64,
}

const CASES: [Case; 7] = [
    Case {
        title: "a strong output shows what is final, over an edge for one message",
        plan: STRONG,
        room: 1,
        acts: &STRONG_ACTS,
        end: Whole {
            changes: &ENDS_ALONE,
            mark: FOREVER,
            close: Close::Ended,
            taken: 5,
        },
    },
    Case {
        title: "a strong output shows what is final, over a wide edge",
        plan: STRONG,
        room: 64,
        acts: &STRONG_ACTS,
        end: Whole {
            changes: &ENDS_ALONE,
            mark: FOREVER,
            close: Close::Ended,
            taken: 5,
        },
    },
    Case {
        title: "a mark makes rows final",
        plan: STRONG,
        room: 1,
        acts: &MARKED_ACTS,
        end: Whole {
            changes: &ENDS_ALONE,
            mark: FOREVER,
            close: Close::Ended,
            taken: 4,
        },
    },
    Case {
        title: "a list grows before its source ends, over an edge for one message",
        plan: MIDDLE,
        room: 1,
        acts: &MIDDLE_ACTS,
        end: Whole {
            changes: &EACH,
            mark: FOREVER,
            close: Close::Ended,
            taken: 5,
        },
    },
    Case {
        title: "a list grows before its source ends, over a wide edge",
        plan: MIDDLE,
        room: 64,
        acts: &MIDDLE_ACTS,
        end: Whole {
            changes: &EACH,
            mark: FOREVER,
            close: Close::Ended,
            taken: 5,
        },
    },
    Case {
        title: "a list breaks off as its input does",
        plan: MIDDLE,
        room: 1,
        acts: &BROKEN_ACTS,
        end: Whole {
            changes: &ONE,
            mark: 0,
            close: Close::Broken,
            taken: 2,
        },
    },
    Case {
        title: "the note of an output is learnt",
        plan: MIDDLE,
        room: 64,
        acts: &ONE_ACTS,
        end: Whole {
            changes: &ONE,
            mark: FOREVER,
            close: Close::Ended,
            taken: 2,
        },
    },
];

/// Two rows that wait for a mark after their ends, or for the end of all.
pub(crate) const ENDS_ALONE: [Brief; 2] = [Brief::Add(1, 1, 10), Brief::Add(2, 4, 10)];

const STRONG_ACTS: [Act; 18] = [
    Act::Turn(Turn::Idle),
    Act::Sees(0, 0, Close::Open),
    Act::Feed(Brief::Add(1, 1, 20)),
    Act::Turn(Turn::Moved),
    Act::Feed(Brief::Add(2, 4, 10)),
    Act::Turn(Turn::Moved),
    Act::Sees(0, 0, Close::Open),
    Act::Feed(Brief::Mark(10)),
    Act::Turn(Turn::Moved),
    Act::Sees(0, 1, Close::Open),
    Act::Feed(Brief::Cut(1, 1, 20, 10)),
    Act::Turn(Turn::Moved),
    Act::Sees(0, 1, Close::Open),
    Act::Turn(Turn::Idle),
    Act::Feed(Brief::End),
    Act::Turn(Turn::Ended),
    Act::Sees(2, FOREVER, Close::Ended),
    Act::Turn(Turn::Ended),
];

/// A mark after both ends comes before the end of all.
const MARKED_ACTS: [Act; 11] = [
    Act::Feed(Brief::Add(1, 1, 10)),
    Act::Turn(Turn::Moved),
    Act::Feed(Brief::Add(2, 4, 10)),
    Act::Turn(Turn::Moved),
    Act::Sees(0, 0, Close::Open),
    Act::Feed(Brief::Mark(11)),
    Act::Turn(Turn::Moved),
    Act::Sees(2, 11, Close::Open),
    Act::Feed(Brief::End),
    Act::Turn(Turn::Ended),
    Act::Sees(2, FOREVER, Close::Ended),
];

const EACH: [Brief; 3] = [
    Brief::Add(1, 1, 20),
    Brief::Add(2, 4, 10),
    Brief::Cut(1, 1, 20, 10),
];

const MIDDLE_ACTS: [Act; 16] = [
    Act::Turn(Turn::Idle),
    Act::Feed(Brief::Add(1, 1, 20)),
    Act::Turn(Turn::Moved),
    Act::Sees(1, 0, Close::Open),
    Act::Feed(Brief::Add(2, 4, 10)),
    Act::Turn(Turn::Moved),
    Act::Sees(2, 0, Close::Open),
    Act::Feed(Brief::Mark(10)),
    Act::Turn(Turn::Moved),
    Act::Sees(2, 10, Close::Open),
    Act::Feed(Brief::Cut(1, 1, 20, 10)),
    Act::Turn(Turn::Moved),
    Act::Sees(3, 10, Close::Open),
    Act::Feed(Brief::End),
    Act::Turn(Turn::Ended),
    Act::Sees(3, FOREVER, Close::Ended),
];

const ONE: [Brief; 1] = [Brief::Add(1, 1, 20)];

const BROKEN_ACTS: [Act; 6] = [
    Act::Feed(Brief::Add(1, 1, 20)),
    Act::Turn(Turn::Moved),
    Act::Sees(1, 0, Close::Open),
    Act::Feed(Brief::Broken),
    Act::Turn(Turn::Ended),
    Act::Sees(1, 0, Close::Broken),
];

const ONE_ACTS: [Act; 5] = [
    Act::Feed(Brief::Add(1, 1, 20)),
    Act::Feed(Brief::End),
    Act::Turn(Turn::Moved),
    Act::Turn(Turn::Ended),
    Act::Turn(Turn::Ended),
];

/// An output with the other end of its input, and its reader.
struct Made {
    worker: OutputWorker,
    one: Feeder,
    reader: Reader,
}

/// The node of the output at a place of a plan.
fn output_at(alloc: Global, plan: &Plan, place: usize) -> Result<Node, Fail>
    requires { IsPlan plan.now }
    ensures { IfOk result (λ node. ((made_of node).kind ≡ kind.Output) × NodeStands node ([] ∷ []) []) }
{
    if place >= plan.nodes.len() {
        return Err(Fail::new("there is no such node"));
    }
    let drawn = &plan.nodes[place];
    if drawn.inputs.len() != 1 {
        return Err(Fail::new("an output has one port"));
    }
    match drawn.kind {
        NodeKind::Output => Ok(Node::new(alloc, drawn)?),
        _ => Err(Fail::new("the node is no output")),
    }
}

/// The worker of the output of a plan, which has one source besides, and the reader of what it publishes.
pub(crate) fn output_over<R: Wait>(
    rt: &R,
    alloc: Global,
    plan: &str,
    input: EdgeIn,
) -> Result<(OutputWorker, Reader), Fail>
    requires { input.taken ≡ [] }
    ensures works { IfOk result (λ o. OutputWorks o.0) }
    ensures history { IfOk result (λ o. o.1.history ≡ o.0.writer.history) }
{
    let plan = read_plan(alloc, plan.as_bytes())?;
    let node = output_at(alloc, &plan, 1)?;
    let (writer, reader) = new_history(alloc, rt)?;
    Ok((OutputWorker::new(alloc, 1, node, input, writer), reader))
}

/// Whether the reader sees so many of the changes that are wanted, and nothing else, with this mark and this close.
fn sees(
    alloc: Global,
    reader: &mut Reader,
    wanted: &[Brief],
    list: Seen,
) -> Result<bool, OutOfMemory>
    ensures { reader.new.history ≡ reader.old.history }
{
    let mut changes = Vec::new(alloc);
    let found = reader.read(0, usize::MAX, &mut changes)?;
    for i in 0..changes.len() {
        match wanted.get(i) {
            Some(brief) if brief_of_change(&changes[i]) == *brief => {}
            _ => return Ok(false),
        }
    }
    Ok(found == Some(list) && changes.len() == list.len)
}

/// Does an act, and says whether what it wants was seen.
fn perform<R: Wait>(
    rt: &R,
    alloc: Global,
    made: &mut Made,
    gate: &Turnstile,
    wanted: &[Brief],
    act: Act,
) -> Result<bool, OutOfMemory>
    requires works { OutputWorks made.old.worker }
    requires stands { CameFor made.old.one.came made.old.one.out.sent }
    requires history { made.old.reader.history ≡ made.old.worker.writer.history }
    ensures works { OutputWorks made.new.worker }
    ensures stands { IfOk result (λ seen. seen ≡ true → CameFor made.new.one.came made.new.one.out.sent) }
    ensures history { made.new.reader.history ≡ made.new.worker.writer.history }
{
    match act {
        Act::Feed(brief) => feed(rt, alloc, &mut made.one, brief),
        Act::Turn(wanted) => {
            let turn = made.worker.turn(rt, gate);
            Ok(gate.passed_once() && turn == wanted)
        }
        Act::Sees(len, mark, close) => {
            sees(alloc, &mut made.reader, wanted, Seen { len, mark, close })
        }
    }
}

/// Does acts one after the other. The first that didn't see what it wants.
fn play<R: Wait>(
    rt: &R,
    alloc: Global,
    made: &mut Made,
    case: &Case,
) -> Result<Option<usize>, OutOfMemory>
    requires works { OutputWorks made.old.worker }
    requires stands { CameFor made.old.one.came made.old.one.out.sent }
    requires history { made.old.reader.history ≡ made.old.worker.writer.history }
    ensures works { OutputWorks made.new.worker }
    ensures history { made.new.reader.history ≡ made.new.worker.writer.history }
{
    let gate = Turnstile::new(1);
    for i in 0..case.acts.len() {
        if !perform(rt, alloc, made, &gate, case.end.changes, case.acts[i])? {
            return Ok(Some(i));
        }
    }
    Ok(None)
}

/// The reader learns a note, if there is one.
fn learn_of(reader: &mut Reader, note: Option<Note>) -> bool
    requires { IfSome note (λ n. n.history ≡ reader.old.history) }
{
    match note {
        Some(note) => {
            reader.learn(note);
            true
        }
        None => false,
    }
}

/// Whether an output ends with its next turn, and the reader sees the whole list once it learnt its note.
pub(crate) fn ends<R: Wait>(
    rt: &R,
    alloc: Global,
    mut worker: OutputWorker,
    reader: &mut Reader,
    whole: Whole,
) -> Result<bool, OutOfMemory>
    requires works { OutputWorks worker }
    requires history { reader.old.history ≡ worker.writer.history }
{
    if worker.turn(rt, &OpenGate) != Turn::Ended {
        worker.into_writer().end(rt);
        return Ok(false);
    }
    let OutputEnd {
        number,
        node,
        input: _input,
        writer,
        note,
        lacked,
        ran,
    } = worker.finish();
    let learnt = learn_of(reader, note);
    let list = Seen {
        len: whole.changes.len(),
        mark: whole.mark,
        close: whole.close,
    };
    let found = sees(alloc, reader, whole.changes, list);
    writer.end(rt);
    let told = learnt && !lacked && node.ended() && number == 1;
    let counts = ran.number() == 1 && ran.taken() == whole.taken && ran.put() == 0;
    Ok(found? && told && counts)
}

/// Plays the acts of a case with a new output. The first that didn't see what it wants, and whether the output ended as it
/// is to.
fn played<R: Wait>(rt: &R, alloc: Global, case: &Case) -> Result<(Option<usize>, bool), Fail> {
    let (one, input) = fed_edge(alloc, case.room.clamp(1, 1024))?;
    let (worker, reader) = output_over(rt, alloc, case.plan, input)?;
    let mut made = Made {
        worker,
        one,
        reader,
    };
    let unseen = play(rt, alloc, &mut made, case);
    let Made {
        worker,
        one: _one,
        mut reader,
    } = made;
    let ended = ends(rt, alloc, worker, &mut reader, case.end);
    Ok((unseen?, ended?))
}

#[test]
fn the_workers_of_outputs_do_as_their_cases_say(rt: HostRuntime) -> Result<(), Fail> {
    for case in &CASES {
        let (unseen, ended) = played(&rt, rt.alloc(), case)?;
        assert_eq!(rt; unseen, None, "{}", case.title);
        assert!(rt; ended, "{}", case.title);
    }
    Ok(())
}
