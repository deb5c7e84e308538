//! Workers of a select and of a union.
ghost use Rattle.std.specs.Prelude.{◌≡◌, true, [], IfOk};
ghost use Rattle.std.specs.List.{All};
ghost use Rattle.cedr_edge.specs.Ends.{InEnd, OutEnd};
ghost use Rattle.cedr_plan.specs.Rules.{IsPlan};
ghost use Rattle.test_feeding.specs.Came.{CameFor};
ghost use Rattle.cedr_worker.specs.Workers.{IsWorking};

use crate::feeding::{Feeder, Turnstile, fed_edge, feed, one_edge, says};
use cedr_base::{FOREVER, OutOfMemory};
use cedr_edge::{EdgeIn, EdgeOut};
use cedr_io::OpenGate;
use cedr_node::Node;
use cedr_plan::{Plan, is_source, read_plan};
use cedr_worker::{OperatorWorker, Turn};
use std::alloc::Global;
use std::sync::Wait;
use std::test::Fail;
use std::time::Clock;
use test_feeding::{Brief, brief_of};

const SELECT: &str = r#"{"version":1,"nodes":[
 {"name":"s","op":"source","file":"s.csv","fields":["int"]},
 {"name":"f","op":"select","from":["s"],"where":[[0,">=",{"int":5}]]},
 {"name":"out","op":"output","from":["f"]}]}"#;

const UNION: &str = r#"{"version":1,"nodes":[
 {"name":"s","op":"source","file":"s.csv","fields":["int"]},
 {"name":"t","op":"source","file":"t.csv","fields":["int"]},
 {"name":"u","op":"union","from":["s","t"]},
 {"name":"out","op":"output","from":["u"]}]}"#;

/// What a test does, and what it wants to see.
#[derive(Clone, Copy)]
enum Act {
    /// A message is put on the input, of two on the left one.
    Feed(Brief),
    /// A message is put on the right input.
    Right(Brief),
    /// The next turn comes to this.
    Turn(Turn),
    /// The worker runs to its end.
    Run,
    /// The next message of the out edge is this one.
    Says(Brief),
    /// The same, after as many turns as it takes, up to ten.
    Gives(Brief),
    /// The out edge is empty.
    Silent,
}

/// A worker that ends with the last of the acts.
struct Case {
    title: &'static str,
    plan: &'static str,
    place: usize,
    ports: usize,
    /// The room of its out edge.
    room: usize,
    acts: &'static [Act],
    /// How many messages its turns took and put.
    ran: (u64, u64),
}

const CASES: [Case; 5] = [
    Case {
        title: "a select over an edge for one message",
        plan: SELECT,
        place: 1,
        ports: 1,
        room: 1,
        acts: &SELECTED,
        ran: (7, 6),
    },
    Case {
        title: "a select over a wide edge",
        plan: SELECT,
        place: 1,
        ports: 1,
        room: 64,
        acts: &SELECTED,
        ran: (7, 6),
    },
    Case {
        title: "a run goes on to the end",
        plan: SELECT,
        place: 1,
        ports: 1,
        room: 64,
        acts: &RUN,
        ran: (7, 6),
    },
    Case {
        title: "what each turn comes to",
        plan: SELECT,
        place: 1,
        ports: 1,
        room: 1,
        acts: &TURNS,
        ran: (3, 4),
    },
    Case {
        title: "a break waits for the other input",
        plan: UNION,
        place: 2,
        ports: 2,
        room: 64,
        acts: &BROKEN_LEFT,
        ran: (5, 3),
    },
];

/// Rows of which the select takes the second and the third.
const SELECTED: [Act; 14] = [
    Act::Feed(Brief::Add(4, 0, 10)),
    Act::Feed(Brief::Add(5, 2, 9)),
    Act::Feed(Brief::Mark(3)),
    Act::Feed(Brief::Add(9, 3, 8)),
    Act::Feed(Brief::Cut(5, 2, 9, 4)),
    Act::Feed(Brief::Cut(4, 0, 10, 6)),
    Act::Feed(Brief::End),
    Act::Gives(Brief::Add(5, 2, 9)),
    Act::Gives(Brief::Mark(3)),
    Act::Gives(Brief::Add(9, 3, 8)),
    Act::Gives(Brief::Cut(5, 2, 9, 4)),
    Act::Gives(Brief::Mark(FOREVER)),
    Act::Gives(Brief::End),
    Act::Silent,
];

/// The same rows, in one run.
const RUN: [Act; 15] = [
    Act::Feed(Brief::Add(4, 0, 10)),
    Act::Feed(Brief::Add(5, 2, 9)),
    Act::Feed(Brief::Mark(3)),
    Act::Feed(Brief::Add(9, 3, 8)),
    Act::Feed(Brief::Cut(5, 2, 9, 4)),
    Act::Feed(Brief::Cut(4, 0, 10, 6)),
    Act::Feed(Brief::End),
    Act::Run,
    Act::Says(Brief::Add(5, 2, 9)),
    Act::Says(Brief::Mark(3)),
    Act::Says(Brief::Add(9, 3, 8)),
    Act::Says(Brief::Cut(5, 2, 9, 4)),
    Act::Says(Brief::Mark(FOREVER)),
    Act::Says(Brief::End),
    Act::Silent,
];

/// The first row is taken, then put while the second is taken, and then the queue is full. Once there is room the second
/// row is put and the end is taken: the last mark and the end are pending.
const TURNS: [Act; 20] = [
    Act::Turn(Turn::Idle),
    Act::Feed(Brief::Add(7, 0, 9)),
    Act::Feed(Brief::Add(8, 0, 9)),
    Act::Turn(Turn::Moved),
    Act::Turn(Turn::Moved),
    Act::Turn(Turn::Idle),
    Act::Feed(Brief::End),
    Act::Turn(Turn::Idle),
    Act::Says(Brief::Add(7, 0, 9)),
    Act::Turn(Turn::Moved),
    Act::Turn(Turn::Idle),
    Act::Says(Brief::Add(8, 0, 9)),
    Act::Turn(Turn::Moved),
    Act::Turn(Turn::Idle),
    Act::Says(Brief::Mark(FOREVER)),
    Act::Turn(Turn::Ended),
    Act::Turn(Turn::Ended),
    Act::Says(Brief::End),
    Act::Silent,
    Act::Turn(Turn::Ended),
];

/// The left input has a row and then breaks. The right one goes on, and only with its end the break is handed on.
const BROKEN_LEFT: [Act; 14] = [
    Act::Feed(Brief::Add(1, 0, 10)),
    Act::Feed(Brief::Broken),
    Act::Right(Brief::Add(2, 1, 5)),
    Act::Turn(Turn::Moved),
    Act::Turn(Turn::Moved),
    Act::Turn(Turn::Moved),
    Act::Turn(Turn::Idle),
    Act::Says(Brief::Add(1, 0, 10)),
    Act::Says(Brief::Add(2, 1, 5)),
    Act::Silent,
    Act::Right(Brief::Add(3, 2, 5)),
    Act::Right(Brief::End),
    Act::Gives(Brief::Broken),
    Act::Silent,
];

/// A worker, and the other ends of its edges.
#[derive(Drop)]
struct Made {
    worker: OperatorWorker,
    left: Feeder,
    right: Feeder,
    last: EdgeIn,
}

/// The inputs of a worker with one port or two.
fn inputs_of(
    alloc: Global,
    left: EdgeIn,
    right: EdgeIn,
    ports: usize,
) -> Result<Vec<EdgeIn>, OutOfMemory>
    requires { (left.taken ≡ []) × (right.taken ≡ []) }
    ensures { IfOk result (λ inputs. All (λ (e : InEnd). e.taken ≡ []) inputs.items) }
{
    if ports == 1 {
        Ok(vec![in alloc; left]?)
    } else {
        Ok(vec![in alloc; left, right]?)
    }
}

/// The worker of the node at a place of a plan, over these edges.
fn worker_at(
    alloc: Global,
    plan: &Plan,
    place: usize,
    inputs: Vec<EdgeIn>,
    outputs: Vec<EdgeOut>,
) -> Result<OperatorWorker, Fail>
    requires plan { IsPlan plan.now }
    requires inputs { All (λ (e : InEnd). e.taken ≡ []) inputs.items }
    requires outputs { All (λ (e : OutEnd). e.sent ≡ []) outputs.items }
    ensures { IfOk result IsWorking }
{
    if place >= plan.nodes.len() {
        return Err(Fail::new("there is no such node"));
    }
    let drawn = &plan.nodes[place];
    if is_source(&drawn.kind) || drawn.inputs.len() != inputs.len() {
        return Err(Fail::new("the node has other ports"));
    }
    let node = Node::new(alloc, drawn)?;
    Ok(OperatorWorker::new(alloc, place, node, inputs, outputs)?)
}

/// The worker of a case.
fn make_worker(alloc: Global, case: &Case) -> Result<Made, Fail>
    ensures works { IfOk result (λ made. IsWorking made.worker) }
    ensures left { IfOk result (λ made. CameFor made.left.came made.left.out.sent) }
    ensures right { IfOk result (λ made. CameFor made.right.came made.right.out.sent) }
{
    let (left, first) = fed_edge(alloc, 64)?;
    let (right, second) = fed_edge(alloc, 64)?;
    let inputs = inputs_of(alloc, first, second, case.ports)?;
    let (outputs, last) = one_edge(alloc, case.room.clamp(1, 1024))?;
    let plan = read_plan(alloc, case.plan.as_bytes())?;
    let worker = worker_at(alloc, &plan, case.place, inputs, outputs)?;
    Ok(Made {
        worker,
        left,
        right,
        last,
    })
}

/// Whether this is the next message of the out edge, after up to ten turns, of which each passes the gate once.
fn gives<R: Wait>(
    rt: &R,
    worker: &mut OperatorWorker,
    last: &mut EdgeIn,
    gate: &Turnstile,
    wanted: Brief,
) -> bool
    requires { IsWorking worker.old }
    ensures { IsWorking worker.new }
{
    let mut once = true;
    for _ in 0..10u8 {
        worker.turn(rt, gate);
        once = once & gate.passed_once();
        if let Some(message) = last.take(rt) {
            return once && brief_of(&message) == wanted;
        }
    }
    false
}

/// Does an act, and says whether what it wants was seen.
fn perform<R: Wait + Clock>(
    rt: &R,
    alloc: Global,
    made: &mut Made,
    gate: &Turnstile,
    act: Act,
) -> Result<bool, OutOfMemory>
    requires works { IsWorking made.old.worker }
    requires left { CameFor made.old.left.came made.old.left.out.sent }
    requires right { CameFor made.old.right.came made.old.right.out.sent }
    ensures works { IsWorking made.new.worker }
    ensures left { IfOk result (λ seen. seen ≡ true → CameFor made.new.left.came made.new.left.out.sent) }
    ensures right { IfOk result (λ seen. seen ≡ true → CameFor made.new.right.came made.new.right.out.sent) }
{
    match act {
        Act::Feed(brief) => feed(rt, alloc, &mut made.left, brief),
        Act::Right(brief) => feed(rt, alloc, &mut made.right, brief),
        Act::Turn(wanted) => {
            let turn = made.worker.turn(rt, gate);
            Ok(gate.passed_once() && turn == wanted)
        }
        Act::Run => {
            made.worker.run(rt, &OpenGate);
            Ok(true)
        }
        Act::Says(wanted) => Ok(says(rt, &mut made.last, Some(wanted))),
        Act::Gives(wanted) => Ok(gives(rt, &mut made.worker, &mut made.last, gate, wanted)),
        Act::Silent => Ok(says(rt, &mut made.last, None)),
    }
}

/// Does acts one after the other. The first that didn't see what it wants.
fn play<R: Wait + Clock>(
    rt: &R,
    alloc: Global,
    made: &mut Made,
    gate: &Turnstile,
    acts: &[Act],
) -> Result<Option<usize>, OutOfMemory>
    requires works { IsWorking made.old.worker }
    requires left { CameFor made.old.left.came made.old.left.out.sent }
    requires right { CameFor made.old.right.came made.old.right.out.sent }
    ensures { IsWorking made.new.worker }
{
    for i in 0..acts.len() {
        if !perform(rt, alloc, made, gate, acts[i])? {
            return Ok(Some(i));
        }
    }
    Ok(None)
}

/// Whether a worker ends with its next turn, and did what its case says.
fn ends<R: Wait>(rt: &R, mut worker: OperatorWorker, case: &Case) -> bool
    requires { IsWorking worker }
{
    match worker.turn(rt, &OpenGate) {
        Turn::Ended => {
            let end = worker.finish();
            let (taken, put) = case.ran;
            let ran = end.ran.taken() == taken && end.ran.put() == put;
            ran && end.ran.number() == case.place && !end.lacked && end.node.ended()
        }
        Turn::Moved | Turn::Idle => false,
    }
}

#[test]
fn the_workers_of_operators_do_as_their_cases_say(rt: HostRuntime) -> Result<(), Fail> {
    for case in &CASES {
        let mut made = make_worker(rt.alloc(), case)?;
        let gate = Turnstile::new(case.place);
        let unseen = play(&rt, rt.alloc(), &mut made, &gate, case.acts)?;
        assert_eq!(rt; unseen, None, "{}", case.title);
        assert!(rt; ends(&rt, made.worker, case), "{}", case.title);
    }
    Ok(())
}
