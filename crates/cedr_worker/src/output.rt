ghost use Rattle.std.specs.Prelude.{◌≡◌, ◌≢◌, ◌↔◌, ◌∷◌, [], true, false, None, length, MatchBool};
ghost use Rattle.cedr_edge.specs.Ends.{as_u64};
ghost use Rattle.cedr_history.specs.Lists.{nothing, Extends};
ghost use Rattle.node_laws.specs.Lawful.{is_over};
ghost use Rattle.cedr_node.specs.Nodes.{made_of, NodeStands};
ghost use Rattle.cedr_plan.specs.declared.plan.NodeKind.TheVariants as kind;
ghost use Rattle.cedr_worker.specs.declared.turn.Turn.TheVariants.{Moved, Idle, Ended};
ghost use Rattle.cedr_worker.specs.Inputs.{Asked, KeptIn};
ghost use Rattle.cedr_worker.specs.Outputs.{passed_by, output_list, IsBeginning};
ghost use Rattle.cedr_worker.specs.OutputTurns.{IsNoted, OutputWorks, SameOutput, OutputHasEnded, MovedOutput, IdleOutput, StaysLost};

use crate::hearing::{show, take_next};
use crate::ran::Ran;
use crate::resting::rest;
use crate::turn::Turn;
use cedr_base::Message;
use cedr_edge::EdgeIn;
use cedr_history::{Note, Writer};
use cedr_io::Gate;
use cedr_node::Node;
use crossbeam_utils::Backoff;
use std::alloc::Global;
use std::sync::Wait;
use std::time::Clock;

/// The worker of a plan's output: it takes from its one input, lets the node take what came, and publishes what the node
/// gives in the same turn. The list is closed by the `End` or `Broken` that the node gives.
///
/// Where memory runs out, what was added until then is the last of it, and may be published by a later turn. The worker
/// then takes what comes and drops it, so that those before it go on, until its input is over.
///
/// It can't be dropped, as its writer can't be.
pub struct OutputWorker {
    number: usize,
    node: Node,
    input: EdgeIn,
    writer: Writer,
    note: Option<Note>,
    /// Memory was lacking in a turn.
    lacked: bool,
    /// Something is pending in the writer, since memory was lacking for its publish.
    pending: bool,
    alloc: Global,
    /// Room for what the node gives for one message.
    piece: Vec<Message>,
}

/// What is left of an output's worker that ended. It can't be dropped, as its writer can't be.
pub struct OutputEnd {
    pub number: usize,
    pub node: Node,
    pub input: EdgeIn,
    pub writer: Writer,
    /// It says the published list. `None` where nothing was published.
    pub note: Option<Note>,
    /// Memory was lacking in a turn.
    pub lacked: bool,
    pub ran: Ran,
}

impl OutputWorker {
    /// The worker of an output's node that took nothing, with an input from which nothing was taken, and the writer of a
    /// new history. It takes no memory.
    pub fn new(
        alloc: Global,
        number: usize,
        node: Node,
        input: EdgeIn,
        writer: Writer,
    ) -> OutputWorker
        requires kind { (made_of node).kind ≡ kind.Output }
        requires stands { NodeStands node ([] ∷ []) [] }
        requires taken { input.taken ≡ [] }
        requires writer { (writer.published ≡ nothing) × (writer.all ≡ nothing) × (writer.concluded ≡ false) }
        ensures works { OutputWorks result }
        ensures number { result.number ≡ number }
        ensures node { result.node ≡ node }
        ensures input { result.input ≡ input }
        ensures writer { result.writer ≡ writer }
        ensures note { result.note ≡ None }
        ensures lacked { result.lacked ≡ false }
    {
        OutputWorker {
            number,
            node,
            input,
            writer,
            note: None,
            lacked: false,
            pending: false,
            alloc,
            piece: Vec::new(alloc),
        }
    }

    /// What a turn does once it passed its gate. Says whether a message was taken, or more was published.
    fn step<R: Wait>(&mut self, rt: &R) -> bool
        requires { OutputWorks self.old }
        ensures works { OutputWorks self.new }
        ensures same { SameOutput self.old self.new }
        ensures input { KeptIn self.old.input self.new.input }
        ensures moved { MatchBool result (MovedOutput self.old self.new) (Asked self.old.input self.new.input × (self.new.writer ≡ self.old.writer)) }
        ensures later { Extends self.old.writer.published self.new.writer.published }
        ensures lost { self.old.lacked ≡ true → StaysLost self.old self.new }
    {
        let heard = take_next(
            rt,
            self.alloc,
            &mut self.node,
            &mut self.input,
            &mut self.writer,
            &mut self.piece,
            self.lacked,
            self.pending,
        );
        match show(rt, &mut self.writer, heard.pending) {
            Some(note) => {
                self.note = Some(note);
                self.lacked = heard.lacked;
                self.pending = false;
                true
            }
            None => {
                self.lacked = heard.lacked | heard.pending;
                self.pending = heard.pending;
                heard.moved
            }
        }
    }

    /// Passes the gate, and then takes a message from the input, if it is open, and publishes what that adds to the list.
    /// What is pending since an earlier publish was refused is published with it. A publish waits until the reader has
    /// left the copy that isn't shown.
    pub fn turn<G: Gate, R: Wait>(&mut self, rt: &R, gate: &G) -> Turn
        requires { OutputWorks self.old }
        ensures works { OutputWorks self.new }
        ensures same { SameOutput self.old self.new }
        ensures ended { result ≡ Ended ↔ OutputHasEnded self.new }
        ensures moved { result ≡ Moved ↔ ((result ≢ Ended) × MovedOutput self.old self.new) }
        ensures idle { result ≡ Idle → IdleOutput self.old self.new }
        ensures steps { KeptIn self.old.input self.new.input }
        ensures later { Extends self.old.writer.published self.new.writer.published }
        ensures short { Extends self.new.writer.all (output_list self.new.node self.new.input.taken) }
        ensures lost { self.old.lacked ≡ true → StaysLost self.old self.new }
    {
        gate.pass(self.number);
        let moved = self.step(rt);
        if self.input.is_over() {
            return Turn::Ended;
        }
        if moved { Turn::Moved } else { Turn::Idle }
    }

    /// Takes turns until the list is published with its close, or the input is over after memory was lacking. After a turn
    /// in which nothing happened it rests a little, and longer after each further one.
    pub fn run<G: Gate, R: Wait + Clock>(&mut self, rt: &R, gate: &G)
        requires { OutputWorks self.old }
        ensures works { OutputWorks self.new }
        ensures same { SameOutput self.old self.new }
        ensures ended { OutputHasEnded self.new }
    {
        let backoff = Backoff::new();
        for _ in rt.forever() {
            match self.turn(rt, gate) {
                Turn::Moved => backoff.reset(),
                Turn::Idle => rest(rt, &backoff),
                Turn::Ended => return,
            }
        }
        unreachable!()
    }

    /// What is left after a turn that came to [`Turn::Ended`]. The published list is the output's where memory was found,
    /// and else a beginning of it. It takes no memory.
    pub fn finish(self) -> OutputEnd
        requires works { OutputWorks self }
        requires ended { OutputHasEnded self }
        ensures number { result.number ≡ self.number }
        ensures node { result.node ≡ self.node }
        ensures input { result.input ≡ self.input }
        ensures writer { result.writer ≡ self.writer }
        ensures note { result.note ≡ self.note }
        ensures lacked { result.lacked ≡ self.lacked }
        ensures over { is_over result.input.taken ≡ true }
        ensures stands { result.lacked ≡ false → NodeStands result.node (result.input.taken ∷ []) (passed_by result.node result.input.taken) }
        ensures whole { result.lacked ≡ false → (result.writer.all ≡ result.writer.published) × (result.writer.published ≡ output_list result.node result.input.taken) }
        ensures lost { result.lacked ≡ true → IsBeginning result.node result.input.taken result.writer.published }
        ensures short { Extends result.writer.published (output_list result.node result.input.taken) }
        ensures noted { IsNoted result.note result.writer }
        ensures unconcluded { result.writer.concluded ≡ false }
        ensures ran_number { result.ran.number ≡ self.number }
        ensures ran_taken { result.ran.taken ≡ as_u64 (length self.input.taken) }
        ensures ran_put { result.ran.put ≡ 0 }
    {
        let taken = self.input.count();
        let OutputWorker {
            number,
            node,
            input,
            writer,
            note,
            lacked,
            pending: _,
            alloc: _,
            piece: _,
        } = self;
        OutputEnd {
            number,
            node,
            input,
            writer,
            note,
            lacked,
            ran: Ran::new(number, taken, 0),
        }
    }

    /// The writer. All else is dropped. It takes no memory.
    pub fn into_writer(self) -> Writer
        ensures { result ≡ self.writer }
    {
        let OutputWorker {
            number: _,
            node: _node,
            input: _input,
            writer,
            note: _note,
            lacked: _,
            pending: _,
            alloc: _,
            piece: _,
        } = self;
        writer
    }
}
