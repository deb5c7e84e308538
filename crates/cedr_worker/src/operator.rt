ghost use Rattle.std.specs.Prelude.{◌≡◌, ◌≢◌, ◌<◌, ◌↔◌, true, false, List, [], length, map, replicate, IfOk};
ghost use Rattle.std.specs.List.{All};
ghost use Rattle.cedr_edge.specs.Ends.{InEnd, OutEnd, as_u64};
ghost use Rattle.node_laws.specs.Lawful.{any_broken, all_over};
ghost use Rattle.cedr_node.specs.Nodes.{made_of, port_count, NodeStands};
ghost use Rattle.worker_outlets.specs.Outlets.{AllOver, outlet_edge, sent_of, sent_count, end_edge, end_sent};
ghost use Rattle.cedr_worker.specs.declared.turn.Turn.TheVariants.{Moved, Idle, Ended};
ghost use Rattle.cedr_worker.specs.Inputs.{taken_in, taken_count};
ghost use Rattle.cedr_worker.specs.Operators.{MovedTurn, IdleTurn, TurnSteps, NoneBroken, SoundEnd, LostEnd};
ghost use Rattle.cedr_worker.specs.Workers.{IsWorking, SameOperator};

use crate::ran::Ran;
use crate::resting::rest;
use crate::turn::Turn;
use crate::working::work;
use cedr_base::{Message, OutOfMemory};
use cedr_edge::{EdgeIn, EdgeOut};
use cedr_io::Gate;
use cedr_node::Node;
use crossbeam_utils::Backoff;
use std::alloc::Global;
use std::sync::Wait;
use std::time::Clock;
use worker_outlets::Outlets;

/// The worker of a plan's node that takes messages: it takes from its inputs, one for each port, lets the node take what
/// came, and puts what the node gives on each of its out edges.
///
/// Where memory runs out, what was given until then is the last of it. The worker then takes what comes and drops it, so
/// that those before it go on, and once each input is over it sends `Broken`.
#[derive(Drop)]
pub struct OperatorWorker {
    number: usize,
    node: Node,
    inputs: Vec<EdgeIn>,
    outlets: Outlets,
    /// Memory was lacking in a turn.
    lacked: bool,
    /// The `Broken` of a worker that lacked memory is pending or sent.
    broke: bool,
    alloc: Global,
    /// Room for what the node gives for one message.
    piece: Vec<Message>,
}

/// What is left of a worker that ended.
#[derive(Drop)]
pub struct OperatorEnd {
    pub number: usize,
    pub node: Node,
    pub inputs: Vec<EdgeIn>,
    pub outputs: Vec<EdgeOut>,
    /// Memory was lacking in a turn.
    pub lacked: bool,
    pub ran: Ran,
}

/// How many messages were taken from all inputs, or the last `u64` where there are more.
fn count_taken(inputs: &Vec<EdgeIn>) -> u64
    ensures { result ≡ as_u64 (taken_count inputs.now.items) }
{
    let mut count = 0u64;
    for input in inputs {
        count = count.saturating_add(input.count());
    }
    count
}

impl OperatorWorker {
    /// The worker of a node that took nothing, with an input for each port, from which nothing was taken, and out edges
    /// over which nothing was sent. Where memory runs out all of them are dropped.
    pub fn new(
        alloc: Global,
        number: usize,
        node: Node,
        inputs: Vec<EdgeIn>,
        outputs: Vec<EdgeOut>,
    ) -> Result<OperatorWorker, OutOfMemory>
        requires stands { NodeStands node (replicate (port_count node) []) [] }
        requires inputs { length inputs.items ≡ port_count node }
        requires taken { All (λ (e : InEnd). e.taken ≡ []) inputs.items }
        requires sent { All (λ (e : OutEnd). e.sent ≡ []) outputs.items }
        ensures works { IfOk result (λ worker. IsWorking worker) }
        ensures number { IfOk result (λ worker. worker.number ≡ number) }
        ensures node { IfOk result (λ worker. worker.node ≡ node) }
        ensures inputs { IfOk result (λ worker. worker.inputs ≡ inputs) }
        ensures outlets { IfOk result (λ worker. map outlet_edge worker.outlets ≡ map end_edge outputs.items) }
    {
        let outlets = Outlets::new(alloc, outputs)?;
        Ok(OperatorWorker {
            number,
            node,
            inputs,
            outlets,
            lacked: false,
            broke: false,
            alloc,
            piece: Vec::new(alloc),
        })
    }

    /// Passes the gate, and then tries to put one pending message on each out edge. Only where nothing is pending any
    /// more, it tries to take one message from each input that is open, in port order.
    pub fn turn<G: Gate, R: Wait>(&mut self, rt: &R, gate: &G) -> Turn
        requires { IsWorking self.old }
        ensures works { IsWorking self.new }
        ensures same { SameOperator self.old self.new }
        ensures ended { result ≡ Ended ↔ AllOver self.new.outlets }
        ensures moved { result ≡ Moved ↔ ((result ≢ Ended) × MovedTurn self.old.outlets self.new.outlets self.old.inputs.items self.new.inputs.items) }
        ensures idle { result ≡ Idle → IdleTurn self.old.outlets self.new.outlets self.old.inputs.items self.new.inputs.items }
        ensures steps { TurnSteps self.old.outlets self.new.outlets self.old.inputs.items self.new.inputs.items }
        ensures broken { self.new.lacked ≡ false → any_broken (taken_in self.new.inputs.items) ≡ false → NoneBroken self.new.outlets }
        ensures breaks { self.old.lacked ≡ true → all_over (taken_in self.old.inputs.items) ≡ true → self.new.broke ≡ true }
    {
        gate.pass(self.number);
        let worked = work(
            rt,
            self.alloc,
            &mut self.node,
            &mut self.inputs,
            &mut self.outlets,
            &mut self.piece,
            self.lacked,
            self.broke,
        );
        self.lacked = worked.lacked;
        self.broke = worked.broke;
        if self.outlets.all_over() {
            return Turn::Ended;
        }
        if worked.moved {
            Turn::Moved
        } else {
            Turn::Idle
        }
    }

    /// Takes turns until `End` or `Broken` was sent on every out edge. After a turn in which nothing happened it rests a
    /// little, and longer after each further one.
    pub fn run<G: Gate, R: Wait + Clock>(&mut self, rt: &R, gate: &G)
        requires { IsWorking self.old }
        ensures works { IsWorking self.new }
        ensures same { SameOperator self.old self.new }
        ensures over { AllOver self.new.outlets }
    {
        let backoff = Backoff::new();
        for _ in rt.forever() {
            match self.turn(rt, gate) {
                Turn::Moved => backoff.reset(),
                Turn::Idle => rest(rt, &backoff),
                Turn::Ended => return,
            }
        }
        unreachable!()
    }

    /// What is left once `End` or `Broken` was sent on every out edge. Each input is over then, if there is an out edge
    /// at all. It takes no memory.
    pub fn finish(self) -> OperatorEnd
        requires works { IsWorking self }
        requires over { AllOver self.outlets }
        ensures number { result.number ≡ self.number }
        ensures node { result.node ≡ self.node }
        ensures inputs { result.inputs ≡ self.inputs }
        ensures edges { map end_edge result.outputs.items ≡ map outlet_edge self.outlets }
        ensures sent { map end_sent result.outputs.items ≡ map sent_of self.outlets }
        ensures lacked { result.lacked ≡ self.lacked }
        ensures sound { result.lacked ≡ false → SoundEnd result.node (taken_in result.inputs.items) result.outputs.items }
        ensures lost { result.lacked ≡ true → LostEnd (made_of result.node) (taken_in result.inputs.items) result.outputs.items }
        ensures over { 0 < length result.outputs.items → all_over (taken_in result.inputs.items) ≡ true }
        ensures ran_number { result.ran.number ≡ self.number }
        ensures ran_taken { result.ran.taken ≡ as_u64 (taken_count self.inputs.items) }
        ensures ran_put { result.ran.put ≡ as_u64 (sent_count self.outlets) }
    {
        let taken = count_taken(&self.inputs);
        let put = self.outlets.sent_count();
        let OperatorWorker {
            number,
            node,
            inputs,
            outlets,
            lacked,
            ..
        } = self;
        OperatorEnd {
            number,
            node,
            inputs,
            outputs: outlets.into_edges(),
            lacked,
            ran: Ran::new(number, taken, put),
        }
    }
}
