ghost use Rattle.std.specs.Prelude.{◌≡◌, ◌<◌, ◌++◌, ◌∷◌, [], List, ℕ, false, true, OnOk, IfOk, IfSome, IfNone, length, map, max, nat_eq, replicate, slice_index_or};
ghost use Rattle.cedr_base.specs.declared.change.Message.{Message};
ghost use Rattle.cedr_base.specs.Messages.{MayCome, IsLegalBehind, mark_of};
ghost use Rattle.op_driver.specs.Driving.{MayTake};
ghost use Rattle.node_laws.specs.Lists.{Lists, list_at, with_more};
ghost use Rattle.cedr_plan.specs.declared.plan.PlanNode.{PlanNode};
ghost use Rattle.cedr_plan.specs.Rules.{IsPlan};
ghost use Rattle.plan_runs.specs.Runs.{lists_at};
ghost use Rattle.cedr_plan.specs.Places.{is_source};
ghost use Rattle.cedr_net.specs.declared.work.Work.{Work};
ghost use Rattle.cedr_net.specs.Edges.{all_wait, waits_on_all, ArePorts, NothingWaits};
ghost use Rattle.cedr_net.specs.Keeping.{taken_number};
ghost use Rattle.cedr_net.specs.Flows.{WorksAt, IsWorked, IsSourceAt, no_ports};
ghost use Rattle.cedr_net.specs.Networks.{IsAnswerOf, FlowStands, IsTurn, IsDrained, IsSettledUpTo};

use crate::answer::Answer;
use crate::edges::{Readers, pull_at, send, send_one};
use crate::keeping::Keeping;
use crate::queue::Queues;
use crate::work::Work;
use cedr_base::{Message, OutOfMemory, Time};
use cedr_plan::{Plan, find_output};
use op_driver::empty;
use std::alloc::Global;

/// The nodes of a network, what waits on their ports, and what came of the output.
#[derive(Drop)]
pub(crate) struct Flow {
    pub(crate) readers: Vec<Readers>,
    pub(crate) waiting: Vec<Queues>,
    pub(crate) works: Vec<Work>,
    /// The place of the output.
    pub(crate) output: usize,
    pub(crate) answer: Answer,
    /// The last mark that came on the output's port, 0 at first.
    pub(crate) reach: Time,
    /// Room for what a node gives for one message.
    piece: Vec<Message>,
}

/// The mark that a message is, and 0 where it is none.
fn mark_in(message: &Message) -> Time
    ensures { result ≡ mark_of (message.now ∷ []) }
{
    match message {
        Message::Change(_) => 0,
        Message::Mark(time) => *time,
        Message::End => 0,
        Message::Broken => 0,
    }
}

/// The node at a place takes a message. The piece that it gives for it stands in the list, in place of what stood there.
fn take_at(
    alloc: Global,
    works: &mut Vec<Work>,
    place: usize,
    port: usize,
    message: Message,
    piece: &mut Vec<Message>,
) -> Result<(), OutOfMemory>
    requires place { place < length works.old.items }
    requires works { (n : PlanNode) × (lists : Lists) × (given : List Message) × (is_source n.kind ≡ false) × ((d : Work) → WorksAt (slice_index_or works.old.items place d) n lists given) × MayTake lists port message }
    ensures { OnOk result ((n : PlanNode) (lists : Lists) (given : List Message) → is_source n.kind ≡ false → ((d : Work) → WorksAt (slice_index_or works.old.items place d) n lists given) → MayTake lists port message → IsWorked works.old.items works.new.items place n (with_more lists port (message ∷ [])) (given ++ piece.new.items)) }
{
    empty(piece);
    works[place].take(alloc, port, message, piece)?;
    Ok(())
}

/// A message that a node gave waits on the ports that read it.
fn pass_one(
    alloc: Global,
    readers: &[Readers],
    waiting: &mut Vec<Queues>,
    place: usize,
    message: Message,
) -> Result<(), OutOfMemory>
    requires place { place < length readers.now }
    requires ports { ArePorts waiting.old.items (slice_index_or readers.now place []) }
    ensures { OnOk result (waiting.new.items ≡ waits_on_all waiting.old.items (slice_index_or readers.now place []) message) }
{
    send_one(alloc, readers[place].as_slice(), waiting, message)
}

/// What a node gave waits on the ports that read it.
fn pass_on(
    alloc: Global,
    readers: &[Readers],
    waiting: &mut Vec<Queues>,
    place: usize,
    piece: &mut Vec<Message>,
) -> Result<(), OutOfMemory>
    requires place { place < length readers.now }
    requires ports { ArePorts waiting.old.items (slice_index_or readers.now place []) }
    ensures { OnOk result (waiting.new.items ≡ all_wait waiting.old.items (slice_index_or readers.now place []) piece.old.items) }
{
    send(alloc, readers[place].as_slice(), waiting, piece)
}

impl Flow {
    /// The nodes of a plan, to which nothing came, and what is kept of the output.
    pub(crate) fn new(alloc: Global, plan: &Plan, keeps: Keeping) -> Result<Flow, OutOfMemory>
        requires plan { IsPlan plan.now }
        requires keeps { taken_number keeps ≡ 0 }
        ensures stands { IfOk result (λ flow. FlowStands plan.now.nodes.items flow (map no_ports plan.now.nodes.items) (replicate (length plan.now.nodes.items) [])) }
        ensures keeps { IfOk result (λ flow. flow.answer.keeps ≡ keeps) }
    {
        let nodes = plan.nodes.as_slice();
        let mut readers = Vec::new(alloc);
        let mut waiting = Vec::new(alloc);
        let mut works = Vec::new(alloc);
        for place in 0..nodes.len() {
            let node = &nodes[place];
            readers.push(Readers::of(alloc, nodes, place)?)?;
            waiting.push(Queues::new(alloc, node.inputs.len())?)?;
            works.push(Work::new(alloc, node)?)?;
        }
        Ok(Flow {
            readers,
            waiting,
            works,
            output: find_output(nodes),
            answer: Answer::new(alloc, keeps),
            reach: 0,
            piece: Vec::new(alloc),
        })
    }

    /// A message of a source waits on each port that reads it.
    pub(crate) fn feed(
        &mut self,
        alloc: Global,
        place: usize,
        message: Message,
    ) -> Result<(), OutOfMemory>
        requires { (nodes : List PlanNode) × (ports : List Lists) × (given : Lists) × FlowStands nodes self.old ports given × (place < length nodes) }
        ensures fed { OnOk result ((nodes : List PlanNode) (ports : List Lists) (given : Lists) → FlowStands nodes self.old ports given → place < length nodes → IsSourceAt nodes place → MayCome (list_at given place) message → FlowStands nodes self.new ports (with_more given place (message ∷ []))) }
        ensures keeps { self.new.answer.keeps ≡ self.old.answer.keeps }
    {
        pass_one(
            alloc,
            self.readers.as_slice(),
            &mut self.waiting,
            place,
            message,
        )?;
        Ok(())
    }

    /// The piece that the node at a place gave is the output's, or waits on the ports that read it.
    fn give(&mut self, alloc: Global, place: usize, mark: Time) -> Result<(), OutOfMemory>
        requires place { place < length self.old.readers.items }
        requires ports { ArePorts self.old.waiting.items (slice_index_or self.old.readers.items place []) }
        requires noted { nat_eq place self.old.output ≡ true → (given : List Message) × IsAnswerOf self.old.answer given × IsLegalBehind given self.old.piece.items }
        ensures sent { OnOk result (nat_eq place self.old.output ≡ false → (self.new.waiting.items ≡ all_wait self.old.waiting.items (slice_index_or self.old.readers.items place []) self.old.piece.items) × (self.new.answer ≡ self.old.answer) × (self.new.reach ≡ self.old.reach)) }
        ensures noted { OnOk result (nat_eq place self.old.output ≡ true → (self.new.waiting.items ≡ self.old.waiting.items) × (self.new.reach ≡ max self.old.reach mark) × ((given : List Message) → IsAnswerOf self.old.answer given → IsLegalBehind given self.old.piece.items → IsAnswerOf self.new.answer (given ++ self.old.piece.items))) }
        ensures keeps { self.new.answer.keeps ≡ self.old.answer.keeps }
        ensures others { OnOk result ((self.new.readers.items ≡ self.old.readers.items) × (self.new.works.items ≡ self.old.works.items) × (self.new.output ≡ self.old.output)) }
    {
        if place == self.output {
            self.reach = self.reach.max(mark);
            return self.answer.note_all(&mut self.piece);
        }
        pass_on(
            alloc,
            self.readers.as_slice(),
            &mut self.waiting,
            place,
            &mut self.piece,
        )
    }

    /// The node at a place takes the first message of its first port on which one waits, and what it gives is passed on.
    /// Whether a message waited.
    pub(crate) fn turn(&mut self, alloc: Global, place: usize) -> Result<bool, OutOfMemory>
        requires { (nodes : List PlanNode) × (ports : List Lists) × (given : Lists) × FlowStands nodes self.old ports given × (place < length nodes) }
        ensures turned { IfOk result (λ moved. moved ≡ true → (piece : List Message) × ((nodes : List PlanNode) (ports : List Lists) (given : Lists) → FlowStands nodes self.old ports given → place < length nodes → IsTurn nodes self.old self.new ports given place piece)) }
        ensures idle { IfOk result (λ moved. moved ≡ false → NothingWaits (lists_at self.old.waiting.items place) × (self.new.waiting.items ≡ self.old.waiting.items) × ((nodes : List PlanNode) (ports : List Lists) (given : Lists) → FlowStands nodes self.old ports given → FlowStands nodes self.new ports given)) }
        ensures keeps { self.new.answer.keeps ≡ self.old.answer.keeps }
    {
        match pull_at(&mut self.waiting, place) {
            None => Ok(false),
            Some((port, message)) => {
                let mark = mark_in(&message);
                take_at(
                    alloc,
                    &mut self.works,
                    place,
                    port,
                    message,
                    &mut self.piece,
                )?;
                self.give(alloc, place, mark)?;
                Ok(true)
            }
        }
    }

    /// The node at a place takes all that waits on its ports.
    pub(crate) fn drain(&mut self, alloc: Global, place: usize) -> Result<(), OutOfMemory>
        requires { (nodes : List PlanNode) × (ports : List Lists) × (given : Lists) × FlowStands nodes self.old ports given × (place < length nodes) }
        ensures drained { OnOk result ((nodes : List PlanNode) (ports : List Lists) (given : Lists) → FlowStands nodes self.old ports given → place < length nodes → IsDrained nodes self.old self.new ports given place) }
        ensures keeps { self.new.answer.keeps ≡ self.old.answer.keeps }
    {
        while self.turn(alloc, place)? {}
        Ok(())
    }

    /// All nodes take all that waits, one after the other: each reads earlier ones alone, so what waits on its ports is
    /// taken for good.
    pub(crate) fn settle(&mut self, alloc: Global) -> Result<(), OutOfMemory>
        requires { (nodes : List PlanNode) × (ports : List Lists) × (given : Lists) × FlowStands nodes self.old ports given }
        ensures settled { OnOk result ((nodes : List PlanNode) (ports : List Lists) (given : Lists) → FlowStands nodes self.old ports given → IsSettledUpTo nodes self.new ports given (length nodes)) }
        ensures keeps { self.new.answer.keeps ≡ self.old.answer.keeps }
    {
        for place in 0..self.works.len() {
            self.drain(alloc, place)?;
        }
        Ok(())
    }
}
