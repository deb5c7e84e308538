ghost use Rattle.std.specs.Prelude.{ℕ, ◌≡◌, ◌<◌, ◌++◌, List, Some, IfOk, IfSome, length, slice_index_or};
ghost use Rattle.cedr_net.specs.Flows.{IsSourceAt};
ghost use Rattle.cedr_net.specs.Networks.{TakesOn};
ghost use Rattle.cedr_plan.specs.Places.{output_place};
ghost use Rattle.cedr_plan.specs.Rules.{IsPlan};
ghost use Rattle.cedr_plan.specs.declared.plan.PlanNode.{PlanNode};
ghost use Rattle.cedr_text.specs.Reading.{reading};
ghost use Rattle.cedr_text.specs.declared.event_line.Shape.TheVariants.{AnyText};
ghost use Rattle.node_laws.specs.Lists.{Lists, list_at};
ghost use Rattle.plan_follow.specs.Playing.{PlayerHolds, HoldsBehind, HoldsFirst, GoesOnTo, IsLineFaultOf};
ghost use Rattle.plan_follow.specs.Sifted.{Sifted, with_read, with_said, with_answer};
ghost use Rattle.plan_live.specs.Resumed.{lines_from, states_in, AreStates};
ghost use Rattle.plan_live.specs.Scripts.{Accepted, ShapesHaveTypes};

use crate::guards::{open_guards, sift_at};
use crate::net::feed_still;
use cedr_base::{Message, OutOfMemory};
use cedr_guard::{GuardFault, SourceState};
use cedr_net::StreamNet;
use cedr_plan::{Plan, PlanNode};
use cedr_text::{LineFault, Shape};
use plan_live::{Restores, event_of, is_question, restore_sources, state_messages};
use source_memory::OpenGuard;
use std::alloc::Global;

/// The fault of a line, unless memory ran out.
fn line_fault(fault: GuardFault) -> Result<Option<LineFault>, OutOfMemory>
    ensures { IfOk result (λ told. IsLineFaultOf fault told) }
{
    match fault {
        GuardFault::Line(fault) => Ok(Some(fault)),
        GuardFault::OutOfMemory => Err(OutOfMemory),
    }
}

/// A network that hands on what its output gives, and a guard for each node that forgets the events that are over. No message waits
/// in it.
#[derive(Drop)]
pub(crate) struct OpenPlayer {
    guards: Vec<OpenGuard>,
    net: StreamNet,
}

impl OpenPlayer {
    /// No line was accepted, and the output gave nothing.
    pub(crate) fn new(alloc: Global, plan: &Plan) -> Result<OpenPlayer, OutOfMemory>
        requires { IsPlan plan.now }
        ensures { IfOk result (λ player. HoldsFirst plan.now.nodes.items player) }
    {
        let guards = open_guards(alloc, plan.nodes.len())?;
        let net = StreamNet::new(alloc, plan)?;
        Ok(OpenPlayer { guards, net })
    }

    /// Each source has come to its state.
    pub(crate) fn restored(
        alloc: Global,
        plan: &Plan,
        states: &[SourceState],
    ) -> Result<OpenPlayer, OutOfMemory>
        requires plan { IsPlan plan.now }
        requires states { AreStates plan.now.nodes.items states.now }
        ensures { IfOk result (λ player. HoldsBehind plan.now.nodes.items player (lines_from plan.now.nodes.items (states_in states.now))) }
    {
        let mut player = OpenPlayer::new(alloc, plan)?;
        restore_sources(alloc, plan.nodes.as_slice(), states, &mut player)?;
        Ok(player)
    }

    /// An event line of the source at a place, or its fault: its messages go over the network.
    fn take_event(
        &mut self,
        alloc: Global,
        shapes: &[Shape],
        place: usize,
        line: &[u8],
    ) -> Result<Option<LineFault>, OutOfMemory>
        requires shape { place < length shapes.now }
        requires holds { (nodes : List PlanNode) × (s : Sifted) × (given : Lists) × PlayerHolds nodes self.old s.kept s.sent given × (place < length nodes) × IsSourceAt nodes place }
        ensures { IfOk result (λ fault. (nodes : List PlanNode) (s : Sifted) (given : Lists) → PlayerHolds nodes self.old s.kept s.sent given → place < length nodes → IsSourceAt nodes place → GoesOnTo nodes self.new s (with_read s place (reading (slice_index_or shapes.now place AnyText) line.now)) given fault) }
    {
        match sift_at(alloc, &mut self.guards, place, &shapes[place], line) {
            Ok(messages) => {
                feed_still(alloc, &mut self.net, place, messages)?;
                Ok(None)
            }
            Err(fault) => line_fault(fault),
        }
    }

    /// A line that isn't `?`, without its line feed and the carriage return before that, or its fault.
    fn take_said(
        &mut self,
        alloc: Global,
        nodes: &[PlanNode],
        shapes: &[Shape],
        line: &[u8],
    ) -> Result<Option<LineFault>, OutOfMemory>
        requires holds { (s : Sifted) × (given : Lists) × PlayerHolds nodes.now self.old s.kept s.sent given }
        requires types { ShapesHaveTypes nodes.now shapes.now }
        ensures { IfOk result (λ fault. (s : Sifted) (given : Lists) → PlayerHolds nodes.now self.old s.kept s.sent given → GoesOnTo nodes.now self.new s (with_said nodes.now shapes.now s line.now) given fault) }
    {
        if line.is_empty() {
            return Ok(None);
        }
        let Some((place, event)) = event_of(nodes, line) else {
            return Ok(Some(LineFault::BadForm));
        };
        self.take_event(alloc, shapes, place, event)
    }

    /// A line, without its line feed and the carriage return before that, or its fault. `?` says nothing.
    pub(crate) fn take_line(
        &mut self,
        alloc: Global,
        nodes: &[PlanNode],
        shapes: &[Shape],
        line: &[u8],
    ) -> Result<Option<LineFault>, OutOfMemory>
        requires holds { (s : Sifted) × (given : Lists) × PlayerHolds nodes.now self.old s.kept s.sent given }
        requires types { ShapesHaveTypes nodes.now shapes.now }
        ensures { IfOk result (λ fault. (s : Sifted) (given : Lists) → PlayerHolds nodes.now self.old s.kept s.sent given → GoesOnTo nodes.now self.new s (with_answer nodes.now shapes.now s (Some line.now)) given fault) }
    {
        if is_question(line) {
            return Ok(None);
        }
        self.take_said(alloc, nodes, shapes, line)
    }

    /// Takes the messages that the output gave from the one of this number on, from 0, where they weren't taken.
    pub(crate) fn take_messages(&mut self, from: u64) -> Option<Vec<Message>>
        ensures { IfSome result (λ taken. (nodes : List PlanNode) (kept : Accepted) (sent given : Lists) → PlayerHolds nodes self.old kept sent given → TakesOn (list_at given (output_place nodes)) from taken.items × PlayerHolds nodes self.new kept sent given) }
    {
        let taken = self.net.take_messages(from)?;
        Some(taken)
    }
}

impl Restores for OpenPlayer {
    ghost stands = { λ nodes player before. HoldsBehind nodes player before };

    /// Its guard remembers what isn't over, and the messages of all lines of the state go over the network.
    fn restore_source(
        &mut self,
        alloc: Global,
        place: usize,
        state: &SourceState,
    ) -> Result<(), OutOfMemory> {
        let guard = OpenGuard::restore(alloc, state)?;
        let messages = state_messages(alloc, state)?;
        self.guards[place] = guard;
        feed_still(alloc, &mut self.net, place, messages)
    }
}
