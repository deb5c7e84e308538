ghost use Rattle.std.specs.Prelude.{ℕ, ◌≡◌, ◌<◌, ◌++◌, [], List, IfOk, OnOk, length, slice_index_or};
ghost use Rattle.cedr_base.specs.Messages.{IsLegal};
ghost use Rattle.cedr_guard.specs.Sources.{with_reading};
ghost use Rattle.cedr_guard.specs.Standing.{Guards};
ghost use Rattle.cedr_io.specs.Counts.{Counts};
ghost use Rattle.node_laws.specs.Lists.{Lists, list_at};
ghost use Rattle.cedr_net.specs.Flows.{IsSourceAt};
ghost use Rattle.cedr_net.specs.Networks.{NetStands, HasSettled};
ghost use Rattle.cedr_plan.specs.Rules.{IsPlan};
ghost use Rattle.cedr_plan.specs.declared.plan.PlanNode.{PlanNode};
ghost use Rattle.cedr_text.specs.Reading.{reading};
ghost use Rattle.cedr_text.specs.declared.event_line.EventLine.{EventLine};
ghost use Rattle.cedr_text.specs.declared.event_line.Shape.TheVariants.{AnyText};
ghost use Rattle.plan_live.specs.Scripts.{Accepted, ShapesHaveTypes, lines_at, no_lines, with_lines};
ghost use Rattle.plan_live.specs.Resumed.{lines_from, states_in, AreStates};
ghost use Rattle.plan_live.specs.Shown.{reach_text};
ghost use Rattle.plan_live.specs.Playing.{PlaysStand, JudgesAt, IsSettledNet, IsFedOn, IsShownText, PlaysLine, Shows, TakesStep, step_of, told_fault};

use crate::guards::{guards_of, judge_at};
use crate::line::{ScriptLine, read_script_line};
use crate::restoring::{Restores, restore_sources};
use crate::state::state_messages;
use cedr_base::{Message, OutOfMemory, Time};
use cedr_guard::{Guard, GuardFault, SourceState};
use cedr_io::{OutsideFault, Sink, write_all};
use cedr_net::SerialNet;
use cedr_plan::{Plan, PlanNode};
use cedr_text::{LineFault, Shape, write_rows, write_time};
use std::alloc::Global;

fn settle(alloc: Global, net: &mut SerialNet) -> Result<(), OutOfMemory>
    requires { (nodes : List PlanNode) × (ports : List Lists) × (given : Lists) × NetStands nodes net.old ports given }
    ensures { OnOk result ((nodes : List PlanNode) (ports : List Lists) (given : Lists) → NetStands nodes net.old ports given → HasSettled nodes net.new ports given) }
{
    match net.settle(alloc) {
        Ok(()) => Ok(()),
        Err(_) => Err(OutOfMemory),
    }
}

/// Feeds the messages of a source, and then the network settles.
fn feed_on(
    alloc: Global,
    net: &mut SerialNet,
    place: usize,
    messages: Vec<Message>,
) -> Result<(), OutOfMemory>
    requires { (nodes : List PlanNode) × (given : Lists) × IsSettledNet nodes net.old given × (place < length nodes) × IsSourceAt nodes place × IsLegal (list_at given place ++ messages.items) }
    ensures { OnOk result ((nodes : List PlanNode) (given : Lists) → IsSettledNet nodes net.old given → place < length nodes → IsSourceAt nodes place → IsLegal (list_at given place ++ messages.items) → IsFedOn nodes net.new given place messages.items) }
{
    match net.feed_all(alloc, place, messages) {
        Ok(()) => settle(alloc, net),
        Err(_) => Err(OutOfMemory),
    }
}

/// `. ` and the reach, as a line.
fn write_reach(reach: Time, out: &mut Vec<u8>) -> Result<(), OutOfMemory>
    ensures { OnOk result (out.new.items ≡ out.old.items ++ reach_text reach) }
{
    out.extend_from_slice(b". ")?;
    write_time(reach, out)?;
    out.push(b'\n')?;
    Ok(())
}

/// The rows of the output in canonical order, and the reach.
fn shown_text(alloc: Global, net: &SerialNet) -> Result<Vec<u8>, OutOfMemory>
    ensures { IfOk result (λ text. (nodes : List PlanNode) (ports : List Lists) (given : Lists) → NetStands nodes net.now ports given → IsShownText nodes ports given text.items) }
{
    let rows = net.rows()?;
    let mut text = Vec::new(alloc);
    write_rows(rows.as_slice(), &mut text)?;
    write_reach(net.reach(), &mut text)?;
    Ok(text)
}

/// A network to which the messages of a script's lines are fed, and a guard for each node. No message waits in it.
#[derive(Drop)]
pub(crate) struct Player {
    guards: Vec<Guard>,
    net: SerialNet,
}

impl Player {
    /// No line was accepted.
    pub(crate) fn new(alloc: Global, plan: &Plan) -> Result<Player, OutOfMemory>
        requires { IsPlan plan.now }
        ensures { IfOk result (λ player. PlaysStand plan.now.nodes.items player (no_lines plan.now.nodes.items) []) }
    {
        let guards = guards_of(alloc, plan.nodes.len())?;
        let net = SerialNet::of_table(alloc, plan)?;
        Ok(Player { guards, net })
    }

    /// Each source has come to its state.
    pub(crate) fn restored(
        alloc: Global,
        plan: &Plan,
        states: &[SourceState],
    ) -> Result<Player, OutOfMemory>
        requires plan { IsPlan plan.now }
        requires states { AreStates plan.now.nodes.items states.now }
        ensures { IfOk result (λ player. PlaysStand plan.now.nodes.items player (lines_from plan.now.nodes.items (states_in states.now)) []) }
    {
        let mut player = Player::new(alloc, plan)?;
        restore_sources(alloc, plan.nodes.as_slice(), states, &mut player)?;
        Ok(player)
    }

    /// An event line of the source at a place: its messages go over the network.
    fn take_event(
        &mut self,
        alloc: Global,
        shapes: &[Shape],
        place: usize,
        line: &[u8],
    ) -> Result<(), GuardFault>
        requires shape { place < length shapes.now }
        requires stands { (nodes : List PlanNode) × (before : Accepted) × (shown : Lists) × PlaysStand nodes self.old before shown × (place < length nodes) × IsSourceAt nodes place }
        ensures { (nodes : List PlanNode) (before : Accepted) (shown : Lists) → PlaysStand nodes self.old before shown → place < length nodes → IsSourceAt nodes place → PlaysLine result nodes self.new shown (with_lines before place (with_reading (lines_at before place) (reading (slice_index_or shapes.now place AnyText) line.now))) }
    {
        let messages = judge_at(alloc, &mut self.guards, place, &shapes[place], line)?;
        feed_on(alloc, &mut self.net, place, messages)?;
        Ok(())
    }

    /// Writes the rows of the output and the reach.
    fn show<K: Sink>(&self, alloc: Global, out: &mut K) -> Result<(), OutsideFault>
        ensures shown { (nodes : List PlanNode) (before : Accepted) (shown : Lists) → PlaysStand nodes self.now before shown → Shows result nodes self.now before shown (K.written out.old) (K.written out.new) }
        ensures counted { Counts result (K.faults out.old) (K.faults out.new) }
    {
        let text = shown_text(alloc, &self.net)?;
        write_all(out, text.as_slice())
    }

    /// Takes the next line of a script, without its line feed, and answers its fault if it has one. At `?` it writes the rows
    /// of the output and the reach.
    pub(crate) fn take<K: Sink>(
        &mut self,
        alloc: Global,
        nodes: &[PlanNode],
        shapes: &[Shape],
        line: &[u8],
        out: &mut K,
    ) -> Result<Option<LineFault>, OutsideFault>
        requires stands { (before : Accepted) × (shown : Lists) × PlaysStand nodes.now self.old before shown }
        requires types { ShapesHaveTypes nodes.now shapes.now }
        ensures taken { (before : Accepted) (shown : Lists) → PlaysStand nodes.now self.old before shown → TakesStep result nodes.now self.new before shown (step_of nodes.now shapes.now before line.now) (K.written out.old) (K.written out.new) }
        ensures counted { Counts result (K.faults out.old) (K.faults out.new) }
    {
        match read_script_line(nodes, line) {
            Ok(ScriptLine::Nothing) => Ok(None),
            Ok(ScriptLine::Question) => {
                self.show(alloc, out)?;
                Ok(None)
            }
            Ok(ScriptLine::Event(place, event)) => {
                let taken = self.take_event(alloc, shapes, place, event);
                told(taken)
            }
            Err(fault) => Ok(Some(fault)),
        }
    }
}

impl Restores for Player {
    ghost stands = { λ nodes player before. PlaysStand nodes player before [] };

    /// Its guard is restored, and the messages of the state's lines go over the network.
    fn restore_source(
        &mut self,
        alloc: Global,
        place: usize,
        state: &SourceState,
    ) -> Result<(), OutOfMemory> {
        let guard = Guard::restore(alloc, state)?;
        let messages = state_messages(alloc, state)?;
        self.guards[place] = guard;
        feed_on(alloc, &mut self.net, place, messages)
    }
}

/// The fault of a line, if it has one.
fn told(taken: Result<(), GuardFault>) -> Result<Option<LineFault>, OutsideFault>
    ensures { result ≡ told_fault taken }
{
    match taken {
        Ok(()) => Ok(None),
        Err(GuardFault::Line(fault)) => Ok(Some(fault)),
        Err(GuardFault::OutOfMemory) => Err(OutsideFault::OutOfMemory),
    }
}
