ghost use Rattle.std.specs.Prelude.{◌≡◌, true, ◌<◌, ◌≤◌, [], ◌∷◌, ◌++◌, length, IfOk, OnOk, IfErr, IfSome, IfNone};
ghost use Rattle.cedr_base.specs.Messages.{IsLegal};
ghost use Rattle.node_laws.specs.Lawful.{is_over};
ghost use Rattle.cedr_edge.specs.Ends.{as_u64};
ghost use Rattle.cedr_base.specs.Counters.{raised};
ghost use Rattle.crossbeam_queue.specs.Passes.{view as known, IsPassOf};

use crate::line::{EdgePass, Ends, Line, Puts, Takes, Total};
use cedr_base::{Message, OutOfMemory};
use std::alloc::Global;
use std::marker::Model;
use std::sync::{Arc, Wait};

/// The end of an edge that puts. Contracts see the edge that it belongs to, the room of its queue, the messages that
/// were sent, and how many puts found the queue full, a count that stays at its last value.
pub struct EdgeOut {
    line: Arc<Line, Global>,
    pass: EdgePass,
    refused: u64,
    count: u64,
    over: bool,
}

impl Drop for EdgeOut {
    fn drop(self) {
        let EdgeOut {
            line: _,
            pass: _,
            refused: _,
            count: _,
            over: _,
        } = self;
    }
}

impl Model for EdgeOut {
    ghost use Rattle.std.specs.Prelude.{◌≡◌, true, false, length};
    ghost use Rattle.std.specs.Arc.{arc_value};
    ghost use Rattle.crossbeam_queue.specs.Passes.{view as known, IsPassOf, ruled_capacity};
    ghost use Rattle.cedr_base.specs.Messages.{IsLegal};
    ghost use Rattle.node_laws.specs.Lawful.{is_over};
    ghost use Rattle.cedr_edge.specs.Ends.{OutEnd, as_u64};

    ghost Value = { OutEnd };

    ghost view = { λ e. record { edge = e.pass.table_id; room = ruled_capacity (arc_value e.line); sent = (known e.pass).sent; refused = e.refused } };

    ghost invariant = { λ e. IsPassOf (arc_value e.line) e.pass × ((known e.pass).puts ≡ true) × IsLegal (known e.pass).sent × (e.count ≡ as_u64 (length (known e.pass).sent)) × (e.over ≡ is_over (known e.pass).sent) };
}

/// The end of an edge that takes. Contracts see the edge that it belongs to, the messages that were taken, and how many
/// takes found the queue empty, a count that stays at its last value.
pub struct EdgeIn {
    line: Arc<Line, Global>,
    pass: EdgePass,
    refused: u64,
    count: u64,
    over: bool,
}

impl Drop for EdgeIn {
    fn drop(self) {
        let EdgeIn {
            line: _,
            pass: _,
            refused: _,
            count: _,
            over: _,
        } = self;
    }
}

impl Model for EdgeIn {
    ghost use Rattle.std.specs.Prelude.{◌≡◌, true, false, length};
    ghost use Rattle.std.specs.Arc.{arc_value};
    ghost use Rattle.crossbeam_queue.specs.Passes.{view as known, IsPassOf};
    ghost use Rattle.cedr_base.specs.Messages.{IsLegal};
    ghost use Rattle.node_laws.specs.Lawful.{is_over};
    ghost use Rattle.cedr_edge.specs.Ends.{InEnd, as_u64};

    ghost Value = { InEnd };

    ghost view = { λ e. record { edge = e.pass.table_id; taken = (known e.pass).taken; refused = e.refused } };

    ghost invariant = { λ e. IsPassOf (arc_value e.line) e.pass × ((known e.pass).takes ≡ true) × (e.count ≡ as_u64 (length (known e.pass).taken)) × IsLegal (known e.pass).taken × (e.over ≡ is_over (known e.pass).taken) };
}

/// A closed edge, with all that went over it. Only [`close_edge`] makes one, and it can't be copied.
pub struct EdgeRecord {
    pass: EdgePass,
    count: u64,
}

impl Drop for EdgeRecord {
    fn drop(self) {
        let EdgeRecord { pass: _, count: _ } = self;
    }
}

impl Model for EdgeRecord {
    ghost use Rattle.std.specs.Prelude.{◌≡◌, length};
    ghost use Rattle.crossbeam_queue.specs.Passes.{view as known};
    ghost use Rattle.cedr_base.specs.Messages.{IsLegal};
    ghost use Rattle.cedr_edge.specs.Ends.{Carried, as_u64};

    ghost Value = { Carried };

    ghost view = { λ e. record { edge = e.pass.table_id; sent = (known e.pass).sent; taken = (known e.pass).taken } };

    ghost invariant = { λ e. ((known e.pass).sent ≡ (known e.pass).taken) × (e.count ≡ as_u64 (length (known e.pass).taken)) × IsLegal (known e.pass).sent };
}

/// The queue was full. The message is handed back.
#[derive(Drop)]
pub struct Full {
    pub message: Message,
}

/// The two ends of a new edge, whose queue holds so many messages at a time, from 1 to 1,024. Their room is made here:
/// [`EdgeOut::put`], [`EdgeIn::take`] and [`close_edge`] take no memory.
pub fn new_edge(alloc: Global, capacity: usize) -> Result<(EdgeOut, EdgeIn), OutOfMemory>
    requires { (1 ≤ capacity) × (capacity ≤ 1024) }
    ensures edge { IfOk result (λ e. e.0.edge ≡ e.1.edge) }
    ensures outgoing { IfOk result (λ e. (e.0.room ≡ capacity) × (e.0.sent ≡ []) × (e.0.refused ≡ 0)) }
    ensures incoming { IfOk result (λ e. (e.1.taken ≡ []) × (e.1.refused ≡ 0)) }
{
    let (line, mut pass) = Line::ruled(alloc, capacity)?;
    let other = line.another::<Ends>(&mut pass);
    let line = Arc::new(alloc, line)?;
    let theirs = Arc::try_clone(&line)?;
    let outgoing = EdgeOut {
        line,
        pass,
        refused: 0,
        count: 0,
        over: false,
    };
    let incoming = EdgeIn {
        line: theirs,
        pass: other,
        refused: 0,
        count: 0,
        over: false,
    };
    Ok((outgoing, incoming))
}

/// Whether a list ends with this message.
fn is_last(message: &Message) -> bool
    ensures { result ≡ is_over (message.now ∷ []) }
{
    matches!(message, Message::End | Message::Broken)
}

impl EdgeOut {
    /// Puts a message, which may come after those that were sent. `Full` hands it back: the queue was full at this
    /// step, so at least its room of messages was sent before. It takes no memory and holds no lock, and may spin while
    /// the other end is between two machine steps.
    pub fn put<R: Wait>(&mut self, rt: &R, message: Message) -> Result<(), Full>
        requires { IsLegal (self.old.sent ++ message ∷ []) }
        ensures put { OnOk result (self.new ≡ record self.old { sent = self.old.sent ++ message ∷ [] }) }
        ensures full { IfErr result (λ f. (f.message ≡ message) × (self.new ≡ record self.old { refused = raised self.old.refused }) × (self.old.room ≤ length self.old.sent)) }
    {
        let last = is_last(&message);
        match self.line.push_as::<Puts, R>(rt, &mut self.pass, message) {
            Ok(()) => {
                self.count = self.count.saturating_add(1);
                self.over = last;
                Ok(())
            }
            Err(message) => {
                self.refused = self.refused.saturating_add(1);
                Err(Full { message })
            }
        }
    }

    /// Whether `End` or `Broken` was sent.
    pub fn is_over(&self) -> bool
        ensures { result ≡ is_over self.now.sent }
    {
        self.over
    }

    /// The number of messages that were sent, or the last `u64` where there are more.
    pub fn count(&self) -> u64
        ensures count { result ≡ as_u64 (length self.now.sent) }
        ensures legal { IsLegal self.now.sent }
    {
        self.count
    }

    /// [`close_edge`], once the other end is known to be of the same edge.
    fn closed_with(self, incoming: EdgeIn) -> EdgeRecord
        requires edge { self.edge ≡ incoming.edge }
        requires over { is_over incoming.taken ≡ true }
        ensures edge { result.edge ≡ self.edge }
        ensures sent { result.sent ≡ self.sent }
        ensures taken { result.taken ≡ incoming.taken }
        ensures same { result.sent ≡ result.taken }
    {
        let EdgeOut {
            line,
            pass,
            refused: _,
            count: _,
            over: _,
        } = self;
        incoming.closed_with(&line, pass)
    }
}

impl EdgeIn {
    /// Takes the message that was sent first of those not yet taken. `None` comes only where the queue was empty at this
    /// step. It takes no memory and holds no lock, and may spin while the other end is between two machine steps.
    pub fn take<R: Wait>(&mut self, rt: &R) -> Option<Message>
        ensures taken { IfSome result (λ m. self.new ≡ record self.old { taken = self.old.taken ++ m ∷ [] }) }
        ensures legal { IfSome result (λ m. IsLegal self.new.taken) }
        ensures none { IfNone result (self.new ≡ record self.old { refused = raised self.old.refused }) }
    {
        match self.line.pop_as::<Takes, R>(rt, &mut self.pass) {
            Some(message) => {
                self.count = self.count.saturating_add(1);
                self.over = is_last(&message);
                Some(message)
            }
            None => {
                self.refused = self.refused.saturating_add(1);
                None
            }
        }
    }

    /// Whether `End` or `Broken` was taken.
    pub fn is_over(&self) -> bool
        ensures { result ≡ is_over self.now.taken }
    {
        self.over
    }

    /// The number of messages that were taken, or the last `u64` where there are more.
    pub fn count(&self) -> u64
        ensures count { result ≡ as_u64 (length self.now.taken) }
        ensures legal { IsLegal self.now.taken }
    {
        self.count
    }

    /// The record of the edge whose other end had this pass of its queue.
    fn closed_with(self, line: &Line, theirs: EdgePass) -> EdgeRecord
        requires pass { IsPassOf line.now theirs }
        requires puts { (known theirs).puts ≡ true }
        requires edge { theirs.table_id ≡ self.edge }
        requires over { is_over self.taken ≡ true }
        ensures edge { result.edge ≡ theirs.table_id }
        ensures sent { result.sent ≡ (known theirs).sent }
        ensures taken { result.taken ≡ self.taken }
        ensures same { result.sent ≡ result.taken }
    {
        let EdgeIn {
            line: _,
            mut pass,
            refused: _,
            count,
            over: _,
        } = self;
        line.absorb::<Ends>(&mut pass, theirs);
        line.learn_as::<Total>(&mut pass);
        EdgeRecord { pass, count }
    }
}

/// Closes an edge whose last message was taken. Both ends belong to it, and each message was taken that was sent. It
/// takes no memory.
pub fn close_edge(outgoing: EdgeOut, incoming: EdgeIn) -> EdgeRecord
    requires edge { outgoing.edge ≡ incoming.edge }
    requires over { is_over incoming.taken ≡ true }
    ensures edge { result.edge ≡ outgoing.edge }
    ensures sent { result.sent ≡ outgoing.sent }
    ensures taken { result.taken ≡ incoming.taken }
    ensures same { result.sent ≡ result.taken }
{
    outgoing.closed_with(incoming)
}

impl EdgeRecord {
    /// The number of messages, or the last `u64` where there are more.
    pub fn count(&self) -> u64
        ensures count { result ≡ as_u64 (length self.now.sent) }
        ensures same { self.now.sent ≡ self.now.taken }
        ensures legal { IsLegal self.now.sent }
    {
        self.count
    }
}
