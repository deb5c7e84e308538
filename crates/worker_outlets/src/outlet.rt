ghost use Rattle.std.specs.Prelude.{◌≡◌, ◌≢◌, ◌+◌, ◌<◌, true, false, [], ◌∷◌, ◌++◌, length, OnOk, OnErr, Some, None};
ghost use Rattle.cedr_base.specs.Messages.{IsLegal};
ghost use Rattle.cedr_edge.specs.Ends.{as_u64};
ghost use Rattle.node_laws.specs.Lawful.{is_over};
ghost use Rattle.worker_outlets.specs.Outgoing.{last_message};
ghost use Rattle.worker_outlets.specs.Outlets.{total_of, bare, opened, Kept, Rested, Put};

use crate::last::Last;
use cedr_base::{Message, OutOfMemory};
use cedr_edge::EdgeOut;
use std::alloc::Global;
use std::collections::VecDeque;
use std::marker::Model;
use std::sync::Wait;

/// An out edge, with the messages that are pending for it.
///
/// A piece of messages must come to all out edges of a worker or to none, also where memory runs out in between. So it
/// is set down at each edge first, which can fail, and then becomes pending, which takes no memory.
#[derive(Drop)]
pub struct Outlet {
    edge: EdgeOut,
    queue: VecDeque<Message>,
    /// How many messages of the queue are pending. The others are only set down.
    firm: usize,
    /// The message that is pending after them. It takes no memory.
    last: Option<Last>,
}

impl Model for Outlet {
    ghost use Rattle.std.specs.Prelude.{◌≡◌, ◌≤◌, ◌++◌, take, drop, length};
    ghost use Rattle.cedr_base.specs.Messages.{IsLegal};
    ghost use Rattle.worker_outlets.specs.Outgoing.{Outgoing, last_messages};

    ghost Value = { Outgoing };

    ghost view = { λ o. record { edge = o.edge.edge; sent = o.edge.sent; pending = take o.firm o.queue.items ++ last_messages o.last; staged = drop o.firm o.queue.items; refused = o.edge.refused } };

    ghost invariant = { λ o. IsLegal (o.edge.sent ++ (take o.firm o.queue.items ++ last_messages o.last)) × (o.firm ≤ length o.queue.items) };
}

impl Outlet {
    /// An edge over which nothing went. It takes no memory.
    pub fn new(alloc: Global, edge: EdgeOut) -> Outlet
        requires { edge.sent ≡ [] }
        ensures { result ≡ opened edge }
    {
        Outlet {
            edge,
            queue: VecDeque::new(alloc),
            firm: 0,
            last: None,
        }
    }

    /// Sets a message down after the others. An error leaves all as it was.
    pub fn stage(&mut self, message: Message) -> Result<(), OutOfMemory>
        ensures bare { bare self.new ≡ bare self.old }
        ensures total { total_of self.new ≡ total_of self.old }
        ensures ok { OnOk result (self.new ≡ record self.old { staged = self.old.staged ++ message ∷ [] }) }
        ensures err { OnErr result (self.new ≡ self.old) }
    {
        self.queue.push_back(message)?;
        Ok(())
    }

    /// All that is set down is pending. It takes no memory.
    pub fn commit(&mut self)
        requires { IsLegal (total_of self.old ++ self.old.staged) }
        ensures { self.new ≡ record self.old { pending = self.old.pending ++ self.old.staged; staged = [] } }
    {
        // After a last message nothing may come, so then nothing is set down.
        if self.last.is_none() {
            self.firm = self.queue.len();
        }
    }

    /// The last message is pending after the others. It takes no memory.
    pub fn close(&mut self, last: Last)
        requires { is_over (total_of self.old) ≡ false }
        ensures { self.new ≡ record self.old { pending = self.old.pending ++ last_message last ∷ [] } }
    {
        self.last = Some(last);
    }

    /// Tries to put the first message that is pending, and says whether it did. It takes no memory.
    pub fn put_one<R: Wait>(&mut self, rt: &R) -> bool
        ensures kept { Kept self.old self.new }
        ensures put { result ≡ true → Put self.old self.new }
        ensures rested { result ≡ false → Rested self.old self.new }
    {
        if self.firm == 0 {
            let Some(last) = self.last else {
                return false;
            };
            match self.edge.put(rt, last.message()) {
                Ok(()) => {
                    self.last = None;
                    return true;
                }
                Err(_) => return false,
            }
        }
        let Some(message) = self.queue.pop_front() else {
            return false;
        };
        match self.edge.put(rt, message) {
            Ok(()) => {
                self.firm -= 1;
                true
            }
            Err(full) => {
                self.queue.push_front_reserved(full.message);
                false
            }
        }
    }

    /// Whether `End` or `Broken` was sent.
    pub fn is_over(&self) -> bool
        ensures { result ≡ is_over self.now.sent }
    {
        self.edge.is_over()
    }

    /// The number of messages that were sent, or the last `u64` where there are more.
    pub fn count(&self) -> u64
        ensures { result ≡ as_u64 (length self.now.sent) }
    {
        self.edge.count()
    }

    /// Whether a message is pending.
    pub fn is_pending(&self) -> bool
        ensures none { result ≡ false → self.now.pending ≡ [] }
        ensures some { result ≡ true → self.now.pending ≢ [] }
    {
        self.firm > 0 || self.last.is_some()
    }

    /// The edge. What is pending or set down is dropped. It takes no memory.
    pub fn into_edge(self) -> EdgeOut
        ensures edge { result.edge ≡ self.edge }
        ensures sent { result.sent ≡ self.sent }
        ensures all { is_over self.sent ≡ true → result.sent ≡ total_of self }
    {
        let Outlet { edge, .. } = self;
        edge
    }
}
