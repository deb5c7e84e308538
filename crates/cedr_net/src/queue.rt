ghost use Rattle.std.specs.Prelude.{◌≡◌, ◌<◌, ◌++◌, ◌∷◌, [], OnOk, IfOk, IfSome, IfNone, length, replicate, slice_set};
ghost use Rattle.node_laws.specs.Lists.{list_at, with_more};
ghost use Rattle.cedr_net.specs.Edges.{IsPulled, NothingWaits};

use cedr_base::{Message, OutOfMemory};
use std::alloc::Global;
use std::collections::VecDeque;
use std::marker::Model;

/// Messages in order, first in and first out: what waits on a port.
#[derive(Drop)]
pub(crate) struct Queue {
    messages: VecDeque<Message>,
}

impl Model for Queue {
    ghost use Rattle.std.specs.Prelude.{List};
    ghost use Rattle.cedr_base.specs.declared.change.Message.{Message};

    ghost Value = { List Message };

    ghost view = { λ q. q.messages.items };
}

impl Queue {
    fn new(alloc: Global) -> Queue
        ensures { result ≡ [] }
    {
        Queue {
            messages: VecDeque::new(alloc),
        }
    }

    /// The message waits after the others.
    fn push(&mut self, message: Message) -> Result<(), OutOfMemory>
        ensures { OnOk result (self.new ≡ self.old ++ message ∷ []) }
    {
        self.messages.push_back(message)?;
        Ok(())
    }

    /// Takes the first message.
    fn pop(&mut self) -> Option<Message>
        ensures some { IfSome result (λ m. self.old ≡ m ∷ self.new) }
        ensures none { IfNone result ((self.old ≡ []) × (self.new ≡ [])) }
    {
        self.messages.pop_front()
    }
}

/// What waits on the ports of a node.
#[derive(Drop)]
pub(crate) struct Queues {
    ports: Vec<Queue>,
}

impl Model for Queues {
    ghost use Rattle.node_laws.specs.Lists.{Lists};

    ghost Value = { Lists };

    ghost view = { λ q. q.ports.items };
}

fn push_on(ports: &mut Vec<Queue>, port: usize, message: Message) -> Result<(), OutOfMemory>
    requires { port < length ports.old.items }
    ensures { OnOk result (ports.new.items ≡ with_more ports.old.items port (message ∷ [])) }
{
    ports[port].push(message)
}

/// Takes the first message of the queue at a place.
fn pop_at(queues: &mut Vec<Queue>, place: usize) -> Option<Message>
    requires { place < length queues.old.items }
    ensures some { IfSome result (λ m. (list_at queues.old.items place ≡ m ∷ list_at queues.new.items place) × (queues.new.items ≡ slice_set queues.old.items place (list_at queues.new.items place))) }
    ensures none { IfNone result ((list_at queues.old.items place ≡ []) × (queues.new.items ≡ queues.old.items)) }
{
    queues[place].pop()
}

impl Queues {
    /// Nothing waits on so many ports.
    pub(crate) fn new(alloc: Global, ports: usize) -> Result<Queues, OutOfMemory>
        ensures { IfOk result (λ queues. queues ≡ replicate ports []) }
    {
        let mut queues = Vec::new(alloc);
        for _ in 0..ports {
            queues.push(Queue::new(alloc))?;
        }
        Ok(Queues { ports: queues })
    }

    /// The message waits on a port, after those that wait there. O(1).
    pub(crate) fn push(&mut self, port: usize, message: Message) -> Result<(), OutOfMemory>
        requires { port < length self.old }
        ensures { OnOk result (self.new ≡ with_more self.old port (message ∷ [])) }
    {
        push_on(&mut self.ports, port, message)
    }

    /// Takes the first message of the first port on which one waits. O(n) in the ports.
    pub(crate) fn pull(&mut self) -> Option<(usize, Message)>
        ensures some { IfSome result (λ pulled. IsPulled self.old self.new pulled.0 pulled.1) }
        ensures none { IfNone result (NothingWaits self.old × (self.new ≡ self.old)) }
    {
        for port in 0..self.ports.len() {
            if let Some(message) = pop_at(&mut self.ports, port) {
                return Some((port, message));
            }
        }
        None
    }
}
