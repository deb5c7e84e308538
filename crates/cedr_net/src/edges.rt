ghost use Rattle.std.specs.Prelude.{◌≡◌, ◌<◌, ◌++◌, OnOk, IfOk, IfSome, IfNone, length, slice_index_or, slice_set, []};
ghost use Rattle.cedr_net.specs.Flows.{reads_of};
ghost use Rattle.cedr_net.specs.Edges.{readers_on, readers_from, waits_on, waits_on_all, all_wait, IsPort, ArePorts, IsPulled, NothingWaits};

use crate::queue::Queues;
use cedr_base::{Message, OutOfMemory};
use cedr_plan::PlanNode;
use op_driver::take_only;
use std::alloc::Global;
use std::marker::Model;

/// A port of a node: the node's place, and the port.
pub(crate) type Reader = (usize, usize);

/// The ports that read one node.
#[derive(Drop)]
pub(crate) struct Readers {
    ports: Vec<Reader>,
}

impl Model for Readers {
    ghost use Rattle.std.specs.Prelude.{List, ℕ};

    ghost Value = { List (ℕ × ℕ) };

    ghost view = { λ r. r.ports.items };
}

/// The ports of the node at a place that read the node at another one.
fn push_readers(
    inputs: &[usize],
    place: usize,
    at: usize,
    ports: &mut Vec<Reader>,
) -> Result<(), OutOfMemory>
    ensures { OnOk result (ports.new.items ≡ ports.old.items ++ readers_on place at 0 inputs.now) }
{
    for (port, input) in inputs.iter().enumerate() {
        if *input == place {
            ports.push((at, port))?;
        }
    }
    Ok(())
}

impl Readers {
    /// The ports that read the node at a place.
    pub(crate) fn of(
        alloc: Global,
        nodes: &[PlanNode],
        place: usize,
    ) -> Result<Readers, OutOfMemory>
        ensures { IfOk result (λ readers. readers ≡ readers_from place 0 (reads_of nodes.now)) }
    {
        let mut ports = Vec::new(alloc);
        for at in 0..nodes.len() {
            push_readers(nodes[at].inputs.as_slice(), place, at, &mut ports)?;
        }
        Ok(Readers { ports })
    }

    pub(crate) fn as_slice(&self) -> &[Reader]
        ensures { result.now ≡ self.now }
    {
        self.ports.as_slice()
    }
}

/// A message waits on a port.
fn send_to(waiting: &mut Vec<Queues>, reader: Reader, message: Message) -> Result<(), OutOfMemory>
    requires { IsPort waiting.old.items reader }
    ensures { OnOk result (waiting.new.items ≡ waits_on waiting.old.items reader message) }
{
    waiting[reader.0].push(reader.1, message)
}

/// Copies of a message wait on ports.
fn send_copies(
    alloc: Global,
    readers: &[Reader],
    waiting: &mut Vec<Queues>,
    message: &Message,
) -> Result<(), OutOfMemory>
    requires { ArePorts waiting.old.items readers.now }
    ensures { OnOk result (waiting.new.items ≡ waits_on_all waiting.old.items readers.now message.now) }
{
    for reader in readers {
        let copied = message.copy(alloc)?;
        send_to(waiting, *reader, copied)?;
    }
    Ok(())
}

/// A message waits on ports: itself on the last one, and copies of it on the others.
pub(crate) fn send_one(
    alloc: Global,
    readers: &[Reader],
    waiting: &mut Vec<Queues>,
    message: Message,
) -> Result<(), OutOfMemory>
    requires { ArePorts waiting.old.items readers.now }
    ensures { OnOk result (waiting.new.items ≡ waits_on_all waiting.old.items readers.now message) }
{
    match readers.split_last() {
        None => Ok(()),
        Some((last, others)) => {
            send_copies(alloc, others, waiting, &message)?;
            send_to(waiting, *last, message)?;
            Ok(())
        }
    }
}

/// Messages are moved out of their list and wait on ports, one after the other, whatever their number is.
fn send_all(
    alloc: Global,
    readers: &[Reader],
    waiting: &mut Vec<Queues>,
    messages: &mut Vec<Message>,
) -> Result<(), OutOfMemory>
    requires { ArePorts waiting.old.items readers.now }
    ensures { OnOk result (waiting.new.items ≡ all_wait waiting.old.items readers.now messages.old.items) }
{
    for message in messages.drain(..) {
        send_one(alloc, readers, waiting, message)?;
    }
    Ok(())
}

/// Messages are moved out of their list and wait on ports, one after the other. Most lists have one message, and most
/// nodes one reader: there the message isn't moved from call to call.
pub(crate) fn send(
    alloc: Global,
    readers: &[Reader],
    waiting: &mut Vec<Queues>,
    messages: &mut Vec<Message>,
) -> Result<(), OutOfMemory>
    requires { ArePorts waiting.old.items readers.now }
    ensures { OnOk result (waiting.new.items ≡ all_wait waiting.old.items readers.now messages.old.items) }
{
    match take_only(messages) {
        Some(message) => match readers {
            [reader] => send_to(waiting, *reader, message),
            _ => send_one(alloc, readers, waiting, message),
        },
        None => send_all(alloc, readers, waiting, messages),
    }
}

/// Takes the first message that waits on the first port of a node where one does.
pub(crate) fn pull_at(waiting: &mut Vec<Queues>, at: usize) -> Option<(usize, Message)>
    requires { at < length waiting.old.items }
    ensures some { IfSome result (λ pulled. IsPulled (slice_index_or waiting.old.items at []) (slice_index_or waiting.new.items at []) pulled.0 pulled.1) }
    ensures rest { IfSome result (λ pulled. waiting.new.items ≡ slice_set waiting.old.items at (slice_index_or waiting.new.items at [])) }
    ensures none { IfNone result (NothingWaits (slice_index_or waiting.old.items at []) × (waiting.new.items ≡ waiting.old.items)) }
{
    waiting[at].pull()
}
