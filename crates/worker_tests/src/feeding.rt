//! The other ends of a worker's edges, and the gate that it passes.
ghost use Rattle.std.specs.Prelude.{◌≡◌, ◌<◌, ◌≤◌, true, [], length, IfOk};
ghost use Rattle.std.specs.List.{All};
ghost use Rattle.cedr_edge.specs.Ends.{OutEnd};
ghost use Rattle.test_feeding.specs.Came.{CameFor};

use cedr_base::OutOfMemory;
use cedr_edge::{EdgeIn, EdgeOut, new_edge};
use cedr_io::Gate;
use std::alloc::Global;
use std::sync::Wait;
use std::sync::atomic::{AtomicU64, Ordering};
use std::test::Fail;
use test_feeding::{Brief, Came, brief_of, message_of};

/// The end of an edge that a test puts on, and what came over it.
#[derive(Drop)]
pub(crate) struct Feeder {
    pub(crate) out: EdgeOut,
    pub(crate) came: Came,
}

/// An edge of this room, for what a test puts on it.
pub(crate) fn fed_edge(alloc: Global, room: usize) -> Result<(Feeder, EdgeIn), OutOfMemory>
    requires { (1 ≤ room) × (room ≤ 1024) }
    ensures came { IfOk result (λ f. CameFor f.0.came f.0.out.sent) }
    ensures taken { IfOk result (λ f. f.1.taken ≡ []) }
{
    let (out, input) = new_edge(alloc, room)?;
    let came = Came::new(alloc);
    Ok((Feeder { out, came }, input))
}

/// Puts a message. Says whether it may come, and there was room.
pub(crate) fn feed<R: Wait>(
    rt: &R,
    alloc: Global,
    feeder: &mut Feeder,
    brief: Brief,
) -> Result<bool, OutOfMemory>
    requires { CameFor feeder.old.came feeder.old.out.sent }
    ensures { IfOk result (λ fed. fed ≡ true → CameFor feeder.new.came feeder.new.out.sent) }
{
    let message = message_of(alloc, brief)?;
    if !feeder.came.may_come(&message) {
        return Ok(false);
    }
    feeder.came.note(alloc, &message)?;
    feeder.out.count();
    Ok(feeder.out.put(rt, message).is_ok())
}

/// An edge of this room, whose end that puts is alone.
pub(crate) fn one_edge(alloc: Global, room: usize) -> Result<(Vec<EdgeOut>, EdgeIn), OutOfMemory>
    requires { (1 ≤ room) × (room ≤ 1024) }
    ensures nothing { IfOk result (λ e. All (λ (o : OutEnd). o.sent ≡ []) e.0.items) }
    ensures some { IfOk result (λ e. 0 < length e.0.items) }
    ensures taken { IfOk result (λ e. e.1.taken ≡ []) }
{
    let (output, input) = new_edge(alloc, room)?;
    let outputs = vec![in alloc; output]?;
    Ok((outputs, input))
}

/// Whether this is the next message of an edge, or there is none.
pub(crate) fn says<R: Wait>(rt: &R, input: &mut EdgeIn, wanted: Option<Brief>) -> bool {
    match input.take(rt) {
        Some(message) => wanted == Some(brief_of(&message)),
        None => wanted.is_none(),
    }
}

/// A gate that counts how often the worker of a number passed it, and others.
#[derive(Drop)]
pub(crate) struct Turnstile {
    number: usize,
    passed: AtomicU64,
    others: AtomicU64,
}

impl Gate for Turnstile {
    fn pass(&self, node: usize) {
        if node == self.number {
            self.passed.fetch_add(1, Ordering::SeqCst);
        } else {
            self.others.fetch_add(1, Ordering::SeqCst);
        }
    }
}

impl Turnstile {
    pub(crate) fn new(number: usize) -> Turnstile {
        Turnstile {
            number,
            passed: AtomicU64::new(0),
            others: AtomicU64::new(0),
        }
    }

    /// Whether it was passed once since this was asked last, and never by another worker.
    pub(crate) fn passed_once(&self) -> bool {
        self.passed.swap(0, Ordering::SeqCst) == 1 && self.others.load(Ordering::SeqCst) == 0
    }
}
