ghost use Rattle.std.specs.Prelude.{ℕ, ◌≡◌, ◌<◌, [], List, IfOk, length, slice_index_or};
ghost use Rattle.cedr_text.specs.Reading.{reading};
ghost use Rattle.cedr_text.specs.declared.event_line.EventLine.{EventLine};
ghost use Rattle.plan_follow.specs.Playing.{Sifts, SiftsAt};
ghost use Rattle.source_memory.specs.Opened.{Recalls};

use cedr_base::{Message, OutOfMemory};
use cedr_guard::GuardFault;
use cedr_text::{Shape, read_line};
use source_memory::OpenGuard;
use std::alloc::Global;

/// A guard for each of so many nodes. None has accepted a line.
pub(crate) fn open_guards(alloc: Global, count: usize) -> Result<Vec<OpenGuard>, OutOfMemory>
    ensures count { IfOk result (λ guards. length guards.items ≡ count) }
    ensures none { IfOk result (λ guards. (k : ℕ) (d : OpenGuard) → k < length guards.items → Recalls (slice_index_or guards.items k d) []) }
{
    let mut guards = Vec::new(alloc);
    for _ in 0..count {
        guards.push(OpenGuard::new(alloc))?;
    }
    Ok(guards)
}

/// The messages of an event line of the source at a place, which is judged.
pub(crate) fn sift_at(
    alloc: Global,
    guards: &mut Vec<OpenGuard>,
    place: usize,
    shape: &Shape,
    line: &[u8],
) -> Result<Vec<Message>, GuardFault>
    requires { place < length guards.old.items }
    ensures { SiftsAt result guards.old.items guards.new.items place (reading shape.now line.now) }
{
    sift(alloc, &mut guards[place], shape, line)
}

/// The messages of an event line of a source, which its guard judges.
fn sift(
    alloc: Global,
    guard: &mut OpenGuard,
    shape: &Shape,
    line: &[u8],
) -> Result<Vec<Message>, GuardFault>
    ensures { (kept : List EventLine) → Recalls guard.old kept → Sifts result guard.new kept (reading shape.now line.now) }
{
    let mut messages = Vec::new(alloc);
    match read_line(alloc, line, shape) {
        Ok(None) => Ok(messages),
        Ok(Some(event)) => match guard.accept(&event, &mut messages) {
            Ok(()) => Ok(messages),
            Err(fault) => Err(fault),
        },
        Err(fault) => Err(GuardFault::from(fault)),
    }
}
