//! What the one who started the threads sees of the result.
ghost use Rattle.std.specs.Prelude.{◌≡◌, IfOk, IfSome, OnOk};
ghost use Rattle.plan_report.specs.Watching.{IsAskedNoMore, ReadsOn, Watches};

use crate::watcher::Watcher;
use cedr_base::{Change, OutOfMemory};
use cedr_history::Reader;
use crossbeam_utils::Backoff;
use std::alloc::Global;
use std::snapshot::Snapshot;
use std::sync::Wait;

/// Lets the watcher look once, if it may be asked. Whether it may be asked again.
pub fn look_once<W: Watcher>(
    looks: bool,
    reader: &mut Reader,
    watcher: &mut W,
    out: &mut W::Out,
    start: &Snapshot<W::Out>,
) -> bool
    requires { Watches (W.stands start.now.value) watcher.old out.old reader.old }
    ensures reads { ReadsOn reader.old reader.new }
    ensures watches { Watches (W.stands start.now.value) watcher.new out.new reader.new }
    ensures asked { IsAskedNoMore (W.lacked watcher.old) looks → IsAskedNoMore (W.lacked watcher.new) result }
{
    if !looks {
        return false;
    }
    match watcher.look(reader, out) {
        Ok(_) => true,
        Err(_) => false,
    }
}

/// Reads until a read is let in, and takes nothing. It takes no memory. After the last note the reader has seen its list then.
pub(crate) fn see<R: Wait>(rt: &R, alloc: Global, reader: &mut Reader)
    ensures reads { ReadsOn reader.old reader.new }
    ensures last { IfSome reader.old.last (λ l. reader.new.seen ≡ l) }
{
    let backoff = Backoff::new();
    let mut nothing = Vec::new(alloc);
    for _ in rt.forever() {
        match reader.read(0, 0, &mut nothing) {
            Ok(Some(_)) => return,
            _ => backoff.snooze(),
        }
    }
}

/// Lets the watcher look until a look is let in.
pub(crate) fn look_on<W: Watcher, R: Wait>(
    rt: &R,
    reader: &mut Reader,
    watcher: &mut W,
    out: &mut W::Out,
    start: &Snapshot<W::Out>,
) -> Result<(), OutOfMemory>
    requires { Watches (W.stands start.now.value) watcher.old out.old reader.old }
    ensures reads { ReadsOn reader.old reader.new }
    ensures watches { Watches (W.stands start.now.value) watcher.new out.new reader.new }
    ensures whole { OnOk result (IfSome reader.old.last (λ l. W.stands start.now.value watcher.new out.new l.changes)) }
    ensures found { OnOk result (W.lacked watcher.new ≡ W.lacked watcher.old) }
{
    let backoff = Backoff::new();
    for _ in rt.forever() {
        if watcher.look(reader, out)? {
            return Ok(());
        }
        backoff.snooze();
    }
    unreachable!()
}

/// Reads all changes once, where the read is let in.
fn read_once(alloc: Global, reader: &mut Reader) -> Result<Option<Vec<Change>>, OutOfMemory>
    ensures reads { ReadsOn reader.old reader.new }
    ensures all { IfOk result (λ o. IfSome o (λ changes. IfSome reader.old.last (λ l. changes.items ≡ l.changes))) }
{
    let mut changes = Vec::new(alloc);
    match reader.read(0, usize::MAX, &mut changes)? {
        Some(_) => Ok(Some(changes)),
        None => Ok(None),
    }
}

/// Reads all changes. After the last note they are those of its list.
pub(crate) fn read_all<R: Wait>(
    rt: &R,
    alloc: Global,
    reader: &mut Reader,
) -> Result<Vec<Change>, OutOfMemory>
    ensures { IfOk result (λ changes. IfSome reader.old.last (λ l. changes.items ≡ l.changes)) }
{
    let backoff = Backoff::new();
    for _ in rt.forever() {
        if let Some(changes) = read_once(alloc, reader)? {
            return Ok(changes);
        }
        backoff.snooze();
    }
    unreachable!()
}
