//! What a read does once the copies let it in.
ghost use Rattle.std.specs.Prelude.{◌≡◌, ◌++◌, [], true, length, map, take, IsOk, IfOk, OnOk, OnErr, IfSome, IfNone};
ghost use Rattle.std.specs.Arc.{arc_value};
ghost use Rattle.left_right.specs.Sides.{view};
ghost use Rattle.cedr_history.specs.Sights.{SightBegins};
ghost use Rattle.cedr_history.specs.Versions.{IsTied};
ghost use Rattle.cedr_history.specs.Ends.{part, list_of, IsAt, IsNextSight, IsSeen};

use crate::book::Front;
use crate::rule::{Behind, Sees};
use crate::seen::Seen;
use crate::version::Version;
use cedr_base::{Change, OutOfMemory};
use std::alloc::Global;
use std::sync::Arc;

/// Whether two fronts of one history are the same.
fn is_same(one: &Front, other: &Front) -> bool
    requires { other.now.book ≡ one.now.book }
    ensures { result ≡ true → one.now ≡ other.now }
{
    let _longer = one.longer(other);
    one.len() == other.len()
}

/// Whether a front is no shorter than the floor, and is the last one where that is known.
fn fits(front: &Front, floor: &Front, last: &Option<Front>) -> bool
    requires floor { floor.now.book ≡ front.now.book }
    requires last { IfSome last.now (λ l. l.book ≡ front.now.book) }
    ensures floor { result ≡ true → SightBegins floor.now front.now }
    ensures last { result ≡ true → IfSome last.now (λ l. front.now ≡ l) }
{
    if floor.longer(front).len() > front.len() {
        return false;
    }
    match last {
        Some(last) => is_same(front, last),
        None => true,
    }
}

/// Appends copies. Where memory runs out some of them may stand there.
fn push_copies(
    alloc: Global,
    changes: &[Arc<Change>],
    out: &mut Vec<Change>,
) -> Result<(), OutOfMemory>
    ensures ok { OnOk result (out.new.items ≡ out.old.items ++ map arc_value changes.now) }
    ensures err { OnErr result (take (length out.old.items) out.new.items ≡ out.old.items) }
    ensures none { changes.now ≡ [] → IsOk result }
{
    for change in changes {
        let copied = change.copy(alloc)?;
        out.push(copied)?;
    }
    Ok(())
}

/// At most so many of the changes, from a place on.
fn part_of(changes: &[Arc<Change>], from: usize, max: usize) -> &[Arc<Change>]
    ensures { result.now ≡ part from max changes.now }
{
    let from = from.min(changes.len());
    let count = max.min(changes.len() - from);
    &changes[from..from + count]
}

/// Appends copies of at most so many of the changes, from a place on.
fn push_part(
    alloc: Global,
    changes: &[Arc<Change>],
    from: usize,
    max: usize,
    out: &mut Vec<Change>,
) -> Result<(), OutOfMemory>
    ensures ok { OnOk result (out.new.items ≡ out.old.items ++ map arc_value (part from max changes.now)) }
    ensures err { OnErr result (out.new.items ≡ out.old.items) }
    ensures none { max ≡ 0 → IsOk result }
{
    let before = out.len();
    let done = push_copies(alloc, part_of(changes, from, max), out);
    if done.is_err() {
        out.truncate(before);
    }
    done
}

/// Reads a copy. `None` where it is older than what the reader has seen or learnt, or isn't the list of the last note.
/// Neither ever comes. The steps are counted to show it, since no clause of the copies says it.
fn look(
    alloc: Global,
    version: &Version,
    floor: &Front,
    last: &Option<Front>,
    from: usize,
    max: usize,
    out: &mut Vec<Change>,
) -> Result<Option<(Front, Seen)>, OutOfMemory>
    requires tied { IsTied version.now }
    requires floor { floor.now.book ≡ version.now.front.book }
    requires last { IfSome last.now (λ l. l.book ≡ version.now.front.book) }
    ensures some { IfOk result (λ o. IfSome o (λ r. IsNextSight floor.now r.0 × IsSeen r.1 (list_of r.0) × (out.new.items ≡ out.old.items ++ part from max (list_of r.0).changes))) }
    ensures last { IfOk result (λ o. IfSome o (λ r. IfSome last.now (λ l. r.0 ≡ l))) }
    ensures none { IfOk result (λ o. IfNone o (out.new.items ≡ out.old.items)) }
    ensures err { OnErr result (out.new.items ≡ out.old.items) }
    ensures small { max ≡ 0 → IsOk result }
{
    let front = version.front.again();
    if !fits(&front, floor, last) {
        return Ok(None);
    }
    push_part(alloc, version.changes.as_slice(), from, max, out)?;
    Ok(Some((
        front,
        Seen {
            len: version.changes.len(),
            mark: version.mark,
            close: version.close,
        },
    )))
}

/// Enters the copy that is shown, reads it, and leaves it. `None` where the enter was refused.
pub(crate) fn enter(
    alloc: Global,
    behind: Behind,
    floor: &Front,
    last: &Option<Front>,
    from: usize,
    max: usize,
    out: &mut Vec<Change>,
) -> (Behind, Result<Option<(Front, Seen)>, OutOfMemory>)
    requires at { IsAt (view behind.place) floor.now.book }
    requires last { IfSome last.now (λ l. l.book ≡ floor.now.book) }
    ensures at { IsAt (view result.0.place) floor.now.book }
    ensures some { IfOk result.1 (λ o. IfSome o (λ r. IsNextSight floor.now r.0 × IsSeen r.1 (list_of r.0) × (out.new.items ≡ out.old.items ++ part from max (list_of r.0).changes))) }
    ensures last { IfOk result.1 (λ o. IfSome o (λ r. IfSome last.now (λ l. r.0 ≡ l))) }
    ensures none { IfOk result.1 (λ o. IfNone o (out.new.items ≡ out.old.items)) }
    ensures err { OnErr result.1 (out.new.items ≡ out.old.items) }
    ensures small { max ≡ 0 → IsOk result.1 }
{
    match behind.enter_as::<Sees>() {
        Ok(reading) => {
            let found = look(alloc, reading.get(), floor, last, from, max, out);
            (reading.leave(), found)
        }
        Err(behind) => (behind, Ok(None)),
    }
}
