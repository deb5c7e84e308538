//! Histories that one thread writes and another one reads.
ghost use Rattle.std.specs.Prelude.{◌≡◌, false, ◌<◌};
ghost use Rattle.std.specs.Thread.{IsSync};
ghost use Rattle.cedr_history.specs.declared.close.Close.TheVariants.{Open};

use crate::histories::{are_from, change, seen};
use cedr_base::{Change, OutOfMemory};
use cedr_history::{Close, Reader, Seen, Writer, new_history};
use std::alloc::Global;
use std::sync::Wait;
use std::test::Fail;
use std::thread;
use std::thread::{Threads, join_mut};

/// Adds so many changes, and publishes each time that some are there.
fn write_all<R: Wait>(
    rt: &R,
    alloc: Global,
    writer: &mut Writer,
    count: u64,
    at_once: u64,
) -> Result<(), OutOfMemory>
    requires writer { (writer.old.all.close ≡ Open) × (writer.old.concluded ≡ false) }
    requires some { 0 < at_once }
    ensures history { writer.new.history ≡ writer.old.history }
    ensures unconcluded { writer.new.concluded ≡ false }
{
    for k in 0..count {
        writer.append(change(alloc, k)?)?;
        if k % at_once == 0 {
            writer.publish(rt)?;
        }
    }
    writer.close(Close::Ended)?;
    writer.publish(rt)?;
    Ok(())
}

/// Reads what the list has beyond what is there. The list that was seen, if the read wasn't refused.
fn read_on(reader: &mut Reader, list: &mut Vec<Change>) -> Result<Option<Seen>, OutOfMemory>
    ensures { reader.new.history ≡ reader.old.history }
{
    reader.read(list.len(), usize::MAX, list)
}

/// Reads until the list is closed. Whether each list that was seen went on from the one before, with no gap.
fn read_all<R: Wait>(
    rt: &R,
    alloc: Global,
    reader: &mut Reader,
) -> Result<(Vec<Change>, bool), OutOfMemory>
    ensures { reader.new.history ≡ reader.old.history }
{
    let mut list = Vec::new(alloc);
    let mut goes_on = true;
    for _ in rt.forever() {
        let before = list.len();
        if let Some(found) = read_on(reader, &mut list)? {
            goes_on = goes_on & (found.len == list.len()) & (before <= found.len);
            if found.close != Close::Open {
                return Ok((list, goes_on));
            }
        }
        thread::yield_now();
    }
    unreachable!()
}

/// What the reader had in the end, whether each list went on from the one before, and what it read once it had the last
/// note.
type Ended = (Vec<Change>, bool, Option<Seen>);

/// One thread writes and another reads. Then the reader learns the last note, and reads once more.
fn write_beside_a_reader<R: Threads + Wait + Sync>(
    rt: &R,
    alloc: Global,
    writer: &mut Writer,
    reader: &mut Reader,
    count: u64,
    at_once: u64,
) -> Result<Ended, OutOfMemory>
    requires history { reader.old.history ≡ writer.old.history }
    requires new { (writer.old.all.close ≡ Open) × (writer.old.concluded ≡ false) }
    requires some { 0 < at_once }
{
    let (wrote, read) = join_mut(
        rt,
        &mut || -> Result<(), OutOfMemory>
            requires { IsSync R.row × (writer.now.all.close ≡ Open) × (writer.now.concluded ≡ false) × (0 < at_once) }
            ensures { (writer.exit.now.concluded ≡ false) × (writer.exit.now.history ≡ writer.entry.now.history) }
        { write_all(rt, alloc, writer, count, at_once) },
        &mut || -> Result<(Vec<Change>, bool), OutOfMemory>
            requires { IsSync R.row }
            ensures { reader.exit.now.history ≡ reader.entry.now.history }
        { read_all(rt, alloc, reader) },
    );
    wrote?;
    let (mut list, goes_on) = read?;
    reader.learn(writer.last());
    let end = read_on(reader, &mut list)?;
    Ok((list, goes_on, end))
}

/// Whether the reader saw each of 10,000 changes once and in order, beside a writer that publishes so many at once.
fn sees_all<R: Threads + Wait + Sync>(
    rt: &R,
    alloc: Global,
    at_once: u64,
) -> Result<bool, OutOfMemory>
    requires { 0 < at_once }
{
    let (mut writer, mut reader) = new_history(alloc, rt)?;
    let found = write_beside_a_reader(rt, alloc, &mut writer, &mut reader, 10_000, at_once);
    writer.end(rt);
    let (list, goes_on, end) = found?;
    let whole = (list.len() == 10_000) & are_from(list.as_slice(), 0);
    Ok(whole & goes_on & (end == seen(10_000, 0, Close::Ended)))
}

#[test]
fn each_list_extends_the_one_before(rt: HostRuntime) -> Result<(), Fail> {
    for at_once in [1u64, 7, 1_000] {
        assert!(rt;
            sees_all(&rt, rt.alloc(), at_once.max(1))?,
            "{at_once} at once"
        );
    }
    Ok(())
}

/// A writer with the handle that ends it where it is dropped.
struct Held<R: Wait + Drop> {
    rt: R,
    writer: Writer,
}

impl<R: Wait + Drop> Drop for Held<R> {
    fn drop(self) {
        let Held { rt, writer } = self;
        writer.end(&rt);
    }
}

/// Adds one change and publishes it, and lets the writer go with it.
fn write_one_and_let_go<R: Wait + Drop>(alloc: Global, mut held: Held<R>) -> Result<(), OutOfMemory>
    requires { (held.writer.all.close ≡ Open) × (held.writer.concluded ≡ false) }
{
    held.writer.append(change(alloc, 1)?)?;
    held.writer.publish(&held.rt)?;
    Ok(())
}

// A read that begins after the writer's end is refused, and reads nothing.
#[test]
fn a_thread_may_let_its_writer_go(rt: HostRuntime) -> Result<(), Fail> {
    let alloc = rt.alloc();
    let (writer, mut reader) = new_history(alloc, &rt)?;
    let held = Held { rt, writer };
    let handle = thread::spawn(
        &rt,
        move || -> Result<(), OutOfMemory>
            requires { (held.writer.all.close ≡ Open) × (held.writer.concluded ≡ false) }
        { write_one_and_let_go(alloc, held) },
    )?;
    handle.join(&rt)?;
    let mut list = Vec::new(alloc);
    let found = reader.read(0, 10, &mut list)?;
    assert!(rt; found.is_none() && list.is_empty());
    Ok(())
}
