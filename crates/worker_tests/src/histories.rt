//! Histories whose two ends one thread has.
ghost use Rattle.std.specs.Prelude.{◌≡◌, false, true, OnOk};
ghost use Rattle.cedr_history.specs.declared.close.Close.TheVariants.{Open};

use cedr_base::{Change, Field, OutOfMemory, Payload, Row, Text, Time};
use cedr_history::{Close, Reader, Seen, Writer, new_history};
use std::alloc::Global;
use std::sync::Wait;
use std::test::Fail;

/// The addition of a row that lives from a time to the next one.
pub(crate) fn change(alloc: Global, begin: Time) -> Result<Change, OutOfMemory> {
    let mut payload = Payload::new(alloc);
    payload.push(Field::Bytes(Text::from_slice(alloc, b"a")?))?;
    Ok(Change::Add(Row {
        end: begin.saturating_add(1),
        begin,
        payload,
    }))
}

/// Whether the changes are those of the times from a first one on.
pub(crate) fn are_from(changes: &[Change], first: Time) -> bool {
    let mut next = first;
    for change in changes {
        if change.sync() != next {
            return false;
        }
        next = next.saturating_add(1);
    }
    true
}

pub(crate) fn seen(len: usize, mark: Time, close: Close) -> Option<Seen> {
    Some(Seen { len, mark, close })
}

/// What a test does, and what it wants to see.
#[derive(Clone, Copy)]
enum Act {
    /// The change of a time is added.
    Add(Time),
    /// The mark is raised.
    Mark(Time),
    Close(Close),
    /// What is pending is published, and nobody tells the reader.
    Publish,
    /// The same, and the reader learns the note.
    Tell,
    /// The reader reads.
    Read(Wanted),
}

/// A read, and what it is to see.
#[derive(Clone, Copy)]
struct Wanted {
    /// The place of the first change that is asked for.
    from: usize,
    /// How many changes are asked for at most.
    max: usize,
    /// How many changes, which mark and which close the list has.
    list: (usize, Time, Close),
    /// The time of the first change that is read, and how many these are.
    read: (Time, usize),
}

/// The two ends of a history, with what is pending.
struct Made {
    writer: Writer,
    reader: Reader,
    /// It may be added to.
    going: bool,
    mark: Time,
}

/// Reads, and says whether what is wanted was seen.
fn look(alloc: Global, reader: &mut Reader, wanted: Wanted) -> Result<bool, OutOfMemory>
    ensures { reader.new.history ≡ reader.old.history }
{
    let mut list = Vec::new(alloc);
    let found = reader.read(wanted.from, wanted.max, &mut list)?;
    let (len, mark, close) = wanted.list;
    let (first, count) = wanted.read;
    Ok(found == seen(len, mark, close) && list.len() == count && are_from(list.as_slice(), first))
}

/// Does an act, and says whether it may be done and what it wants was seen.
fn perform<R: Wait>(rt: &R, alloc: Global, made: &mut Made, act: Act) -> Result<bool, OutOfMemory>
    requires history { made.old.reader.history ≡ made.old.writer.history }
    requires unconcluded { made.old.writer.concluded ≡ false }
    requires open { made.old.going ≡ true → made.old.writer.all.close ≡ Open }
    requires mark { made.old.writer.all.mark ≡ made.old.mark }
    ensures history { OnOk result (made.new.reader.history ≡ made.new.writer.history) }
    ensures unconcluded { OnOk result (made.new.writer.concluded ≡ false) }
    ensures open { OnOk result (made.new.going ≡ true → made.new.writer.all.close ≡ Open) }
    ensures mark { OnOk result (made.new.writer.all.mark ≡ made.new.mark) }
{
    match act {
        Act::Add(time) if made.going => made.writer.append(change(alloc, time)?)?,
        Act::Mark(time) if made.going && made.mark <= time => {
            made.writer.mark(time)?;
            made.mark = time;
        }
        Act::Close(how) if made.going => {
            made.writer.close(how)?;
            made.going = false;
        }
        Act::Publish => {
            made.writer.publish(rt)?;
        }
        Act::Tell => {
            let note = made.writer.publish(rt)?;
            made.reader.learn(note);
        }
        Act::Read(wanted) => return look(alloc, &mut made.reader, wanted),
        _ => return Ok(false),
    }
    Ok(true)
}

/// Does acts one after the other. The first that didn't see what it wants.
fn play<R: Wait>(
    rt: &R,
    alloc: Global,
    made: &mut Made,
    acts: &[Act],
) -> Result<Option<usize>, OutOfMemory>
    requires history { made.old.reader.history ≡ made.old.writer.history }
    requires unconcluded { made.old.writer.concluded ≡ false }
    requires open { made.old.going ≡ true → made.old.writer.all.close ≡ Open }
    requires mark { made.old.writer.all.mark ≡ made.old.mark }
{
    for i in 0..acts.len() {
        if !perform(rt, alloc, made, acts[i])? {
            return Ok(Some(i));
        }
    }
    Ok(None)
}

/// Does acts with a new history. The first that didn't see what it wants.
fn played<R: Wait>(rt: &R, alloc: Global, acts: &[Act]) -> Result<Option<usize>, OutOfMemory> {
    let (writer, reader) = new_history(alloc, rt)?;
    let mut made = Made {
        writer,
        reader,
        going: true,
        mark: 0,
    };
    let unseen = play(rt, alloc, &mut made, acts);
    let Made {
        writer,
        reader: _reader,
        going: _,
        mark: _,
    } = made;
    writer.end(rt);
    unseen
}

/// A reader sees what is published, also where nobody told it.
const PUBLISHED: [Act; 7] = [
    Act::Add(1),
    Act::Publish,
    Act::Read(Wanted {
        from: 0,
        max: 10,
        list: (1, 0, Close::Open),
        read: (1, 1),
    }),
    Act::Mark(5),
    Act::Close(Close::Ended),
    Act::Tell,
    Act::Read(Wanted {
        from: 1,
        max: 10,
        list: (1, 5, Close::Ended),
        read: (0, 0),
    }),
];

/// A reader may read near the end alone.
const NEAR_THE_END: [Act; 7] = [
    Act::Add(0),
    Act::Add(1),
    Act::Add(2),
    Act::Add(3),
    Act::Close(Close::Ended),
    Act::Tell,
    Act::Read(Wanted {
        from: 1,
        max: 2,
        list: (4, 0, Close::Ended),
        read: (1, 2),
    }),
];

/// A list of one change that is closed so, of which no change is asked for.
const fn closed(how: Close) -> [Act; 4] {
    [
        Act::Add(1),
        Act::Close(how),
        Act::Publish,
        Act::Read(Wanted {
            from: 0,
            max: 0,
            list: (1, 0, how),
            read: (0, 0),
        }),
    ]
}

#[test]
fn a_reader_sees_what_is_published(rt: HostRuntime) -> Result<(), Fail> {
    for acts in [
        PUBLISHED.as_slice(),
        &NEAR_THE_END,
        &closed(Close::Open),
        &closed(Close::Ended),
        &closed(Close::Broken),
    ] {
        assert_eq!(rt; played(&rt, rt.alloc(), acts)?, None);
    }
    Ok(())
}
