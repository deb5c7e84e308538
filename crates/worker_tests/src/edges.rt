//! Edges, of which each end is used by a thread of its own, or both by one.
ghost use Rattle.std.specs.Prelude.{◌≡◌, true, false, ◌<◌, [], ◌^◌};
ghost use Rattle.cedr_base.specs.Messages.{IsLegal};
ghost use Rattle.node_laws.specs.Lawful.{is_over};

use cedr_base::{Message, OutOfMemory};
use cedr_edge::{EdgeIn, EdgeOut, EdgeRecord, Full, close_edge, new_edge};
use std::alloc::Global;
use std::sync::Wait;
use std::test::Fail;
use std::thread;
use std::thread::{Threads, join};

#[test]
fn an_edge_for_one_message(rt: HostRuntime) -> Result<(), Fail> {
    let (mut outgoing, mut incoming) = new_edge(rt.alloc(), 1)?;
    let Ok(()) = outgoing.put(&rt, Message::Mark(1)) else {
        return Err(Fail::new("there is room for the first message"));
    };
    let Err(
        Full {
            message: Message::Mark(2),
        },
    ) = outgoing.put(&rt, Message::Mark(2))
    else {
        return Err(Fail::new("the second message is handed back"));
    };
    let Some(Message::Mark(1)) = incoming.take(&rt) else {
        return Err(Fail::new("the first message is taken first"));
    };
    let None = incoming.take(&rt) else {
        return Err(Fail::new("the message that was handed back isn't on the edge"));
    };
    let Ok(()) = outgoing.put(&rt, Message::End) else {
        return Err(Fail::new("there is room again"));
    };
    let Some(Message::End) = incoming.take(&rt) else {
        return Err(Fail::new("the end is taken last"));
    };
    assert!(rt; outgoing.is_over() && incoming.is_over());
    assert!(rt; outgoing.count() == 2 && incoming.count() == 2);
    assert!(rt; close_edge(outgoing, incoming).count() == 2);
    Ok(())
}

/// Sends the marks up to a number, and the end.
fn send_marks<R: Wait>(rt: &R, mut out: EdgeOut, count: u64) -> EdgeOut
    requires { (out.sent ≡ []) × (count < 2 ^ 62) }
    ensures { result.edge ≡ out.edge }
{
    let mut next = 0;
    for _ in rt.forever() {
        if next >= count {
            break;
        }
        match out.put(rt, Message::Mark(next + 1)) {
            Ok(()) => next += 1,
            Err(_) => {
                thread::yield_now();
                continue;
            }
        }
    }
    send_end(rt, out)
}

/// Sends the end.
fn send_end<R: Wait>(rt: &R, mut out: EdgeOut) -> EdgeOut
    requires open { is_over out.sent ≡ false }
    requires legal { IsLegal out.sent }
    ensures { result.edge ≡ out.edge }
{
    for _ in rt.forever() {
        match out.put(rt, Message::End) {
            Ok(()) => return out,
            Err(_) => thread::yield_now(),
        }
    }
    unreachable!()
}

/// Takes all messages up to the end. Says whether they are the marks, each once and in order.
fn take_all<R: Wait>(rt: &R, mut from: EdgeIn) -> (EdgeIn, bool)
    ensures edge { result.0.edge ≡ from.edge }
    ensures over { is_over result.0.taken ≡ true }
{
    let mut last = 0;
    let mut in_order = true;
    for _ in rt.forever() {
        match from.take(rt) {
            Some(Message::End) => return (from, in_order),
            Some(Message::Mark(t)) => {
                in_order = in_order & (t.saturating_sub(last) == 1);
                last = t;
            }
            Some(_) => in_order = false,
            None => thread::yield_now(),
        }
    }
    unreachable!()
}

/// Sends the marks from one thread to another. Says also whether they came as they were sent.
fn carry<R: Threads + Wait + Sync>(
    rt: &R,
    alloc: Global,
    capacity: usize,
    count: u64,
) -> Result<(EdgeRecord, bool), OutOfMemory>
    requires { (0 < capacity) × (capacity < 1025) × (count < 2 ^ 62) }
{
    let (out, from) = new_edge(alloc, capacity)?;
    let (out, (from, in_order)) = join(
        rt,
        move || -> EdgeOut
            requires { (out.sent ≡ []) × (count < 2 ^ 62) }
            ensures { result.edge ≡ out.edge }
        { send_marks(rt, out, count) },
        move || -> (EdgeIn, bool)
            ensures { (result.0.edge ≡ from.edge) × (is_over result.0.taken ≡ true) }
        { take_all(rt, from) },
    );
    Ok((close_edge(out, from), in_order))
}

#[test]
fn ten_thousand_over_the_narrowest_and_the_widest_edge(rt: HostRuntime) -> Result<(), Fail> {
    for capacity in [1usize, 1024] {
        let (record, in_order) = carry(&rt, rt.alloc(), capacity.clamp(1, 1024), 10_000)?;
        assert!(rt; in_order && record.count() == 10_001);
    }
    Ok(())
}
