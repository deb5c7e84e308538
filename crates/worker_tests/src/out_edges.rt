//! The out edges of a worker, of which one is narrow.
use crate::feeding::says;
use cedr_base::{Message, OutOfMemory};
use cedr_edge::{EdgeIn, new_edge};
use std::alloc::Global;
use std::sync::Wait;
use std::test::Fail;
use test_feeding::Brief;
use worker_outlets::{Last, Outlets};

/// What the test does, and what it wants to see.
#[derive(Clone, Copy)]
enum Act {
    /// A round of puts says whether something was put, and whether something is pending still.
    Puts(bool, bool),
    /// So many messages were sent over both edges.
    Sent(u64),
    /// Whether each edge has its end.
    Over(bool),
    /// What comes next over the edge for one message.
    Narrow(Option<Brief>),
    /// What comes next over the edge for 64 messages.
    Wide(Option<Brief>),
}

/// Two marks and the end are meant for both edges. The narrow one is full after one message, and the wide one goes on.
const PACES: [Act; 20] = [
    Act::Puts(true, true),
    Act::Sent(2),
    Act::Puts(true, true),
    Act::Puts(true, true),
    Act::Sent(4),
    Act::Puts(false, true),
    Act::Over(false),
    Act::Wide(Some(Brief::Mark(1))),
    Act::Wide(Some(Brief::Mark(2))),
    Act::Wide(Some(Brief::End)),
    Act::Narrow(Some(Brief::Mark(1))),
    Act::Narrow(None),
    Act::Puts(true, true),
    Act::Narrow(Some(Brief::Mark(2))),
    Act::Puts(true, false),
    Act::Narrow(Some(Brief::End)),
    Act::Over(true),
    Act::Sent(6),
    Act::Narrow(None),
    Act::Wide(None),
];

/// Both out edges, and their other ends.
#[derive(Drop)]
struct OutEdges {
    outlets: Outlets,
    narrow: EdgeIn,
    wide: EdgeIn,
}

/// A narrow edge and a wide one, on each of which two marks and the end are pending.
fn make_out_edges(alloc: Global) -> Result<OutEdges, OutOfMemory> {
    let (first, narrow) = new_edge(alloc, 1)?;
    let (second, wide) = new_edge(alloc, 64)?;
    let edges = vec![in alloc; first, second]?;
    let mut outlets = Outlets::new(alloc, edges)?;
    let mut piece = vec![in alloc; Message::Mark(1), Message::Mark(2)]?;
    outlets.stage_all(alloc, &mut piece)?;
    outlets.commit();
    outlets.close(Last::End);
    Ok(OutEdges {
        outlets,
        narrow,
        wide,
    })
}

/// Does an act, and says whether what it wants was seen.
fn perform<R: Wait>(rt: &R, made: &mut OutEdges, act: Act) -> bool {
    match act {
        Act::Puts(moved, pending) => {
            let puts = made.outlets.put_each(rt);
            puts.moved == moved && puts.pending == pending
        }
        Act::Sent(count) => made.outlets.sent_count() == count,
        Act::Over(over) => made.outlets.all_over() == over,
        Act::Narrow(next) => says(rt, &mut made.narrow, next),
        Act::Wide(next) => says(rt, &mut made.wide, next),
    }
}

#[test]
fn each_edge_has_all_messages_at_its_own_pace(rt: HostRuntime) -> Result<(), Fail> {
    let mut made = make_out_edges(rt.alloc())?;
    for i in 0..PACES.len() {
        assert!(rt; perform(&rt, &mut made, PACES[i]), "act {i}");
    }
    assert!(rt; made.outlets.into_edges().len() == 2);
    Ok(())
}
