//! The edges of a plan.
use cedr_base::Message;
use cedr_edge::{EdgeIn, EdgeOut};
use cedr_plan::read_plan;
use plan_edges::{Wires, new_wires};
use std::sync::Wait;
use std::test::Fail;

const PLAN: &str = r#"{"version":1,"edge":2,"nodes":[
 {"name":"s","op":"source","file":"s.csv","fields":["text"]},
 {"name":"w","op":"window","from":["s"],"width":4},
 {"name":"j","op":"join","from":["w","s"],"where":[]},
 {"name":"out","op":"output","from":["j"]}]}"#;

/// The element at a place, out of the list.
fn at<X: Drop>(list: Vec<X>, place: usize) -> Option<X> {
    let mut list = list;
    if place < list.len() {
        Some(list.remove(place))
    } else {
        None
    }
}

/// Whether a mark that is put on one end is taken from the other.
fn carries<R: Wait>(rt: &R, mut out: EdgeOut, mut from: EdgeIn) -> bool {
    if out.count() > 0 || out.put(rt, Message::Mark(7)).is_err() {
        return false;
    }
    matches!(from.take(rt), Some(Message::Mark(7)))
}

// The second edge of the source ends at the second port of the join.
#[test]
fn the_second_edge_of_a_source_ends_at_the_second_port(rt: HostRuntime) -> Result<(), Fail> {
    let plan = read_plan(rt.alloc(), PLAN.as_bytes())?;
    let Wires {
        takers,
        putters,
        records: _,
    } = new_wires(rt.alloc(), &plan)?;
    let (Some(outs), Some(ins)) = (at(putters, 0), at(takers, 2)) else {
        return Err(Fail::new("there are as many nodes as the plan has"));
    };
    let (Some(out), Some(from)) = (at(outs.into_vec(), 1), at(ins.into_vec(), 1)) else {
        return Err(Fail::new("a source with two readers has two edges, and a join two ports"));
    };
    assert!(rt; carries(&rt, out, from));
    Ok(())
}
