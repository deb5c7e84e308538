ghost use Rattle.std.specs.Prelude.{◌≡◌, ◌<◌, ◌≤◌, ◌++◌, ◌∷◌, [], length, replicate, IfOk, IfSome, OnOk};
ghost use Rattle.std.specs.Vec.{vec_capacity};
ghost use Rattle.cedr_plan.specs.Rules.{IsPlan};
ghost use Rattle.plan_edges.specs.Wires.{AreWired, AreNew, AreWithin, PortWired, PortsWired, NodesWired, froms};

use crate::ends::{Putters, Takers};
use cedr_base::OutOfMemory;
use cedr_edge::{EdgeIn, EdgeRecord, new_edge};
use cedr_plan::{Plan, PlanNode};
use std::alloc::Global;

/// The ends of all edges of a plan, and room for the record of each once it is closed.
#[derive(Drop)]
pub struct Wires {
    /// By node.
    pub takers: Vec<Takers>,
    /// By node.
    pub putters: Vec<Putters>,
    pub records: Vec<EdgeRecord>,
}

/// Makes an edge from the node at a place.
fn wire_port(
    alloc: Global,
    room: usize,
    from: usize,
    ends: &mut Vec<EdgeIn>,
    putters: &mut Vec<Putters>,
) -> Result<(), OutOfMemory>
    requires room { (1 ≤ room) × (room ≤ 1024) }
    requires from { from < length putters.old.items }
    ensures { OnOk result (PortWired room from ends.old.items ends.new.items putters.old.items putters.new.items) }
{
    let (outgoing, incoming) = new_edge(alloc, room)?;
    ends.push(incoming)?;
    putters[from].push(outgoing)
}

/// Makes the edges of some ports, from the nodes that these read.
fn wire_ports(
    alloc: Global,
    room: usize,
    inputs: &[usize],
    putters: &mut Vec<Putters>,
) -> Result<Takers, OutOfMemory>
    requires room { (1 ≤ room) × (room ≤ 1024) }
    requires within { AreWithin (length putters.old.items) inputs.now }
    ensures wired { IfOk result (λ ends. PortsWired room inputs.now ends putters.old.items putters.new.items) }
    ensures nodes { OnOk result (length putters.new.items ≡ length putters.old.items) }
{
    let mut ends = Vec::new(alloc);
    for from in inputs {
        wire_port(alloc, room, *from, &mut ends, putters)?;
    }
    Ok(Takers::from_vec(ends))
}

/// Makes the edges of all ports of some nodes.
fn wire_nodes(
    alloc: Global,
    room: usize,
    nodes: &[PlanNode],
    putters: &mut Vec<Putters>,
) -> Result<Vec<Takers>, OutOfMemory>
    requires room { (1 ≤ room) × (room ≤ 1024) }
    requires within { AreWithin (length putters.old.items) (froms nodes.now) }
    ensures { IfOk result (λ takers. NodesWired room nodes.now takers.items putters.old.items putters.new.items) }
{
    let mut takers = Vec::new(alloc);
    for node in nodes {
        let ends = wire_ports(alloc, room, node.inputs.as_slice(), putters)?;
        takers.push(ends)?;
    }
    Ok(takers)
}

/// No end that puts, for each of so many nodes.
fn no_putters(alloc: Global, count: usize) -> Result<Vec<Putters>, OutOfMemory>
    ensures { IfOk result (λ putters. putters.items ≡ replicate count []) }
{
    let mut putters = Vec::new(alloc);
    for _ in 0..count {
        putters.push(Putters::from_vec(Vec::new(alloc)))?;
    }
    Ok(putters)
}

/// How many edges a plan has.
fn count_edges(nodes: &[PlanNode]) -> Option<usize>
    ensures { IfSome result (λ count. count ≡ length (froms nodes.now)) }
{
    let mut count = 0usize;
    for node in nodes {
        count = count.checked_add(node.inputs.len())?;
    }
    Some(count)
}

/// Makes the edges of a plan, each with the room that the plan says. All memory that closing them needs is taken here.
pub fn new_wires(alloc: Global, plan: &Plan) -> Result<Wires, OutOfMemory>
    requires { IsPlan plan.now }
    ensures wired { IfOk result (λ wires. AreWired plan.now.nodes.items wires.takers.items wires.putters.items) }
    ensures new { IfOk result (λ wires. AreNew plan.now.edge wires.takers.items wires.putters.items) }
    ensures records { IfOk result (λ wires. (wires.records.items ≡ []) × (length (froms plan.now.nodes.items) ≤ vec_capacity wires.records)) }
{
    let nodes = plan.nodes.as_slice();
    let Some(count) = count_edges(nodes) else {
        return Err(OutOfMemory);
    };
    let records = Vec::with_capacity(alloc, count)?;
    let mut putters = no_putters(alloc, nodes.len())?;
    let takers = wire_nodes(alloc, plan.edge, nodes, &mut putters)?;
    Ok(Wires {
        takers,
        putters,
        records,
    })
}
