ghost use Rattle.std.specs.Prelude.{◌≡◌, ◌<◌, ◌≤◌, ◌+◌, ◌++◌, ◌∷◌, ℕ, List, [], true, IfSome, IfNone, length, map};
ghost use Rattle.std.specs.List.{All};
ghost use Rattle.std.specs.Vec.{vec_capacity};
ghost use Rattle.cedr_plan.specs.Rules.{IsPlan};
ghost use Rattle.cedr_edge.specs.Ends.{InEnd};
ghost use Rattle.node_laws.specs.Lawful.{is_over};
ghost use Rattle.plan_edges.specs.Wires.{AreClosed, AreLeft, AreOver, AreWithin, AreWired, IsNextEnd, PortClosed, SomeClosed, all_ends, froms, node_ports};

use crate::ends::{Putters, Takers};
use cedr_edge::{EdgeIn, EdgeRecord, close_edge};
use cedr_plan::{Plan, PlanNode};

/// Closes the edge of a port, which comes from the node at a place.
fn close_port(from: usize, end: EdgeIn, putters: &mut Vec<Putters>, records: &mut Vec<EdgeRecord>)
    requires within { from < length putters.old.items }
    requires next { IsNextEnd from end putters.old.items }
    requires over { is_over end.taken ≡ true }
    requires room { length records.old.items < vec_capacity records.old }
    ensures closed { PortClosed from end putters.old.items putters.new.items records.old.items records.new.items }
    ensures room { vec_capacity records.new ≡ vec_capacity records.old }
{
    let Some(outgoing) = putters[from].take_first() else {
        unreachable!()
    };
    records.push_reserved(close_edge(outgoing, end));
}

/// Closes the edges of some ports of a node, which come from the nodes at these places. It goes as deep as there are ports.
fn close_ports(
    inputs: &[usize],
    mut ends: Takers,
    putters: &mut Vec<Putters>,
    records: &mut Vec<EdgeRecord>,
)
    requires ports { length ends ≡ length inputs.now }
    requires within { AreWithin (length putters.old.items) inputs.now }
    requires left { (fs : List ℕ) × (es : List InEnd) × AreLeft (inputs.now ++ fs) (ends ++ es) putters.old.items }
    requires over { All (λ (e : InEnd). is_over e.taken ≡ true) ends }
    requires room { length records.old.items + length inputs.now ≤ vec_capacity records.old }
    ensures closed { SomeClosed inputs.now ends putters.old.items putters.new.items records.old.items records.new.items }
    ensures left { (fs : List ℕ) (es : List InEnd) → AreLeft (inputs.now ++ fs) (ends ++ es) putters.old.items → AreLeft fs es putters.new.items }
    ensures room { vec_capacity records.new ≡ vec_capacity records.old }
{
    let Some((from, others)) = inputs.split_first() else {
        return;
    };
    let Some(end) = ends.take_first() else {
        unreachable!()
    };
    close_port(*from, end, putters, records);
    close_ports(others, ends, putters, records);
}

/// Takes the ends of the first node out, where there is one.
fn take_node(takers: &mut Vec<Takers>) -> Option<Takers>
    ensures some { IfSome result (λ ends. takers.old.items ≡ ends ∷ takers.new.items) }
    ensures none { IfNone result (takers.old.items ≡ []) }
{
    if takers.is_empty() {
        None
    } else {
        Some(takers.remove(0))
    }
}

/// Closes the edges of all ports of some nodes. It goes as deep as there are nodes.
fn close_nodes(
    nodes: &[PlanNode],
    mut takers: Vec<Takers>,
    putters: &mut Vec<Putters>,
    records: &mut Vec<EdgeRecord>,
)
    requires ports { map length takers.items ≡ map node_ports nodes.now }
    requires within { AreWithin (length putters.old.items) (froms nodes.now) }
    requires left { AreLeft (froms nodes.now) (all_ends takers.items) putters.old.items }
    requires over { AreOver takers.items }
    requires room { length records.old.items + length (froms nodes.now) ≤ vec_capacity records.old }
    ensures { SomeClosed (froms nodes.now) (all_ends takers.items) putters.old.items putters.new.items records.old.items records.new.items }
{
    let Some((node, others)) = nodes.split_first() else {
        return;
    };
    let Some(ends) = take_node(&mut takers) else {
        unreachable!()
    };
    close_ports(node.inputs.as_slice(), ends, putters, records);
    close_nodes(others, takers, putters, records);
}

/// Closes all edges of a plan. Each end that takes was taken from until its list was over. It takes no memory where
/// there is room for the records, as `new_wires` makes it.
pub fn close_wires(
    plan: &Plan,
    takers: Vec<Takers>,
    putters: Vec<Putters>,
    records: Vec<EdgeRecord>,
) -> Vec<EdgeRecord>
    requires plan { IsPlan plan.now }
    requires wired { AreWired plan.now.nodes.items takers.items putters.items }
    requires over { AreOver takers.items }
    requires records { (records.items ≡ []) × (length (froms plan.now.nodes.items) ≤ vec_capacity records) }
    ensures { AreClosed plan.now.nodes.items takers.items putters.items result.items }
{
    let mut putters = putters;
    let mut records = records;
    close_nodes(plan.nodes.as_slice(), takers, &mut putters, &mut records);
    records
}
