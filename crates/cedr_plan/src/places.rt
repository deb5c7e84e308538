ghost use Rattle.std.specs.Prelude.{◌≡◌, ◌<◌, length};
ghost use Rattle.cedr_plan.specs.Places.{is_output, is_source, output_place, source_count};

use crate::plan::{NodeKind, PlanNode};

/// Whether a node's rows come from outside, so that it has no operator.
pub fn is_source(kind: &NodeKind) -> bool
    ensures { result ≡ is_source kind.now }
{
    matches!(kind, NodeKind::Source { .. })
}

/// Whether a node's rows are the plan's answer.
pub fn is_output(kind: &NodeKind) -> bool
    ensures { result ≡ is_output kind.now }
{
    matches!(kind, NodeKind::Output)
}

/// How many of the nodes are sources. O(n).
pub fn count_sources(nodes: &[PlanNode]) -> usize
    ensures { result ≡ source_count nodes.now }
{
    let mut count = 0;
    for node in nodes {
        if is_source(&node.kind) {
            count += 1;
        }
    }
    count
}

/// Where the output stands among the nodes of a plan, which have one. It takes no memory. O(n).
pub fn find_output(nodes: &[PlanNode]) -> usize
    ensures place { result ≡ output_place nodes.now }
    ensures within { 0 < length nodes.now → result < length nodes.now }
{
    for place in 0..nodes.len() {
        if is_output(&nodes[place].kind) {
            return place;
        }
    }
    0
}
