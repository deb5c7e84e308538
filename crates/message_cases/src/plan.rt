ghost use Rattle.std.specs.Prelude.{◌<◌, IfOk, IfSome, length};
ghost use Rattle.cedr_plan.specs.Rules.{IsPlan};

use anyhow::Result;
use cedr_plan::{Plan, PlanNode, read_plan};
use std::alloc::Global;

/// The plan that a text describes.
pub(crate) fn plan_of(alloc: Global, text: &str) -> Result<Plan>
    ensures { IfOk result IsPlan }
{
    Ok(read_plan(alloc, text.as_bytes())?)
}

/// The place of the node of this name.
pub(crate) fn find_node(nodes: &[PlanNode], name: &str) -> Option<usize>
    ensures { IfSome result (λ place. place < length nodes.now) }
{
    for place in 0..nodes.len() {
        if nodes[place].name.bytes() == name.as_bytes() {
            return Some(place);
        }
    }
    None
}
