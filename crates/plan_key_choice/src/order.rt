ghost use Rattle.std.specs.Prelude.{◌≡◌, ◌<◌, ◌≤◌, ℕ, [], All, IfOk, OnOk, true, length, map};
ghost use Rattle.cedr_plan.specs.Drawn.{node_of};
ghost use Rattle.cedr_plan.specs.Rules.{AreNodes};
ghost use Rattle.plan_key_choice.specs.Partial.{is_among};

use crate::node::input_at;
use cedr_base::OutOfMemory;
use cedr_plan::PlanNode;
use std::alloc::Global;

/// The places of all nodes in the order in which columns are taken: the output first, and behind each node what it reads, port by
/// port with all that this reads. So a node's ports have their columns soon behind it, and what doesn't go together shows.
pub(crate) fn order(alloc: Global, nodes: &[PlanNode]) -> Result<Vec<usize>, OutOfMemory>
    requires { AreNodes [] (map node_of nodes.now) }
    ensures all { IfOk result (λ order. (place : ℕ) → place < length nodes.now → is_among order.items place ≡ true) }
    ensures inside { IfOk result (λ order. All (λ place. place < length nodes.now) order.items) }
{
    let mut order = Vec::with_capacity(alloc, nodes.len())?;
    for k in 0..nodes.len() {
        push_from(nodes, nodes.len() - 1 - k, &mut order)?;
    }
    Ok(order)
}

/// Appends the place of a node, and those of all that it reads, but for places that are there.
fn push_from(nodes: &[PlanNode], place: usize, order: &mut Vec<usize>) -> Result<(), OutOfMemory>
    requires nodes { AreNodes [] (map node_of nodes.now) }
    requires within { place < length nodes.now }
    requires inside { All (λ place. place < length nodes.now) order.old.items }
    ensures there { OnOk result (is_among order.new.items place ≡ true) }
    ensures more { (other : ℕ) → is_among order.old.items other ≡ true → is_among order.new.items other ≡ true }
    ensures inside { All (λ place. place < length nodes.now) order.new.items }
{
    if order.contains(&place) {
        return Ok(());
    }
    order.push(place)?;
    let mut port = 0;
    while let Some(input) = input_at(nodes, place, port) {
        push_from(nodes, input, order)?;
        port += 1;
    }
    Ok(())
}
