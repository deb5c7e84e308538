ghost use Rattle.std.specs.Prelude.{◌≡◌, ◌<◌, ℕ, List, [], IfOk, IfSome, true, length, map};
ghost use Rattle.cedr_plan.specs.Drawn.{node_of};
ghost use Rattle.cedr_plan.specs.Rules.{AreNodes};
ghost use Rattle.plan_keys.specs.Keys.{column_at};
ghost use Rattle.plan_key_choice.specs.Choices.{AreInWidths, KeepsKeyAt};
ghost use Rattle.plan_key_choice.specs.Partial.{TakeCandidates, AreCandidates, AreUnchosen, IsBarren, IsSameChoice, is_among};

use crate::node::keeps_within;
use crate::range::width_at;
use cedr_base::OutOfMemory;
use cedr_plan::PlanNode;
use std::alloc::Global;

/// The columns that each node may have, by its place, as far as it and those before it tell: some columns that its ports may
/// have go with each.
pub(crate) fn candidates(
    alloc: Global,
    nodes: &[PlanNode],
    choice: &mut [Option<usize>],
) -> Result<Vec<Vec<usize>>, OutOfMemory>
    requires nodes { AreNodes [] (map node_of nodes.now) }
    requires count { length choice.old ≡ length nodes.now }
    requires unchosen { AreUnchosen choice.old }
    ensures known { IfOk result (λ candidates. AreCandidates candidates.items nodes.now) }
    ensures many { IfOk result (λ candidates. length candidates.items ≡ length nodes.now) }
    ensures same { IfOk result (λ _. IsSameChoice choice.new choice.old) }
    ensures count { length choice.new ≡ length choice.old }
{
    let mut candidates = Vec::with_capacity(alloc, nodes.len())?;
    for place in 0..nodes.len() {
        let own = candidates_of(alloc, nodes, &candidates, choice, place)?;
        candidates.push(own)?;
    }
    Ok(candidates)
}

/// The first node that may have no column.
pub(crate) fn barren(candidates: &[Vec<usize>]) -> Option<usize>
    ensures { IfSome result (IsBarren candidates.now) }
{
    for place in 0..candidates.len() {
        if candidates[place].is_empty() {
            return Some(place);
        }
    }
    None
}

/// The columns that the node at a place may have, in order, behind those that the nodes before it may have.
fn candidates_of(
    alloc: Global,
    nodes: &[PlanNode],
    candidates: &[Vec<usize>],
    choice: &mut [Option<usize>],
    place: usize,
) -> Result<Vec<usize>, OutOfMemory>
    requires nodes { AreNodes [] (map node_of nodes.now) }
    requires count { length choice.old ≡ length nodes.now }
    requires unchosen { AreUnchosen choice.old }
    requires within { place < length nodes.now }
    requires known { length candidates.now ≡ place }
    ensures all { IfOk result (λ own. (columns : List ℕ) → AreInWidths columns nodes.now → TakeCandidates candidates.now columns → KeepsKeyAt columns nodes.now place → is_among own.items (column_at columns place) ≡ true) }
    ensures same { IfOk result (λ _. IsSameChoice choice.new choice.old) }
    ensures count { length choice.new ≡ length choice.old }
{
    let mut own = Vec::new(alloc);
    for column in 0..width_at(nodes, place).max(1) {
        choice[place] = Some(column);
        let keeps = keeps_within(alloc, nodes, candidates, choice, place, 0)?;
        choice[place] = None;
        if keeps {
            own.push(column)?;
        }
    }
    Ok(own)
}
