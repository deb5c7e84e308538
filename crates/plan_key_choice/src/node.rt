ghost use Rattle.std.specs.Prelude.{◌≡◌, ◌<◌, ◌≤◌, ℕ, List, [], IfOk, IfSome, true, false, length, map};
ghost use Rattle.std.specs.List.{slice_get};
ghost use Rattle.cedr_plan.specs.Drawn.{node_of};
ghost use Rattle.cedr_plan.specs.Rules.{AreNodes};
ghost use Rattle.plan_key_choice.specs.Choices.{AreInWidths, KeepsKeyAt, reads};
ghost use Rattle.plan_key_choice.specs.Partial.{AreAllChosen, TakeCandidates, HasChosen, IsSameChoice, chosen_columns};

use crate::keep::may_keep;
use crate::range::{chosen_at, ranged_ports};
use cedr_base::OutOfMemory;
use cedr_plan::PlanNode;
use std::alloc::Global;

/// Whether the node at a place may keep the key, where some columns are chosen: as far as its ports' ranges tell, and for sure
/// where all are.
pub(crate) fn may_keep_at(
    alloc: Global,
    nodes: &[PlanNode],
    choice: &[Option<usize>],
    place: usize,
) -> Result<bool, OutOfMemory>
    requires nodes { AreNodes [] (map node_of nodes.now) }
    requires count { length choice.now ≡ length nodes.now }
    requires within { place < length nodes.now }
    ensures none { IfOk result (λ may. may ≡ false → (columns : List ℕ) → HasChosen choice.now columns → AreInWidths columns nodes.now → KeepsKeyAt columns nodes.now place → ⊥) }
    ensures keeps { IfOk result (λ may. may ≡ true → AreAllChosen choice.now → AreInWidths (chosen_columns choice.now) nodes.now → KeepsKeyAt (chosen_columns choice.now) nodes.now place) }
{
    let node = &nodes[place];
    let Some(column) = chosen_at(choice, place) else {
        return Ok(true);
    };
    let ports = ranged_ports(alloc, &nodes[..place], choice, &node.inputs)?;
    may_keep(alloc, &node.kind, &ports, column)
}

/// Whether the node at a place may keep the key, where some columns are chosen, with some of the columns that its ports may
/// have. The ports are gone through one by one, from this one on, and what can't be is left out as soon as the ports before it
/// show that.
pub(crate) fn keeps_within(
    alloc: Global,
    nodes: &[PlanNode],
    candidates: &[Vec<usize>],
    choice: &mut [Option<usize>],
    place: usize,
    port: usize,
) -> Result<bool, OutOfMemory>
    requires nodes { AreNodes [] (map node_of nodes.now) }
    requires count { length choice.old ≡ length nodes.now }
    requires within { place < length nodes.now }
    requires known { place ≤ length candidates.now }
    ensures none { IfOk result (λ keeps. keeps ≡ false → (columns : List ℕ) → HasChosen choice.old columns → AreInWidths columns nodes.now → TakeCandidates candidates.now columns → KeepsKeyAt columns nodes.now place → ⊥) }
    ensures same { IfOk result (λ _. IsSameChoice choice.new choice.old) }
    ensures count { length choice.new ≡ length choice.old }
{
    if !may_keep_at(alloc, nodes, choice, place)? {
        return Ok(false);
    }
    let Some(input) = input_at(nodes, place, port) else {
        return Ok(true);
    };
    if let Some(_) = chosen_at(choice, input) {
        return keeps_within(alloc, nodes, candidates, choice, place, port + 1);
    }
    for column in &candidates[input] {
        choice[input] = Some(*column);
        let keeps = keeps_within(alloc, nodes, candidates, choice, place, port + 1)?;
        choice[input] = None;
        if keeps {
            return Ok(true);
        }
    }
    Ok(false)
}

/// The place of what the node at a place reads on a port.
pub(crate) fn input_at(nodes: &[PlanNode], place: usize, port: usize) -> Option<usize>
    requires nodes { AreNodes [] (map node_of nodes.now) }
    requires within { place < length nodes.now }
    ensures before { IfSome result (λ input. input < place) }
    ensures few { IfSome result (λ input. port < 4) }
{
    get_input(&nodes[place].inputs, port)
}

fn get_input(inputs: &[usize], port: usize) -> Option<usize>
    ensures { result ≡ slice_get inputs.now port }
{
    inputs.get(port).copied()
}

/// Whether a node reads the one at a place.
pub(crate) fn reads(node: &PlanNode, place: usize) -> bool
    ensures { result ≡ reads place node.now }
{
    node.inputs.iter().any(|input| *input == place)
}
