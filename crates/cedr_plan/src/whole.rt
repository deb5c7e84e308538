ghost use Rattle.std.specs.Prelude.{◌≡◌, ◌+◌, ◌^◌, ◌<◌, ◌==◌, length, map, if◌then◌else◌};
ghost use Rattle.std.specs.List.{list_any, slice_get};
ghost use Rattle.cedr_plan.specs.Drawn.{node_of};
ghost use Rattle.cedr_plan.specs.Plans.{excess_output, outputs_from};
ghost use Rattle.cedr_plan.specs.Rules.{first_unused, is_read};

use crate::places::is_output;
use crate::plan::PlanNode;

/// The number of the second output, or 0 where there is none, if there isn't exactly one. The first of these
/// nodes has the number `number`, and before them stands an output where `found`.
pub(crate) fn find_excess_output(found: bool, number: usize, nodes: &[PlanNode]) -> Option<usize>
    requires { number + length nodes.now < 2 ^ 64 }
    ensures { result ≡ (if found then slice_get (outputs_from number (map node_of nodes.now)) 0 else excess_output (outputs_from number (map node_of nodes.now))) }
{
    match nodes {
        [] => if found { None } else { Some(0) },
        [node, rest @ ..] => if !is_output(&node.kind) {
            find_excess_output(found, number + 1, rest)
        } else if found {
            Some(number)
        } else {
            find_excess_output(true, number + 1, rest)
        },
    }
}

/// The number, from 1, of the first of these nodes that is no output and that no later one reads. The first
/// of them stands at this place in the plan.
pub(crate) fn find_unused(place: usize, nodes: &[PlanNode]) -> Option<usize>
    requires { place + length nodes.now < 2 ^ 64 }
    ensures { result ≡ first_unused place (map node_of nodes.now) }
{
    match nodes {
        [] => None,
        [node, rest @ ..] => if is_output(&node.kind) || is_read(place, rest) {
            find_unused(place + 1, rest)
        } else {
            Some(place + 1)
        },
    }
}

fn is_read(place: usize, nodes: &[PlanNode]) -> bool
    ensures { result ≡ is_read place (map node_of nodes.now) }
{
    match nodes {
        [] => false,
        [node, rest @ ..] => reads(node, place) || is_read(place, rest),
    }
}

fn reads(node: &PlanNode, place: usize) -> bool
    ensures { result ≡ list_any (λ input. input == place) node.now.inputs.items }
{
    node.inputs.iter().any(|input| *input == place)
}
