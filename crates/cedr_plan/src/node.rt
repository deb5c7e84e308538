ghost use Rattle.std.specs.Prelude.{◌≡◌, IfOk, OnOk, IfErr, None, map, codes};
ghost use Rattle.std.specs.List.{list_any};
ghost use Rattle.serde_json.specs.View.{view};
ghost use Rattle.cedr_plan.specs.Drawn.{node_of};
ghost use Rattle.cedr_plan.specs.Nodes.{text_at, types_of, inputs_at, ports_at, first_port, all_ports, counted_ports, same_types, has_unlike_ports, result_types, result_width, first_fault, typed_faults, node_fault, node_from, node_of_value};
ghost use Rattle.cedr_plan.specs.NodeFaults.{IsNodeFault};
ghost use Rattle.cedr_plan.specs.Operators.{operator_row};

use crate::early::{early_fault, fault_without_operator, operator_at};
use crate::fault::{NodeFault, PlanKind};
use crate::inputs::{column_types, first_port, inputs_at, level_at};
use crate::kind::read_kind;
use crate::lists::text_at;
use crate::operator::Operator;
use crate::plan::PlanNode;
use crate::result::{has_unlike_ports, result_types, result_width};
use cedr_base::Text;
use serde_json::Value;
use std::alloc::Global;

const WIDEST: usize = 16;

/// The node that the value is in this version after the earlier ones, or its first fault.
pub(crate) fn read_node(
    alloc: Global,
    version: u64,
    earlier: &[PlanNode],
    node: &Value,
) -> Result<PlanNode, NodeFault>
    ensures node { IfOk result (λ made. node_of made ≡ node_of_value version (map node_of earlier.now) (view node.now)) }
    ensures sound { OnOk result (node_fault version (map node_of earlier.now) (view node.now) ≡ None) }
    ensures fault { IfErr result (IsNodeFault (node_fault version (map node_of earlier.now) (view node.now))) }
{
    let Some(operator) = operator_at(version, node) else {
        return Err(NodeFault::Fault(fault_without_operator(node)));
    };
    if let Some(kind) = early_fault(earlier, operator, node) {
        return Err(NodeFault::Fault(kind));
    }
    build_node(alloc, earlier, operator, node)
}

/// The node, or its first fault that depends on the types of fields.
#[tactic(auto, unfolding(crate::specs::Nodes::is_too_wide, crate::specs::Nodes::has_bad_column, crate::specs::Nodes::has_type_difference))]
fn build_node(
    alloc: Global,
    earlier: &[PlanNode],
    operator: Operator,
    node: &Value,
) -> Result<PlanNode, NodeFault>
    ensures node { IfOk result (λ made. node_of made ≡ node_from operator (map node_of earlier.now) (view node.now)) }
    ensures sound { OnOk result (first_fault (typed_faults (operator_row operator) (map node_of earlier.now) (view node.now)) ≡ None) }
    ensures fault { IfErr result (IsNodeFault (first_fault (typed_faults (operator_row operator) (map node_of earlier.now) (view node.now)))) }
{
    let outcome = operator.row().outcome;
    let inputs = inputs_at(alloc, earlier, operator, node)?;
    let columns = column_types(alloc, earlier, outcome, node, inputs.as_slice())?;
    let types = result_types(
        alloc,
        outcome,
        node,
        first_port(earlier, inputs.as_slice()),
        columns.as_slice(),
    )?;
    if WIDEST < result_width(alloc, outcome, node, types.as_slice())? {
        return Err(NodeFault::Fault(PlanKind::TooWide));
    }
    let kind = read_kind(alloc, operator, node, columns.as_slice())?;
    if has_unlike_ports(outcome, earlier, inputs.as_slice()) {
        return Err(NodeFault::Fault(PlanKind::TypeDiffers));
    }
    let name = Text::from_slice(alloc, text_at(node, "name").as_bytes())?;
    Ok(PlanNode {
        name,
        kind,
        inputs,
        level: level_at(operator, node),
        types,
    })
}
