ghost use Rattle.std.specs.Prelude.{◌≡◌, IfOk, map, replicate, true};
ghost use Rattle.std.specs.Option.{option_map_or};
ghost use Rattle.std.specs.List.{filter_map, position, slice_get};
ghost use Rattle.serde_json.specs.View.{view};
ghost use Rattle.cedr_plan.specs.Drawn.{Node, node_of};
ghost use Rattle.cedr_plan.specs.Nodes.{is_named, place_of, is_unknown, input_values, level_at, types_of, inputs_at, first_port, all_ports, counted_ports, has_ports};
ghost use Rattle.cedr_plan.specs.Operators.{operator_row};
ghost use Rattle.cedr_plan.specs.Places.{is_output};

use crate::json::values_at;
use crate::level::{MIDDLE, level_of};
use crate::lists::number_at;
use crate::operator::{Operator, Outcome};
use crate::places::is_output;
use crate::plan::PlanNode;
use cedr_base::{FieldType, Level, OutOfMemory};
use serde_json::Value;
use std::alloc::Global;

pub(crate) fn has_ports(operator: Operator) -> bool
    ensures { result ≡ has_ports (operator_row operator) }
{
    0 < operator.row().most
}

/// The values of `from`, and none where the operator has no ports.
pub(crate) fn input_values(operator: Operator, node: &Value) -> &[Value]
    ensures { map view result.now ≡ input_values (operator_row operator) (view node.now) }
{
    if has_ports(operator) {
        values_at(node, "from")
    } else {
        &[]
    }
}

/// The level of the node's ports, which is the middle one where none is given.
pub(crate) fn level_at(operator: Operator, node: &Value) -> Level
    ensures { result ≡ level_at (operator_row operator) (view node.now) }
{
    if !has_ports(operator) {
        return MIDDLE;
    }
    match node.get("level") {
        Some(level) => level_of(level),
        None => MIDDLE,
    }
}

pub(crate) fn is_named(node: &PlanNode, name: &str) -> bool
    ensures { result ≡ is_named name.now (node_of node.now) }
{
    node.name.bytes() == name.as_bytes()
}

/// The place of the first node of this name.
fn find_named(earlier: &[PlanNode], name: &str) -> Option<usize>
    ensures { result ≡ position (λ node. is_named name.now (node_of node)) earlier.now }
{
    earlier.iter().position(|node| is_named(node, name))
}

/// The place of the earlier node that the value names.
fn place_of(earlier: &[PlanNode], value: &Value) -> Option<usize>
    ensures { result ≡ place_of (map node_of earlier.now) (view value.now) }
{
    match value.as_str() {
        Some(name) => find_named(earlier, name),
        None => None,
    }
}

/// Whether the value names no earlier node, or an output.
pub(crate) fn is_unknown(earlier: &[PlanNode], value: &Value) -> bool
    ensures { result ≡ is_unknown (map node_of earlier.now) (view value.now) }
{
    match place_of(earlier, value) {
        Some(place) => is_output_at(earlier, place),
        None => true,
    }
}

fn is_output_at(earlier: &[PlanNode], place: usize) -> bool
    ensures { result ≡ option_map_or (λ (node : Node). is_output node.kind) (slice_get (map node_of earlier.now) place) true }
{
    match earlier.get(place) {
        Some(node) => is_output(&node.kind),
        None => true,
    }
}

/// The places of the nodes that feed the ports, in port order.
pub(crate) fn inputs_at(
    alloc: Global,
    earlier: &[PlanNode],
    operator: Operator,
    node: &Value,
) -> Result<Vec<usize>, OutOfMemory>
    ensures { IfOk result (λ inputs. inputs.items ≡ inputs_at (map node_of earlier.now) (operator_row operator) (view node.now)) }
{
    read_inputs(alloc, earlier, input_values(operator, node))
}

fn read_inputs(
    alloc: Global,
    earlier: &[PlanNode],
    values: &[Value],
) -> Result<Vec<usize>, OutOfMemory>
    ensures { IfOk result (λ inputs. inputs.items ≡ filter_map (place_of (map node_of earlier.now)) (map view values.now)) }
{
    let mut inputs = Vec::new(alloc);
    for value in values {
        if let Some(place) = place_of(earlier, value) {
            inputs.push(place)?;
        }
    }
    Ok(inputs)
}

/// The field types of the node at the place.
pub(crate) fn types_of(earlier: &[PlanNode], place: usize) -> &[FieldType]
    ensures { result.now ≡ types_of (map node_of earlier.now) place }
{
    match earlier.get(place) {
        Some(node) => node.types.as_slice(),
        None => &[],
    }
}

/// The field types of the first port.
pub(crate) fn first_port<'a>(earlier: &'a [PlanNode], inputs: &[usize]) -> &'a [FieldType]
    ensures { result.now ≡ first_port (map (types_of (map node_of earlier.now)) inputs.now) }
{
    match inputs.first() {
        Some(place) => types_of(earlier, *place),
        None => &[],
    }
}

/// The types of the columns that the node's members name, where these nodes feed its ports.
pub(crate) fn column_types(
    alloc: Global,
    earlier: &[PlanNode],
    outcome: Outcome,
    node: &Value,
    inputs: &[usize],
) -> Result<Vec<FieldType>, OutOfMemory>
    ensures { IfOk result (λ types. types.items ≡ all_ports (counted_ports outcome (view node.now) (map (types_of (map node_of earlier.now)) inputs.now))) }
{
    match outcome {
        Outcome::Repeated => repeated(
            alloc,
            number_at(node, "number"),
            first_port(earlier, inputs),
        ),
        Outcome::Declared
        | Outcome::First
        | Outcome::Alike
        | Outcome::Kept
        | Outcome::Joined
        | Outcome::Grouped
        | Outcome::Ranged => all_ports(alloc, earlier, inputs),
    }
}

/// The types of so many ports that have these types each.
fn repeated(alloc: Global, number: u64, types: &[FieldType]) -> Result<Vec<FieldType>, OutOfMemory>
    ensures { IfOk result (λ repeated. repeated.items ≡ all_ports (replicate number types.now)) }
{
    let mut repeated = Vec::new(alloc);
    for _ in 0..number {
        repeated.extend_from_slice(types)?;
    }
    Ok(repeated)
}

/// The field types of all ports, in port order.
fn all_ports(
    alloc: Global,
    earlier: &[PlanNode],
    inputs: &[usize],
) -> Result<Vec<FieldType>, OutOfMemory>
    ensures { IfOk result (λ types. types.items ≡ all_ports (map (types_of (map node_of earlier.now)) inputs.now)) }
{
    let mut types = Vec::new(alloc);
    for place in inputs {
        types.extend_from_slice(types_of(earlier, *place))?;
    }
    Ok(types)
}
