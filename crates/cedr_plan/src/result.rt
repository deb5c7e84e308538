ghost use Rattle.std.specs.Prelude.{◌≡◌, ◌+◌, ◌<◌, ◌^◌, ◌++◌, IfOk, OnOk, map, codes, length, not};
ghost use Rattle.std.specs.List.{list_any, slice_get};
ghost use Rattle.serde_json.specs.View.{view};
ghost use Rattle.cedr_base.specs.declared.field.FieldType.TheVariants as field_type;
ghost use Rattle.cedr_expr.specs.Columns.{kept_columns};
ghost use Rattle.cedr_plan.specs.Drawn.{node_of};
ghost use Rattle.cedr_plan.specs.Nodes.{columns_at, truth_at, types_of, first_port, all_ports, group_types, group_width, count_types, same_types, has_unlike_ports, result_types, result_width};

use crate::inputs::{first_port, types_of};
use crate::lists::{columns_at, truth_at, types_at};
use crate::operator::Outcome;
use crate::plan::PlanNode;
use cedr_base::{FieldType, OutOfMemory};
use serde_json::Value;
use std::alloc::Global;

/// The types of the result's fields, where the first port has the types `first`, and the columns that members name have the
/// types `all`.
pub(crate) fn result_types(
    alloc: Global,
    outcome: Outcome,
    node: &Value,
    first: &[FieldType],
    all: &[FieldType],
) -> Result<Vec<FieldType>, OutOfMemory>
    ensures { IfOk result (λ types. types.items ≡ result_types outcome (view node.now) first.now all.now) }
{
    match outcome {
        Outcome::Declared => types_at(alloc, node),
        Outcome::First | Outcome::Alike => copy_types(alloc, first),
        Outcome::Kept => {
            let keep = columns_at(alloc, node, "keep")?;
            kept_types(alloc, keep.as_slice(), all)
        }
        Outcome::Joined | Outcome::Repeated => copy_types(alloc, all),
        Outcome::Grouped => group_types(alloc, node, &[], &[], all),
        Outcome::Ranged => ranged_types(alloc, node, all),
    }
}

fn copy_types(alloc: Global, types: &[FieldType]) -> Result<Vec<FieldType>, OutOfMemory>
    ensures { IfOk result (λ copied. copied.items ≡ types.now) }
{
    Ok(Vec::from_slice(alloc, types)?)
}

/// The types at the columns, and none for a column past the end.
fn kept_types(
    alloc: Global,
    columns: &[usize],
    types: &[FieldType],
) -> Result<Vec<FieldType>, OutOfMemory>
    ensures { IfOk result (λ chosen. chosen.items ≡ kept_columns columns.now types.now) }
{
    let mut chosen = Vec::new(alloc);
    for column in columns {
        if let Some(field_type) = type_at(types, *column) {
            chosen.push(field_type)?;
        }
    }
    Ok(chosen)
}

fn type_at(types: &[FieldType], column: usize) -> Option<FieldType>
    ensures { result ≡ slice_get types.now column }
{
    types.get(column).copied()
}

/// The types of a group that has the least and the greatest fields of its node's columns.
fn ranged_types(
    alloc: Global,
    node: &Value,
    all: &[FieldType],
) -> Result<Vec<FieldType>, OutOfMemory>
    ensures { IfOk result (λ types. types.items ≡ group_types (columns_at (codes "keys") (view node.now)) (truth_at (codes "count") (view node.now)) (columns_at (codes "sum") (view node.now)) (columns_at (codes "least") (view node.now)) (columns_at (codes "greatest") (view node.now)) all.now) }
{
    let least = columns_at(alloc, node, "least")?;
    let greatest = columns_at(alloc, node, "greatest")?;
    group_types(alloc, node, least.as_slice(), greatest.as_slice(), all)
}

/// The types of a group that has the least and the greatest fields of these columns.
fn group_types(
    alloc: Global,
    node: &Value,
    least: &[usize],
    greatest: &[usize],
    all: &[FieldType],
) -> Result<Vec<FieldType>, OutOfMemory>
    ensures { IfOk result (λ types. types.items ≡ group_types (columns_at (codes "keys") (view node.now)) (truth_at (codes "count") (view node.now)) (columns_at (codes "sum") (view node.now)) least.now greatest.now all.now) }
{
    let keys = columns_at(alloc, node, "keys")?;
    let sums = columns_at(alloc, node, "sum")?;
    let mut types = kept_types(alloc, keys.as_slice(), all)?;
    if truth_at(node, "count") {
        types.push(FieldType::Number)?;
    }
    push_numbers(&mut types, sums.as_slice())?;
    types.extend_from_slice(kept_types(alloc, least, all)?.as_slice())?;
    types.extend_from_slice(kept_types(alloc, greatest, all)?.as_slice())?;
    Ok(types)
}

/// Adds a number for each sum.
fn push_numbers(types: &mut Vec<FieldType>, sums: &[usize]) -> Result<(), OutOfMemory>
    ensures { OnOk result (types.new.items ≡ types.old.items ++ map (λ _. field_type.Number) sums.now) }
{
    for _sum in sums {
        types.push(FieldType::Number)?;
    }
    Ok(())
}

/// How many fields a result of these types has, where a column that isn't there counts too.
pub(crate) fn result_width(
    alloc: Global,
    outcome: Outcome,
    node: &Value,
    types: &[FieldType],
) -> Result<usize, OutOfMemory>
    ensures { IfOk result (λ width. width ≡ result_width outcome (view node.now) types.now) }
{
    match outcome {
        Outcome::Kept => Ok(columns_at(alloc, node, "keep")?.len()),
        Outcome::Grouped => group_width(alloc, node, 0),
        Outcome::Ranged => ranged_width(alloc, node),
        Outcome::Declared | Outcome::First | Outcome::Alike | Outcome::Joined | Outcome::Repeated =>
            Ok(types.len()),
    }
}

fn ranged_width(alloc: Global, node: &Value) -> Result<usize, OutOfMemory>
    ensures { IfOk result (λ width. width ≡ group_width (columns_at (codes "keys") (view node.now)) (truth_at (codes "count") (view node.now)) (columns_at (codes "sum") (view node.now)) (columns_at (codes "least") (view node.now)) (columns_at (codes "greatest") (view node.now))) }
{
    let least = columns_at(alloc, node, "least")?.len();
    let greatest = columns_at(alloc, node, "greatest")?.len();
    group_width(alloc, node, least + greatest)
}

/// How many fields a group has that has so many least and greatest ones.
fn group_width(alloc: Global, node: &Value, extremes: usize) -> Result<usize, OutOfMemory>
    requires { extremes < 2 ^ 62 }
    ensures { IfOk result (λ width. width ≡ length (columns_at (codes "keys") (view node.now)) + (length (count_types (truth_at (codes "count") (view node.now))) + (length (columns_at (codes "sum") (view node.now)) + extremes))) }
{
    let keys = columns_at(alloc, node, "keys")?.len();
    let sums = columns_at(alloc, node, "sum")?.len();
    let count = if truth_at(node, "count") { 1 } else { 0 };
    Ok(keys + (count + (sums + extremes)))
}

/// Whether a node needs the same types on all ports, and its ports have different ones.
pub(crate) fn has_unlike_ports(outcome: Outcome, earlier: &[PlanNode], inputs: &[usize]) -> bool
    ensures { result ≡ has_unlike_ports outcome (map (types_of (map node_of earlier.now)) inputs.now) }
{
    match outcome {
        Outcome::Alike | Outcome::Repeated => some_are_unlike(
            first_port(earlier, inputs),
            earlier,
            inputs,
        ),
        Outcome::Declared
        | Outcome::First
        | Outcome::Kept
        | Outcome::Joined
        | Outcome::Grouped
        | Outcome::Ranged => false,
    }
}

fn some_are_unlike(first: &[FieldType], earlier: &[PlanNode], inputs: &[usize]) -> bool
    ensures { result ≡ list_any (λ types. not (same_types first.now types)) (map (types_of (map node_of earlier.now)) inputs.now) }
{
    for place in inputs {
        if !same_types(first, types_of(earlier, *place)) {
            return true;
        }
    }
    false
}

fn same_types(one: &[FieldType], other: &[FieldType]) -> bool
    ensures { result ≡ same_types one.now other.now }
{
    match one {
        [] => other.is_empty(),
        [first, rest @ ..] => match other {
            [] => false,
            [second, others @ ..] => first == second && same_types(rest, others),
        },
    }
}
