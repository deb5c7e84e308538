ghost use Rattle.std.specs.Prelude.{◌≡◌, ◌&&◌, map, codes, length};
ghost use Rattle.std.specs.List.{list_all, list_any};
ghost use Rattle.serde_json.specs.View.{view};
ghost use Rattle.cedr_plan.specs.Drawn.{node_of};
ghost use Rattle.cedr_plan.specs.Nodes.{is_name, is_name_byte, is_named, has_ports, is_name_value, lacks_inputs, lacks_member, has_odd_level, has_missing_part, has_too_many, has_bad_number, has_bad_level, is_named_twice, is_unknown, has_unknown_input, is_too_long, is_bad_number, input_values, first_fault, untyped_faults, operator_at, fault_without_operator};
ghost use Rattle.cedr_plan.specs.Json.{has, is_text, is_list};
ghost use Rattle.cedr_plan.specs.Levels.{has_bad_bound};
ghost use Rattle.cedr_plan.specs.Operators.{operator_row, member_key, form_of};

use crate::fault::PlanKind;
use crate::form::{has_form, is_bad_number, is_too_long};
use crate::inputs::{has_ports, input_values, is_named, is_unknown};
use crate::json::as_list;
use crate::level::{has_bad_bound, is_bad_level, is_level};
use crate::lists::text_at;
use crate::operator::{Member, Operator};
use crate::plan::PlanNode;
use serde_json::Value;

const LONGEST_NAME: usize = 64;

/// The operator that the node's `op` names in this version.
pub(crate) fn operator_at(version: u64, node: &Value) -> Option<Operator>
    ensures { result ≡ operator_at version (view node.now) }
{
    match node.get("op").and_then(Value::as_str) {
        Some(word) => Operator::of_word(version, word),
        None => None,
    }
}

/// The fault of a node whose operator isn't known.
pub(crate) fn fault_without_operator(node: &Value) -> PlanKind
    ensures { result ≡ fault_without_operator (view node.now) }
{
    let has_op = match node.get("op") {
        Some(op) => op.is_string(),
        None => false,
    };
    if has_name(node) && has_op {
        PlanKind::UnknownOp
    } else {
        PlanKind::MissingPart
    }
}

/// The first fault of a node that doesn't depend on the types of fields.
pub(crate) fn early_fault(
    earlier: &[PlanNode],
    operator: Operator,
    node: &Value,
) -> Option<PlanKind>
    ensures { result ≡ first_fault (untyped_faults (operator_row operator) (map node_of earlier.now) (view node.now)) }
{
    if has_missing_part(operator, node) {
        return Some(PlanKind::MissingPart);
    }
    if has_too_many(operator, node) {
        return Some(PlanKind::TooMany);
    }
    if has_bad_number(operator, node) {
        return Some(PlanKind::BadNumber);
    }
    if has_bad_level(operator, node) {
        return Some(PlanKind::BadLevel);
    }
    if is_named_twice(earlier, node) {
        return Some(PlanKind::TwiceNamed);
    }
    if has_unknown_input(earlier, operator, node) {
        return Some(PlanKind::UnknownNode);
    }
    None
}

#[tactic(auto, unfolding(crate::specs::Nodes::has_missing_part))]
fn has_missing_part(operator: Operator, node: &Value) -> bool
    ensures { result ≡ has_missing_part (operator_row operator) (view node.now) }
{
    !has_name(node)
        || lacks_inputs(operator, node)
        || lacks_some_member(operator, node)
        || has_odd_level(operator, node)
}

fn has_name(node: &Value) -> bool
    ensures { result ≡ has (codes "name") is_name_value (view node.now) }
{
    match node.get("name") {
        Some(name) => is_name_value(name),
        None => false,
    }
}

fn is_name_value(value: &Value) -> bool
    ensures { result ≡ is_name_value (view value.now) }
{
    match value.as_str() {
        Some(text) => is_name(text.as_bytes()),
        None => false,
    }
}

/// Whether the text is 1 to 64 ASCII letters, digits or `_`.
fn is_name(text: &[u8]) -> bool
    ensures { result ≡ is_name text.now }
{
    1 <= text.len() && text.len() <= LONGEST_NAME && each_is_name_byte(text)
}

fn each_is_name_byte(text: &[u8]) -> bool
    ensures { result ≡ list_all is_name_byte text.now }
{
    text.iter().all(|byte| is_name_byte(*byte))
}

fn is_name_byte(byte: u8) -> bool
    ensures { result ≡ is_name_byte byte }
{
    byte.is_ascii_alphanumeric() || byte == b'_'
}

fn lacks_inputs(operator: Operator, node: &Value) -> bool
    ensures { result ≡ lacks_inputs (operator_row operator) (view node.now) }
{
    has_ports(operator)
        && (!has_texts(node, "from") || input_values(operator, node).len() < operator.row().least)
}

fn has_texts(node: &Value, key: &str) -> bool
    ensures { result ≡ has key.now (is_list is_text) (view node.now) }
{
    match node.get(key) {
        Some(value) => are_texts(value),
        None => false,
    }
}

fn are_texts(value: &Value) -> bool
    ensures { result ≡ is_list is_text (view value.now) }
{
    match as_list(value) {
        Some(list) => each_is_text(list),
        None => false,
    }
}

fn each_is_text(values: &[Value]) -> bool
    ensures { result ≡ list_all (λ value. is_text (view value)) values.now }
{
    values.iter().all(|value| value.is_string())
}

fn lacks_some_member(operator: Operator, node: &Value) -> bool
    ensures { result ≡ list_any (lacks_member (view node.now)) (operator_row operator).members }
{
    operator
        .row()
        .members
        .iter()
        .any(|member| lacks_member(node, *member))
}

fn lacks_member(node: &Value, member: Member) -> bool
    ensures { result ≡ lacks_member (view node.now) member }
{
    match node.get(member.key()) {
        Some(value) => !has_form(member.form(), value),
        None => !member.form().is_optional(),
    }
}

fn has_odd_level(operator: Operator, node: &Value) -> bool
    ensures { result ≡ has_odd_level (operator_row operator) (view node.now) }
{
    match node.get("level") {
        Some(level) => has_ports(operator) && !is_level(level),
        None => false,
    }
}

#[tactic(auto, unfolding(crate::specs::Nodes::has_too_many))]
fn has_too_many(operator: Operator, node: &Value) -> bool
    ensures { result ≡ has_too_many (operator_row operator) (view node.now) }
{
    operator.row().most < input_values(operator, node).len() || has_long_member(operator, node)
}

fn has_long_member(operator: Operator, node: &Value) -> bool
    ensures { result ≡ list_any (λ m. has (member_key m) (is_too_long (form_of m)) (view node.now)) (operator_row operator).members }
{
    operator
        .row()
        .members
        .iter()
        .any(|member| is_long_member(node, *member))
}

fn is_long_member(node: &Value, member: Member) -> bool
    ensures { result ≡ has (member_key member) (is_too_long (form_of member)) (view node.now) }
{
    match node.get(member.key()) {
        Some(value) => is_too_long(member.form(), value),
        None => false,
    }
}

#[tactic(auto, unfolding(crate::specs::Nodes::has_bad_number))]
fn has_bad_number(operator: Operator, node: &Value) -> bool
    ensures { result ≡ has_bad_number (operator_row operator) (view node.now) }
{
    has_bad_member(input_count(operator, node), operator, node)
        || has_bad_level_number(operator, node)
}

/// How many names `from` has.
#[tactic(auto, using(crate::proofs::ListLemmas::length_of_map))]
fn input_count(operator: Operator, node: &Value) -> usize
    ensures { result ≡ length (input_values (operator_row operator) (view node.now)) }
{
    input_values(operator, node).len()
}

/// Whether a member's numbers are bad at a node that has so many inputs.
fn has_bad_member(inputs: usize, operator: Operator, node: &Value) -> bool
    ensures { result ≡ list_any (λ m. has (member_key m) (is_bad_number inputs (form_of m)) (view node.now)) (operator_row operator).members }
{
    operator
        .row()
        .members
        .iter()
        .any(|member| is_bad_member(inputs, node, *member))
}

fn is_bad_member(inputs: usize, node: &Value, member: Member) -> bool
    ensures { result ≡ has (member_key member) (is_bad_number inputs (form_of member)) (view node.now) }
{
    match node.get(member.key()) {
        Some(value) => is_bad_number(inputs, member.form(), value),
        None => false,
    }
}

fn has_bad_level_number(operator: Operator, node: &Value) -> bool
    ensures { result ≡ has_ports (operator_row operator) && has (codes "level") has_bad_bound (view node.now) }
{
    match node.get("level") {
        Some(level) => has_ports(operator) && has_bad_bound(level),
        None => false,
    }
}

#[tactic(auto, unfolding(crate::specs::Nodes::has_bad_level))]
fn has_bad_level(operator: Operator, node: &Value) -> bool
    ensures { result ≡ has_bad_level (operator_row operator) (view node.now) }
{
    match node.get("level") {
        Some(level) => has_ports(operator) && is_bad_level(level),
        None => false,
    }
}

#[tactic(auto, unfolding(crate::specs::Nodes::is_named_twice))]
fn is_named_twice(earlier: &[PlanNode], node: &Value) -> bool
    ensures { result ≡ is_named_twice (map node_of earlier.now) (view node.now) }
{
    some_is_named(earlier, text_at(node, "name"))
}

fn some_is_named(earlier: &[PlanNode], name: &str) -> bool
    ensures { result ≡ list_any (λ node. is_named name.now (node_of node)) earlier.now }
{
    earlier.iter().any(|node| is_named(node, name))
}

#[tactic(auto, unfolding(crate::specs::Nodes::has_unknown_input))]
fn has_unknown_input(earlier: &[PlanNode], operator: Operator, node: &Value) -> bool
    ensures { result ≡ has_unknown_input (map node_of earlier.now) (operator_row operator) (view node.now) }
{
    some_is_unknown(earlier, input_values(operator, node))
}

fn some_is_unknown(earlier: &[PlanNode], values: &[Value]) -> bool
    ensures { result ≡ list_any (λ value. is_unknown (map node_of earlier.now) (view value)) values.now }
{
    values.iter().any(|value| is_unknown(earlier, value))
}
