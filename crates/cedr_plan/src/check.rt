ghost use Rattle.std.specs.Prelude.{◌≡◌, ◌++◌, IfOk, OnOk, OnErr, map};
ghost use Rattle.cedr_plan.specs.CheckTexts.{type_text, types_text, node_text, check_text};
ghost use Rattle.cedr_plan.specs.Drawn.{node_of, drawn};
ghost use Rattle.cedr_plan.specs.Rules.{operator_of_kind};

use crate::operator::Operator;
use crate::plan::{NodeKind, Plan, PlanNode};
use cedr_base::{FieldType, OutOfMemory};
use std::alloc::Global;

/// Appends a line `NAME,OP,TYPE..` for each node, in the plan's order. Where memory runs out `out` is as before.
pub fn write_check(plan: &Plan, out: &mut Vec<u8>) -> Result<(), OutOfMemory>
    ensures ok { OnOk result (out.new.items ≡ out.old.items ++ check_text (drawn plan.now).nodes) }
    ensures err { OnErr result (out.new.items ≡ out.old.items) }
{
    let text = check_text(*out.allocator(), plan.nodes.as_slice())?;
    out.extend_from_slice(text.as_slice())?;
    Ok(())
}

fn check_text(alloc: Global, nodes: &[PlanNode]) -> Result<Vec<u8>, OutOfMemory>
    ensures { IfOk result (λ text. text.items ≡ check_text (map node_of nodes.now)) }
{
    let mut text = Vec::new(alloc);
    for node in nodes {
        put_node(node, &mut text)?;
    }
    Ok(text)
}

fn put_node(node: &PlanNode, text: &mut Vec<u8>) -> Result<(), OutOfMemory>
    ensures { OnOk result (text.new.items ≡ text.old.items ++ node_text (node_of node.now)) }
{
    text.extend_from_slice(node.name.bytes())?;
    text.push(b',')?;
    text.extend_from_slice(operator_of_kind(&node.kind).row().word.as_bytes())?;
    put_types(node.types.as_slice(), text)?;
    text.push(b'\n')?;
    Ok(())
}

fn put_types(types: &[FieldType], text: &mut Vec<u8>) -> Result<(), OutOfMemory>
    ensures { OnOk result (text.new.items ≡ text.old.items ++ types_text types.now) }
{
    for field_type in types {
        text.push(b',')?;
        text.extend_from_slice(type_text(*field_type).as_bytes())?;
    }
    Ok(())
}

fn type_text(field_type: FieldType) -> &'static str
    ensures { result.now ≡ type_text field_type }
{
    match field_type {
        FieldType::Number => "int",
        FieldType::Bytes => "text",
    }
}

/// The newest operator that does this.
fn operator_of_kind(kind: &NodeKind) -> Operator
    ensures { result ≡ operator_of_kind kind.now }
{
    match kind {
        NodeKind::Source { file: _ } => Operator::Source,
        NodeKind::Select(_) => Operator::Select,
        NodeKind::Project(_) => Operator::Project,
        NodeKind::Union => Operator::Union,
        NodeKind::Join(_) => Operator::Join,
        NodeKind::Window { width: _ } => Operator::Window,
        NodeKind::Shift { by: _ } => Operator::Shift,
        NodeKind::Hop { every: _, width: _ } => Operator::Hop,
        NodeKind::Starts => Operator::Starts,
        NodeKind::Ends => Operator::Ends,
        NodeKind::Group {
            keys: _,
            count: _,
            sums: _,
            least: _,
            greatest: _,
        } => Operator::RangedGroup,
        NodeKind::Sequence { scope: _, tests: _ } => Operator::Sequence,
        NodeKind::Unless {
            scope: _,
            hold: _,
            tests: _,
        } => Operator::Unless,
        NodeKind::AtLeast {
            number: _,
            scope: _,
            tests: _,
        } => Operator::AtLeast,
        NodeKind::Except(_) => Operator::Except,
        NodeKind::Output => Operator::Output,
    }
}
