ghost use Rattle.std.specs.Prelude.{◌≡◌, ◌++◌, IfOk, OnOk, length};
ghost use Rattle.cedr_keys.specs.Texts.{keys_text, key_line, unkeyed_text};

use cedr_base::OutOfMemory;
use cedr_plan::{PlanNode, is_source};
use cedr_text::write_number;
use std::alloc::Global;

/// The line of each source, in the plan's order.
pub(crate) fn keys_text(
    alloc: Global,
    nodes: &[PlanNode],
    columns: &[usize],
) -> Result<Vec<u8>, OutOfMemory>
    requires { length columns.now ≡ length nodes.now }
    ensures { IfOk result (λ text. text.items ≡ keys_text columns.now nodes.now 0) }
{
    let mut text = Vec::new(alloc);
    for (place, node) in nodes.iter().enumerate() {
        if is_source(&node.kind) {
            write_line(node, columns[place], &mut text)?;
        }
    }
    Ok(text)
}

/// Appends the line of one source.
fn write_line(node: &PlanNode, column: usize, text: &mut Vec<u8>) -> Result<(), OutOfMemory>
    ensures { OnOk result (text.new.items ≡ text.old.items ++ key_line node.now column) }
{
    text.extend_from_slice(node.name.bytes())?;
    text.push(b',')?;
    write_number(column, text)?;
    text.push(b'\n')?;
    Ok(())
}

/// What is told of a plan that isn't keyed: this node keeps no column.
pub(crate) fn unkeyed_text(alloc: Global, node: &PlanNode) -> Result<Vec<u8>, OutOfMemory>
    ensures { IfOk result (λ text. text.items ≡ unkeyed_text node.now) }
{
    let mut text = Vec::new(alloc);
    text.extend_from_slice(b"no column of the output is kept by all nodes: it ends at ")?;
    text.extend_from_slice(node.name.bytes())?;
    text.push(b'\n')?;
    Ok(text)
}
