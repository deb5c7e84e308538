ghost use Rattle.std.specs.Prelude.{◌≡◌, ◌<◌, ◌++◌, ◌∷◌, List, OnOk, length};
ghost use Rattle.cedr_base.specs.declared.row.Row.{Row};
ghost use Rattle.cedr_base.specs.Messages.{IsTableOf};
ghost use Rattle.cedr_base.specs.Rows.{in_order};
ghost use Rattle.node_laws.specs.Lists.{Lists, list_at};
ghost use Rattle.cedr_net.specs.Networks.{NetStands};
ghost use Rattle.cedr_text.specs.Texts.{rows_text};
ghost use Rattle.cedr_plan.specs.declared.plan.PlanNode.{PlanNode};
ghost use Rattle.cedr_plan.specs.Places.{output_place};
ghost use Rattle.plan_runs.specs.Runs.{lists_at};
ghost use Rattle.plan_runs.specs.Without.{forgot_in, forgot_on};
ghost use Rattle.plan_answer.specs.Answers.{ports_text, tail_text, answer_text};

use cedr_base::OutOfMemory;
use cedr_net::SerialNet;
use cedr_plan::PlanNode;
use cedr_text::write_rows;
use plan_answer::write_port;

/// The lines of what the ports of the node at a place forgot.
fn write_node(
    nodes: &[PlanNode],
    net: &SerialNet,
    place: usize,
    out: &mut Vec<u8>,
) -> Result<(), OutOfMemory>
    requires place { place < length nodes.now }
    requires net { (ports : List Lists) × (given : Lists) × NetStands nodes.now net.now ports given }
    ensures { OnOk result ((ports : List Lists) (given : Lists) → NetStands nodes.now net.now ports given → (before after : List PlanNode) (n : PlanNode) → nodes.now ≡ before ++ n ∷ after → length before ≡ place → out.new.items ≡ out.old.items ++ ports_text n.name 0 (forgot_on n (lists_at ports place))) }
{
    let node = &nodes[place];
    for port in 0..node.inputs.len() {
        write_port(&node.name, port, net.forgotten(place, port), out)?;
    }
    Ok(())
}

/// A line `--`, and the lines of what each port of each node forgot.
pub(crate) fn write_tail(
    nodes: &[PlanNode],
    net: &SerialNet,
    out: &mut Vec<u8>,
) -> Result<(), OutOfMemory>
    requires { (ports : List Lists) × (given : Lists) × NetStands nodes.now net.now ports given }
    ensures { OnOk result ((ports : List Lists) (given : Lists) → NetStands nodes.now net.now ports given → out.new.items ≡ out.old.items ++ tail_text nodes.now (forgot_in nodes.now ports)) }
{
    out.extend_from_slice(b"--\n")?;
    for place in 0..nodes.len() {
        write_node(nodes, net, place, out)?;
    }
    Ok(())
}

/// The rows of a network's answer in canonical order.
fn write_table(net: SerialNet, out: &mut Vec<u8>) -> Result<(), OutOfMemory>
    ensures { OnOk result ((nodes : List PlanNode) (ports : List Lists) (given : Lists) → NetStands nodes net ports given → (rows : List Row) × IsTableOf (list_at given (output_place nodes)) rows × (out.new.items ≡ out.old.items ++ rows_text (in_order rows))) }
{
    let rows = net.into_rows()?;
    write_rows(rows.as_slice(), out)?;
    Ok(())
}

/// Appends the rows of a network's answer in canonical order and, where `with_tail`, a line `--` and a line for each change
/// that a port forgot: in the order of the nodes, then of their ports, then in the order in which the changes came. Where
/// memory runs out some of the text may stand there. The network goes, so that no row is copied. O(n log n) in the rows.
pub fn write_answer(
    nodes: &[PlanNode],
    net: SerialNet,
    with_tail: bool,
    out: &mut Vec<u8>,
) -> Result<(), OutOfMemory>
    requires { (ports : List Lists) × (given : Lists) × NetStands nodes.now net ports given }
    ensures { OnOk result ((ports : List Lists) (given : Lists) → NetStands nodes.now net ports given → (rows : List Row) × IsTableOf (list_at given (output_place nodes.now)) rows × (out.new.items ≡ out.old.items ++ answer_text with_tail nodes.now (in_order rows) (forgot_in nodes.now ports))) }
{
    if !with_tail {
        write_table(net, out)?;
        return Ok(());
    }
    let mut tail = Vec::new(*out.allocator());
    write_tail(nodes, &net, &mut tail)?;
    write_table(net, out)?;
    out.append(&mut tail)?;
    Ok(())
}
