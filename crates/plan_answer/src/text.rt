ghost use Rattle.std.specs.Prelude.{◌≡◌, ◌<◌, ◌++◌, List, map, length, IfOk, OnOk};
ghost use Rattle.std.specs.List.{All};
ghost use Rattle.cedr_base.specs.declared.change.Message.{Message};
ghost use Rattle.cedr_base.specs.declared.row.Row.{Row};
ghost use Rattle.cedr_base.specs.Messages.{IsLegal, IsTableOf, changes_of};
ghost use Rattle.cedr_base.specs.Rows.{in_order};
ghost use Rattle.plan_answer.specs.declared.forgotten.PortForgotten.{PortForgotten};
ghost use Rattle.plan_answer.specs.Forgettings.{nodes_forgot, port_forgot};
ghost use Rattle.node_laws.specs.declared.forgotten.Forgotten.{Forgotten};
ghost use Rattle.plan_answer.specs.Answers.{answer_text, tail_text};
ghost use Rattle.plan_answer.specs.Queries.{changes_text};
ghost use Rattle.plan_answer.specs.Reports.{all_forgotten_text};

use crate::forgotten::{PortForgotten, write_port};
use cedr_base::{Change, OutOfMemory, Row};
use cedr_plan::PlanNode;
use cedr_table::{Table, apply_all};
use cedr_text::{write_change, write_rows};
use node_laws::Forgotten;
use std::alloc::Global;

/// The rows that the changes of a legal list lead to, in canonical order. O(n log n).
pub fn rows_of(alloc: Global, changes: &[Change]) -> Result<Vec<Row>, OutOfMemory>
    requires { (given : List Message) × IsLegal given × (changes.now ≡ changes_of given) }
    ensures { IfOk result (λ sorted. (given : List Message) → IsLegal given → changes.now ≡ changes_of given → (rows : List Row) × IsTableOf given rows × (sorted.items ≡ in_order rows)) }
{
    let mut table = Table::new(alloc);
    apply_all(alloc, &mut table, changes)?;
    table.canonical()
}

/// The lines of what all ports forgot, in the order in which the ports are listed.
fn write_ports(
    nodes: &[PlanNode],
    forgotten: &[PortForgotten],
    out: &mut Vec<u8>,
) -> Result<(), OutOfMemory>
    requires { All (λ (p : PortForgotten). p.node < length nodes.now) forgotten.now }
    ensures { OnOk result (out.new.items ≡ out.old.items ++ all_forgotten_text nodes.now (map port_forgot forgotten.now)) }
{
    for port in forgotten {
        let name = &nodes[port.node].name;
        write_port(name, port.port, &port.list, out)?;
    }
    Ok(())
}

/// Appends a line `--` and a line for each change that a port forgot: in the order of the nodes, then of their ports, then in
/// the order in which the changes came. Where memory runs out some of the text may stand there.
pub fn write_tail(
    nodes: &[PlanNode],
    forgotten: &[PortForgotten],
    out: &mut Vec<u8>,
) -> Result<(), OutOfMemory>
    requires { (listed : List (List (List Forgotten))) × (map port_forgot forgotten.now ≡ nodes_forgot 0 listed) × (length listed ≡ length nodes.now) }
    ensures { OnOk result ((listed : List (List (List Forgotten))) → map port_forgot forgotten.now ≡ nodes_forgot 0 listed → length listed ≡ length nodes.now → out.new.items ≡ out.old.items ++ tail_text nodes.now listed) }
{
    out.extend_from_slice(b"--\n")?;
    write_ports(nodes, forgotten, out)?;
    Ok(())
}

/// Appends the rows that the changes of a result lead to in canonical order and, where `with_tail`, what [`write_tail`] does.
/// Where memory runs out some of the text may stand there. O(n log n) in the changes.
pub fn write_report(
    alloc: Global,
    nodes: &[PlanNode],
    changes: &[Change],
    forgotten: &[PortForgotten],
    with_tail: bool,
    out: &mut Vec<u8>,
) -> Result<(), OutOfMemory>
    requires changes { (given : List Message) × IsLegal given × (changes.now ≡ changes_of given) }
    requires forgotten { (listed : List (List (List Forgotten))) × (map port_forgot forgotten.now ≡ nodes_forgot 0 listed) × (length listed ≡ length nodes.now) }
    ensures { OnOk result ((given : List Message) (listed : List (List (List Forgotten))) → IsLegal given → changes.now ≡ changes_of given → map port_forgot forgotten.now ≡ nodes_forgot 0 listed → length listed ≡ length nodes.now
        → (rows : List Row) × IsTableOf given rows × (out.new.items ≡ out.old.items ++ answer_text with_tail nodes.now (in_order rows) listed)) }
{
    let rows = rows_of(alloc, changes)?;
    write_rows(rows.as_slice(), out)?;
    if !with_tail {
        return Ok(());
    }
    write_tail(nodes, forgotten, out)?;
    Ok(())
}

/// Appends the lines of changes. Where memory runs out some of the text may stand there. O(n).
pub fn write_changes(changes: &[Change], out: &mut Vec<u8>) -> Result<(), OutOfMemory>
    ensures { OnOk result (out.new.items ≡ out.old.items ++ changes_text changes.now) }
{
    for change in changes {
        write_change(change, out)?;
    }
    Ok(())
}
