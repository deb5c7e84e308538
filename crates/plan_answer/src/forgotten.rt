ghost use Rattle.std.specs.Prelude.{◌≡◌, ◌++◌, OnOk};
ghost use Rattle.plan_answer.specs.Answers.{cause_text, forgotten_line, port_text, has_memory};

use cedr_base::{OutOfMemory, Text};
use cedr_plan::PlanNode;
use cedr_text::write_forgotten;
use node_laws::{Cause, Forgotten};

/// What a port of a node forgot, in the order in which it came.
#[derive(Drop)]
pub struct PortForgotten {
    /// The node's place in the plan, from 0.
    pub node: usize,
    /// From 0.
    pub port: usize,
    pub list: Vec<Forgotten>,
}

/// Whether some port of a plan has a finite memory.
pub fn has_memory(nodes: &[PlanNode]) -> bool
    ensures { result ≡ has_memory nodes.now }
{
    nodes.iter().any(|node| node.level.memory.is_some())
}

fn cause_text(cause: &Cause) -> &'static str
    ensures { result.now ≡ cause_text cause.now }
{
    match cause {
        Cause::Late => "late",
        Cause::Orphan => "orphan",
    }
}

/// The line of a change that a port forgot.
fn write_one(
    name: &Text,
    port: usize,
    one: &Forgotten,
    out: &mut Vec<u8>,
) -> Result<(), OutOfMemory>
    ensures { OnOk result (out.new.items ≡ out.old.items ++ forgotten_line name.now port one.now) }
{
    write_forgotten(
        name,
        port,
        cause_text(&one.cause),
        one.high,
        &one.change,
        out,
    )?;
    Ok(())
}

/// Appends a line for each change that a port of the node of this name forgot. Where memory runs out some of them may stand
/// there.
pub fn write_port(
    name: &Text,
    port: usize,
    forgotten: &[Forgotten],
    out: &mut Vec<u8>,
) -> Result<(), OutOfMemory>
    ensures { OnOk result (out.new.items ≡ out.old.items ++ port_text name.now port forgotten.now) }
{
    for one in forgotten {
        write_one(name, port, one, out)?;
    }
    Ok(())
}
