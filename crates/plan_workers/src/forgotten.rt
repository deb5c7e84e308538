ghost use Rattle.std.specs.Prelude.{◌≡◌, ◌++◌, List, IfOk, OnOk, map};
ghost use Rattle.cedr_base.specs.declared.change.Message.{Message};
ghost use Rattle.node_laws.specs.Lists.{Lists};
ghost use Rattle.node_laws.specs.Kept.{forgot};
ghost use Rattle.cedr_node.specs.Nodes.{made_of, port_count, NodeStands};
ghost use Rattle.plan_runs.specs.Without.{forgot_in, forgot_on};
ghost use Rattle.plan_workers.specs.Forgettings.{AllTook, PartTook};
ghost use Rattle.plan_answer.specs.Forgettings.{nodes_forgot, ports_forgot, port_forgot};

use crate::ended::Part;
use cedr_base::OutOfMemory;
use cedr_io::Source;
use cedr_node::Node;
use cedr_plan::PlanNode;
use node_laws::Forgotten;
use plan_answer::PortForgotten;
use std::alloc::Global;
use std::sync::Wait;

fn copy_one(alloc: Global, one: &Forgotten) -> Result<Forgotten, OutOfMemory>
    ensures { IfOk result (λ copy. copy ≡ one.now) }
{
    Ok(Forgotten {
        change: one.change.copy(alloc)?,
        cause: one.cause,
        high: one.high,
    })
}

fn copy_all(alloc: Global, list: &[Forgotten]) -> Result<Vec<Forgotten>, OutOfMemory>
    ensures { IfOk result (λ copies. copies.items ≡ list.now) }
{
    let mut copies = Vec::new(alloc);
    for one in list {
        copies.push(copy_one(alloc, one)?)?;
    }
    Ok(copies)
}

/// What each port of a node forgot goes after the rest.
fn tell_ports(
    alloc: Global,
    place: usize,
    ports: usize,
    node: &Node,
    all: &mut Vec<PortForgotten>,
) -> Result<(), OutOfMemory>
    requires { ports ≡ port_count node.now }
    ensures { OnOk result ((lists : Lists) (given : List Message) → NodeStands node.now lists given → map port_forgot all.new.items ≡ map port_forgot all.old.items ++ ports_forgot place 0 (map (forgot (made_of node.now).level.memory) lists)) }
{
    for port in 0..ports {
        let list = copy_all(alloc, node.forgotten(port))?;
        all.push(PortForgotten {
            node: place,
            port,
            list,
        })?;
    }
    Ok(())
}

/// The same of what is left of the worker of a node.
fn tell_part<S: Source + Drop, R: Wait + Drop>(
    alloc: Global,
    place: usize,
    node: &PlanNode,
    part: &Part<S, R>,
    all: &mut Vec<PortForgotten>,
) -> Result<(), OutOfMemory>
    requires { (lists : Lists) × PartTook node.now lists part.now }
    ensures { OnOk result ((lists : Lists) → PartTook node.now lists part.now → map port_forgot all.new.items ≡ map port_forgot all.old.items ++ ports_forgot place 0 (forgot_on node.now lists)) }
{
    match part {
        Part::Source(_) => Ok(()),
        Part::Operator(works, _) => tell_ports(alloc, place, node.inputs.len(), works, all),
        Part::Output(works, _, _) => tell_ports(alloc, place, node.inputs.len(), works, all),
    }
}

/// What each port of each node forgot, in the order of the plan and of the ports. O(n) in what was forgotten.
pub fn tell_forgotten<S: Source + Drop, R: Wait + Drop>(
    alloc: Global,
    nodes: &[PlanNode],
    parts: &[Part<S, R>],
) -> Result<Vec<PortForgotten>, OutOfMemory>
    requires { (ports : List Lists) × AllTook nodes.now ports parts.now }
    ensures { IfOk result (λ forgotten. (ports : List Lists) → AllTook nodes.now ports parts.now → map port_forgot forgotten.items ≡ nodes_forgot 0 (forgot_in nodes.now ports)) }
{
    let mut all = Vec::new(alloc);
    for (place, node) in nodes.iter().enumerate() {
        tell_part(alloc, place, node, &parts[place], &mut all)?;
    }
    Ok(all)
}
