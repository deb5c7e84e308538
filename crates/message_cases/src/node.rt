ghost use Rattle.std.specs.Prelude.{◌≡◌, [], IfOk, OnOk, length, replicate};
ghost use Rattle.node_laws.specs.Pass.{HasBlockWithin};
ghost use Rattle.cedr_plan.specs.Rules.{IsPlan};
ghost use Rattle.message_cases.specs.FedNodes.{AllCame, NodeWasFed};
ghost use Rattle.op_node.specs.Ready.{IsReady};

use crate::line::message;
use crate::plan::find_node;
use crate::shown::{write_forgotten, write_messages};
use anyhow::{Result, bail};
use cedr_base::{Message, OutOfMemory};
use cedr_node::Node;
use cedr_plan::{Plan, PlanNode, is_source};
use std::alloc::Global;
use test_feeding::{Came, message_of};

/// A node, and what came on its ports.
#[derive(Drop)]
struct FedNode {
    node: Node,
    came: Vec<Came>,
}

/// Feeds a new node of a plan line by line, and writes what it gives.
pub(crate) fn play(
    rt: &impl Print,
    alloc: Global,
    plan: &Plan,
    name: &str,
    lines: &[String],
) -> Result<()>
    requires { IsPlan plan.now }
{
    let nodes = plan.nodes.as_slice();
    let Some(place) = find_node(nodes, name) else {
        bail!("no such node: {name}");
    };
    let planned = &nodes[place];
    if is_source(&planned.kind) {
        bail!("no message comes to a source: {name}");
    }
    let mut fed = start(alloc, planned)?;
    for line in lines {
        step(rt, alloc, &mut fed, line.as_str())?;
    }
    Ok(())
}

fn nothing_came(alloc: Global, ports: usize) -> Result<Vec<Came>, OutOfMemory>
    ensures { IfOk result (λ came. AllCame came.items (replicate ports [])) }
{
    let mut came = Vec::new(alloc);
    for _ in 0..ports {
        came.push(Came::new(alloc))?;
    }
    Ok(came)
}

/// A node of a plan to which nothing came.
fn start(alloc: Global, planned: &PlanNode) -> Result<FedNode, OutOfMemory>
    requires ready { IsReady planned.now.kind (length planned.now.inputs.items) }
    requires level { HasBlockWithin planned.now.level }
    ensures { IfOk result (λ fed. NodeWasFed fed.node fed.came.items) }
{
    let came = nothing_came(alloc, planned.inputs.len())?;
    let node = Node::new(alloc, planned)?;
    Ok(FedNode { node, came })
}

/// One line: a message behind the number of its port, `forgotten PORT` or `ended`.
fn step(rt: &impl Print, alloc: Global, fed: &mut FedNode, line: &str) -> Result<()>
    requires { NodeWasFed fed.old.node fed.old.came.items }
    ensures { OnOk result (NodeWasFed fed.new.node fed.new.came.items) }
{
    let words: Vec<&str> = line.split_whitespace().collect(alloc)?;
    match words.as_slice() {
        ["ended"] => println!(rt; "{line}: {}", fed.node.ended())?,
        ["forgotten", port] => tell_forgotten(rt, fed, line, port.parse::<usize>()?)?,
        [port, words @ ..] => {
            let message = message_of(alloc, message(words)?)?;
            answer(rt, alloc, fed, line, port.parse::<usize>()?, message)?;
        }
        [] => bail!("a blank line"),
    }
    Ok(())
}

/// Takes the message of a line, and writes what the node gives for it.
fn answer(
    rt: &impl Print,
    alloc: Global,
    fed: &mut FedNode,
    line: &str,
    port: usize,
    message: Message,
) -> Result<()>
    requires { NodeWasFed fed.old.node fed.old.came.items }
    ensures { OnOk result (NodeWasFed fed.new.node fed.new.came.items) }
{
    match feed(alloc, fed, port, message)? {
        None => println!(rt; "{line}: may not come")?,
        Some(given) => {
            println!(rt; "{line}")?;
            write_messages(rt, given.as_slice())?;
        }
    }
    Ok(())
}

/// What a node gives for a message, where it may come.
fn feed(
    alloc: Global,
    fed: &mut FedNode,
    port: usize,
    message: Message,
) -> Result<Option<Vec<Message>>, OutOfMemory>
    requires { NodeWasFed fed.old.node fed.old.came.items }
    ensures { OnOk result (NodeWasFed fed.new.node fed.new.came.items) }
{
    if port >= fed.came.len() || !fed.came[port].may_come(&message) {
        return Ok(None);
    }
    fed.came[port].note(alloc, &message)?;
    let mut out = Vec::new(alloc);
    match fed.node.take(alloc, port, message, &mut out) {
        Ok(()) => Ok(Some(out)),
        Err(_) => Err(OutOfMemory),
    }
}

/// Writes what a port forgot.
fn tell_forgotten(rt: &impl Print, fed: &FedNode, line: &str, port: usize) -> Result<()>
    requires { NodeWasFed fed.now.node fed.now.came.items }
{
    if port >= fed.came.len() {
        bail!("no such port: {line}");
    }
    println!(rt; "{line}")?;
    write_forgotten(rt, fed.node.forgotten(port))
}
