ghost use Rattle.std.specs.Prelude.{ℕ, ◌≡◌, ◌<◌, List, [], All, IfOk, OnOk, length, slice_index_or};
ghost use Rattle.cedr_plan.specs.Rules.{IsPlan};
ghost use Rattle.test_feeding.specs.Came.{CameFor};
ghost use Rattle.test_feeding.specs.declared.came.Came.{Came};
ghost use Rattle.message_cases.specs.FedNets.{NetWasFed};

use crate::line::message;
use crate::plan::find_node;
use crate::shown::{Moment, write_changes, write_forgotten, write_rows};
use anyhow::{Result, bail};
use cedr_base::{Message, OutOfMemory};
use cedr_net::SerialNet;
use cedr_plan::{Plan, PlanNode, is_source};
use std::alloc::Global;
use test_feeding::{Came, message_of};

/// A plan, its network, and what came of each of its sources.
#[derive(Drop)]
struct FedNet {
    plan: Plan,
    net: SerialNet,
    came: Vec<Came>,
}

/// Feeds and turns a new network of a plan line by line, and writes what is asked for.
pub(crate) fn play(rt: &impl Print, alloc: Global, plan: Plan, lines: &[String]) -> Result<()>
    requires { IsPlan plan }
{
    let mut fed = start(alloc, plan)?;
    for line in lines {
        step(rt, alloc, &mut fed, line.as_str())?;
    }
    Ok(())
}

fn nothing_came(alloc: Global, nodes: usize) -> Result<Vec<Came>, OutOfMemory>
    ensures count { IfOk result (λ came. length came.items ≡ nodes) }
    ensures none { IfOk result (λ came. (k : ℕ) (d : Came) → k < length came.items → CameFor (slice_index_or came.items k d) []) }
{
    let mut came = Vec::new(alloc);
    for _ in 0..nodes {
        came.push(Came::new(alloc))?;
    }
    Ok(came)
}

/// The network of a plan, to which nothing came.
fn start(alloc: Global, plan: Plan) -> Result<FedNet, OutOfMemory>
    requires { IsPlan plan }
    ensures { IfOk result (λ fed. NetWasFed fed.plan.nodes.items fed.net fed.came.items) }
{
    let came = nothing_came(alloc, plan.nodes.len())?;
    let net = SerialNet::new(alloc, &plan)?;
    Ok(FedNet { plan, net, came })
}

/// One line: a message behind the name of its source, `turn NODE..`, `settle`, or what is asked of the network.
fn step(rt: &impl Print, alloc: Global, fed: &mut FedNet, line: &str) -> Result<()>
    requires { NetWasFed fed.old.plan.nodes.items fed.old.net fed.old.came.items }
    ensures { OnOk result (NetWasFed fed.new.plan.nodes.items fed.new.net fed.new.came.items) }
{
    let words: Vec<&str> = line.split_whitespace().collect(alloc)?;
    match words.as_slice() {
        ["turn", names @ ..] => turn(rt, alloc, fed, line, names),
        ["settle"] => settle(rt, alloc, fed, line),
        ["forgotten", name, port] => { tell_forgotten(rt, fed, line, name, port.parse::<usize>()?) }
        [_] => tell(rt, &fed.net, line),
        [name, words @ ..] => answer(rt, alloc, fed, line, name, words),
        [] => bail!("a blank line"),
    }
}

/// Writes what a word asks of a network.
fn tell(rt: &impl Print, net: &SerialNet, line: &str) -> Result<()> {
    match line {
        "reach" => println!(rt; "{line}: {}", Moment(net.reach()))?,
        "ended" => println!(rt; "{line}: {}", net.ended())?,
        "rows" => tell_rows(rt, net, line)?,
        "changes" => {
            println!(rt; "{line}")?;
            write_changes(rt, net.changes())?;
        }
        _ => bail!("no such line: {line}"),
    }
    Ok(())
}

/// Writes the rows of a network's answer, in canonical order.
fn tell_rows(rt: &impl Print, net: &SerialNet, line: &str) -> Result<()> {
    println!(rt; "{line}")?;
    let rows = net.rows()?;
    write_rows(rt, rows.as_slice())
}

/// Feeds the source of this name with the message of a line, where it may come there.
fn answer(
    rt: &impl Print,
    alloc: Global,
    fed: &mut FedNet,
    line: &str,
    name: &str,
    words: &[&str],
) -> Result<()>
    requires { NetWasFed fed.old.plan.nodes.items fed.old.net fed.old.came.items }
    ensures { OnOk result (NetWasFed fed.new.plan.nodes.items fed.new.net fed.new.came.items) }
{
    let message = message_of(alloc, message(words)?)?;
    let Some(place) = find_node(fed.plan.nodes.as_slice(), name) else {
        bail!("no such node: {line}");
    };
    if feed(alloc, fed, place, message)? {
        println!(rt; "{line}")?;
    } else {
        println!(rt; "{line}: may not come")?;
    }
    Ok(())
}

/// Feeds a source, where the message may come there. Whether it was fed.
fn feed(alloc: Global, fed: &mut FedNet, place: usize, message: Message) -> Result<bool>
    requires { NetWasFed fed.old.plan.nodes.items fed.old.net fed.old.came.items }
    ensures { OnOk result (NetWasFed fed.new.plan.nodes.items fed.new.net fed.new.came.items) }
{
    if place >= fed.plan.nodes.len() || !is_source(&fed.plan.nodes[place].kind) {
        return Ok(false);
    }
    if !fed.came[place].may_come(&message) {
        return Ok(false);
    }
    fed.came[place].note(alloc, &message)?;
    fed.net.feed(alloc, place, message)?;
    Ok(true)
}

fn settle(rt: &impl Print, alloc: Global, fed: &mut FedNet, line: &str) -> Result<()>
    requires { NetWasFed fed.old.plan.nodes.items fed.old.net fed.old.came.items }
    ensures { OnOk result (NetWasFed fed.new.plan.nodes.items fed.new.net fed.new.came.items) }
{
    fed.net.settle(alloc)?;
    println!(rt; "{line}")?;
    Ok(())
}

/// The places of the nodes of these names, in this order.
fn places(alloc: Global, nodes: &[PlanNode], names: &[&str]) -> Result<Vec<usize>>
    ensures { IfOk result (λ places. All (λ place. place < length nodes.now) places.items) }
{
    let mut places = Vec::new(alloc);
    for name in names {
        let Some(place) = find_node(nodes, name) else {
            bail!("no such node: {name}");
        };
        places.push(place)?;
    }
    Ok(places)
}

/// Turns nodes of the plan, one after the other.
fn turn(rt: &impl Print, alloc: Global, fed: &mut FedNet, line: &str, names: &[&str]) -> Result<()>
    requires { NetWasFed fed.old.plan.nodes.items fed.old.net fed.old.came.items }
    ensures { OnOk result (NetWasFed fed.new.plan.nodes.items fed.new.net fed.new.came.items) }
{
    let schedule = places(alloc, fed.plan.nodes.as_slice(), names)?;
    fed.net.run_schedule(alloc, schedule.as_slice())?;
    println!(rt; "{line}")?;
    Ok(())
}

/// Writes what a port of a node forgot.
fn tell_forgotten(rt: &impl Print, fed: &FedNet, line: &str, name: &str, port: usize) -> Result<()>
    requires { NetWasFed fed.now.plan.nodes.items fed.now.net fed.now.came.items }
{
    let nodes = fed.plan.nodes.as_slice();
    let Some(place) = find_node(nodes, name) else {
        bail!("no such node: {line}");
    };
    if port >= nodes[place].inputs.len() {
        println!(rt; "{line}: no such port")?;
        return Ok(());
    }
    println!(rt; "{line}")?;
    write_forgotten(rt, fed.net.forgotten(place, port))
}
