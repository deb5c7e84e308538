ghost use Rattle.std.specs.Prelude.{◌≡◌, ◌≢◌, IfOk, IfErr, None, count_by, length};
ghost use Rattle.cedr_plan.specs.Rules.{IsPlan};
ghost use Rattle.plan_key_choice.specs.Choices.{IsKeyChoice, IsKeyFaultOf, IsShared, reads};
ghost use Rattle.plan_key_choice.specs.Partial.{AreUnchosen, chosen_columns};

use crate::candidate::{barren, candidates};
use crate::fault::KeyFault;
use crate::node::reads;
use crate::order::order;
use crate::search::{Progress, search};
use cedr_base::OutOfMemory;
use cedr_plan::{Plan, PlanNode};
use std::alloc::Global;

/// How many columns are tried at most, where several nodes read one.
pub const MOST_TRIES: u64 = 2_000;

/// A column of each node, by its place, that all nodes of the plan keep, so that the plan can be answered key by key; or that
/// there are none. Columns count from 0, and the least column of the output that can be is taken.
///
/// First the columns are worked out that each node may have, from the first node to the last: for each of its columns some that
/// its ports may have must go with it. Most plans without a choice have a node with none. Then a column of each is taken, from
/// the output to the sources. Where each node is read by one other at most, none that was taken is taken back: the time is linear
/// in the nodes, and for each column of a node it goes through those of its ports that its tests allow, at most 16 of each.
///
/// Where several nodes read one, what one of them wants the others may not have, and columns are taken back. Colouring a graph can
/// be put as such a plan, so that no way is known that is quick for all: `MOST_TRIES` columns are tried, and behind them
/// `KeyFault::Undecided` is answered. A plan of 64 nodes with 16 columns and 16 ties at each join takes less than 10 milliseconds.
pub fn key_columns(alloc: Global, plan: &Plan) -> Result<Vec<usize>, KeyFault>
    requires { IsPlan plan.now }
    ensures choice { IfOk result (λ columns. IsKeyChoice columns.items plan.now.nodes.items) }
    ensures fault { IfErr result (IsKeyFaultOf plan.now.nodes.items) }
{
    let nodes = plan.nodes.as_slice();
    let mut tried = unchosen(alloc, nodes.len())?;
    let candidates = candidates(alloc, nodes, &mut tried)?;
    if let Some(node) = barren(&candidates) {
        return Err(KeyFault::Unkeyed { node });
    }
    let mut progress = Progress {
        nearest: nodes.len(),
        node: 0,
        tries: limit(nodes),
    };
    let order = order(alloc, nodes)?;
    let mut choice = unchosen(alloc, nodes.len())?;
    if search(
        alloc,
        nodes,
        &candidates,
        &order,
        &mut choice,
        &mut progress,
    )? {
        let columns = chosen_columns(alloc, &choice)?;
        Ok(columns)
    } else {
        Err(KeyFault::Unkeyed {
            node: progress.node,
        })
    }
}

/// The limit of tries, where some node is read by several.
fn limit(nodes: &[PlanNode]) -> Option<u64>
    ensures { result ≢ None → IsShared nodes.now }
{
    for place in 0..nodes.len() {
        if 1 < readers(nodes, place) {
            return Some(MOST_TRIES);
        }
    }
    None
}

/// How many nodes read the one at a place.
fn readers(nodes: &[PlanNode], place: usize) -> usize
    ensures { result ≡ count_by (reads place) nodes.now }
{
    nodes.iter().filter(|node| reads(node, place)).count()
}

/// A choice that has no column of so many nodes.
fn unchosen(alloc: Global, count: usize) -> Result<Vec<Option<usize>>, OutOfMemory>
    ensures count { IfOk result (λ choice. length choice.items ≡ count) }
    ensures unchosen { IfOk result (λ choice. AreUnchosen choice.items) }
{
    let mut choice = Vec::with_capacity(alloc, count)?;
    for _ in 0..count {
        choice.push(None)?;
    }
    Ok(choice)
}

/// The columns, where 0 stands for those that aren't chosen.
fn chosen_columns(alloc: Global, choice: &[Option<usize>]) -> Result<Vec<usize>, OutOfMemory>
    ensures { IfOk result (λ columns. columns.items ≡ chosen_columns choice.now) }
{
    let columns = choice
        .iter()
        .map(|column| column.unwrap_or(0))
        .collect(alloc)?;
    Ok(columns)
}
