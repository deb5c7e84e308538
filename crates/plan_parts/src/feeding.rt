ghost use Rattle.std.specs.Prelude.{ℕ, ◌≡◌, ◌<◌, ◌≤◌, ◌++◌, List, OnOk, length};
ghost use Rattle.cedr_base.specs.Messages.{IsLegal};
ghost use Rattle.cedr_plan.specs.declared.plan.PlanNode.{PlanNode};
ghost use Rattle.node_laws.specs.Lists.{Lists, list_at, with_more};
ghost use Rattle.cedr_net.specs.Flows.{IsSourceAt};
ghost use Rattle.cedr_net.specs.Networks.{NetStands, HasSettled};
ghost use Rattle.plan_parts.specs.Parts.{AreLists, keys_of, list_part};
ghost use Rattle.plan_parts.specs.Feeds.{IsFedFirst, IsFedWhole};

use crate::messages::SourceMessages;
use crate::share::Share;
use cedr_base::{Message, OutOfMemory};
use cedr_net::SerialNet;
use cedr_plan::{PlanNode, is_source};
use std::alloc::Global;

/// Feeds those of some messages of a source that go to the part.
fn feed_source(
    alloc: Global,
    share: Share,
    column: usize,
    net: &mut SerialNet,
    place: usize,
    messages: &[Message],
) -> Result<(), OutOfMemory>
    requires share { 0 < share.count }
    requires net { (nodes : List PlanNode) × (ports : List Lists) × (given : Lists) × NetStands nodes net.old ports given × (place < length nodes) × IsSourceAt nodes place × IsLegal (list_at given place ++ list_part (keys_of share) column messages.now) }
    ensures { OnOk result ((nodes : List PlanNode) (ports : List Lists) (given : Lists) → NetStands nodes net.old ports given → place < length nodes → IsSourceAt nodes place → IsLegal (list_at given place ++ list_part (keys_of share) column messages.now) → NetStands nodes net.new ports (with_more given place (list_part (keys_of share) column messages.now))) }
{
    let mine = share.pick(alloc, column, messages)?;
    match net.feed_all(alloc, place, mine) {
        Ok(()) => Ok(()),
        Err(_) => Err(OutOfMemory),
    }
}

/// Feeds of the messages of each source, from one on up to another, those that go to the part.
fn feed_each(
    alloc: Global,
    share: Share,
    nodes: &[PlanNode],
    columns: &[usize],
    net: &mut SerialNet,
    lists: &[SourceMessages],
    from: usize,
    until: usize,
) -> Result<(), OutOfMemory>
    requires share { 0 < share.count }
    requires columns { length columns.now ≡ length nodes.now }
    requires lists { AreLists nodes.now lists.now }
    requires order { from ≤ until }
    requires fed { IsFedFirst nodes.now net.old (keys_of share) columns.now lists.now from }
    ensures { OnOk result (IsFedFirst nodes.now net.new (keys_of share) columns.now lists.now until) }
{
    for place in 0..nodes.len() {
        if !is_source(&nodes[place].kind) {
            continue;
        }
        let messages = lists[place].between(from, until);
        feed_source(alloc, share, columns[place], net, place, messages)?;
    }
    Ok(())
}

/// The network settles.
fn settle(alloc: Global, net: &mut SerialNet) -> Result<(), OutOfMemory>
    requires { (nodes : List PlanNode) × (ports : List Lists) × (given : Lists) × NetStands nodes net.old ports given }
    ensures { OnOk result ((nodes : List PlanNode) (ports : List Lists) (given : Lists) → NetStands nodes net.old ports given → HasSettled nodes net.new ports given) }
{
    match net.settle(alloc) {
        Ok(()) => Ok(()),
        Err(_) => Err(OutOfMemory),
    }
}

/// The same as `feed_each`, and then the network settles.
fn feed_round(
    alloc: Global,
    share: Share,
    nodes: &[PlanNode],
    columns: &[usize],
    net: &mut SerialNet,
    lists: &[SourceMessages],
    from: usize,
    until: usize,
) -> Result<(), OutOfMemory>
    requires share { 0 < share.count }
    requires columns { length columns.now ≡ length nodes.now }
    requires lists { AreLists nodes.now lists.now }
    requires order { from ≤ until }
    requires fed { IsFedFirst nodes.now net.old (keys_of share) columns.now lists.now from }
    ensures { OnOk result (IsFedFirst nodes.now net.new (keys_of share) columns.now lists.now until) }
{
    feed_each(alloc, share, nodes, columns, net, lists, from, until)?;
    settle(alloc, net)?;
    Ok(())
}

/// How many messages the longest of some lists has.
fn longest(lists: &[SourceMessages]) -> usize
    ensures { (k : ℕ) → length (list_at lists.now k) ≤ result }
{
    let mut longest = 0;
    for list in lists {
        longest = longest.max(list.len());
    }
    longest
}

/// Feeds all messages of all sources that go to the part, in rounds of so many messages of each source, so that their
/// guarantees come about together. The network settles after each round. Where memory runs out it is only to be dropped.
pub(crate) fn feed_whole(
    alloc: Global,
    share: Share,
    nodes: &[PlanNode],
    columns: &[usize],
    net: &mut SerialNet,
    lists: &[SourceMessages],
    round: usize,
) -> Result<(), OutOfMemory>
    requires share { 0 < share.count }
    requires columns { length columns.now ≡ length nodes.now }
    requires lists { AreLists nodes.now lists.now }
    requires round { 0 < round }
    requires fed { IsFedFirst nodes.now net.old (keys_of share) columns.now lists.now 0 }
    ensures { OnOk result (IsFedWhole nodes.now net.new (keys_of share) columns.now lists.now) }
{
    let longest = longest(lists);
    let mut from = 0usize;
    while from < longest {
        let until = from.saturating_add(round);
        feed_round(alloc, share, nodes, columns, net, lists, from, until)?;
        from = until;
    }
    settle(alloc, net)?;
    Ok(())
}
