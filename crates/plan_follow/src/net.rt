ghost use Rattle.std.specs.Prelude.{ℕ, ◌<◌, ◌++◌, List, OnOk, length};
ghost use Rattle.cedr_base.specs.Messages.{IsLegal};
ghost use Rattle.cedr_net.specs.Flows.{IsSourceAt};
ghost use Rattle.cedr_net.specs.Networks.{HasSettled, NetStands};
ghost use Rattle.cedr_plan.specs.declared.plan.PlanNode.{PlanNode};
ghost use Rattle.node_laws.specs.Lists.{Lists, list_at};
ghost use Rattle.plan_follow.specs.Playing.{IsStill, IsStillBehind};

use cedr_base::{Message, OutOfMemory};
use cedr_net::StreamNet;
use std::alloc::Global;

/// The network goes on until no message waits.
fn settle_stream(alloc: Global, net: &mut StreamNet) -> Result<(), OutOfMemory>
    requires { (nodes : List PlanNode) × (ports : List Lists) × (given : Lists) × NetStands nodes net.old ports given }
    ensures { OnOk result ((nodes : List PlanNode) (ports : List Lists) (given : Lists) → NetStands nodes net.old ports given → HasSettled nodes net.new ports given) }
{
    match net.settle(alloc) {
        Ok(()) => Ok(()),
        Err(_) => Err(OutOfMemory),
    }
}

/// Feeds the messages of a source, and then the network settles.
pub(crate) fn feed_still(
    alloc: Global,
    net: &mut StreamNet,
    place: usize,
    messages: Vec<Message>,
) -> Result<(), OutOfMemory>
    requires { (nodes : List PlanNode) × (given : Lists) × IsStill nodes net.old given × (place < length nodes) × IsSourceAt nodes place × IsLegal (list_at given place ++ messages.items) }
    ensures { OnOk result ((nodes : List PlanNode) (given : Lists) → IsStill nodes net.old given → place < length nodes → IsSourceAt nodes place → IsLegal (list_at given place ++ messages.items) → IsStillBehind nodes net.new given place messages.items) }
{
    match net.feed_all(alloc, place, messages) {
        Ok(()) => settle_stream(alloc, net),
        Err(_) => Err(OutOfMemory),
    }
}
