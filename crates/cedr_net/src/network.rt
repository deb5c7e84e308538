ghost use Rattle.std.specs.Prelude.{ℕ, ◌≡◌, ◌<◌, ◌↔◌, ◌++◌, ◌∷◌, [], List, All, true, false, OnOk, IfOk, IsErrOf, length, map, replicate};
ghost use Rattle.cedr_base.specs.Messages.{MayCome, IsLegal};
ghost use Rattle.node_laws.specs.Lists.{Lists, list_at, with_more};
ghost use Rattle.cedr_plan.specs.declared.plan.PlanNode.{PlanNode};
ghost use Rattle.cedr_plan.specs.Rules.{IsPlan};
ghost use Rattle.cedr_net.specs.declared.net.NetFault.TheVariants.{OutOfMemory as NoMemory, Spent};
ghost use Rattle.cedr_net.specs.Flows.{IsSourceAt, no_ports};
ghost use Rattle.cedr_net.specs.Keeping.{taken_number};
ghost use Rattle.cedr_net.specs.Networks.{is_net_spent, NetStands, IsNetTurn, HasSettled, IsScheduled};

use crate::flow::Flow;
use crate::keeping::Keeping;
use crate::net::NetFault;
use cedr_base::{Message, OutOfMemory};
use cedr_plan::Plan;
use std::alloc::Global;

/// A plan's network, whatever it keeps of what its output gives. Once memory ran out in a call, each later one that takes a
/// message or runs a node is refused.
#[derive(Drop)]
pub(crate) struct Network {
    pub(crate) flow: Flow,
    /// Whether memory ran out in a call.
    pub(crate) spent: bool,
}

impl Network {
    /// The network of a plan, to which nothing came. O(n * n) in the plan's nodes.
    pub(crate) fn new(alloc: Global, plan: &Plan, keeps: Keeping) -> Result<Network, OutOfMemory>
        requires plan { IsPlan plan.now }
        requires keeps { taken_number keeps ≡ 0 }
        ensures stands { IfOk result (λ net. NetStands plan.now.nodes.items net (map no_ports plan.now.nodes.items) (replicate (length plan.now.nodes.items) [])) }
        ensures keeps { IfOk result (λ net. net.flow.answer.keeps ≡ keeps) }
    {
        let flow = Flow::new(alloc, plan, keeps)?;
        Ok(Network { flow, spent: false })
    }

    /// A message of a source waits on each port that reads it.
    pub(crate) fn feed(
        &mut self,
        alloc: Global,
        node: usize,
        message: Message,
    ) -> Result<(), NetFault>
        requires { is_net_spent self.old ≡ false → (nodes : List PlanNode) × (ports : List Lists) × (given : Lists) × NetStands nodes self.old ports given × (node < length nodes) × IsSourceAt nodes node × MayCome (list_at given node) message }
        ensures fed { OnOk result ((nodes : List PlanNode) (ports : List Lists) (given : Lists) → NetStands nodes self.old ports given → node < length nodes → IsSourceAt nodes node → MayCome (list_at given node) message → NetStands nodes self.new ports (with_more given node (message ∷ []))) }
        ensures spent { IsErrOf result Spent ↔ (is_net_spent self.old ≡ true) }
        ensures spends { IsErrOf result NoMemory → is_net_spent self.new ≡ true }
        ensures stays_spent { is_net_spent self.old ≡ true → is_net_spent self.new ≡ true }
        ensures keeps { self.new.flow.answer.keeps ≡ self.old.flow.answer.keeps }
    {
        if self.spent {
            return Err(NetFault::Spent);
        }
        match self.flow.feed(alloc, node, message) {
            Ok(()) => Ok(()),
            Err(OutOfMemory) => {
                self.spent = true;
                Err(NetFault::OutOfMemory)
            }
        }
    }

    /// Messages of a source, one after the other.
    pub(crate) fn feed_all(
        &mut self,
        alloc: Global,
        node: usize,
        messages: Vec<Message>,
    ) -> Result<(), NetFault>
        requires { is_net_spent self.old ≡ false → (nodes : List PlanNode) × (ports : List Lists) × (given : Lists) × NetStands nodes self.old ports given × (node < length nodes) × IsSourceAt nodes node × IsLegal (list_at given node ++ messages.items) }
        ensures fed { OnOk result ((nodes : List PlanNode) (ports : List Lists) (given : Lists) → NetStands nodes self.old ports given → node < length nodes → IsSourceAt nodes node → IsLegal (list_at given node ++ messages.items) → NetStands nodes self.new ports (with_more given node messages.items)) }
        ensures spent { IsErrOf result Spent ↔ (is_net_spent self.old ≡ true) }
        ensures spends { IsErrOf result NoMemory → is_net_spent self.new ≡ true }
        ensures stays_spent { is_net_spent self.old ≡ true → is_net_spent self.new ≡ true }
        ensures keeps { self.new.flow.answer.keeps ≡ self.old.flow.answer.keeps }
    {
        if self.spent {
            return Err(NetFault::Spent);
        }
        for message in messages {
            self.feed(alloc, node, message)?;
        }
        Ok(())
    }

    /// The node takes the first message of its first port on which one waits. Whether one waited.
    pub(crate) fn turn(&mut self, alloc: Global, node: usize) -> Result<bool, NetFault>
        requires { is_net_spent self.old ≡ false → (nodes : List PlanNode) × (ports : List Lists) × (given : Lists) × NetStands nodes self.old ports given × (node < length nodes) }
        ensures turned { IfOk result (λ moved. (nodes : List PlanNode) (ports : List Lists) (given : Lists) → NetStands nodes self.old ports given → node < length nodes → IsNetTurn nodes self.old self.new ports given node moved) }
        ensures spent { IsErrOf result Spent ↔ (is_net_spent self.old ≡ true) }
        ensures spends { IsErrOf result NoMemory → is_net_spent self.new ≡ true }
        ensures stays_spent { is_net_spent self.old ≡ true → is_net_spent self.new ≡ true }
        ensures keeps { self.new.flow.answer.keeps ≡ self.old.flow.answer.keeps }
    {
        if self.spent {
            return Err(NetFault::Spent);
        }
        match self.flow.turn(alloc, node) {
            Ok(moved) => Ok(moved),
            Err(OutOfMemory) => {
                self.spent = true;
                Err(NetFault::OutOfMemory)
            }
        }
    }

    /// Nodes are turned until no message waits.
    pub(crate) fn settle(&mut self, alloc: Global) -> Result<(), NetFault>
        requires { is_net_spent self.old ≡ false → (nodes : List PlanNode) × (ports : List Lists) × (given : Lists) × NetStands nodes self.old ports given }
        ensures settled { OnOk result ((nodes : List PlanNode) (ports : List Lists) (given : Lists) → NetStands nodes self.old ports given → HasSettled nodes self.new ports given) }
        ensures spent { IsErrOf result Spent ↔ (is_net_spent self.old ≡ true) }
        ensures spends { IsErrOf result NoMemory → is_net_spent self.new ≡ true }
        ensures stays_spent { is_net_spent self.old ≡ true → is_net_spent self.new ≡ true }
        ensures keeps { self.new.flow.answer.keeps ≡ self.old.flow.answer.keeps }
    {
        if self.spent {
            return Err(NetFault::Spent);
        }
        match self.flow.settle(alloc) {
            Ok(()) => Ok(()),
            Err(OutOfMemory) => {
                self.spent = true;
                Err(NetFault::OutOfMemory)
            }
        }
    }

    /// The nodes are turned in this order.
    pub(crate) fn run_schedule(&mut self, alloc: Global, schedule: &[usize]) -> Result<(), NetFault>
        requires { is_net_spent self.old ≡ false → (nodes : List PlanNode) × (ports : List Lists) × (given : Lists) × NetStands nodes self.old ports given × All (λ (place : ℕ). place < length nodes) schedule.now }
        ensures turned { OnOk result (is_net_spent self.old ≡ false → (nodes : List PlanNode) (ports : List Lists) (given : Lists) → NetStands nodes self.old ports given → All (λ (place : ℕ). place < length nodes) schedule.now → IsScheduled nodes self.old self.new ports given schedule.now) }
        ensures spent { IsErrOf result Spent ↔ (is_net_spent self.old ≡ true) }
        ensures spends { IsErrOf result NoMemory → is_net_spent self.new ≡ true }
        ensures stays_spent { is_net_spent self.old ≡ true → is_net_spent self.new ≡ true }
        ensures keeps { self.new.flow.answer.keeps ≡ self.old.flow.answer.keeps }
    {
        if self.spent {
            return Err(NetFault::Spent);
        }
        for node in schedule {
            if let Err(fault) = self.turn(alloc, *node) {
                return Err(fault);
            }
        }
        Ok(())
    }
}
