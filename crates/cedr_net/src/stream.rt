ghost use Rattle.std.specs.Prelude.{ℕ, ◌≡◌, ◌<◌, ◌≤◌, ◌+◌, ◌^◌, ◌↔◌, ◌++◌, ◌∷◌, [], List, true, false, OnOk, IfOk, IfSome, IfNone, IsErrOf, length, map, replicate};
ghost use Rattle.cedr_base.specs.Messages.{MayCome, IsLegal};
ghost use Rattle.node_laws.specs.Lists.{Lists, list_at, with_more};
ghost use Rattle.cedr_plan.specs.declared.plan.PlanNode.{PlanNode};
ghost use Rattle.cedr_plan.specs.Rules.{IsPlan};
ghost use Rattle.cedr_plan.specs.Places.{output_place};
ghost use Rattle.cedr_net.specs.declared.net.NetFault.TheVariants.{OutOfMemory as NoMemory, Spent};
ghost use Rattle.cedr_net.specs.Flows.{IsSourceAt, no_ports};
ghost use Rattle.cedr_net.specs.Networks.{is_net_spent, stream_taken, stream_left, waiting_at, NetStands, IsNetTurn, HasSettled, TakesOn};

use crate::keeping::Keeping;
use crate::net::NetFault;
use crate::network::Network;
use cedr_base::{Message, OutOfMemory};
use cedr_plan::Plan;
use std::alloc::Global;
use std::marker::Model;

/// A plan's network on one thread that hands on what its output gives: it keeps no row and no change of it, but the messages
/// that weren't taken yet. Nodes are numbered by their places in the plan, from 0.
///
/// It stands for the lists of messages that went over its edges, as a [`SerialNet`](crate::SerialNet) does, under the same
/// clauses.
pub struct StreamNet {
    net: Network,
}

impl Model for StreamNet {
    ghost use Rattle.std.specs.Prelude.{◌≡◌, true};
    ghost use Rattle.cedr_net.specs.declared.network.Network.{Network as Networked};
    ghost use Rattle.cedr_net.specs.contracts.network.Network as networked;
    ghost use Rattle.cedr_net.specs.Keeping.{hands_on};

    ghost Value = { Networked };

    ghost coded = { networked.the_row.coded };

    ghost view = { λ n. n.net };

    ghost invariant = { λ n. hands_on n.net.flow.answer.keeps ≡ true };
}

impl Drop for StreamNet {
    fn drop(self) {
        let StreamNet { net: _ } = self;
    }
}

impl StreamNet {
    /// The network of a plan, to which nothing came, and of which no message was taken. O(n * n) in the plan's nodes.
    pub fn new(alloc: Global, plan: &Plan) -> Result<StreamNet, OutOfMemory>
        requires { IsPlan plan.now }
        ensures stands { IfOk result (λ net. NetStands plan.now.nodes.items net (map no_ports plan.now.nodes.items) (replicate (length plan.now.nodes.items) [])) }
        ensures taken { IfOk result (λ net. stream_taken net ≡ 0) }
    {
        let net = Network::new(alloc, plan, Keeping::Messages(0))?;
        Ok(StreamNet { net })
    }

    /// A message of a source, which may come after those before it, waits on each port that reads it. It is copied for
    /// each such port but the last one.
    pub fn feed(&mut self, alloc: Global, node: usize, message: Message) -> Result<(), NetFault>
        requires { is_net_spent self.old ≡ false → (nodes : List PlanNode) × (ports : List Lists) × (given : Lists) × NetStands nodes self.old ports given × (node < length nodes) × IsSourceAt nodes node × MayCome (list_at given node) message }
        ensures fed { OnOk result ((nodes : List PlanNode) (ports : List Lists) (given : Lists) → NetStands nodes self.old ports given → node < length nodes → IsSourceAt nodes node → MayCome (list_at given node) message → NetStands nodes self.new ports (with_more given node (message ∷ []))) }
        ensures spent { IsErrOf result Spent ↔ (is_net_spent self.old ≡ true) }
        ensures spends { IsErrOf result NoMemory → is_net_spent self.new ≡ true }
        ensures stays_spent { is_net_spent self.old ≡ true → is_net_spent self.new ≡ true }
        ensures taken { stream_taken self.new ≡ stream_taken self.old }
    {
        self.net.feed(alloc, node, message)
    }

    /// Messages of a source, one after the other, as [`StreamNet::feed`] takes each. At an error some of them may wait.
    pub fn feed_all(
        &mut self,
        alloc: Global,
        node: usize,
        messages: Vec<Message>,
    ) -> Result<(), NetFault>
        requires { is_net_spent self.old ≡ false → (nodes : List PlanNode) × (ports : List Lists) × (given : Lists) × NetStands nodes self.old ports given × (node < length nodes) × IsSourceAt nodes node × IsLegal (list_at given node ++ messages.items) }
        ensures fed { OnOk result ((nodes : List PlanNode) (ports : List Lists) (given : Lists) → NetStands nodes self.old ports given → node < length nodes → IsSourceAt nodes node → IsLegal (list_at given node ++ messages.items) → NetStands nodes self.new ports (with_more given node messages.items)) }
        ensures spent { IsErrOf result Spent ↔ (is_net_spent self.old ≡ true) }
        ensures spends { IsErrOf result NoMemory → is_net_spent self.new ≡ true }
        ensures stays_spent { is_net_spent self.old ≡ true → is_net_spent self.new ≡ true }
        ensures taken { stream_taken self.new ≡ stream_taken self.old }
    {
        self.net.feed_all(alloc, node, messages)
    }

    /// The node takes the first message of its first port on which one waits, and what it gives waits on the ports that
    /// read it, or is the output's. Whether a message waited: a source has no port, so it never takes one.
    pub fn turn(&mut self, alloc: Global, node: usize) -> Result<bool, NetFault>
        requires { is_net_spent self.old ≡ false → (nodes : List PlanNode) × (ports : List Lists) × (given : Lists) × NetStands nodes self.old ports given × (node < length nodes) }
        ensures turned { IfOk result (λ moved. (nodes : List PlanNode) (ports : List Lists) (given : Lists) → NetStands nodes self.old ports given → node < length nodes → IsNetTurn nodes self.old self.new ports given node moved) }
        ensures spent { IsErrOf result Spent ↔ (is_net_spent self.old ≡ true) }
        ensures spends { IsErrOf result NoMemory → is_net_spent self.new ≡ true }
        ensures stays_spent { is_net_spent self.old ≡ true → is_net_spent self.new ≡ true }
        ensures taken { stream_taken self.new ≡ stream_taken self.old }
    {
        self.net.turn(alloc, node)
    }

    /// Nodes are turned until no message waits. They go in the order of the plan, so that each takes all that waits on its
    /// ports once and for good, port by port.
    pub fn settle(&mut self, alloc: Global) -> Result<(), NetFault>
        requires { is_net_spent self.old ≡ false → (nodes : List PlanNode) × (ports : List Lists) × (given : Lists) × NetStands nodes self.old ports given }
        ensures settled { OnOk result ((nodes : List PlanNode) (ports : List Lists) (given : Lists) → NetStands nodes self.old ports given → HasSettled nodes self.new ports given) }
        ensures spent { IsErrOf result Spent ↔ (is_net_spent self.old ≡ true) }
        ensures spends { IsErrOf result NoMemory → is_net_spent self.new ≡ true }
        ensures stays_spent { is_net_spent self.old ≡ true → is_net_spent self.new ≡ true }
        ensures taken { stream_taken self.new ≡ stream_taken self.old }
    {
        self.net.settle(alloc)
    }

    /// Takes the messages that the output gave from the one of this number on, from 0: none is kept then. It gives them only
    /// where that many were taken before. It takes no memory.
    pub fn take_messages(&mut self, from: u64) -> Option<Vec<Message>>
        ensures taken { IfSome result (λ taken. (nodes : List PlanNode) (ports : List Lists) (given : Lists) → NetStands nodes self.old ports given → TakesOn (list_at given (output_place nodes)) from taken.items × NetStands nodes self.new ports given) }
        ensures next { IfSome result (λ taken. (from ≡ stream_taken self.old) × (stream_taken self.new ≡ from + length taken.items) × (stream_left self.new ≡ [])) }
        ensures none { IfNone result ((self.new ≡ self.old) × (from ≡ stream_taken self.old → 2 ^ 64 ≤ from + length (stream_left self.old))) }
        ensures waits { (place : ℕ) → waiting_at self.new place ≡ waiting_at self.old place }
        ensures spent { is_net_spent self.new ≡ is_net_spent self.old }
    {
        let taken = self.net.flow.answer.take_from(from)?;
        Some(taken)
    }
}
