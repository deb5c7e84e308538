ghost use Rattle.std.specs.Prelude.{ℕ, ◌≡◌, ◌<◌, ◌↔◌, ◌++◌, ◌∷◌, [], List, All, true, false, OnOk, IfOk, IsErrOf, length, map, replicate};
ghost use Rattle.cedr_base.specs.Messages.{MayCome, IsLegal, changes_of, mark_of};
ghost use Rattle.node_laws.specs.Kept.{forgot};
ghost use Rattle.node_laws.specs.Lawful.{all_over};
ghost use Rattle.node_laws.specs.Lists.{Lists, list_at, with_more};
ghost use Rattle.cedr_plan.specs.declared.plan.PlanNode.{PlanNode};
ghost use Rattle.cedr_plan.specs.Rules.{IsPlan};
ghost use Rattle.cedr_plan.specs.Places.{output_place};
ghost use Rattle.plan_runs.specs.Runs.{lists_at};
ghost use Rattle.cedr_net.specs.declared.net.NetFault.TheVariants.{OutOfMemory as NoMemory, Spent};
ghost use Rattle.cedr_net.specs.Flows.{IsSourceAt, no_ports};
ghost use Rattle.cedr_net.specs.Networks.{is_net_spent, keeps_changes, AreAnswerRows, NetStands, HasPort, IsNetTurn, HasSettled, IsScheduled};

use crate::keeping::Keeping;
use crate::network::Network;
use crate::work::{ended_at, forgotten_at};
use cedr_base::{Change, Message, OutOfMemory, Row, Time};
use cedr_plan::Plan;
use node_laws::Forgotten;
use std::alloc::Global;
use std::marker::Model;
use thiserror::Error;

/// Why a network gives no answer.
#[derive(Clone, Copy, Debug, PartialEq, Eq, Error)]
pub enum NetFault {
    /// Memory ran out. Each later call that takes a message or runs a node is refused as spent.
    #[error("out of memory")]
    OutOfMemory,
    /// Memory ran out in an earlier call, so what the network stands for isn't known any more.
    #[error("the network is spent: memory ran out in an earlier call")]
    Spent,
}

/// A plan's network on one thread, which keeps the table of what its output gives. Nodes are numbered by their places in the
/// plan, from 0.
///
/// It stands for the lists of messages that went over its edges, which it doesn't keep. Each clause speaks of all such
/// lists.
pub struct SerialNet {
    net: Network,
}

impl Model for SerialNet {
    ghost use Rattle.std.specs.Prelude.{◌≡◌, false};
    ghost use Rattle.cedr_net.specs.declared.network.Network.{Network as Networked};
    ghost use Rattle.cedr_net.specs.contracts.network.Network as networked;
    ghost use Rattle.cedr_net.specs.Keeping.{hands_on};

    ghost Value = { Networked };

    ghost coded = { networked.the_row.coded };

    ghost view = { λ n. n.net };

    ghost invariant = { λ n. hands_on n.net.flow.answer.keeps ≡ false };
}

impl Drop for SerialNet {
    fn drop(self) {
        let SerialNet { net: _ } = self;
    }
}

impl SerialNet {
    /// The network of a plan, to which nothing came. It keeps each change that the output gives. O(n * n) in the plan's
    /// nodes.
    pub fn new(alloc: Global, plan: &Plan) -> Result<SerialNet, OutOfMemory>
        requires { IsPlan plan.now }
        ensures stands { IfOk result (λ net. NetStands plan.now.nodes.items net (map no_ports plan.now.nodes.items) (replicate (length plan.now.nodes.items) [])) }
        ensures keeps { IfOk result (λ net. keeps_changes net ≡ true) }
    {
        let net = Network::new(alloc, plan, Keeping::Changes)?;
        Ok(SerialNet { net })
    }

    /// The same, but of what the output gives it keeps the table alone: what is held then doesn't grow with the number of
    /// changes.
    pub fn of_table(alloc: Global, plan: &Plan) -> Result<SerialNet, OutOfMemory>
        requires { IsPlan plan.now }
        ensures { IfOk result (λ net. NetStands plan.now.nodes.items net (map no_ports plan.now.nodes.items) (replicate (length plan.now.nodes.items) [])) }
    {
        let net = Network::new(alloc, plan, Keeping::Rows)?;
        Ok(SerialNet { net })
    }

    /// A message of a source, which may come after those before it, waits on each port that reads it. It is copied for
    /// each such port but the last one.
    pub fn feed(&mut self, alloc: Global, node: usize, message: Message) -> Result<(), NetFault>
        requires { is_net_spent self.old ≡ false → (nodes : List PlanNode) × (ports : List Lists) × (given : Lists) × NetStands nodes self.old ports given × (node < length nodes) × IsSourceAt nodes node × MayCome (list_at given node) message }
        ensures fed { OnOk result ((nodes : List PlanNode) (ports : List Lists) (given : Lists) → NetStands nodes self.old ports given → node < length nodes → IsSourceAt nodes node → MayCome (list_at given node) message → NetStands nodes self.new ports (with_more given node (message ∷ []))) }
        ensures spent { IsErrOf result Spent ↔ (is_net_spent self.old ≡ true) }
        ensures spends { IsErrOf result NoMemory → is_net_spent self.new ≡ true }
        ensures stays_spent { is_net_spent self.old ≡ true → is_net_spent self.new ≡ true }
        ensures keeps { keeps_changes self.new ≡ keeps_changes self.old }
    {
        self.net.feed(alloc, node, message)
    }

    /// Messages of a source, one after the other, as [`SerialNet::feed`] takes each. At an error some of them may wait.
    pub fn feed_all(
        &mut self,
        alloc: Global,
        node: usize,
        messages: Vec<Message>,
    ) -> Result<(), NetFault>
        requires { is_net_spent self.old ≡ false → (nodes : List PlanNode) × (ports : List Lists) × (given : Lists) × NetStands nodes self.old ports given × (node < length nodes) × IsSourceAt nodes node × IsLegal (list_at given node ++ messages.items) }
        ensures fed { OnOk result ((nodes : List PlanNode) (ports : List Lists) (given : Lists) → NetStands nodes self.old ports given → node < length nodes → IsSourceAt nodes node → IsLegal (list_at given node ++ messages.items) → NetStands nodes self.new ports (with_more given node messages.items)) }
        ensures spent { IsErrOf result Spent ↔ (is_net_spent self.old ≡ true) }
        ensures spends { IsErrOf result NoMemory → is_net_spent self.new ≡ true }
        ensures stays_spent { is_net_spent self.old ≡ true → is_net_spent self.new ≡ true }
        ensures keeps { keeps_changes self.new ≡ keeps_changes self.old }
    {
        self.net.feed_all(alloc, node, messages)
    }

    /// The node takes the first message of its first port on which one waits, and what it gives waits on the ports that
    /// read it, or is the output's. Whether a message waited: a source has no port, so it never takes one.
    pub fn turn(&mut self, alloc: Global, node: usize) -> Result<bool, NetFault>
        requires { is_net_spent self.old ≡ false → (nodes : List PlanNode) × (ports : List Lists) × (given : Lists) × NetStands nodes self.old ports given × (node < length nodes) }
        ensures turned { IfOk result (λ moved. (nodes : List PlanNode) (ports : List Lists) (given : Lists) → NetStands nodes self.old ports given → node < length nodes → IsNetTurn nodes self.old self.new ports given node moved) }
        ensures spent { IsErrOf result Spent ↔ (is_net_spent self.old ≡ true) }
        ensures spends { IsErrOf result NoMemory → is_net_spent self.new ≡ true }
        ensures stays_spent { is_net_spent self.old ≡ true → is_net_spent self.new ≡ true }
        ensures keeps { keeps_changes self.new ≡ keeps_changes self.old }
    {
        self.net.turn(alloc, node)
    }

    /// Nodes are turned until no message waits. They go in the order of the plan, so that each takes all that waits on its
    /// ports once and for good, port by port.
    pub fn settle(&mut self, alloc: Global) -> Result<(), NetFault>
        requires { is_net_spent self.old ≡ false → (nodes : List PlanNode) × (ports : List Lists) × (given : Lists) × NetStands nodes self.old ports given }
        ensures settled { OnOk result ((nodes : List PlanNode) (ports : List Lists) (given : Lists) → NetStands nodes self.old ports given → HasSettled nodes self.new ports given) }
        ensures spent { IsErrOf result Spent ↔ (is_net_spent self.old ≡ true) }
        ensures spends { IsErrOf result NoMemory → is_net_spent self.new ≡ true }
        ensures stays_spent { is_net_spent self.old ≡ true → is_net_spent self.new ≡ true }
        ensures keeps { keeps_changes self.new ≡ keeps_changes self.old }
    {
        self.net.settle(alloc)
    }

    /// The nodes are turned in this order, each as [`SerialNet::turn`] does.
    pub fn run_schedule(&mut self, alloc: Global, schedule: &[usize]) -> Result<(), NetFault>
        requires { is_net_spent self.old ≡ false → (nodes : List PlanNode) × (ports : List Lists) × (given : Lists) × NetStands nodes self.old ports given × All (λ (place : ℕ). place < length nodes) schedule.now }
        ensures turned { OnOk result (is_net_spent self.old ≡ false → (nodes : List PlanNode) (ports : List Lists) (given : Lists) → NetStands nodes self.old ports given → All (λ (place : ℕ). place < length nodes) schedule.now → IsScheduled nodes self.old self.new ports given schedule.now) }
        ensures spent { IsErrOf result Spent ↔ (is_net_spent self.old ≡ true) }
        ensures spends { IsErrOf result NoMemory → is_net_spent self.new ≡ true }
        ensures stays_spent { is_net_spent self.old ≡ true → is_net_spent self.new ≡ true }
        ensures keeps { keeps_changes self.new ≡ keeps_changes self.old }
    {
        self.net.run_schedule(alloc, schedule)
    }

    /// The table of what the output gave: its rows in canonical order, copied. O(n).
    pub fn rows(&self) -> Result<Vec<Row>, OutOfMemory>
        ensures { IfOk result (λ rows. (nodes : List PlanNode) (ports : List Lists) (given : Lists) → NetStands nodes self.now ports given → AreAnswerRows (list_at given (output_place nodes)) rows.items) }
    {
        let rows = self.net.flow.answer.rows()?;
        Ok(rows)
    }

    /// The same rows of a network that isn't needed any more. They are moved: those that end below the last mark of the
    /// output at once, and the others in O(log n) each.
    pub fn into_rows(self) -> Result<Vec<Row>, OutOfMemory>
        ensures { IfOk result (λ rows. (nodes : List PlanNode) (ports : List Lists) (given : Lists) → NetStands nodes self ports given → AreAnswerRows (list_at given (output_place nodes)) rows.items) }
    {
        let SerialNet { net } = self;
        let Network { flow, spent: _ } = net;
        let rows = flow.answer.into_rows()?;
        Ok(rows)
    }

    /// The changes that the output gave, in order, where the network was made by [`SerialNet::new`], which keeps them. It
    /// takes no memory.
    pub fn changes(&self) -> &[Change]
        ensures { (nodes : List PlanNode) (ports : List Lists) (given : Lists) → NetStands nodes self.now ports given → keeps_changes self.now ≡ true → result.now ≡ changes_of (list_at given (output_place nodes)) }
    {
        self.net.flow.answer.changes.as_slice()
    }

    /// The last mark that came on the output's port, 0 at first. It takes no memory.
    pub fn reach(&self) -> Time
        ensures { (nodes : List PlanNode) (ports : List Lists) (given : Lists) → NetStands nodes self.now ports given → result ≡ mark_of (list_at (lists_at ports (output_place nodes)) 0) }
    {
        self.net.flow.reach
    }

    /// What was forgotten on a port of a node, in the order in which it came. It takes no memory.
    pub fn forgotten(&self, node: usize, port: usize) -> &[Forgotten]
        requires { HasPort self.now node port }
        ensures { (nodes : List PlanNode) (ports : List Lists) (given : Lists) → NetStands nodes self.now ports given → (before after : List PlanNode) (n : PlanNode) → nodes ≡ before ++ n ∷ after → length before ≡ node → result.now ≡ forgot n.level.memory (list_at (lists_at ports node) port) }
    {
        forgotten_at(self.net.flow.works.as_slice(), node, port)
    }

    /// Whether the output's port has ended or broken: nothing comes of the output any more. It takes no memory.
    pub fn ended(&self) -> bool
        ensures { (nodes : List PlanNode) (ports : List Lists) (given : Lists) → NetStands nodes self.now ports given → result ≡ all_over (lists_at ports (output_place nodes)) }
    {
        ended_at(self.net.flow.works.as_slice(), self.net.flow.output)
    }
}
