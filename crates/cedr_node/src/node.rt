ghost use Rattle.std.specs.Prelude.{◌≡◌, ◌<◌, ◌++◌, ◌∷◌, [], List, true, false, ◌↔◌, OnOk, OnErr, IfOk, IsErrOf, length, replicate};
ghost use Rattle.cedr_base.specs.declared.change.Message.{Message};
ghost use Rattle.node_laws.specs.Kept.{forgot};
ghost use Rattle.node_laws.specs.Pass.{HasBlockWithin};
ghost use Rattle.node_laws.specs.Lists.{Lists, list_at, with_more};
ghost use Rattle.node_laws.specs.Lawful.{any_broken, all_over};
ghost use Rattle.op_driver.specs.Driving.{MayTake};
ghost use Rattle.cedr_plan.specs.Drawn.{node_of};
ghost use Rattle.cedr_node.specs.declared.fault.NodeFault.TheVariants.{OutOfMemory as NoMemory, Spent};
ghost use Rattle.cedr_node.specs.Nodes.{made_of, is_spent, port_count, meaning_in, held_in, levels_in, NodeStands};
ghost use Rattle.cedr_node.specs.Standing.{HoldsAtFronts};
ghost use Rattle.op_node.specs.Ready.{IsReady};

use crate::aligned::Aligned;
use crate::fault::NodeFault;
use cedr_base::{Level, Message, OutOfMemory};
use cedr_plan::PlanNode;
use node_laws::Forgotten;
use op_node::{NodeOperator, node_operator};
use std::alloc::Global;

/// A node of a plan that takes messages: the operator of its kind, with an aligner of its level on each port.
pub struct Node {
    /// The node of the plan.
    made_of: PlanNode,
    works: Box<Aligned<NodeOperator>>,
    /// Whether memory ran out in a call.
    spent: bool,
}

impl Drop for Node {
    fn drop(self) {
        let Node {
            made_of: _,
            works: _,
            spent: _,
        } = self;
    }
}

/// The same level for each port.
fn same_levels(alloc: Global, level: Level, ports: usize) -> Result<Vec<Level>, OutOfMemory>
    ensures { IfOk result (λ levels. levels.items ≡ replicate ports level) }
{
    let mut levels = Vec::new(alloc);
    for _ in 0..ports {
        levels.push(level)?;
    }
    Ok(levels)
}

impl Node {
    /// A node of a plan that took nothing. The node is no source, and is as an accepted plan has it.
    pub fn new(alloc: Global, node: &PlanNode) -> Result<Node, OutOfMemory>
        requires ready { IsReady node.now.kind (length node.now.inputs.items) }
        requires level { HasBlockWithin node.now.level }
        ensures made_of { IfOk result (λ a. node_of (made_of a) ≡ node_of node.now) }
        ensures ports { IfOk result (λ a. port_count a ≡ length node.now.inputs.items) }
        ensures stands { IfOk result (λ a. NodeStands a (replicate (length node.now.inputs.items) []) []) }
    {
        let ports = node.inputs.len();
        let made_of = node.copy(alloc)?;
        let op = node_operator(alloc, &node.kind, ports)?;
        let levels = same_levels(alloc, node.level, ports)?;
        let aligned = Aligned::new(alloc, op, levels.as_slice())?;
        let works = Box::new(alloc, aligned)?;
        Ok(Node {
            made_of,
            works,
            spent: false,
        })
    }

    /// Takes a message on a port that may come after those before it there, and appends what the node gives for it:
    /// the repairs of its result, a mark where the bound rose, and `End` with the last of its ports. Once a port broke
    /// it gives one `Broken`, with the last of its ports, and nothing else. Afterwards its operator holds only rows
    /// that may still matter at its ports' fronts, unless a port broke: what it forgets takes O(log n) for each row,
    /// and where none is due a look at one row for each port. Where memory runs out nothing is appended, and each later
    /// call is refused as [`NodeFault::Spent`].
    pub fn take(
        &mut self,
        alloc: Global,
        port: usize,
        message: Message,
        out: &mut Vec<Message>,
    ) -> Result<(), NodeFault>
        requires { is_spent self.old ≡ false → (lists : Lists) × (given : List Message) × NodeStands self.old lists given × MayTake lists port message }
        ensures taken { OnOk result ((lists : Lists) (given : List Message) → NodeStands self.old lists given → MayTake lists port message → (piece : List Message) × (out.new.items ≡ out.old.items ++ piece) × NodeStands self.new (with_more lists port (message ∷ [])) (given ++ piece)) }
        ensures holds { OnOk result ((lists : Lists) (given : List Message) → NodeStands self.old lists given → MayTake lists port message → any_broken (with_more lists port (message ∷ [])) ≡ false → HoldsAtFronts (meaning_in self.new) (levels_in self.new) (with_more lists port (message ∷ [])) (held_in self.new)) }
        ensures err { OnErr result (out.new.items ≡ out.old.items) }
        ensures made_of { made_of self.new ≡ made_of self.old }
        ensures meaning { meaning_in self.new ≡ meaning_in self.old }
        ensures levels { levels_in self.new ≡ levels_in self.old }
        ensures ports { port_count self.new ≡ port_count self.old }
        ensures usable { OnOk result (is_spent self.new ≡ false) }
        ensures spent { IsErrOf result Spent ↔ (is_spent self.old ≡ true) }
        ensures spends { IsErrOf result NoMemory → is_spent self.new ≡ true }
        ensures stays_spent { is_spent self.old ≡ true → is_spent self.new ≡ true }
    {
        if self.spent {
            return Err(NodeFault::Spent);
        }
        match self.works.take(alloc, port, message, out) {
            Ok(()) => Ok(()),
            Err(OutOfMemory) => {
                self.spent = true;
                Err(NodeFault::OutOfMemory)
            }
        }
    }

    /// What was forgotten on a port, in the order in which it came. It takes no memory.
    pub fn forgotten(&self, port: usize) -> &[Forgotten]
        requires { port < port_count self.now }
        ensures { (lists : Lists) (given : List Message) → NodeStands self.now lists given → result.now ≡ forgot (made_of self.now).level.memory (list_at lists port) }
    {
        self.works.forgotten(port)
    }

    /// Whether each port has ended or broken. It takes no memory.
    pub fn ended(&self) -> bool
        ensures { (lists : Lists) (given : List Message) → NodeStands self.now lists given → result ≡ all_over lists }
    {
        self.works.ended()
    }
}
