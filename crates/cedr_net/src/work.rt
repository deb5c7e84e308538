ghost use Rattle.std.specs.Prelude.{◌≡◌, ◌<◌, ◌++◌, ◌∷◌, [], List, false, true, OnOk, IfOk, length, slice_index_or};
ghost use Rattle.cedr_base.specs.declared.change.Message.{Message};
ghost use Rattle.op_driver.specs.Driving.{MayTake};
ghost use Rattle.node_laws.specs.Kept.{forgot};
ghost use Rattle.node_laws.specs.Lawful.{all_over};
ghost use Rattle.node_laws.specs.Lists.{Lists, list_at, with_more};
ghost use Rattle.node_laws.specs.Pass.{HasBlockWithin};
ghost use Rattle.cedr_plan.specs.declared.plan.PlanNode.{PlanNode};
ghost use Rattle.op_node.specs.Ready.{IsReady};
ghost use Rattle.cedr_plan.specs.Places.{is_source};
ghost use Rattle.cedr_net.specs.declared.work.Work.{Work};
ghost use Rattle.cedr_net.specs.Flows.{WorksAt, PortAt, no_ports};

use cedr_base::{Message, OutOfMemory};
use cedr_node::Node;
use cedr_plan::{PlanNode, is_source};
use node_laws::Forgotten;
use std::alloc::Global;

/// The node that works at a place of a plan. A source has none.
#[derive(Drop)]
pub(crate) struct Work {
    pub(crate) node: Option<Node>,
}

impl Work {
    /// What works as a node of a plan, to which nothing came.
    pub(crate) fn new(alloc: Global, node: &PlanNode) -> Result<Work, OutOfMemory>
        requires ready { is_source node.now.kind ≡ false → IsReady node.now.kind (length node.now.inputs.items) }
        requires level { HasBlockWithin node.now.level }
        ensures { IfOk result (λ work. WorksAt work node.now (no_ports node.now) []) }
    {
        if is_source(&node.kind) {
            return Ok(Work { node: None });
        }
        let made = Node::new(alloc, node)?;
        Ok(Work { node: Some(made) })
    }

    /// The node takes a message, and appends what it gives for it.
    pub(crate) fn take(
        &mut self,
        alloc: Global,
        port: usize,
        message: Message,
        out: &mut Vec<Message>,
    ) -> Result<(), OutOfMemory>
        requires { (n : PlanNode) × (lists : Lists) × (given : List Message) × (is_source n.kind ≡ false) × WorksAt self.old n lists given × MayTake lists port message }
        ensures { OnOk result ((n : PlanNode) (lists : Lists) (given : List Message) → is_source n.kind ≡ false → WorksAt self.old n lists given → MayTake lists port message → (piece : List Message) × (out.new.items ≡ out.old.items ++ piece) × WorksAt self.new n (with_more lists port (message ∷ [])) (given ++ piece)) }
    {
        match &mut self.node {
            None => unreachable!(),
            Some(node) => match node.take(alloc, port, message, out) {
                Ok(()) => Ok(()),
                Err(_) => Err(OutOfMemory),
            },
        }
    }
}

/// What the node at a place forgot on a port.
pub(crate) fn forgotten_at(works: &[Work], place: usize, port: usize) -> &[Forgotten]
    requires { PortAt works.now place port }
    ensures { (n : PlanNode) (lists : Lists) (given : List Message) → is_source n.kind ≡ false → ((d : Work) → WorksAt (slice_index_or works.now place d) n lists given) → result.now ≡ forgot n.level.memory (list_at lists port) }
{
    match &works[place].node {
        None => unreachable!(),
        Some(node) => node.forgotten(port),
    }
}

/// Whether the node at a place has ended or broken on each port.
pub(crate) fn ended_at(works: &[Work], place: usize) -> bool
    ensures { (n : PlanNode) (lists : Lists) (given : List Message) → place < length works.now → is_source n.kind ≡ false → ((d : Work) → WorksAt (slice_index_or works.now place d) n lists given) → result ≡ all_over lists }
{
    match works.get(place) {
        Some(Work { node: Some(node) }) => node.ended(),
        _ => false,
    }
}
