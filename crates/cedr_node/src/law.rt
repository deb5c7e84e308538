ghost use Rattle.std.specs.Prelude.{ℕ, ◌≡◌, List, false, length};
ghost use Rattle.cedr_base.specs.declared.change.Message.{Message};
ghost use Rattle.cedr_base.specs.Messages.{IsLegal};
ghost use Rattle.node_laws.specs.Lists.{Lists, list_at};
ghost use Rattle.node_laws.specs.Lawful.{IsLawful};
ghost use Rattle.node_laws.specs.Pass.{HasBlockWithin};
ghost use Rattle.cedr_plan.specs.Drawn.{Node as DrawnNode, node_of};
ghost use Rattle.cedr_plan.specs.Rules.{IsNode};
ghost use Rattle.cedr_plan.specs.declared.plan.PlanNode.{PlanNode};
ghost use Rattle.cedr_node.specs.declared.node.Node.{Node};
ghost use Rattle.cedr_node.specs.Nodes.{made_of, is_spent, port_count, NodeStands};
ghost use Rattle.op_node.specs.Meanings.{meaning_of, port_levels};
ghost use Rattle.op_node.specs.Ready.{IsReady};
ghost use Rattle.cedr_plan.specs.Places.{is_source};

/// The law of the nodes of plans: a node that an accepted plan has after others, and that is no source, meets what
/// [`crate::Node::new`] asks of it.
pub fn accepted_nodes()
    ensures ready { (earlier : List DrawnNode) (node : PlanNode) → IsNode earlier (node_of node) → is_source node.kind ≡ false → IsReady node.kind (length node.inputs.items) }
    ensures level { (earlier : List DrawnNode) (node : PlanNode) → IsNode earlier (node_of node) → HasBlockWithin node.level }
{}

/// The law of standing nodes: a node that stands between lists isn't spent, and is lawful between them, as the plan's
/// node means and at its level on each port. There is a list for each port, one for each input of the plan's node, and
/// these lists are legal.
pub fn standing_nodes()
    ensures usable { (node : Node) (lists : Lists) (given : List Message) → NodeStands node lists given → is_spent node ≡ false }
    ensures lawful { (node : Node) (lists : Lists) (given : List Message) → NodeStands node lists given → IsLawful (meaning_of (made_of node)) (port_levels (made_of node)) lists given }
    ensures inputs { (node : Node) (lists : Lists) (given : List Message) → NodeStands node lists given → length lists ≡ length (made_of node).inputs.items }
    ensures ports { (node : Node) (lists : Lists) (given : List Message) → NodeStands node lists given → length lists ≡ port_count node }
    ensures legal { (node : Node) (lists : Lists) (given : List Message) → NodeStands node lists given → (port : ℕ) → IsLegal (list_at lists port) }
{}
