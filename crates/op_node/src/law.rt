ghost use Rattle.std.specs.Prelude.{ℕ, ◌≡◌};
ghost use Rattle.cedr_plan.specs.declared.plan.NodeKind.{NodeKind};
ghost use Rattle.cedr_plan.specs.declared.plan.PlanNode.{PlanNode};
ghost use Rattle.cedr_plan.specs.Drawn.{node_of};
ghost use Rattle.op_node.specs.Meanings.{node_meaning, meaning_of};
ghost use Rattle.op_node.specs.MeaningLaws.{MeaningLaws};
ghost use Rattle.op_node.specs.Ready.{IsReady};

/// The laws of what a plan's node means, with no operator and no state of one: each kind that an accepted plan has but
/// a source keeps them, and what a node means depends on its kind and on the number of its ports alone.
pub fn node_meanings()
    ensures lawful { (kind : NodeKind) (ports : ℕ) → IsReady kind ports → MeaningLaws (node_meaning kind ports) ports }
    ensures alike { (a b : PlanNode) → node_of a ≡ node_of b → meaning_of a ≡ meaning_of b }
{}
