ghost use Rattle.std.specs.Prelude.{◌≡◌, ◌+◌, ◌^◌, ℕ, List};
ghost use Rattle.cedr_guard.specs.Spelt.{State};
ghost use Rattle.cedr_plan.specs.declared.plan.PlanNode.{PlanNode};
ghost use Rattle.cedr_plan.specs.Rules.{ArePlanned};
ghost use Rattle.cedr_save.specs.Checkpoints.{plan_sources, IsCheckpoint};
ghost use Rattle.cedr_save.specs.Refusals.{RefusesBytes};
ghost use Rattle.cedr_save.specs.declared.reader.TheConstants.{CHECKPOINT_LIMIT};

/// The laws of a checkpoint: how many bytes it may have, that they spell one list of states, and that bytes which are
/// refused at a line spell none.
pub fn checkpoint_law()
    ensures limit { CHECKPOINT_LIMIT ≡ 2 ^ 26 + 2 ^ 16 }
    ensures one { (nodes : List PlanNode) (states others : List State) (bytes : List ℕ) → ArePlanned nodes
        → IsCheckpoint (plan_sources nodes) states bytes → IsCheckpoint (plan_sources nodes) others bytes → states ≡ others }
    ensures apart { (nodes : List PlanNode) (states : List State) (bytes : List ℕ) (line : ℕ)
        → RefusesBytes (plan_sources nodes) bytes line → IsCheckpoint (plan_sources nodes) states bytes → ⊥ }
{}
