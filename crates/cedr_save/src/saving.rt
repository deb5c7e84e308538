ghost use Rattle.std.specs.Prelude.{◌≡◌, None, Some, MatchResult};
ghost use Rattle.cedr_save.specs.Saving.{is_saved_level, first_unsaved};

use crate::fault::NotSaved;
use cedr_base::Level;
use cedr_plan::Plan;

/// Whether the plan can be saved: each port's memory is without limit, and its block is 0 or without limit. It takes
/// no memory. O(n) in the nodes.
pub fn can_save(plan: &Plan) -> Result<(), NotSaved>
    ensures { MatchResult result (λ _. first_unsaved 0 plan.now.nodes.items ≡ None) (λ fault. first_unsaved 0 plan.now.nodes.items ≡ Some fault.node) }
{
    for (place, node) in plan.nodes.iter().enumerate() {
        if !is_saved_level(node.level) {
            return Err(NotSaved { node: place + 1 });
        }
    }
    Ok(())
}

/// Whether ports of this level can be saved.
fn is_saved_level(level: Level) -> bool
    ensures { result ≡ is_saved_level level }
{
    level.memory.is_none() && matches!(level.block, None | Some(0))
}
