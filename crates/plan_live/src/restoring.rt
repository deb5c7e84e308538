ghost use Rattle.std.specs.Prelude.{ℕ, ◌≡◌, ◌<◌, [], List, OnOk, length, slice_set};
ghost use Rattle.cedr_guard.specs.Spelt.{state_in, lines_of, IsFit};
ghost use Rattle.cedr_net.specs.Flows.{IsSourceAt};
ghost use Rattle.cedr_plan.specs.declared.plan.PlanNode.{PlanNode as Planned};
ghost use Rattle.plan_live.specs.Resumed.{lines_from, states_in, AreStates};
ghost use Rattle.plan_live.specs.Scripts.{Accepted, lines_at, no_lines};

use cedr_base::OutOfMemory;
use cedr_guard::SourceState;
use cedr_plan::{PlanNode, is_source};
use std::alloc::Global;

/// What takes the accepted lines of a plan's sources, and can come to states of the sources in place of lines.
pub trait Restores {
    // it stands for these accepted lines of each node of a plan
    ghost stands: { List Planned → Self → Accepted → Type 0 };

    /// The source at a place, of which no line was accepted, comes to a state, as to the lines that the state spells.
    fn restore_source(
        &mut self,
        alloc: Global,
        place: usize,
        state: &SourceState,
    ) -> Result<(), OutOfMemory>
        requires fit { IsFit (state_in state.now) }
        requires stands { (nodes : List Planned) × (before : Accepted) × stands nodes self.old before × (place < length nodes) × IsSourceAt nodes place × (lines_at before place ≡ []) }
        ensures { OnOk result ((nodes : List Planned) (before : Accepted) → stands nodes self.old before → place < length nodes → IsSourceAt nodes place → lines_at before place ≡ [] → stands nodes self.new (slice_set before place (lines_of (state_in state.now)))) };
}

/// All sources of a plan come to their states, one for each in plan order, where no line was accepted before.
pub fn restore_sources<R: Restores>(
    alloc: Global,
    nodes: &[PlanNode],
    states: &[SourceState],
    restored: &mut R,
) -> Result<(), OutOfMemory>
    requires states { AreStates nodes.now states.now }
    requires stands { R.stands nodes.now restored.old (no_lines nodes.now) }
    ensures { OnOk result (R.stands nodes.now restored.new (lines_from nodes.now (states_in states.now))) }
{
    let mut number = 0usize;
    for (place, node) in nodes.iter().enumerate() {
        if is_source(&node.kind) {
            restored.restore_source(alloc, place, &states[number])?;
            number += 1;
        }
    }
    Ok(())
}
