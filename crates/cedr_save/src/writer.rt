ghost use Rattle.std.specs.Prelude.{◌≡◌, ◌++◌, map, IfOk, OnOk, OnErr};
ghost use Rattle.cedr_guard.specs.Spelt.{state_in};
ghost use Rattle.cedr_save.specs.Checkpoints.{Source, plan_sources, lines_of_source, states_lines, ended_lines, AreSaved, checkpoint_text};

use crate::text::{put_event, put_source};
use cedr_base::OutOfMemory;
use cedr_guard::SourceState;
use cedr_plan::{Plan, PlanNode, is_source};
use std::alloc::Global;

/// Appends the checkpoint's text of these states: one for each source of the plan, in its order. The text is made in
/// memory of its own, and copied where `out` is not empty. Where memory runs out `out` is as before. O(n) in the
/// text.
pub fn write_checkpoint(
    plan: &Plan,
    states: &[SourceState],
    out: &mut Vec<u8>,
) -> Result<(), OutOfMemory>
    requires { AreSaved (plan_sources plan.now.nodes.items) (map state_in states.now) }
    ensures ok { OnOk result (out.new.items ≡ out.old.items ++ checkpoint_text (plan_sources plan.now.nodes.items) (map state_in states.now)) }
    ensures err { OnErr result (out.new.items ≡ out.old.items) }
{
    let text = checkpoint_text(*out.allocator(), &plan.nodes, states)?;
    if out.is_empty() {
        *out = text;
    } else {
        out.extend_from_slice(&text)?;
    }
    Ok(())
}

fn checkpoint_text(
    alloc: Global,
    nodes: &[PlanNode],
    states: &[SourceState],
) -> Result<Vec<u8>, OutOfMemory>
    ensures { IfOk result (λ text. text.items ≡ checkpoint_text (plan_sources nodes.now) (map state_in states.now)) }
{
    let mut text = Vec::from_slice(alloc, b"checkpoint,1\n")?;
    put_states(nodes, states, &mut text)?;
    text.extend_from_slice(b"end\n")?;
    Ok(text)
}

/// Appends the lines of each source.
fn put_states(
    nodes: &[PlanNode],
    states: &[SourceState],
    text: &mut Vec<u8>,
) -> Result<(), OutOfMemory>
    ensures { OnOk result (text.new.items ≡ text.old.items ++ ended_lines (states_lines (plan_sources nodes.now) (map state_in states.now))) }
{
    let mut rest = states;
    for node in nodes {
        if is_source(&node.kind) {
            let Some((state, more)) = rest.split_first() else {
                return Ok(());
            };
            put_state(node, state, text)?;
            rest = more;
        }
    }
    Ok(())
}

/// Appends the lines of a source with this state.
fn put_state(node: &PlanNode, state: &SourceState, text: &mut Vec<u8>) -> Result<(), OutOfMemory>
    ensures { OnOk result (text.new.items ≡ text.old.items ++ ended_lines (lines_of_source node.now.name (state_in state.now))) }
{
    put_source(node.name.bytes(), state.mark, text)?;
    for event in &state.events {
        put_event(event, text)?;
    }
    Ok(())
}
