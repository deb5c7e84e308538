ghost use Rattle.std.specs.Prelude.{◌≡◌, ◌<◌, ◌≤◌, List, length, slice_index_or, IfOk};
ghost use Rattle.cedr_base.specs.Bytes.{line_feed};
ghost use Rattle.cedr_guard.specs.Sources.{with_reading};
ghost use Rattle.cedr_plan.specs.declared.plan.PlanNode.{PlanNode};
ghost use Rattle.cedr_text.specs.Parts.{parts_of};
ghost use Rattle.cedr_text.specs.Reading.{reading};
ghost use Rattle.cedr_text.specs.declared.event_line.Shape.TheVariants.{AnyText};
ghost use Rattle.plan_live.specs.Judged.{lines_behind, script_fault_at, JudgesScriptLine, JudgesAll, JudgesScript};
ghost use Rattle.plan_live.specs.Playing.{GuardsStand, step_of, parts_played};
ghost use Rattle.plan_live.specs.Resumed.{states_in, states_so_far};
ghost use Rattle.plan_live.specs.Scripts.{Accepted, ShapesHaveTypes, lines_at, played_after, with_lines};

use crate::fault::ScriptFault;
use crate::guards::{guards_of, judge_at, shapes_of};
use crate::line::{ScriptLine, read_script_line};
use cedr_base::OutOfMemory;
use cedr_guard::{FILE_LIMIT, Guard, GuardFault, Refusal, SourceState, limit_fault};
use cedr_plan::{Plan, PlanNode, is_source};
use cedr_text::{Parts, Shape};
use std::alloc::Global;

/// Judges a script as [`play`](crate::play) does, without a network: it shows nothing at a `?`. It answers the states to
/// which the sources come, one for each in plan order, or the script's first line that isn't accepted, and why.
///
/// Of a script over `FILE_LIMIT` bytes it looks at the first `FILE_LIMIT` ones, which decide. O(n log n) in the lines.
pub fn script_states(
    alloc: Global,
    plan: &Plan,
    script: &[u8],
) -> Result<Vec<SourceState>, ScriptFault>
    ensures { JudgesScript result plan.now.nodes.items script.now }
{
    let nodes = plan.nodes.as_slice();
    let shapes = shapes_of(alloc, nodes)?;
    let mut guards = guards_of(alloc, nodes.len())?;
    judge_script(alloc, nodes, shapes.as_slice(), script, &mut guards)?;
    Ok(states_of(alloc, nodes, &guards)?)
}

/// Judges the lines of a script after accepted ones.
fn judge_script(
    alloc: Global,
    nodes: &[PlanNode],
    shapes: &[Shape],
    script: &[u8],
    guards: &mut Vec<Guard>,
) -> Result<(), ScriptFault>
    requires types { ShapesHaveTypes nodes.now shapes.now }
    requires stands { (before : Accepted) × GuardsStand nodes.now guards.old.items before }
    ensures { (before : Accepted) → GuardsStand nodes.now guards.old.items before → JudgesAll result nodes.now guards.new.items (played_after nodes.now shapes.now before script.now) }
{
    if script.len() > FILE_LIMIT {
        judge_lines(alloc, nodes, shapes, &script[..FILE_LIMIT], true, guards)
    } else {
        judge_lines(alloc, nodes, shapes, script, false, guards)
    }
}

/// Judges the lines of a script, or those of its first bytes where it is over the limit: the line that they don't finish
/// has no other fault than that.
fn judge_lines(
    alloc: Global,
    nodes: &[PlanNode],
    shapes: &[Shape],
    bytes: &[u8],
    over_limit: bool,
    guards: &mut Vec<Guard>,
) -> Result<(), ScriptFault>
    requires types { ShapesHaveTypes nodes.now shapes.now }
    requires stands { (before : Accepted) × GuardsStand nodes.now guards.old.items before }
    requires limit { length bytes.now ≤ FILE_LIMIT }
    ensures { (before : Accepted) → GuardsStand nodes.now guards.old.items before → JudgesAll result nodes.now guards.new.items (parts_played over_limit nodes.now shapes.now 0 before (parts_of line_feed bytes.now)) }
{
    let mut number = 0u64;
    let mut lines = Parts::new(bytes, b'\n');
    while let Some(line) = lines.next() {
        number += 1;
        if over_limit && lines.is_empty() {
            return Err(refused(number, GuardFault::Line(limit_fault(line))));
        }
        match judge_script_line(alloc, nodes, shapes, line, guards) {
            Ok(()) => {}
            Err(fault) => return Err(refused(number, fault)),
        }
    }
    Ok(())
}

/// Why a script comes to no states whose line of this number has a fault.
fn refused(line: u64, fault: GuardFault) -> ScriptFault
    ensures { result ≡ script_fault_at line fault }
{
    match fault {
        GuardFault::Line(fault) => ScriptFault::Refused(Refusal { line, fault }),
        GuardFault::OutOfMemory => ScriptFault::OutOfMemory,
    }
}

/// Judges a line of a script, without its line feed. A `?` says nothing.
fn judge_script_line(
    alloc: Global,
    nodes: &[PlanNode],
    shapes: &[Shape],
    line: &[u8],
    guards: &mut Vec<Guard>,
) -> Result<(), GuardFault>
    requires types { ShapesHaveTypes nodes.now shapes.now }
    requires stands { (before : Accepted) × GuardsStand nodes.now guards.old.items before }
    ensures { (before : Accepted) → GuardsStand nodes.now guards.old.items before → JudgesScriptLine result nodes.now guards.new.items (lines_behind before (step_of nodes.now shapes.now before line.now)) }
{
    match read_script_line(nodes, line) {
        Ok(ScriptLine::Nothing) => Ok(()),
        Ok(ScriptLine::Question) => Ok(()),
        Ok(ScriptLine::Event(place, event)) => judge_event(alloc, shapes, place, event, guards),
        Err(fault) => Err(GuardFault::Line(fault)),
    }
}

/// Judges an event line of the source at a place.
fn judge_event(
    alloc: Global,
    shapes: &[Shape],
    place: usize,
    event: &[u8],
    guards: &mut Vec<Guard>,
) -> Result<(), GuardFault>
    requires shape { place < length shapes.now }
    requires guard { place < length guards.old.items }
    ensures { (nodes : List PlanNode) (before : Accepted) → GuardsStand nodes guards.old.items before → place < length nodes → JudgesScriptLine result nodes guards.new.items (with_lines before place (with_reading (lines_at before place) (reading (slice_index_or shapes.now place AnyText) event.now))) }
{
    judge_at(alloc, guards, place, &shapes[place], event)?;
    Ok(())
}

/// The states of the guards of a plan's sources.
fn states_of(
    alloc: Global,
    nodes: &[PlanNode],
    guards: &[Guard],
) -> Result<Vec<SourceState>, OutOfMemory>
    requires { (before : Accepted) × GuardsStand nodes.now guards.now before }
    ensures { IfOk result (λ states. (before : Accepted) → GuardsStand nodes.now guards.now before → states_in states.items ≡ states_so_far nodes.now before) }
{
    let mut states = Vec::new(alloc);
    for (place, node) in nodes.iter().enumerate() {
        if is_source(&node.kind) {
            states.push(guards[place].state()?)?;
        }
    }
    Ok(states)
}
