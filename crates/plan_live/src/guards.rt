ghost use Rattle.std.specs.Prelude.{ℕ, ◌≡◌, ◌<◌, [], IfOk, length, slice_index_or};
ghost use Rattle.cedr_guard.specs.Standing.{Guards};
ghost use Rattle.cedr_text.specs.Reading.{reading};
ghost use Rattle.plan_live.specs.Scripts.{ShapesHaveTypes};
ghost use Rattle.plan_live.specs.Playing.{JudgesAt};

use cedr_base::{Message, OutOfMemory};
use cedr_guard::{Guard, GuardFault};
use cedr_plan::PlanNode;
use cedr_source::judge_line;
use cedr_text::Shape;
use std::alloc::Global;

/// The shape of each node of a plan. That of a source has its types.
pub fn shapes_of(alloc: Global, nodes: &[PlanNode]) -> Result<Vec<Shape>, OutOfMemory>
    ensures { IfOk result (λ shapes. ShapesHaveTypes nodes.now shapes.items) }
{
    let mut shapes = Vec::new(alloc);
    for node in nodes {
        let types = Vec::from_slice(alloc, node.types.as_slice())?;
        shapes.push(Shape::Fields(types))?;
    }
    Ok(shapes)
}

/// A guard for each of so many nodes. None has accepted a line.
pub(crate) fn guards_of(alloc: Global, count: usize) -> Result<Vec<Guard>, OutOfMemory>
    ensures count { IfOk result (λ guards. length guards.items ≡ count) }
    ensures none { IfOk result (λ guards. (k : ℕ) (d : Guard) → k < length guards.items → Guards (slice_index_or guards.items k d) []) }
{
    let mut guards = Vec::new(alloc);
    for _ in 0..count {
        guards.push(Guard::new(alloc))?;
    }
    Ok(guards)
}

/// The messages of an event line of the source at a place, which is judged.
pub(crate) fn judge_at(
    alloc: Global,
    guards: &mut Vec<Guard>,
    place: usize,
    shape: &Shape,
    line: &[u8],
) -> Result<Vec<Message>, GuardFault>
    requires { place < length guards.old.items }
    ensures { JudgesAt result guards.old.items guards.new.items place (reading shape.now line.now) }
{
    let mut messages = Vec::new(alloc);
    judge_line(alloc, &mut guards[place], shape, line, &mut messages)?;
    Ok(messages)
}
