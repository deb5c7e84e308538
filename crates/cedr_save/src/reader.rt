ghost use Rattle.std.specs.Prelude.{◌≡◌, ◌≤◌, ◌+◌, ◌++◌, ◌∷◌, [], ℕ, List, false, length};
ghost use Rattle.cedr_base.specs.Bytes.{line_feed};
ghost use Rattle.cedr_plan.specs.Rules.{IsPlan};
ghost use Rattle.cedr_text.specs.Lines.{has_line_feed};
ghost use Rattle.cedr_text.specs.Parts.{parts_of};
ghost use Rattle.cedr_save.specs.Checkpoints.{plan_sources};
ghost use Rattle.cedr_save.specs.Reading.{Stands, AreNamed, ReadsLines};
ghost use Rattle.cedr_save.specs.Refusals.{ReadsCheckpoint};

use crate::fault::CheckpointFault;
use crate::states::StateReader;
use cedr_base::OutOfMemory;
use cedr_guard::SourceState;
use cedr_plan::{Plan, PlanNode};
use cedr_text::Parts;
use std::alloc::Global;

/// How many bytes a checkpoint may have: so many that the text of each script that is accepted fits.
pub const CHECKPOINT_LIMIT: usize = 67_174_400;

/// The states that the bytes spell, one for each source of the plan, in its order; or the line at which they aren't a
/// checkpoint of the plan. The bytes are read line by line. O(n), with memory for the events, and for a line twice
/// where it has a quote.
pub fn read_checkpoint(
    alloc: Global,
    plan: &Plan,
    bytes: &[u8],
) -> Result<Vec<SourceState>, CheckpointFault>
    requires { IsPlan plan.now }
    ensures { ReadsCheckpoint result (plan_sources plan.now.nodes.items) bytes.now }
{
    if bytes.len() > CHECKPOINT_LIMIT {
        return Err(CheckpointFault::BadLine { line: 0 });
    }
    let mut reader = StateReader::new(alloc);
    read_lines(&mut reader, &plan.nodes, bytes)?;
    Ok(reader.into_states())
}

/// Takes the lines one after the other.
fn read_lines(
    reader: &mut StateReader,
    nodes: &[PlanNode],
    bytes: &[u8],
) -> Result<(), CheckpointFault>
    requires named { AreNamed (plan_sources nodes.now) }
    requires new { Stands reader.old nodes.now [] }
    requires short { length bytes.now ≤ CHECKPOINT_LIMIT }
    ensures { ReadsLines result reader.new nodes.now bytes.now }
{
    let mut number = 0;
    let mut parts = Parts::new(bytes, b'\n');
    while let Some(line) = parts.next() {
        number += 1;
        if parts.is_empty() {
            return read_end(reader, nodes, line, number);
        }
        if !reader.take(nodes, line)? {
            return Err(CheckpointFault::BadLine { line: number });
        }
    }
    Ok(())
}

/// Looks at what stands behind the last line feed. It would be the line of this number.
fn read_end(
    reader: &StateReader,
    nodes: &[PlanNode],
    rest: &[u8],
    number: u64,
) -> Result<(), CheckpointFault>
    requires named { AreNamed (plan_sources nodes.now) }
    requires counted { number ≤ CHECKPOINT_LIMIT + 1 }
    requires whole { has_line_feed rest.now ≡ false }
    ensures { (bytes : List ℕ) (before : List (List ℕ)) → Stands reader.now nodes.now before → parts_of line_feed bytes ≡ before ++ rest.now ∷ [] → number ≡ length before + 1
        → ReadsLines result reader.now nodes.now bytes }
{
    if rest.is_empty() {
        if reader.is_ended() {
            Ok(())
        } else {
            Err(CheckpointFault::BadLine { line: number })
        }
    } else if reader.may_begin(nodes, rest)? {
        Err(CheckpointFault::BadLine { line: number + 1 })
    } else {
        Err(CheckpointFault::BadLine { line: number })
    }
}
