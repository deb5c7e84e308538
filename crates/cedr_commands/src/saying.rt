ghost use Rattle.std.specs.Prelude.{◌≡◌, ◌<◌, ◌++◌, IfOk, OnOk};
ghost use Rattle.std.specs.List.{slice_get};
ghost use Rattle.cedr_io.specs.Counts.{last_count};
ghost use Rattle.told_faults.specs.FaultTexts.{refusal_text};
ghost use Rattle.cedr_commands.specs.Seen.{seen_sink};
ghost use Rattle.cedr_commands.specs.Steps.{Says, WritesText, named_text, faulty_text};

use crate::outcome::Outcome;
use cedr_base::OutOfMemory;
use cedr_guard::Refusal;
use cedr_io::{OutsideFault, Sink, write_all};
use cedr_plan::PlanNode;
use plan_answer::FaultySource;
use std::alloc::Global;
use told_faults::write_refusal;

/// Writes the whole text of a command.
pub fn write_text<K: Sink>(out: &mut K, text: &[u8]) -> Outcome
    requires { K.faults out.old < last_count }
    ensures { WritesText result (seen_sink K.written K.faults out.old) (seen_sink K.written K.faults out.new) text.now }
{
    match write_all(out, text) {
        Ok(()) => Outcome::Done,
        Err(OutsideFault::Failed) => Outcome::Write,
        Err(OutsideFault::OutOfMemory) => Outcome::OutOfMemory,
    }
}

/// The outcome of a file of this name with a line that isn't accepted.
pub(crate) fn refuse(alloc: Global, name: &[u8], refusal: &Refusal) -> Outcome
    ensures { Says result (refusal_text name.now refusal.now) }
{
    let mut said = Vec::new(alloc);
    match write_refusal(name, refusal, &mut said) {
        Ok(()) => Outcome::Events(said),
        Err(OutOfMemory) => Outcome::OutOfMemory,
    }
}

/// The outcome of a plan with sources that aren't accepted.
pub fn refuse_sources(alloc: Global, nodes: &[PlanNode], faulty: &[FaultySource]) -> Outcome
    ensures { Says result (faulty_text nodes.now faulty.now) }
{
    match said_of(alloc, nodes, faulty) {
        Ok(said) => Outcome::Events(said),
        Err(OutOfMemory) => Outcome::OutOfMemory,
    }
}

/// A line for each of these sources.
fn said_of(
    alloc: Global,
    nodes: &[PlanNode],
    faulty: &[FaultySource],
) -> Result<Vec<u8>, OutOfMemory>
    ensures { IfOk result (λ said. said.items ≡ faulty_text nodes.now faulty.now) }
{
    let mut said = Vec::new(alloc);
    for source in faulty {
        say_source(nodes, source, &mut said)?;
    }
    Ok(said)
}

fn say_source(
    nodes: &[PlanNode],
    source: &FaultySource,
    said: &mut Vec<u8>,
) -> Result<(), OutOfMemory>
    ensures { OnOk result (said.new.items ≡ said.old.items ++ named_text (slice_get nodes.now source.now.place) source.now.refusal) }
{
    match nodes.get(source.place) {
        None => Ok(()),
        Some(node) => write_refusal(node.name.bytes(), &source.refusal, said),
    }
}
