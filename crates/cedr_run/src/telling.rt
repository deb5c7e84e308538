//! What is reported of a run on threads.
ghost use Rattle.std.specs.Prelude.{◌≡◌, ◌<◌, List};
ghost use Rattle.cedr_base.specs.declared.change.Message.{Message};
ghost use Rattle.cedr_io.specs.Counts.{last_count};
ghost use Rattle.node_laws.specs.declared.forgotten.Forgotten.{Forgotten};
ghost use Rattle.plan_report.specs.declared.report.Outcome.TheVariants.{Done as CameDone};
ghost use Rattle.cedr_commands.specs.Seen.{seen_sink};
ghost use Rattle.cedr_run.specs.Threads.{CanTell, CanTellTail, EndsRun, EndsStream, WritesRun, WritesTail, broken_off};
ghost use Rattle.cedr_run.specs.declared.progress.Progress.TheVariants.{Whole};

use crate::progress::Progress;
use cedr_base::{Change, OutOfMemory};
use cedr_commands::{Outcome, refuse_sources, write_text};
use cedr_io::Sink;
use cedr_plan::PlanNode;
use plan_answer::{PortForgotten, has_memory, write_report, write_tail};
use plan_report::Outcome as Came;
use std::alloc::Global;

/// Writes the text of a run that is done.
fn write_run<K: Sink>(
    alloc: Global,
    nodes: &[PlanNode],
    changes: &[Change],
    forgotten: &[PortForgotten],
    out: &mut K,
) -> Outcome
    requires counts { K.faults out.old < last_count }
    requires can_tell { (given : List Message) × ((listed : List (List (List Forgotten))) × CanTell nodes.now changes.now forgotten.now given listed) }
    ensures { (given : List Message) (listed : List (List (List Forgotten))) → CanTell nodes.now changes.now forgotten.now given listed
        → WritesRun nodes.now given listed (seen_sink K.written K.faults out.old) (seen_sink K.written K.faults out.new) result }
{
    let mut text = Vec::new(alloc);
    let with_tail = has_memory(nodes);
    match write_report(alloc, nodes, changes, forgotten, with_tail, &mut text) {
        Ok(()) => write_text(out, &text),
        Err(OutOfMemory) => Outcome::OutOfMemory,
    }
}

/// Writes the text of a run, or says why there is none.
pub(crate) fn end_of<K: Sink>(
    alloc: Global,
    nodes: &[PlanNode],
    came: Came,
    changes: &[Change],
    forgotten: &[PortForgotten],
    out: &mut K,
) -> Outcome
    requires counts { K.faults out.old < last_count }
    requires can_tell { came ≡ CameDone → (given : List Message) × ((listed : List (List (List Forgotten))) × CanTell nodes.now changes.now forgotten.now given listed) }
    ensures { EndsRun came nodes.now changes.now forgotten.now (seen_sink K.written K.faults out.old) (seen_sink K.written K.faults out.new) result }
{
    match came {
        Came::Done => write_run(alloc, nodes, changes, forgotten, out),
        Came::Memory => Outcome::OutOfMemory,
        Came::Read => Outcome::Read,
        Came::Events(faulty) => refuse_sources(alloc, nodes, &faulty),
    }
}

/// Writes what was forgotten, which follows the changes of a stream, by one write, where some port has a finite memory.
fn tell_tail<K: Sink>(
    alloc: Global,
    nodes: &[PlanNode],
    forgotten: &[PortForgotten],
    out: &mut K,
) -> Outcome
    requires counts { K.faults out.old < last_count }
    requires can_tell { (listed : List (List (List Forgotten))) × CanTellTail nodes.now forgotten.now listed }
    ensures { (listed : List (List (List Forgotten))) → CanTellTail nodes.now forgotten.now listed → WritesTail nodes.now listed (seen_sink K.written K.faults out.old) (seen_sink K.written K.faults out.new) result }
{
    if !has_memory(nodes) {
        return Outcome::Done;
    }
    let mut text = Vec::new(alloc);
    match write_tail(nodes, forgotten, &mut text) {
        Ok(()) => write_text(out, &text),
        Err(OutOfMemory) => Outcome::OutOfMemory,
    }
}

/// The outcome of a stream that a refused write broke off.
fn break_off(came: &Came) -> Outcome
    ensures { result ≡ broken_off came.now }
{
    match came {
        Came::Memory => Outcome::OutOfMemory,
        _ => Outcome::Write,
    }
}

/// Ends a stream of whose changes so much was written.
pub(crate) fn end_of_stream<K: Sink>(
    alloc: Global,
    nodes: &[PlanNode],
    came: Came,
    progress: Progress,
    forgotten: &[PortForgotten],
    out: &mut K,
) -> Outcome
    requires counts { progress ≡ Whole → K.faults out.old < last_count }
    requires can_tell { came ≡ CameDone → (listed : List (List (List Forgotten))) × CanTellTail nodes.now forgotten.now listed }
    ensures { EndsStream came progress nodes.now forgotten.now (seen_sink K.written K.faults out.old) (seen_sink K.written K.faults out.new) result }
{
    match progress {
        Progress::Lacked => Outcome::OutOfMemory,
        Progress::Refused => break_off(&came),
        Progress::Whole => match came {
            Came::Done => tell_tail(alloc, nodes, forgotten, out),
            Came::Memory => Outcome::OutOfMemory,
            Came::Read => Outcome::Read,
            Came::Events(faulty) => refuse_sources(alloc, nodes, &faulty),
        },
    }
}
