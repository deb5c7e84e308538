//! What is reported of a run once each worker has ended and all edges are closed.
ghost use Rattle.std.specs.Prelude.{◌≡◌, List, false, IfOk, IfSome, OnOk, map};
ghost use mathlib.Core.List.{IsPrefix};
ghost use Rattle.cedr_base.specs.declared.change.Change.{Change as Changed};
ghost use Rattle.node_laws.specs.Lists.{Lists};
ghost use Rattle.plan_runs.specs.Without.{forgot_in};
ghost use Rattle.plan_workers.specs.Forgettings.{AllTook};
ghost use Rattle.plan_answer.specs.Forgettings.{nodes_forgot, port_forgot};
ghost use Rattle.plan_report.specs.Watching.{IsAskedNoMore, ReadsOn, Watches};

use crate::watcher::Watcher;
use crate::watching::{look_on, read_all, see};
use cedr_base::{Change, OutOfMemory};
use cedr_history::Reader;
use cedr_io::Source;
use cedr_plan::PlanNode;
use plan_answer::PortForgotten;
use plan_workers::{HeldWriter, Part, tell_forgotten};
use std::alloc::Global;
use std::snapshot::Snapshot;
use std::sync::Wait;

/// What each port of each node forgot, unless memory was lacking for a node or is now.
pub(crate) fn tell_unless<S: Source + Drop, R: Wait + Drop>(
    lacked: bool,
    alloc: Global,
    nodes: &[PlanNode],
    parts: &[Part<S, R>],
) -> Result<Vec<PortForgotten>, OutOfMemory>
    requires { lacked ≡ false → (ports : List Lists) × AllTook nodes.now ports parts.now }
    ensures found { OnOk result (lacked ≡ false) }
    ensures list { IfOk result (λ list. (ports : List Lists) → AllTook nodes.now ports parts.now → map port_forgot list.items ≡ nodes_forgot 0 (forgot_in nodes.now ports)) }
{
    if lacked {
        return Err(OutOfMemory);
    }
    tell_forgotten(alloc, nodes, parts)
}

/// Lets the watcher look until it stands for the whole result, if it may be asked.
fn look_to_end<W: Watcher, R: Wait>(
    rt: &R,
    looks: bool,
    reader: &mut Reader,
    watcher: &mut W,
    out: &mut W::Out,
    start: &Snapshot<W::Out>,
) -> Result<(), OutOfMemory>
    requires { Watches (W.stands start.now.value) watcher.old out.old reader.old }
    ensures reads { ReadsOn reader.old reader.new }
    ensures watches { Watches (W.stands start.now.value) watcher.new out.new reader.new }
    ensures whole { OnOk result (IfSome reader.old.last (λ l. W.stands start.now.value watcher.new out.new l.changes)) }
    ensures found { OnOk result (IsAskedNoMore (W.lacked watcher.old) looks → W.lacked watcher.new ≡ false) }
{
    if !looks {
        return Err(OutOfMemory);
    }
    look_on(rt, reader, watcher, out, start)
}

/// Makes the writer's last note: the watcher looks to its end, and the result is read as a whole. Whatever memory is
/// found, the watcher stands for first changes of what was published. The writer is ended.
pub(crate) fn conclude<W: Watcher, R: Wait + Drop, Q: Wait>(
    rt: &Q,
    alloc: Global,
    held: HeldWriter<R>,
    reader: Reader,
    watcher: &mut W,
    out: &mut W::Out,
    start: &Snapshot<W::Out>,
    looks: bool,
) -> Result<Vec<Change>, OutOfMemory>
    requires history { held.writer.history ≡ reader.history }
    requires unconcluded { held.writer.concluded ≡ false }
    requires watches { Watches (W.stands start.now.value) watcher.old out.old reader }
    ensures changes { IfOk result (λ changes. changes.items ≡ held.writer.published.changes) }
    ensures whole { OnOk result (W.stands start.now.value watcher.new out.new held.writer.published.changes) }
    ensures watches { (list : List Changed) × W.stands start.now.value watcher.new out.new list × IsPrefix list held.writer.published.changes }
    ensures found { OnOk result (IsAskedNoMore (W.lacked watcher.old) looks → W.lacked watcher.new ≡ false) }
{
    let mut held = held;
    let mut reader = reader;
    let note = held.writer.last();
    reader.learn(note);
    let looked = look_to_end(rt, looks, &mut reader, watcher, out, start);
    see(rt, alloc, &mut reader);
    looked?;
    read_all(rt, alloc, &mut reader)
}
