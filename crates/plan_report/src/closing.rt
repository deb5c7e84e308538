ghost use Rattle.std.specs.Prelude.{◌≡◌, ◌≤◌, [], List, true, length};
ghost use Rattle.std.specs.List.{All};
ghost use Rattle.std.specs.Vec.{vec_capacity};
ghost use Rattle.cedr_base.specs.declared.change.Change.{Change};
ghost use Rattle.cedr_plan.specs.Rules.{IsPlan};
ghost use Rattle.plan_edges.specs.Wires.{froms};
ghost use Rattle.plan_report.specs.declared.report.Outcome.TheVariants.{Done, Memory};
ghost use Rattle.plan_report.specs.Reports.{HaveWorked, IsReport};
ghost use Rattle.plan_report.specs.Rooms.{IsReportRoom};
ghost use Rattle.plan_report.specs.SoFar.{IsSoFar};
ghost use Rattle.plan_report.specs.Watching.{IsAskedNoMore, Watches};
ghost use Rattle.plan_workers.specs.Roles.{HasEnded};

use crate::report::Report;
use crate::reporting::report_on;
use crate::room::ReportRoom;
use crate::watcher::Watcher;
use cedr_edge::EdgeRecord;
use cedr_history::Reader;
use cedr_io::Source;
use cedr_plan::Plan;
use plan_workers::{Worker, close_all};
use std::alloc::Global;
use std::snapshot::Snapshot;
use std::sync::Wait;

/// What is reported of a run of a plan's workers once each has ended. Its edges are closed, whose records have room in
/// `records`, and the watcher looks for the last time, if it may be asked.
pub fn report_run<S: Source + Drop, W: Watcher, R: Wait + Drop, Q: Wait>(
    rt: &Q,
    alloc: Global,
    plan: &Plan,
    workers: Vec<Worker<S, R>>,
    records: Vec<EdgeRecord>,
    room: ReportRoom<S, R>,
    looks: bool,
    reader: Reader,
    watcher: &mut W,
    out: &mut W::Out,
    start: &Snapshot<W::Out>,
) -> Report<S>
    requires plan { IsPlan plan.now }
    requires ended { All HasEnded workers.items }
    requires worked { (given : List S) × HaveWorked S.rest S.faults plan.now.nodes.items given reader.history workers.items }
    requires watches { Watches (W.stands start.now.value) watcher.old out.old reader }
    requires records { (records.items ≡ []) × (length (froms plan.now.nodes.items) ≤ vec_capacity records) }
    requires room { IsReportRoom (length plan.now.nodes.items) room }
    ensures report { (given : List S) → HaveWorked S.rest S.faults plan.now.nodes.items given reader.history workers.items → IsReport S.rest S.faults plan.now.nodes.items given result }
    ensures so_far { (given : List S) → HaveWorked S.rest S.faults plan.now.nodes.items given reader.history workers.items → (list : List Change) × (W.stands start.now.value watcher.new out.new list × IsSoFar S.rest S.faults plan.now.nodes.items given result.sources.items list) }
    ensures whole { result.outcome ≡ Done → W.stands start.now.value watcher.new out.new result.changes.items }
    ensures short { IsAskedNoMore (W.lacked watcher.old) looks → W.lacked watcher.new ≡ true → result.outcome ≡ Memory }
{
    let closed = close_all(alloc, plan, workers, room.desk, records);
    report_on(
        rt,
        alloc,
        plan,
        closed,
        room.sources,
        room.faults,
        looks,
        reader,
        watcher,
        out,
        start,
    )
}
