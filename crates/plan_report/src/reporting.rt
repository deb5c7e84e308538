ghost use Rattle.std.specs.Prelude.{◌≡◌, ◌≤◌, [], List, true, length};
ghost use Rattle.std.specs.Vec.{vec_capacity};
ghost use Rattle.cedr_base.specs.declared.change.Change.{Change};
ghost use Rattle.cedr_plan.specs.Rules.{IsPlan};
ghost use Rattle.plan_report.specs.declared.report.Outcome.TheVariants.{Done, Memory};
ghost use Rattle.plan_report.specs.Reports.{HaveEnded, IsReport};
ghost use Rattle.plan_report.specs.SoFar.{IsSoFar};
ghost use Rattle.plan_report.specs.Watching.{IsAskedNoMore, Watches};

use crate::concluding::{conclude, tell_unless};
use crate::outcome::outcome_of;
use crate::report::Report;
use crate::watcher::Watcher;
use cedr_history::Reader;
use cedr_io::Source;
use cedr_plan::Plan;
use cedr_worker::SourceEnd;
use plan_answer::FaultySource;
use plan_workers::{Closed, any_lacked, sort_parts, workers_went};
use std::alloc::Global;
use std::snapshot::Snapshot;
use std::sync::Wait;

/// What is reported of a run of a plan's workers, after the last look of the watcher, if it may be asked again. `sources` and
/// `faults` have room for what is reported of the sources.
pub(crate) fn report_on<S: Source + Drop, W: Watcher, R: Wait + Drop, Q: Wait>(
    rt: &Q,
    alloc: Global,
    plan: &Plan,
    closed: Closed<S, R>,
    sources: Vec<SourceEnd<S>>,
    faults: Vec<FaultySource>,
    looks: bool,
    reader: Reader,
    watcher: &mut W,
    out: &mut W::Out,
    start: &Snapshot<W::Out>,
) -> Report<S>
    requires plan { IsPlan plan.now }
    requires ended { (given : List S) × HaveEnded S.rest S.faults plan.now.nodes.items given reader.history closed }
    requires watches { Watches (W.stands start.now.value) watcher.old out.old reader }
    requires sources { (sources.items ≡ []) × (length plan.now.nodes.items ≤ vec_capacity sources) }
    requires faults { (faults.items ≡ []) × (length plan.now.nodes.items ≤ vec_capacity faults) }
    ensures report { (given : List S) → HaveEnded S.rest S.faults plan.now.nodes.items given reader.history closed → IsReport S.rest S.faults plan.now.nodes.items given result }
    ensures so_far { (given : List S) → HaveEnded S.rest S.faults plan.now.nodes.items given reader.history closed → (list : List Change) × (W.stands start.now.value watcher.new out.new list × IsSoFar S.rest S.faults plan.now.nodes.items given result.sources.items list) }
    ensures whole { result.outcome ≡ Done → W.stands start.now.value watcher.new out.new result.changes.items }
    ensures short { IsAskedNoMore (W.lacked watcher.old) looks → W.lacked watcher.new ≡ true → result.outcome ≡ Memory }
{
    workers_went::<S, R>();
    let Closed { edges, ran, parts } = closed;
    let mut sources = sources;
    let lacked = any_lacked(parts.as_slice());
    let forgotten = tell_unless(lacked, alloc, plan.nodes.as_slice(), parts.as_slice());
    let held = sort_parts(parts, &mut sources);
    let changes = conclude(rt, alloc, held, reader, watcher, out, start, looks);
    let short = forgotten.is_err() | changes.is_err();
    let outcome = outcome_of(plan.nodes.as_slice(), sources.as_slice(), short, faults);
    Report {
        outcome,
        forgotten: forgotten.unwrap_or(Vec::new(alloc)),
        edges,
        ran,
        changes: changes.unwrap_or(Vec::new(alloc)),
        sources,
    }
}
