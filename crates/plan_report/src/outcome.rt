ghost use Rattle.std.specs.Prelude.{◌≡◌, ◌≤◌, ◌+◌, ◌++◌, ◌^◌, [], length, map};
ghost use Rattle.std.specs.List.{list_any};
ghost use Rattle.std.specs.Vec.{vec_capacity};
ghost use Rattle.cedr_plan.specs.Places.{source_count};
ghost use Rattle.plan_answer.specs.Sources.{fault_here, faulty_from};
ghost use Rattle.plan_workers.specs.Stopping.{is_short, is_unread};
ghost use Rattle.plan_workers.specs.Tellings.{fault_of, node_faults, refusal_in};
ghost use Rattle.plan_report.specs.Reports.{HasOutcome, source_lacked, source_refused};

use crate::report::Outcome;
use cedr_guard::Refusal;
use cedr_io::Source;
use cedr_plan::{PlanNode, is_source};
use cedr_worker::{SourceEnd, SourceStop};
use plan_answer::FaultySource;

fn lacks(stop: SourceStop) -> bool
    ensures { result ≡ is_short stop }
{
    matches!(stop, SourceStop::OutOfMemory)
}

fn was_refused(stop: SourceStop) -> bool
    ensures { result ≡ is_unread stop }
{
    matches!(stop, SourceStop::ReadFault)
}

/// Whether memory was lacking for a source.
fn any_lacked<S: Source + Drop>(ends: &[SourceEnd<S>]) -> bool
    ensures { result ≡ list_any source_lacked ends.now }
{
    ends.iter().any(|end| lacks(end.stop))
}

/// Whether a read of a source was refused.
fn any_refused<S: Source + Drop>(ends: &[SourceEnd<S>]) -> bool
    ensures { result ≡ list_any source_refused ends.now }
{
    ends.iter().any(|end| was_refused(end.stop))
}

/// Lists a source at its place, where it has a fault.
fn list_fault(place: usize, stop: SourceStop, faulty: &mut Vec<FaultySource>)
    requires { length faulty.old.items + 1 ≤ vec_capacity faulty.old }
    ensures listed { faulty.new.items ≡ faulty.old.items ++ fault_here place (fault_of stop) }
    ensures room { vec_capacity faulty.new ≡ vec_capacity faulty.old }
{
    if let SourceStop::Refused { line, fault } = stop {
        faulty.push_reserved(FaultySource {
            place,
            refusal: Refusal { line, fault },
        });
    }
}

/// Lists the faulty sources among the nodes from a place on, by what is left of each source. It goes as deep as there are
/// nodes.
fn list_faulty<S: Source + Drop>(
    place: usize,
    nodes: &[PlanNode],
    ends: &[SourceEnd<S>],
    faulty: &mut Vec<FaultySource>,
)
    requires few { place + length nodes.now ≤ 2 ^ 32 }
    requires room { length faulty.old.items + length nodes.now ≤ vec_capacity faulty.old }
    ensures { faulty.new.items ≡ faulty.old.items ++ faulty_from place (node_faults nodes.now (map refusal_in ends.now)) }
{
    let Some((node, others)) = nodes.split_first() else {
        return;
    };
    if !is_source(&node.kind) {
        list_faulty(place + 1, others, ends, faulty);
        return;
    }
    let Some((end, later)) = ends.split_first() else {
        list_faulty(place + 1, others, ends, faulty);
        return;
    };
    list_fault(place, end.stop, faulty);
    list_faulty(place + 1, others, later, faulty);
}

/// How a run ended, by how its sources stopped and whether memory was lacking elsewhere. It takes no memory: `faulty` has
/// room for each node.
pub(crate) fn outcome_of<S: Source + Drop>(
    nodes: &[PlanNode],
    ends: &[SourceEnd<S>],
    short: bool,
    faulty: Vec<FaultySource>,
) -> Outcome
    requires few { length nodes.now ≤ 64 }
    requires count { length ends.now ≡ source_count nodes.now }
    requires empty { faulty.items ≡ [] }
    requires room { length nodes.now ≤ vec_capacity faulty }
    ensures { HasOutcome nodes.now ends.now short result }
{
    if short || any_lacked(ends) {
        return Outcome::Memory;
    }
    if any_refused(ends) {
        return Outcome::Read;
    }
    let mut faulty = faulty;
    list_faulty(0, nodes, ends, &mut faulty);
    if faulty.is_empty() {
        Outcome::Done
    } else {
        Outcome::Events(faulty)
    }
}
