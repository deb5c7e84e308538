ghost use Rattle.std.specs.Prelude.{ℕ, ◌≡◌, ◌<◌, List, Bool, length, map, false};
ghost use Rattle.logbook.specs.Pages.{Book};
ghost use Rattle.cedr_edge.specs.Ends.{Carried, InEnd, OutEnd};
ghost use Rattle.node_laws.specs.Lists.{Lists};
ghost use Rattle.cedr_plan.specs.declared.plan.PlanNode.{PlanNode};
ghost use Rattle.plan_runs.specs.Runs.{IsRun, sources_in};
ghost use Rattle.plan_edges.specs.Wires.{AreClosed, AreWired, carried, ports_of};
ghost use Rattle.cedr_worker.specs.declared.source.SourceEnd.{SourceEnd};
ghost use Rattle.plan_workers.specs.declared.ended.Ended.{Ended};
ghost use Rattle.plan_workers.specs.Roles.{Role};
ghost use Rattle.plan_workers.specs.Crews.{AreRoles};
ghost use Rattle.plan_workers.specs.Ends.{AllEndAs};
ghost use Rattle.plan_workers.specs.Wents.{AreRan, Went, lacked_at, putters_left, ran_left, sources_left, takers_left};

use cedr_io::Source;
use std::sync::Wait;

/// The law of workers that ended. What is left of them says which node gave what over which edge, and how many messages
/// the turns of each moved. Where memory was found for each, what went over the edges is a run of the plan.
pub fn workers_went<S: Source + Drop, R: Wait + Drop>()
    ensures went { (nodes : List PlanNode) (takers : List (List InEnd)) (putters : List (List OutEnd)) (sources : List S) (history : Book) (roles : List Role) (ends : List (Ended S R)) (edges : List Carried) → AreWired nodes takers putters → AreRoles S.rest S.faults nodes takers putters sources history roles → AllEndAs S.rest S.faults roles ends → AreClosed nodes (map takers_left ends) (map putters_left ends) edges
        → (given : Lists) × Went S.rest S.faults nodes sources (ports_of nodes (carried edges)) given (lacked_at ends) (sources_left ends) }
    ensures ran { (nodes : List PlanNode) (takers : List (List InEnd)) (putters : List (List OutEnd)) (sources : List S) (history : Book) (roles : List Role) (ends : List (Ended S R)) (edges : List Carried) → AreWired nodes takers putters → AreRoles S.rest S.faults nodes takers putters sources history roles → AllEndAs S.rest S.faults roles ends → AreClosed nodes (map takers_left ends) (map putters_left ends) edges
        → AreRan nodes edges (map ran_left ends) }
    ensures run { (nodes : List PlanNode) (sources : List S) (ports : List Lists) (given : Lists) (lacked : ℕ → Bool) (ends : List (SourceEnd S)) → Went S.rest S.faults nodes sources ports given lacked ends → ((k : ℕ) → k < length nodes → lacked k ≡ false)
        → IsRun nodes (sources_in nodes given) ports given }
{}
