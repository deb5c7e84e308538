ghost use Rattle.std.specs.Prelude.{ℕ, ◌≡◌, [], List};
ghost use Rattle.node_laws.specs.Lists.{Lists, AreTables};
ghost use Rattle.cedr_plan.specs.declared.plan.PlanNode.{PlanNode};
ghost use Rattle.cedr_plan.specs.Rules.{ArePlanned};
ghost use Rattle.cedr_plan.specs.Places.{source_count};
ghost use Rattle.cedr_table.specs.Operators.{Tables};
ghost use Rattle.plan_runs.specs.Runs.{AllWhole, IsRun, sources_in};
ghost use Rattle.plan_answer.specs.Queries.{AreAcceptedSources, LeadsTo, source_nodes};
ghost use Rattle.plan_answer.specs.Sources.{AreRead};

use cedr_guard::message_laws;
use node_laws::strong_passing;

/// The law of accepted sources: where none is faulty the lists of the sources are their messages. Each is whole, and its table
/// is its canonical history.
pub fn accepted_sources()
    ensures { (told : List ℕ → List ℕ) (nodes : List PlanNode) (left : Lists) → AreRead told nodes left [] → (histories : Tables) × AreAcceptedSources told (source_nodes nodes) (sources_in nodes left) histories × AllWhole (source_count nodes) (sources_in nodes left) × AreTables (sources_in nodes left) histories }
{
    message_laws();
}

/// The law of changes: where the sources of a plan are whole, the sum of the deltas of the output's changes in a run is the
/// rows of the answer, and a strong output gives one addition for each of them, in canonical order.
pub fn streamed_changes()
    ensures { (nodes : List PlanNode) (sources : Lists) (histories : Tables) (ports : List Lists) (given : Lists) → ArePlanned nodes → IsRun nodes sources ports given → AllWhole (source_count nodes) sources → AreTables sources histories → LeadsTo nodes histories ports given }
{
    strong_passing();
}
