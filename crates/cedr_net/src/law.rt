ghost use Rattle.std.specs.Prelude.{ℕ, ◌≡◌, ◌<◌, ◌++◌, ◌∷◌, List, length};
ghost use Rattle.cedr_base.specs.declared.row.Row.{Row};
ghost use Rattle.cedr_base.specs.Messages.{IsLegal, IsTableOf};
ghost use Rattle.cedr_base.specs.Rows.{SameRows};
ghost use Rattle.cedr_table.specs.Operators.{Tables, table_at};
ghost use Rattle.cedr_plan.specs.declared.plan.PlanNode.{PlanNode};
ghost use Rattle.cedr_query.specs.Queries.{query};
ghost use Rattle.cedr_plan.specs.Places.{output_place, source_count};
ghost use Rattle.node_laws.specs.Lists.{Lists, list_at, AreTables};
ghost use Rattle.plan_runs.specs.Runs.{lists_at, IsRun, IsPartialRun, AllWhole, sources_in};
ghost use Rattle.plan_runs.specs.Without.{query_without, forgot_in, Remembers};
ghost use Rattle.cedr_net.specs.declared.net.SerialNet.{SerialNet};
ghost use Rattle.cedr_net.specs.Edges.{NothingWaits};
ghost use Rattle.cedr_net.specs.Networks.{NetStands, HasPort, waiting_at};

/// The law of a network's lists: whatever was fed and turned, they are a partial run of its plan, and where nothing
/// waits they are a run. Once each source has ended besides, the table of what the output gave is that of the query
/// with what each port forgot left out, and where no memory is finite that of the query. There is a list for each port
/// of each node.
pub fn network_runs()
    ensures widths { (nodes : List PlanNode) (net : SerialNet) (ports : List Lists) (given : Lists) → NetStands nodes net ports given → (before after : List PlanNode) (n : PlanNode) → nodes ≡ before ++ n ∷ after → length (lists_at ports (length before)) ≡ length n.inputs.items }
    ensures ports { (nodes : List PlanNode) (net : SerialNet) (ports : List Lists) (given : Lists) → NetStands nodes net ports given → (place port : ℕ) → place < length nodes → port < length (lists_at ports place) → HasPort net place port }
    ensures legal { (nodes : List PlanNode) (net : SerialNet) (ports : List Lists) (given : Lists) → NetStands nodes net ports given → (place : ℕ) → IsLegal (list_at given place) }
    ensures partial { (nodes : List PlanNode) (net : SerialNet) (ports : List Lists) (given : Lists) → NetStands nodes net ports given → IsPartialRun nodes (sources_in nodes given) ports given }
    ensures settled { (nodes : List PlanNode) (net : SerialNet) (ports : List Lists) (given : Lists) → NetStands nodes net ports given → ((place : ℕ) → place < length nodes → NothingWaits (waiting_at net place)) → IsRun nodes (sources_in nodes given) ports given }
    ensures answer { (nodes : List PlanNode) (net : SerialNet) (ports : List Lists) (given : Lists) → NetStands nodes net ports given → ((place : ℕ) → place < length nodes → NothingWaits (waiting_at net place)) → AllWhole (source_count nodes) (sources_in nodes given) → (tables : Tables) → AreTables (sources_in nodes given) tables → (rows : List Row) → IsTableOf (list_at given (output_place nodes)) rows → SameRows rows (table_at (query_without (forgot_in nodes ports) tables nodes) (output_place nodes)) }
    ensures query { (nodes : List PlanNode) (net : SerialNet) (ports : List Lists) (given : Lists) → NetStands nodes net ports given → ((place : ℕ) → place < length nodes → NothingWaits (waiting_at net place)) → AllWhole (source_count nodes) (sources_in nodes given) → Remembers nodes → (tables : Tables) → AreTables (sources_in nodes given) tables → (rows : List Row) → IsTableOf (list_at given (output_place nodes)) rows → SameRows rows (table_at (query tables nodes) (output_place nodes)) }
{}
