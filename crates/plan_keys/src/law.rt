ghost use Rattle.std.specs.Prelude.{ℕ, List, [], Bool, Option, ◌≡◌, ◌<◌, false, length, map};
ghost use Rattle.cedr_base.specs.Rows.{SameRows};
ghost use Rattle.cedr_base.specs.declared.field.Field.{Field};
ghost use Rattle.cedr_plan.specs.Drawn.{node_of};
ghost use Rattle.cedr_plan.specs.Places.{is_source};
ghost use Rattle.cedr_plan.specs.Rules.{AreNodes};
ghost use Rattle.cedr_plan.specs.declared.plan.NodeKind.{NodeKind};
ghost use Rattle.cedr_plan.specs.declared.plan.PlanNode.{PlanNode};
ghost use Rattle.cedr_query.specs.Queries.{query};
ghost use Rattle.cedr_table.specs.Operators.{Tables, table_at};
ghost use Rattle.op_node.specs.Meanings.{node_meaning};
ghost use Rattle.plan_keys.specs.Keys.{KeyedPort, KeepsKey, KeepsColumns, IsAnsweredByKey, AreKeyed, AreShares, AreSourceTables, AreWide, column_at, width_at, key_part, source_parts, shared_query};

/// The law of keyed plans. Where each node of a plan keeps the key, the plan can be answered key by key: of the rows of
/// the sources that have some keys the query makes its rows that have these keys, at each node. So where each key is in
/// one of several parts, the query is the sum of the queries over the parts, as bags.
pub fn keyed_plans()
    ensures parts { (mine : Option Field → Bool) (columns : List ℕ) (nodes : List PlanNode) (sources : Tables) → AreNodes [] (map node_of nodes) → AreKeyed columns [] nodes → AreSourceTables nodes sources → (place : ℕ) → place < length nodes → table_at (query (source_parts mine columns nodes sources) nodes) place ≡ key_part mine (column_at columns place) (table_at (query sources nodes) place) }
    ensures sum { (shares : List (Option Field → Bool)) (columns : List ℕ) (nodes : List PlanNode) (sources : Tables) → AreNodes [] (map node_of nodes) → AreKeyed columns [] nodes → AreSourceTables nodes sources → AreShares shares → (place : ℕ) → place < length nodes → SameRows (shared_query shares columns sources nodes place) (table_at (query sources nodes) place) }
{}

/// The law of keyed operators: what keeps the key makes of the parts of its ports' tables the part of its result.
pub fn keyed_operators()
    ensures { (what : NodeKind) (count : ℕ) (ports : List KeyedPort) (column : ℕ) → is_source what ≡ false → KeepsKey what ports column → KeepsColumns what ports → IsAnsweredByKey (node_meaning what count) ports column }
{}

/// The law of widths: where the rows of each source have as many fields as its types say, so have those of each node.
pub fn query_widths()
    ensures { (nodes : List PlanNode) (sources : Tables) → AreNodes [] (map node_of nodes) → AreSourceTables nodes sources → (place : ℕ) → place < length nodes → AreWide (width_at nodes place) (table_at (query sources nodes) place) }
{}
