ghost use Rattle.cedr_plan.specs.declared.plan.NodeKind.TheVariants as kind;
ghost use Rattle.std.specs.Prelude.{ℕ, ◌≡◌, ◌<◌, List, [], ◌∷◌, ◌++◌, length, map, None, nat_lt, true};
ghost use Rattle.cedr_base.specs.Messages.{IsLegal, IsTableOf, changes_of, mark_of};
ghost use Rattle.cedr_base.specs.declared.change.Message.{Message};
ghost use Rattle.cedr_plan.specs.Drawn.{node_of};
ghost use Rattle.cedr_plan.specs.Rules.{AreNodes, ArePlanned};
ghost use Rattle.cedr_plan.specs.declared.plan.PlanNode.{PlanNode};
ghost use Rattle.node_laws.specs.Lists.{Lists, list_at, AreTables};
ghost use Rattle.cedr_query.specs.Queries.{query, reaches};
ghost use Rattle.std.specs.List.{filter};
ghost use Rattle.cedr_base.specs.declared.level.Level.{Level};
ghost use Rattle.cedr_base.specs.declared.row.Row.{Row};
ghost use Rattle.cedr_base.specs.Rows.{SameRows};
ghost use Rattle.node_laws.specs.Pass.{passed_table, added, HasNoCut};
ghost use Rattle.node_laws.specs.Approaching.{AddsFirst, Approaches};
ghost use Rattle.node_laws.specs.Surplus.{Ascend};
ghost use Rattle.cedr_plan.specs.Places.{is_source, output_place, source_count};
ghost use Rattle.plan_runs.specs.Now.{standing_at, standings, now, AllCanSave, StandsAt, SourcesStand};
ghost use Rattle.plan_runs.specs.Middle.{IsGoing, AllGoing, AreMiddle, AreMarks};
ghost use Rattle.cedr_table.specs.Operators.{Tables, table_at, mark_at};
ghost use Rattle.plan_runs.specs.Partials.{AllBeginTables};
ghost use Rattle.plan_runs.specs.Runs.{lists_at, IsRun, IsPartialRun, AllWhole, sources_in};
ghost use Rattle.plan_runs.specs.Without.{query_without, forgot_in, Remembers};

/// The law of closed runs: where each source's list is whole, that of each node is, and its table is that of the query
/// with what each port forgot left out. Where no memory is finite this is the query.
pub fn closed_runs()
    ensures whole { (nodes : List PlanNode) (sources : Lists) (ports : List Lists) (given : Lists) → AreNodes [] (map node_of nodes) → IsRun nodes sources ports given → AllWhole (source_count nodes) sources → AllWhole (length nodes) given }
    ensures tables { (nodes : List PlanNode) (sources : Lists) (tables : Tables) (ports : List Lists) (given : Lists) → AreNodes [] (map node_of nodes) → IsRun nodes sources ports given → AllWhole (source_count nodes) sources → AreTables sources tables → (place : ℕ) → place < length nodes → IsTableOf (list_at given place) (table_at (query_without (forgot_in nodes ports) tables nodes) place) }
    ensures query { (nodes : List PlanNode) (sources : Lists) (tables : Tables) (ports : List Lists) (given : Lists) → AreNodes [] (map node_of nodes) → IsRun nodes sources ports given → AllWhole (source_count nodes) sources → Remembers nodes → query_without (forgot_in nodes ports) tables nodes ≡ query tables nodes }
{}

/// The law of plans as they stand: in a run that goes on, over ports whose block is 0 or without limit and whose memory
/// is without limit, in any mix, the list of each node has the table and the mark that stand at it. So the output's rows,
/// and the mark that came to it, are those of the plan as it stands: the tables and the marks of the sources alone decide
/// them.
pub fn now_runs()
    ensures nodes { (nodes : List PlanNode) (count : ℕ) (sources : Lists) (tables : Tables) (marks : List ℕ) (ports : List Lists) (given : Lists) → AreNodes [] (map node_of nodes) → IsRun nodes sources ports given → SourcesStand nodes sources tables marks → AllCanSave count nodes → (place : ℕ) → place < length nodes → place < count → StandsAt (list_at given place) (standing_at (standings tables marks nodes) place).table (standing_at (standings tables marks nodes) place).mark }
    ensures table { (nodes : List PlanNode) (count : ℕ) (sources : Lists) (tables : Tables) (marks : List ℕ) (ports : List Lists) (given : Lists) → ArePlanned nodes → IsRun nodes sources ports given → SourcesStand nodes sources tables marks → AllCanSave count nodes → output_place nodes < count → IsTableOf (list_at given (output_place nodes)) (now tables marks nodes).table }
    ensures mark { (nodes : List PlanNode) (count : ℕ) (sources : Lists) (tables : Tables) (marks : List ℕ) (ports : List Lists) (given : Lists) → ArePlanned nodes → IsRun nodes sources ports given → SourcesStand nodes sources tables marks → AllCanSave count nodes → output_place nodes < count → mark_of (list_at (lists_at ports (output_place nodes)) 0) ≡ (now tables marks nodes).mark }
{}

/// The law of plans as they stand over middle levels: what stands at a node is its table in the query, and how far that
/// reaches. So it is for a plan whose levels are all middle. Where its output alone is strong, the plan shows the query's
/// rows that end before its reach.
pub fn now_cases()
    ensures nodes { (nodes : List PlanNode) (count : ℕ) (tables : Tables) (marks : List ℕ) → AreNodes [] (map node_of nodes) → AreMiddle count nodes → (place : ℕ) → place < length nodes → place < count → standing_at (standings tables marks nodes) place ≡ record { table = table_at (query tables nodes) place; mark = mark_at (reaches tables marks nodes) place } }
    ensures middle { (nodes : List PlanNode) (count : ℕ) (tables : Tables) (marks : List ℕ) → ArePlanned nodes → AreMiddle count nodes → output_place nodes < count → now tables marks nodes ≡ record { table = table_at (query tables nodes) (output_place nodes); mark = mark_at (reaches tables marks nodes) (output_place nodes) } }
    ensures strong { (nodes : List PlanNode) (tables : Tables) (marks : List ℕ) → ArePlanned nodes → (before after : List PlanNode) (n : PlanNode) → nodes ≡ before ++ n ∷ after → length before ≡ output_place nodes → AreMiddle (length before) nodes → n.level.block ≡ None → now tables marks nodes ≡ record { table = filter (λ (r : Row). nat_lt r.end (mark_at (reaches tables marks nodes) (output_place nodes))) (table_at (query tables nodes) (output_place nodes)); mark = mark_at (reaches tables marks nodes) (output_place nodes) } }
{}

/// The law of runs that go on over middle levels, which the two above come to: where the first nodes of a plan have the
/// middle level, and each source's list is legal and without its end, the table of each of these nodes is that of the
/// query over the tables so far, and its mark is how far it reaches.
pub fn going_runs()
    ensures tables { (nodes : List PlanNode) (count : ℕ) (sources : Lists) (tables : Tables) (marks : List ℕ) (ports : List Lists) (given : Lists) → AreNodes [] (map node_of nodes) → IsRun nodes sources ports given → AllGoing (source_count nodes) sources → AreTables sources tables → AreMarks (source_count nodes) sources marks → AreMiddle count nodes → (place : ℕ) → place < length nodes → place < count → IsTableOf (list_at given place) (table_at (query tables nodes) place) }
    ensures marks { (nodes : List PlanNode) (count : ℕ) (sources : Lists) (tables : Tables) (marks : List ℕ) (ports : List Lists) (given : Lists) → AreNodes [] (map node_of nodes) → IsRun nodes sources ports given → AllGoing (source_count nodes) sources → AreTables sources tables → AreMarks (source_count nodes) sources marks → AreMiddle count nodes → (place : ℕ) → place < length nodes → place < count → mark_of (list_at given place) ≡ mark_at (reaches tables marks nodes) place }
    ensures output { (nodes : List PlanNode) (sources : Lists) (tables : Tables) (marks : List ℕ) (ports : List Lists) (given : Lists) → AreNodes [] (map node_of nodes) → IsRun nodes sources ports given → AllGoing (source_count nodes) sources → AreTables sources tables → AreMarks (source_count nodes) sources marks → (before after : List PlanNode) (n : PlanNode) → nodes ≡ before ++ n ∷ after → AreMiddle (length before) nodes → n.kind ≡ kind.Output → n.level.block ≡ None → n.level.memory ≡ None → IsTableOf (list_at given (length before)) (filter (λ (r : Row). nat_lt r.end (mark_at (reaches tables marks nodes) (length before))) (table_at (query tables nodes) (length before))) }
    ensures strong { (level : Level) (ms : List Message) (rows : List Row) → level.block ≡ None → level.memory ≡ None → IsGoing ms → IsTableOf ms rows → SameRows (passed_table level ms) (filter (λ (r : Row). nat_lt r.end (mark_of ms)) rows) }
{}

/// The law of partial runs: a run is one, and in what the nodes gave the list of each source can be found.
pub fn partial_runs()
    ensures whole { (nodes : List PlanNode) (sources : Lists) (ports : List Lists) (given : Lists) → IsRun nodes sources ports given → IsPartialRun nodes sources ports given }
    ensures sources { (before after : List PlanNode) (n : PlanNode) (given : Lists) → is_source n.kind ≡ true → list_at (sources_in (before ++ n ∷ after) given) (source_count before) ≡ list_at given (length before) }
{}

/// The law of partial runs over the first messages of whole lists. Where no memory is finite, the table of what a node gave
/// agrees up to its mark with the node's table in the query over the tables of the whole lists, and an output whose block is
/// without limit has added the first of the query's rows in canonical order. Where some memory is finite, it has still added
/// rows in that order, and taken nothing back.
pub fn partial_agreement()
    ensures agrees { (nodes : List PlanNode) (sources : Lists) (tables : Tables) (ports : List Lists) (given : Lists) → AreNodes [] (map node_of nodes) → IsPartialRun nodes sources ports given → Remembers nodes → AllBeginTables (source_count nodes) sources tables → (place : ℕ) → place < length nodes → Approaches (list_at given place) (table_at (query tables nodes) place) }
    ensures strong { (nodes : List PlanNode) (sources : Lists) (tables : Tables) (ports : List Lists) (given : Lists) → AreNodes [] (map node_of nodes) → IsPartialRun nodes sources ports given → Remembers nodes → AllBeginTables (source_count nodes) sources tables → (before after : List PlanNode) (n : PlanNode) → nodes ≡ before ++ n ∷ after → n.kind ≡ kind.Output → n.level.block ≡ None → AddsFirst (changes_of (list_at given (length before))) (table_at (query tables nodes) (length before)) }
    ensures ascends { (nodes : List PlanNode) (sources : Lists) (ports : List Lists) (given : Lists) → AreNodes [] (map node_of nodes) → IsPartialRun nodes sources ports given → ((k : ℕ) → k < source_count nodes → IsLegal (list_at sources k)) → (before after : List PlanNode) (n : PlanNode) → nodes ≡ before ++ n ∷ after → n.kind ≡ kind.Output → n.level.block ≡ None → HasNoCut (changes_of (list_at given (length before))) × Ascend (added (changes_of (list_at given (length before)))) }
{}
