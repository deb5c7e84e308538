ghost use Rattle.std.specs.Prelude.{◌≡◌, ◌<◌, ◌≤◌, ◌^◌, ◌++◌, ◌∷◌, ℕ, List, length, Ok, Some, true};
ghost use Rattle.cedr_plan.specs.declared.fault.PlanKind.TheVariants as kind;
ghost use Rattle.cedr_plan.specs.declared.operator.Operator.{Operator};
ghost use Rattle.cedr_plan.specs.declared.plan.Plan.{Plan};
ghost use Rattle.cedr_plan.specs.declared.plan.PlanNode.{PlanNode};
ghost use Rattle.cedr_plan.specs.declared.reader.TheConstants.{PLAN_LIMIT};
ghost use Rattle.cedr_plan.specs.Drawn.{Drawn};
ghost use Rattle.cedr_plan.specs.Operators.{operator_row, operator_of};
ghost use Rattle.cedr_plan.specs.Places.{is_output, is_source, output_place, source_count};
ghost use Rattle.cedr_plan.specs.Plans.{plan_of, refused};
ghost use Rattle.cedr_plan.specs.Rules.{ArePlanned, IsPlan, IsSound};

/// The law of the limit: a plan may have 2^20 bytes, and one that has more is too long, whatever it says.
pub fn plan_limit()
    ensures limit { PLAN_LIMIT ≡ 2 ^ 20 }
    ensures long { (bytes : List ℕ) → 2 ^ 20 < length bytes → plan_of bytes ≡ refused {T = Drawn} kind.TooLong 0 }
{}

/// The law of the operators' words: from its first version each operator is read from its own word, so none is left out and
/// no two of a version share one. A word of a version is an operator that this version knows, and none of a newer one.
pub fn operator_words()
    ensures own { (operator : Operator) → operator_of (operator_row operator).since (operator_row operator).word ≡ Some operator }
    ensures known { (version : ℕ) (word : List ℕ) (operator : Operator) → operator_of version word ≡ Some operator → (operator_row operator).since ≤ version }
{}

/// The law of plans that keep the rules: one that bytes describe does, whoever reads it, and the nodes of an accepted plan are
/// those of one that does.
pub fn sound_plans()
    ensures described { (bytes : List ℕ) (plan : Drawn) → plan_of bytes ≡ Ok plan → IsSound plan }
    ensures planned { (plan : Plan) → IsPlan plan → ArePlanned plan.nodes.items }
{}

/// The law of a plan's places: the output of a plan that keeps the rules stands at one of them. A source has fewer sources before
/// it than there are in all, so a list with a table for each source has its table at that number.
pub fn plan_places()
    ensures within { (nodes : List PlanNode) → ArePlanned nodes → output_place nodes < length nodes }
    ensures output { (nodes before after : List PlanNode) (node : PlanNode) → ArePlanned nodes → nodes ≡ before ++ node ∷ after → length before ≡ output_place nodes → is_output node.kind ≡ true }
    ensures sources { (nodes before after : List PlanNode) (node : PlanNode) → nodes ≡ before ++ node ∷ after → is_source node.kind ≡ true → source_count before < source_count nodes }
{}
