ghost use Rattle.std.specs.Prelude.{◌≡◌, ◌++◌, ℕ, List, None, Option, length};
ghost use Rattle.cedr_plan.specs.Rules.{ArePlanned};
ghost use Rattle.cedr_plan.specs.declared.plan.PlanNode.{PlanNode};
ghost use Rattle.cedr_table.specs.Operators.{Tables};
ghost use Rattle.cedr_text.specs.declared.event_line.Shape.{Shape};
ghost use Rattle.node_laws.specs.Lists.{Lists};
ghost use Rattle.plan_answer.specs.Queries.{AreAcceptedSources, source_nodes};
ghost use Rattle.plan_live.specs.Plays.{IsPlayed};
ghost use Rattle.plan_live.specs.Resumed.{EndsLine};
ghost use Rattle.plan_live.specs.Scripts.{ShapesHaveTypes, played};
ghost use Rattle.plan_live.specs.SoFar.{texts_now};
ghost use Rattle.plan_runs.specs.Now.{AllCanSave};
ghost use Rattle.cedr_commands.specs.Answers.{RefusesScript, RefusesSources};
ghost use Rattle.cedr_commands.specs.Resuming.{CanSavePlan, SavesScript, ResumesScript};

use cedr_save::checkpoint_law;
use plan_live::{resumed_scripts, saved_scripts, shown_rows};

/// The law of `save` and `resume`: where a script whose lines all end with a line feed is followed by another one and both
/// are accepted as one, what `save` writes of the first one is a checkpoint of the plan, and `resume` may accept from it
/// the second one. Whatever text it may then write is the one that `live` writes at the `?` lines of the second one behind the
/// first: what `live` may write of both is what it may write of the first, and then that text. The levels of a plan that can
/// be saved are those of which the laws of what is shown speak.
pub fn resumed_commands()
    ensures accepts { (nodes : List PlanNode) (shapes : List Shape) (first more saved : List ℕ) → ArePlanned nodes → ShapesHaveTypes nodes shapes → EndsLine first
        → (played nodes shapes (first ++ more)).fault ≡ None → SavesScript nodes first saved
        → (text : List ℕ) × ResumesScript nodes saved more text None × (texts_now nodes (played nodes shapes (first ++ more)).asks ≡ texts_now nodes (played nodes shapes first).asks ++ text) }
    ensures same { (nodes : List PlanNode) (first more saved text begun whole : List ℕ) → ArePlanned nodes → EndsLine first → SavesScript nodes first saved
        → ResumesScript nodes saved more text None → IsPlayed nodes first begun None → IsPlayed nodes (first ++ more) whole None → whole ≡ begun ++ text }
    ensures can { (nodes : List PlanNode) → CanSavePlan nodes → AllCanSave (length nodes) nodes }
{
    checkpoint_law();
    saved_scripts();
    resumed_scripts();
    shown_rows();
}

/// The law of what is accepted: sources that are accepted are not refused, and neither is a script. So a command over an
/// accepted plan and accepted sources, or an accepted script, doesn't end as over faulty ones.
pub fn accepted_commands()
    ensures sources { (told : List ℕ → List ℕ) (nodes : List PlanNode) (lists : Lists) (histories : Tables) (said : List ℕ) → AreAcceptedSources told (source_nodes nodes) lists histories → RefusesSources told nodes said → ⊥ }
    ensures script { (nodes : List PlanNode) (name script text other said : List ℕ) → IsPlayed nodes script text None → RefusesScript name script nodes other said → ⊥ }
{}
