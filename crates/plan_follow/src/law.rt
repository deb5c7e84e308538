ghost use Rattle.std.specs.Prelude.{ℕ, ◌≡◌, ◌++◌, List, [], Option, length};
ghost use Rattle.cedr_base.specs.Changes.{all_puts, all_takes};
ghost use Rattle.cedr_base.specs.Messages.{changes_of, mark_of, IsTableOf};
ghost use Rattle.cedr_base.specs.Rows.{SameRows};
ghost use Rattle.cedr_base.specs.declared.change.Message.{Message};
ghost use Rattle.cedr_base.specs.declared.row.Row.{Row};
ghost use Rattle.cedr_plan.specs.Rules.{ArePlanned};
ghost use Rattle.cedr_plan.specs.declared.plan.PlanNode.{PlanNode};
ghost use Rattle.cedr_text.specs.declared.event_line.Shape.{Shape};
ghost use Rattle.plan_follow.specs.Cut.{followed_whole, followed_on, MayBeCut, GaveParts};
ghost use Rattle.plan_follow.specs.Sifted.{Sifted, sifted};
ghost use Rattle.plan_live.specs.Scripts.{ShapesHaveTypes};
ghost use Rattle.plan_runs.specs.Now.{AllCanSave};

use cedr_text::reading_law;

/// The law of a script that is followed, cut, saved at the cut, and followed on from what was saved. Where no line of the
/// whole is refused, none of either part is. With the table of what the output gave for the first part, the changes that it
/// gives behind the saved states make the table of what it gives for the whole, and its marks go on to the whole's. What
/// lines come to is the same by any shapes of the plan's types, so the law holds of three calls that each made their own.
pub fn cut_scripts()
    ensures taken { (nodes : List PlanNode) (shapes : List Shape) (first more : List ℕ) → MayBeCut nodes shapes first more → ((followed_whole nodes shapes first).refusals ≡ []) × ((followed_on nodes shapes first more).refusals ≡ []) }
    ensures table { (nodes : List PlanNode) (shapes : List Shape) (first more : List ℕ) (whole front rest : List Message) → ArePlanned nodes → AllCanSave (length nodes) nodes → MayBeCut nodes shapes first more → GaveParts nodes shapes first more whole front rest → (rows first_rows : List Row) → IsTableOf whole rows → IsTableOf front first_rows → SameRows (rows ++ all_takes (changes_of rest)) (first_rows ++ all_puts (changes_of rest)) }
    ensures mark { (nodes : List PlanNode) (shapes : List Shape) (first more : List ℕ) (whole front rest : List Message) → ArePlanned nodes → AllCanSave (length nodes) nodes → MayBeCut nodes shapes first more → GaveParts nodes shapes first more whole front rest → mark_of whole ≡ mark_of (front ++ rest) }
    ensures shapes { (nodes : List PlanNode) (shapes others : List Shape) → ShapesHaveTypes nodes shapes → ShapesHaveTypes nodes others → (s : Sifted) (answers : List (Option (List ℕ))) → sifted nodes shapes s answers ≡ sifted nodes others s answers }
{
    reading_law();
}
