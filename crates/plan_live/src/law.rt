ghost use Rattle.std.specs.Prelude.{ℕ, ◌≡◌, ◌≤◌, ◌++◌, ◌∷◌, All, List, None, length};
ghost use Rattle.cedr_guard.specs.Spelt.{HasBare};
ghost use Rattle.cedr_guard.specs.declared.state.SourceState.{SourceState};
ghost use Rattle.cedr_save.specs.Checkpoints.{plan_sources, AreSaved, checkpoint_text};
ghost use Rattle.cedr_save.specs.declared.reader.TheConstants.{CHECKPOINT_LIMIT};
ghost use Rattle.node_laws.specs.Lists.{Lists};
ghost use Rattle.cedr_plan.specs.Rules.{ArePlanned};
ghost use Rattle.cedr_plan.specs.declared.plan.PlanNode.{PlanNode};
ghost use Rattle.cedr_plan.specs.Places.{output_place};
ghost use Rattle.plan_runs.specs.Middle.{AreMiddle};
ghost use Rattle.plan_runs.specs.Now.{AllCanSave};
ghost use Rattle.cedr_text.specs.declared.event_line.Shape.{Shape};
ghost use Rattle.plan_live.specs.Scripts.{Accepted, ShapesHaveTypes, played, played_after, played_behind};
ghost use Rattle.plan_live.specs.Shown.{AreShown, IsShown};
ghost use Rattle.plan_live.specs.Resumed.{lines_from, states_so_far, states_in, AreStates, EndsLine};
ghost use Rattle.plan_live.specs.SoFar.{AreLines, AllAreLines, rows_so_far, reach_so_far, ending_before, text_so_far, text_now, texts_now};

use cedr_text::reading_law;

/// The law of what is shown: the lines that a `?` follows are accepted. Where each node of the plan has the middle
/// level, the rows are those of the query over the canonical histories so far, and the reach is how far it reaches.
/// After middle nodes a strong output shows those of these rows that end before the reach. These are two cases of plans
/// whose blocks are 0 or without limit and whose memories are without limit: there the rows and the mark are those of the
/// plan as it stands, over the histories and the guarantees so far.
pub fn shown_rows()
    ensures accepted { (nodes : List PlanNode) (shapes : List Shape) (script : List ℕ) → AllAreLines (played nodes shapes script).asks }
    ensures middle { (nodes : List PlanNode) (before : Lists) (lines : Accepted) (given : Lists) (text : List ℕ) → ArePlanned nodes → AreMiddle (length nodes) nodes → AreLines lines → IsShown nodes before lines given text → text ≡ text_so_far (rows_so_far nodes lines) (reach_so_far nodes lines) }
    ensures strong { (nodes front after : List PlanNode) (output : PlanNode) (before : Lists) (lines : Accepted) (given : Lists) (text : List ℕ) → ArePlanned nodes → nodes ≡ front ++ output ∷ after → length front ≡ output_place nodes → AreMiddle (length front) nodes → output.level.block ≡ None → output.level.memory ≡ None → AreLines lines → IsShown nodes before lines given text → text ≡ text_so_far (ending_before (reach_so_far nodes lines) (rows_so_far nodes lines)) (reach_so_far nodes lines) }
    ensures now { (nodes : List PlanNode) (before : Lists) (lines : Accepted) (given : Lists) (text : List ℕ) → ArePlanned nodes → AllCanSave (length nodes) nodes → AreLines lines → IsShown nodes before lines given text → text ≡ text_now nodes lines }
    ensures all_now { (nodes : List PlanNode) (before : Lists) (asks : List Accepted) (text : List ℕ) → ArePlanned nodes → AllCanSave (length nodes) nodes → AllAreLines asks → AreShown nodes before asks text → text ≡ texts_now nodes asks }
{
    reading_law();
}

/// The law of scripts that go on from states: the lines that states of the sources spell are accepted, and so are those
/// that a `?` follows behind them. From the states that accepted lines came to a script has the text of the plan as it
/// stands, and the fault, that it has from these lines themselves. So where a script whose lines all end with a line feed
/// is followed by another one and both are accepted as one, the second one is accepted from the states that the first one
/// came to, and shows what it shows behind the first.
pub fn resumed_scripts()
    ensures spelt { (nodes : List PlanNode) (states : List SourceState) → AreStates nodes states → AreLines (lines_from nodes (states_in states)) }
    ensures accepted { (nodes : List PlanNode) (shapes : List Shape) (before : Accepted) (script : List ℕ) → AreLines before → AllAreLines (played_after nodes shapes before script).asks × AreLines (played_after nodes shapes before script).lines }
    ensures same { (nodes : List PlanNode) (shapes : List Shape) (before : Accepted) (script : List ℕ) → length before ≡ length nodes → AreLines before → (texts_now nodes (played_after nodes shapes (lines_from nodes (states_so_far nodes before)) script).asks ≡ texts_now nodes (played_after nodes shapes before script).asks) × ((played_after nodes shapes (lines_from nodes (states_so_far nodes before)) script).fault ≡ (played_after nodes shapes before script).fault) }
    ensures whole { (nodes : List PlanNode) (shapes : List Shape) (first more : List ℕ) → EndsLine first → (played nodes shapes (first ++ more)).fault ≡ None → (texts_now nodes (played nodes shapes (first ++ more)).asks ≡ texts_now nodes (played nodes shapes first).asks ++ texts_now nodes (played_after nodes shapes (lines_from nodes (states_so_far nodes (played nodes shapes first).lines)) more).asks) × ((played nodes shapes first).fault ≡ None) × ((played_after nodes shapes (lines_from nodes (states_so_far nodes (played nodes shapes first).lines)) more).fault ≡ None) }
{
    reading_law();
}

/// The law of the states that a script leaves. Its accepted lines are those before its first fault, or all of them. The
/// states that they come to may be saved, no withdrawn event among them has fields, and their text is no longer than a
/// checkpoint may be: an event's line needs no more bytes than the lines of the script that are about the event.
pub fn saved_scripts()
    ensures saved { (nodes : List PlanNode) (shapes : List Shape) (script : List ℕ) → ShapesHaveTypes nodes shapes → AreSaved (plan_sources nodes) (states_so_far nodes (played nodes shapes script).lines) × All HasBare (states_so_far nodes (played nodes shapes script).lines) }
    ensures fits { (nodes : List PlanNode) (shapes : List Shape) (script : List ℕ) → ArePlanned nodes → ShapesHaveTypes nodes shapes → length (checkpoint_text (plan_sources nodes) (states_so_far nodes (played nodes shapes script).lines)) ≤ CHECKPOINT_LIMIT }
{}
