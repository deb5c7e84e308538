ghost use Rattle.std.specs.Prelude.{◌≡◌, ◌<◌, ◌^◌, ◌↔◌, ◌++◌, ◌∷◌, ℕ, List, [], length, Err};
ghost use Rattle.cedr_base.specs.Messages.{IsLegal, IsTableOf};
ghost use Rattle.cedr_text.specs.declared.event_line.EventLine.{EventLine};
ghost use Rattle.cedr_text.specs.declared.event_line.Shape.{Shape};
ghost use Rattle.cedr_text.specs.declared.fault.LineFault.TheVariants.{LineTooLong};
ghost use Rattle.cedr_guard.specs.declared.guard.Guard.{Guard};
ghost use Rattle.cedr_guard.specs.declared.refusal.TheConstants.{FILE_LIMIT};
ghost use Rattle.cedr_guard.specs.Judging.{fault_behind, AreAccepted, AreAcceptedBehind};
ghost use Rattle.cedr_guard.specs.History.{history_of};
ghost use Rattle.cedr_guard.specs.Messages.{line_messages, messages_behind, messages_in};
ghost use Rattle.cedr_guard.specs.Standing.{Guards};
ghost use Rattle.cedr_guard.specs.Spelt.{State, lines_of, state_of, IsFit, HasBare};
ghost use Rattle.cedr_guard.specs.States.{SameState};
ghost use Rattle.cedr_guard.specs.Sources.{line_reading, messages_of, messages_by_line, history_of_bytes};

use cedr_text::{line_limit, reading_law};

/// The law of the messages. What a guard answered for the lines that it stands for is legal, and its table
/// is their canonical history. So it is with the messages of a source, whatever its shape and its bytes:
/// those of the lines before its first fault, and then `End` where it has none. Line by line they are the same.
pub fn message_laws()
    ensures guard { (guard : Guard) (lines : List EventLine) → Guards guard lines → IsLegal (messages_behind [] lines) × IsTableOf (messages_behind [] lines) (history_of lines) }
    ensures answers { (lines : List EventLine) (line : EventLine) → messages_behind [] (lines ++ line ∷ []) ≡ messages_behind [] lines ++ line_messages lines line }
    ensures legal { (lines : List EventLine) → AreAccepted lines → IsLegal (messages_behind [] lines) }
    ensures table { (lines : List EventLine) → AreAccepted lines → IsTableOf (messages_behind [] lines) (history_of lines) }
    ensures source_legal { (shape : Shape) (bytes : List ℕ) → IsLegal (messages_of shape bytes) }
    ensures by_line { (shape : Shape) (bytes : List ℕ) → messages_in (messages_by_line shape bytes) ≡ messages_of shape bytes }
    ensures source_table { (shape : Shape) (bytes : List ℕ) → IsTableOf (messages_of shape bytes) (history_of_bytes shape bytes) }
{
    reading_law();
}

/// The law of the limits: a source may have 2^26 bytes, and exactly a line that has over 65,536 is too long.
/// A carriage return before its line feed counts.
pub fn source_limits()
    ensures file { FILE_LIMIT ≡ 2 ^ 26 }
    ensures line { (shape : Shape) (line : List ℕ) → (line_reading shape line ≡ Err LineTooLong) ↔ (65536 < length line) }
{
    line_limit();
}

/// The law of states: lines are judged by the state of the lines before them alone, and become the same messages.
/// Accepted lines whose states are the same list of events with the same guarantee have the same state so.
pub fn same_states()
    ensures fault { (xs ys : List EventLine) → SameState xs ys → (line : EventLine) → fault_behind xs line ≡ fault_behind ys line }
    ensures goes_on { (xs ys : List EventLine) → SameState xs ys → (lines : List EventLine) → AreAcceptedBehind xs lines
        → AreAcceptedBehind ys lines × (messages_behind xs lines ≡ messages_behind ys lines) × SameState (xs ++ lines) (ys ++ lines) }
    ensures states { (xs ys : List EventLine) → AreAccepted xs → AreAccepted ys → state_of xs ≡ state_of ys → SameState xs ys }
{}

/// The law of what a state spells: from the state of accepted lines, insertions, then retractions, then the guarantee
/// are accepted lines of the same state and canonical history. What goes on from them has the history of what goes on
/// from the others. The state of accepted lines is fit, and each that is fit is that of the lines that it spells.
pub fn spelt_states()
    ensures spelt { (lines : List EventLine) → AreAccepted lines → AreAccepted (lines_of (state_of lines)) × SameState lines (lines_of (state_of lines)) }
    ensures history { (lines : List EventLine) → AreAccepted lines → history_of (lines_of (state_of lines)) ≡ history_of lines }
    ensures later { (xs ys : List EventLine) → AreAccepted xs → AreAccepted ys → SameState xs ys → history_of xs ≡ history_of ys → (lines : List EventLine) → AreAcceptedBehind xs lines
        → history_of (xs ++ lines) ≡ history_of (ys ++ lines) }
    ensures state { (lines : List EventLine) → AreAccepted lines → IsFit (state_of lines) × HasBare (state_of lines) }
    ensures fit { (state : State) → IsFit state → AreAccepted (lines_of state) }
    ensures itself { (state : State) → IsFit state → HasBare state → state_of (lines_of state) ≡ state }
{}
