ghost use Rattle.std.specs.Prelude.{◌≤◌, ◌++◌, [], All, List};
ghost use Rattle.cedr_base.specs.declared.change.Message.{Message};
ghost use Rattle.cedr_base.specs.declared.row.Row.{Row};
ghost use Rattle.cedr_text.specs.declared.event_line.EventLine.{EventLine};
ghost use Rattle.cedr_guard.specs.declared.state.EventState.{EventState};
ghost use Rattle.cedr_guard.specs.Judging.{guarantee_of, AreAccepted, IsAccepted};
ghost use Rattle.cedr_guard.specs.Messages.{line_messages, messages_behind};
ghost use Rattle.cedr_guard.specs.Spelt.{state_of};
ghost use Rattle.source_memory.specs.Remembered.{remembered_lines, kept_with, RemembersLines, Continues, EndBelow};

/// The law of what a source remembers. The messages of accepted lines continue from the first one on. Those of a line that
/// is accepted behind what is remembered may come behind all that were given, however much was forgotten; and where events
/// are forgotten, their rows are final. Of the events that are remembered none is over.
pub fn memory_laws()
    ensures begins { (lines : List EventLine) → AreAccepted lines → Continues (messages_behind [] lines) lines [] }
    ensures goes_on { (given : List Message) (kept : List EventLine) (gone : List Row) (line : EventLine) → AreAccepted kept → Continues given kept gone → IsAccepted kept line
        → AreAccepted (kept_with kept line) × ((over : List Row) × EndBelow (guarantee_of (kept_with kept line)) over × Continues (given ++ line_messages kept line) (kept_with kept line) (over ++ gone)) }
    ensures forgets { (given : List Message) (lines kept : List EventLine) (gone : List Row) → AreAccepted lines → Continues given lines gone → RemembersLines lines kept
        → (over : List Row) × EndBelow (guarantee_of lines) over × Continues given kept (over ++ gone) }
    ensures remembers { (lines : List EventLine) → AreAccepted lines → RemembersLines lines (remembered_lines lines) }
    ensures none_over { (lines kept : List EventLine) → RemembersLines lines kept → All (λ (e : EventState). guarantee_of kept ≤ e.end) (state_of kept).events }
{}
