ghost use Rattle.std.specs.Prelude.{List, ℕ};
ghost use Rattle.cedr_base.specs.declared.change.Message.{Message};
ghost use Rattle.cedr_text.specs.declared.event_line.Shape.{Shape};
ghost use Rattle.cedr_source.specs.declared.lines.SourceLines.{SourceLines};
ghost use Rattle.cedr_source.specs.Reads.{ReadsSource};
ghost use Rattle.cedr_source.specs.Steps.{GivesFront};

/// The law of what was given: it is legal, and whatever bytes may still come, it is a front of the messages of
/// the good lines of all bytes.
pub fn read_laws()
    ensures { (source : SourceLines) (shape : Shape) (bytes : List ℕ) (given : List Message) → ReadsSource source shape bytes given → GivesFront source shape bytes given }
{}
