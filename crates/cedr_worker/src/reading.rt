ghost use Rattle.std.specs.Prelude.{◌≡◌, ◌<◌, ◌≤◌, List, ℕ, false, length, IfOk};
ghost use Rattle.cedr_base.specs.declared.change.Message.{Message as Sent};
ghost use Rattle.cedr_text.specs.declared.event_line.Shape.{Shape};
ghost use Rattle.cedr_guard.specs.declared.refusal.TheConstants.{FILE_LIMIT};
ghost use Rattle.cedr_source.specs.Reads.{ReadsSource, is_ended};
ghost use Rattle.cedr_worker.specs.declared.reading.TheConstants.{BLOCK};
ghost use Rattle.cedr_worker.specs.SourceSteps.{TookStep, Advanced, BlockCame};

use crate::stop::SourceStop;
use cedr_base::Message;
use cedr_io::Source;
use cedr_source::{SourceLines, SourceStep};
use std::alloc::Global;

/// How many bytes a read takes at most.
pub(crate) const BLOCK: usize = 4096;

/// The messages of the next line of what was read. Where no line is left, one block is read, which gives none.
pub(crate) fn take_step<S: Source>(
    alloc: Global,
    source: &mut S,
    lines: &mut SourceLines,
    block: &mut [u8],
) -> Result<Vec<Message>, SourceStop>
    requires room { length block.old ≡ BLOCK }
    requires reads { (shape : Shape) × (bytes : List ℕ) × (given : List Sent) × ReadsSource lines.old shape bytes given }
    ensures took { (shape : Shape) (bytes : List ℕ) (given : List Sent) → ReadsSource lines.old shape bytes given → TookStep result lines.old lines.new (S.rest source.old) (S.rest source.new) (S.faults source.old) (S.faults source.new) shape bytes given }
    ensures advanced { (shape : Shape) (bytes : List ℕ) (given : List Sent) → ReadsSource lines.old shape bytes given → IfOk result (λ _. Advanced (S.rest source.old) (S.rest source.new) lines.old lines.new) }
{
    let mut messages = Vec::new(alloc);
    match lines.take_line(&mut messages) {
        Ok(SourceStep::Line) => Ok(messages),
        Ok(SourceStep::NotYet) => read_block(alloc, source, lines, block),
        Ok(SourceStep::Closed) => Err(SourceStop::Closed),
        Ok(SourceStep::Refused(refusal)) => Err(SourceStop::Refused {
            line: refusal.line,
            fault: refusal.fault,
        }),
        Err(_) => Err(SourceStop::OutOfMemory),
    }
}

/// Reads a block, or learns that no more bytes come.
fn read_block<S: Source>(
    alloc: Global,
    source: &mut S,
    lines: &mut SourceLines,
    block: &mut [u8],
) -> Result<Vec<Message>, SourceStop>
    requires room { length block.old ≡ BLOCK }
    requires goes_on { is_ended lines.old ≡ false }
    ensures took { (shape : Shape) (bytes : List ℕ) (given : List Sent) → ReadsSource lines.old shape bytes given → length bytes ≤ FILE_LIMIT → TookStep result lines.old lines.new (S.rest source.old) (S.rest source.new) (S.faults source.old) (S.faults source.new) shape bytes given }
    ensures came { (shape : Shape) (bytes : List ℕ) (given : List Sent) → ReadsSource lines.old shape bytes given → length bytes ≤ FILE_LIMIT → IfOk result (λ _. BlockCame (S.rest source.old) (S.rest source.new) lines.old lines.new) }
{
    let Ok(count) = source.read(block) else {
        return Err(SourceStop::ReadFault);
    };
    if count == 0 {
        lines.finish();
        return Ok(Vec::new(alloc));
    }
    match lines.feed(&block[..count]) {
        Ok(()) => Ok(Vec::new(alloc)),
        Err(_) => Err(SourceStop::OutOfMemory),
    }
}
