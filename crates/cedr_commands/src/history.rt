ghost use Rattle.std.specs.Prelude.{◌≡◌, ◌<◌, ◌≤◌, length, [], Bool, List, ℕ, IfOk};
ghost use Rattle.cedr_io.specs.Counts.{last_count};
ghost use Rattle.cedr_base.specs.Bytes.{line_feed};
ghost use Rattle.cedr_text.specs.Parts.{parts_of};
ghost use Rattle.cedr_text.specs.Texts.{rows_text};
ghost use Rattle.cedr_text.specs.declared.event_line.EventLine.{EventLine};
ghost use Rattle.cedr_text.specs.declared.event_line.Shape.TheVariants.{AnyText};
ghost use Rattle.cedr_guard.specs.History.{history_of};
ghost use Rattle.cedr_guard.specs.Sources.{judged, with_reading, line_reading};
ghost use Rattle.cedr_commands.specs.declared.command.Job.TheVariants.{History};
ghost use Rattle.cedr_commands.specs.Commands.{Command};
ghost use Rattle.cedr_commands.specs.Events.{AreEventsOf, TakesEvent, JudgesFile, parts_behind, AnswersHistory};
ghost use Rattle.cedr_commands.specs.Outcomes.{CommandEnds, AsksOnly};
ghost use Rattle.cedr_commands.specs.Seen.{seen_files, seen_sink};

use crate::events::Events;
use crate::file::read_file;
use crate::outcome::Outcome;
use crate::refusal::JudgeFault;
use crate::saying::{refuse, write_text};
use cedr_base::OutOfMemory;
use cedr_guard::{FILE_LIMIT, GuardFault, Refusal, limit_fault};
use cedr_io::{Files, OutsideFault, Sink};
use cedr_text::{
    LINE_LIMIT, LineFault, Parts, read_text_line, sort_text_rows, without_return, write_text_rows,
};
use std::alloc::Global;

/// Writes the canonical history of an event file. O(n log n) in its events.
pub(crate) fn history<F: Files, K: Sink>(
    alloc: Global,
    file: &[u8],
    files: &mut F,
    out: &mut K,
) -> Outcome
    requires files_count { F.faults files.old < last_count }
    requires out_counts { K.faults out.old < last_count }
    ensures ends { (checkpoint script : List ℕ) → CommandEnds (record { job = History; file = file.now; checkpoint = checkpoint; script = script })
        (seen_files F.content F.faults F.asked files.old) (seen_files F.content F.faults F.asked files.new)
        (seen_sink K.written K.faults out.old) (seen_sink K.written K.faults out.new) result }
    ensures asked { (checkpoint script : List ℕ) → AsksOnly (record { job = History; file = file.now; checkpoint = checkpoint; script = script })
        (seen_files F.content F.faults F.asked files.old) (seen_files F.content F.faults F.asked files.new) }
    ensures contents { (n : List ℕ) → F.content files.new n ≡ F.content files.old n }
{
    let bytes = match read_file(alloc, FILE_LIMIT, files, file) {
        Ok(bytes) => bytes,
        Err(OutsideFault::Failed) => return Outcome::Read,
        Err(OutsideFault::OutOfMemory) => return Outcome::OutOfMemory,
    };
    match history_text(alloc, &bytes) {
        Ok(text) => write_text(out, &text),
        Err(JudgeFault::Refused(refusal)) => refuse(alloc, file, &refusal),
        Err(JudgeFault::OutOfMemory) => Outcome::OutOfMemory,
    }
}

/// The text of the canonical history of a file of these bytes.
fn history_text(alloc: Global, bytes: &[u8]) -> Result<Vec<u8>, JudgeFault>
    ensures { AnswersHistory result bytes.now }
{
    let events = judge_file(alloc, bytes)?;
    match rows_text(alloc, events) {
        Ok(text) => Ok(text),
        Err(OutOfMemory) => Err(JudgeFault::OutOfMemory),
    }
}

fn rows_text(alloc: Global, events: Events<'_>) -> Result<Vec<u8>, OutOfMemory>
    ensures { IfOk result (λ text. (lines : List EventLine) → AreEventsOf events.entry lines → text.items ≡ rows_text (history_of lines)) }
{
    let mut rows = events.into_rows(alloc)?;
    sort_text_rows(&mut rows);
    let mut text = Vec::new(alloc);
    write_text_rows(&rows, &mut text)?;
    Ok(text)
}

/// Judges the lines of a file, or those of its first bytes where it is over the limit.
fn judge_file(alloc: Global, bytes: &[u8]) -> Result<Events<'_>, JudgeFault>
    ensures { JudgesFile result (judged AnyText bytes.now) }
{
    if bytes.len() > FILE_LIMIT {
        judge_lines(alloc, &bytes[..FILE_LIMIT], true)
    } else {
        judge_lines(alloc, bytes, false)
    }
}

/// Judges each line after those before it, up to the first fault. Of a file over the limit these are the first bytes:
/// the line that they don't finish has no other fault than that.
fn judge_lines(alloc: Global, bytes: &[u8], over_limit: bool) -> Result<Events<'_>, JudgeFault>
    requires { length bytes.now ≤ FILE_LIMIT }
    ensures { JudgesFile result (parts_behind over_limit 0 [] (parts_of line_feed bytes.now)) }
{
    let mut events = Events::new(alloc);
    let mut number = 0u64;
    let mut lines = Parts::new(bytes, b'\n');
    while let Some(line) = lines.next() {
        number += 1;
        if over_limit && lines.is_empty() {
            return Err(JudgeFault::Refused(Refusal {
                line: number,
                fault: limit_fault(line),
            }));
        }
        if let Err(fault) = judge_line(alloc, &mut events, line) {
            return Err(JudgeFault::at(number, fault));
        }
    }
    Ok(events)
}

fn judge_line<'a>(alloc: Global, events: &mut Events<'a>, line: &'a [u8]) -> Result<(), GuardFault>
    ensures { (before : List EventLine) → AreEventsOf events.old before → TakesEvent result events.new (with_reading before (line_reading AnyText line.now)) }
{
    if line.len() > LINE_LIMIT {
        return Err(GuardFault::Line(LineFault::LineTooLong));
    }
    match read_text_line(alloc, without_return(line)) {
        Ok(Some(event)) => events.take(event),
        Ok(None) => Ok(()),
        Err(fault) => Err(GuardFault::from(fault)),
    }
}
