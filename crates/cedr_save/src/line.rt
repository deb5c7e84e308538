ghost use Rattle.std.specs.Prelude.{◌≡◌, ◌<◌, ◌≤◌, ◌^◌, false, [], List, drop, None, Some, IfOk, IfSome, if◌then◌else◌};
ghost use Rattle.cedr_base.specs.declared.field.FieldType.{FieldType};
ghost use Rattle.cedr_base.specs.declared.time.TheConstants.{FOREVER};
ghost use Rattle.cedr_text.specs.Lines.{has_line_feed};
ghost use Rattle.cedr_text.specs.Shapes.{ShapeHasTypes};
ghost use Rattle.cedr_guard.specs.declared.state.EventState.{EventState};
ghost use Rattle.cedr_guard.specs.Judging.{row_lives};
ghost use Rattle.cedr_guard.specs.Spelt.{state_row, IsState};
ghost use Rattle.cedr_save.specs.Checkpoints.{HasId, event_line, source_line};
ghost use Rattle.cedr_save.specs.Lines.{IsSavedEvent, ReadsEvent, ReadsMark, ReadsLiving, IsWithdrawn, bare_event};

use crate::text::{put_event, put_source};
use cedr_base::{FOREVER, OutOfMemory, Payload, Time};
use cedr_guard::EventState;
use cedr_text::{ReadLineFault, Shape, cut_number, cut_time, read_version_line};
use std::alloc::Global;

/// The event that a line is of, and nothing where it is no event's line. O(n).
pub(crate) fn read_event(
    alloc: Global,
    line: &[u8],
    shape: &Shape,
) -> Result<Option<EventState>, OutOfMemory>
    requires { has_line_feed line.now ≡ false }
    ensures { IfOk result (λ found. (types : List FieldType) → ShapeHasTypes shape.now types → ReadsEvent found types line.now) }
{
    let event = match read_withdrawn(alloc, line) {
        Some(event) => event,
        None => match read_living(alloc, line, shape)? {
            Some(event) => event,
            None => return Ok(None),
        },
    };
    // A line has one spelling, so it is written anew and compared.
    let text = event_text(alloc, &event)?;
    if text.as_slice() == line {
        Ok(Some(event))
    } else {
        Ok(None)
    }
}

/// The withdrawn event of a line with an id, a begin, and the begin again.
fn read_withdrawn(alloc: Global, line: &[u8]) -> Option<EventState>
    ensures some { IfSome result IsWithdrawn }
    ensures all { (e : EventState) → IsState e → HasId e → line.now ≡ event_line e → result ≡ (if row_lives (state_row e) then None else Some (bare_event e)) }
{
    let (id, begin, end) = read_times(line)?;
    if end != begin {
        return None;
    }
    Some(EventState {
        id,
        begin,
        end,
        payload: Payload::new(alloc),
    })
}

/// The id, the begin and the end that a line begins with.
fn read_times(line: &[u8]) -> Option<(u64, Time, Time)>
    ensures low { IfSome result (λ times. (times.0 < 2 ^ 64) × (times.1 < FOREVER)) }
    ensures all { (e : EventState) → IsState e → HasId e → line.now ≡ event_line e → result ≡ Some (e.id, e.begin, e.end) }
{
    let (id, rest) = cut_number(line, u64::MAX);
    let (begin, rest) = cut_number(rest?, FOREVER - 1);
    let (end, _) = cut_time(rest?);
    Some((id?, begin?, end?))
}

/// The event of a line with an id and a row, which isn't empty.
fn read_living(alloc: Global, line: &[u8], shape: &Shape) -> Result<Option<EventState>, OutOfMemory>
    ensures { IfOk result (λ found. (types : List FieldType) → ShapeHasTypes shape.now types → ReadsLiving found types line.now) }
{
    match read_version_line(alloc, line, shape) {
        Ok((id, row)) => {
            let (begin, end) = (row.begin, row.end);
            Ok(Some(EventState {
                id,
                begin,
                end,
                payload: row.into_payload(),
            }))
        }
        Err(ReadLineFault::Line(_)) => Ok(None),
        Err(ReadLineFault::OutOfMemory) => Err(OutOfMemory),
    }
}

/// The line of an event, without its line feed.
fn event_text(alloc: Global, event: &EventState) -> Result<Vec<u8>, OutOfMemory>
    ensures { IfOk result (λ text. text.items ≡ event_line event.now) }
{
    let mut text = Vec::new(alloc);
    put_event(event, &mut text)?;
    text.pop();
    Ok(text)
}

/// The guarantee of the line of a source with this name, and nothing where it is no such line. O(n).
pub(crate) fn read_source(
    alloc: Global,
    line: &[u8],
    name: &[u8],
) -> Result<Option<Time>, OutOfMemory>
    ensures { IfOk result (λ found. ReadsMark found name.now line.now) }
{
    let (found, _) = cut_time(rest_from(line, b"source,".len() + name.len() + 1));
    let Some(mark) = found else {
        return Ok(None);
    };
    let text = source_text(alloc, name, mark)?;
    if text.as_slice() == line {
        Ok(Some(mark))
    } else {
        Ok(None)
    }
}

/// What stands from a place on.
pub(crate) fn rest_from(bytes: &[u8], start: usize) -> &[u8]
    ensures { result.now ≡ drop start bytes.now }
{
    if start < bytes.len() {
        &bytes[start..]
    } else {
        &[]
    }
}

/// The line of a source, without its line feed.
fn source_text(alloc: Global, name: &[u8], mark: Time) -> Result<Vec<u8>, OutOfMemory>
    ensures { IfOk result (λ text. text.items ≡ source_line name.now mark) }
{
    let mut text = Vec::new(alloc);
    put_source(name, mark, &mut text)?;
    text.pop();
    Ok(text)
}
