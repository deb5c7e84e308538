ghost use Rattle.std.specs.Prelude.{◌≡◌, ◌++◌, [], IfOk, OnOk, All};
ghost use Rattle.cedr_guard.specs.Messages.{messages_behind};
ghost use Rattle.cedr_guard.specs.Spelt.{state_in, state_row, inserted_row, lines_of, IsState, IsFit};
ghost use Rattle.plan_live.specs.Restoring.{insertions, withdrawals};

use cedr_base::{Change, Message, OutOfMemory, Row};
use cedr_guard::{EventState, SourceState};
use std::alloc::Global;

/// The row of an event before it was withdrawn, if it was: then it lasts for one point of time.
fn inserted_row(alloc: Global, event: &EventState) -> Result<Row, OutOfMemory>
    requires { IsState event.now }
    ensures { IfOk result (λ row. row ≡ inserted_row (state_row event.now)) }
{
    let payload = event.payload.copy(alloc)?;
    let end = if event.begin < event.end {
        event.end
    } else {
        event.begin + 1
    };
    Ok(Row {
        end,
        begin: event.begin,
        payload,
    })
}

/// Appends the insertions of events.
fn insert_events(
    alloc: Global,
    events: &[EventState],
    messages: &mut Vec<Message>,
) -> Result<(), OutOfMemory>
    requires { All IsState events.now }
    ensures { OnOk result (messages.new.items ≡ messages.old.items ++ insertions events.now) }
{
    for event in events {
        let row = inserted_row(alloc, event)?;
        messages.push(Message::Change(Change::Add(row)))?;
    }
    Ok(())
}

/// Appends the retractions of the events that are withdrawn.
fn withdraw_events(
    alloc: Global,
    events: &[EventState],
    messages: &mut Vec<Message>,
) -> Result<(), OutOfMemory>
    requires { All IsState events.now }
    ensures { OnOk result (messages.new.items ≡ messages.old.items ++ withdrawals events.now) }
{
    for event in events {
        if event.begin < event.end {
            continue;
        }
        let row = inserted_row(alloc, event)?;
        messages.push(Message::Change(Change::Cut(row, event.begin)))?;
    }
    Ok(())
}

/// The messages of the lines that a state spells: its insertions, then its retractions, then its guarantee. The payloads
/// are shared, not copied.
pub fn state_messages(alloc: Global, state: &SourceState) -> Result<Vec<Message>, OutOfMemory>
    requires { IsFit (state_in state.now) }
    ensures { IfOk result (λ messages. messages.items ≡ messages_behind [] (lines_of (state_in state.now))) }
{
    let mut messages = Vec::new(alloc);
    insert_events(alloc, &state.events, &mut messages)?;
    withdraw_events(alloc, &state.events, &mut messages)?;
    if 0 < state.mark {
        messages.push(Message::Mark(state.mark))?;
    }
    Ok(messages)
}
