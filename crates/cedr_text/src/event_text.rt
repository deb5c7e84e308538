ghost use Rattle.std.specs.Prelude.{◌≡◌, IfOk};
ghost use Rattle.cedr_text.specs.EventTexts.{as_line};

use crate::event_line::EventLine;
use crate::payload_text::PayloadText;
use crate::text_row::TextRow;
use cedr_base::{OutOfMemory, Row, Time};
use std::alloc::Global;

/// What a line says, as an `EventLine` does, with the payload of an insertion or a revision still in the
/// line where that has no quotes.
#[derive(Drop)]
pub enum EventText<'a> {
    Insert { id: u64, row: TextRow<'a> },
    Retract { id: u64, end: Time },
    Revise { id: u64, row: TextRow<'a> },
    Promise(Time),
}

/// The same row, with its payload in memory.
fn text_row<'a>(alloc: Global, row: Row) -> Result<TextRow<'a>, OutOfMemory>
    ensures { IfOk result (λ text. text ≡ row) }
{
    let (end, begin) = (row.end, row.begin);
    let payload = PayloadText::read(alloc, row.into_payload())?;
    Ok(TextRow {
        end,
        begin,
        payload,
    })
}

impl<'a> EventText<'a> {
    /// The same event, with the payload of an insertion or a revision in memory.
    pub fn from_line(alloc: Global, line: EventLine) -> Result<EventText<'a>, OutOfMemory>
        ensures { IfOk result (λ text. as_line text ≡ line) }
    {
        match line {
            EventLine::Insert { id, row } => {
                let row = text_row(alloc, row)?;
                Ok(EventText::Insert { id, row })
            }
            EventLine::Retract { id, end } => Ok(EventText::Retract { id, end }),
            EventLine::Revise { id, row } => {
                let row = text_row(alloc, row)?;
                Ok(EventText::Revise { id, row })
            }
            EventLine::Promise(time) => Ok(EventText::Promise(time)),
        }
    }
}
