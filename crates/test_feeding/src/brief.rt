use cedr_base::{Change, Field, Message, OutOfMemory, Payload, Row, Time};
use std::alloc::Global;

/// What a message says: an insertion of a row, a retraction of one to an earlier end, a mark, the end, or a break. A
/// row is its payload, which is one number, its begin and its end.
#[derive(Clone, Copy, Debug, PartialEq, Eq)]
pub enum Brief {
    Add(i128, Time, Time),
    Cut(i128, Time, Time, Time),
    Mark(Time),
    End,
    Broken,
}

fn row_of(alloc: Global, number: i128, begin: Time, end: Time) -> Result<Row, OutOfMemory> {
    let mut payload = Payload::new(alloc);
    payload.push(Field::Number(number))?;
    Ok(Row {
        end,
        begin,
        payload,
    })
}

/// The message that says this.
pub fn message_of(alloc: Global, brief: Brief) -> Result<Message, OutOfMemory> {
    match brief {
        Brief::Add(number, begin, end) => {
            let row = row_of(alloc, number, begin, end)?;
            Ok(Message::Change(Change::Add(row)))
        }
        Brief::Cut(number, begin, end, earlier) => {
            let row = row_of(alloc, number, begin, end)?;
            Ok(Message::Change(Change::Cut(row, earlier)))
        }
        Brief::Mark(time) => Ok(Message::Mark(time)),
        Brief::End => Ok(Message::End),
        Brief::Broken => Ok(Message::Broken),
    }
}

/// The first number of a row's payload, and -1 where its first field is none.
fn number_of(row: &Row) -> i128 {
    match row.payload.field(0) {
        Some(field) => field.number().unwrap_or(-1),
        None => -1,
    }
}

/// What a change says.
pub fn brief_of_change(change: &Change) -> Brief {
    match change {
        Change::Add(row) => Brief::Add(number_of(row), row.begin, row.end),
        Change::Cut(row, end) => Brief::Cut(number_of(row), row.begin, row.end, *end),
    }
}

/// What a message says.
pub fn brief_of(message: &Message) -> Brief {
    match message {
        Message::Change(change) => brief_of_change(change),
        Message::Mark(time) => Brief::Mark(*time),
        Message::End => Brief::End,
        Message::Broken => Brief::Broken,
    }
}
