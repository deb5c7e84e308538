//! Times, rows, changes and messages: the words that every other crate speaks in.
//!
//! `specs/` defines the canonical order of rows, bags of rows, what a change does to one, and which
//! lists of messages are legal. `canonical_order` is the law of that order. A copy equals its source.
#![tactic(auto)]

mod change;
mod code_buffer;
mod code_bytes;
mod code_law;
mod code_order;
mod field;
mod field_code;
mod field_ref;
mod field_refs;
mod interval;
mod level;
mod memory;
mod payload;
mod row;
mod text;
mod text_code;
mod time;
mod writer;

pub use change::{BadCut, Change, Message};
pub use code_law::payload_codes;
pub use field::{Field, FieldType};
pub use field_ref::FieldRef;
pub use field_refs::FieldRefs;
pub use interval::Interval;
pub use level::Level;
pub use memory::OutOfMemory;
pub use payload::Payload;
pub use row::{Row, RowFault, canonical_order, sort_rows};
pub use text::Text;
pub use time::{FOREVER, Time, finite_times, later};
pub use writer::PayloadWriter;
