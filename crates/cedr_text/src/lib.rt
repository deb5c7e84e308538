//! Event lines as bytes, and rows as text.
//!
//! `specs/` has the grammar of a line, apart from the code that reads one: its fields by the quoting rule, the
//! forms of numbers and times, the three kinds of line, and which fault is the least. `Lines` cuts bytes that
//! come in pieces into lines, `read_line` answers a line's reading, and `read_text_line` does so with the
//! payload left in the line. `read_version_line`, `cut_number` and `cut_time` read parts of a line. `write_row`,
//! `write_change`, `write_forgotten` and `write_time` append exactly the texts that `specs/Texts.antt` defines.
//! `write_text_rows` does so for rows whose payload still stands in the bytes of a file, and `sort_text_rows` sorts
//! such rows. `quoting_rule`, `reading_law` and `line_limit` are laws of the grammar.
#![tactic(auto)]

mod bare;
mod change;
mod event_line;
mod event_text;
mod fault;
mod lines;
mod number;
mod parts;
mod payload_text;
mod quoting;
mod read;
mod text_row;
mod write;

pub use change::{write_change, write_forgotten};
pub use event_line::{EventLine, Shape};
pub use event_text::EventText;
pub use fault::{LineFault, ReadLineFault};
pub use lines::{LINE_LIMIT, LineStep, Lines, without_return};
pub use number::{cut_number, cut_time};
pub use parts::Parts;
pub use payload_text::{BareFields, PayloadText};
pub use quoting::quoting_rule;
pub use read::{line_limit, read_line, read_text_line, read_version_line, reading_law};
pub use text_row::{TextRow, sort_text_rows, write_text_rows};
pub use write::{write_number, write_row, write_rows, write_time};
