//! One source: its bytes come in pieces, its lines are judged one after the other, and each accepted line
//! becomes messages.
//!
//! `SourceLines` gives the messages of bytes that are fed to it. `specs/Reads.antt` says what it has read and
//! given so far, and `specs/Steps.antt` what each of its answers says of all bytes that may still come.
//! `read_by_line` reads a whole source into `Entries`, and `read_laws` says that what was given is the front of what all bytes give.
#![tactic(auto)]

mod entries;
mod fault;
mod law;
mod lines;
mod read;
mod step;

pub use entries::Entries;
pub use fault::Unread;
pub use law::read_laws;
pub use lines::{SourceLines, judge_line};
pub use read::read_by_line;
pub use step::SourceStep;
