//! The result as versions: a list of changes that only grows, with a mark and a close. One writer publishes it, and one
//! reader reads it at any time, with no lock and no wait.
//!
//! `specs/Lists.antt` says what a list is and when it goes on from another, and `specs/Ends.antt` what contracts see of
//! a writer, a reader and a note. Each list that a reader sees goes on from the ones that it saw or learnt before. What
//! is published lies in two copies, of which the reader has the one that it reads: both share each change.
#![tactic(auto)]

mod book;
mod close;
mod listed;
mod note;
mod reader;
mod reading;
mod rule;
mod seen;
mod states;
mod step;
mod version;
mod writer;

pub use close::Close;
pub use listed::Listed;
pub use note::Note;
pub use reader::Reader;
pub use seen::Seen;
pub use writer::{Writer, new_history};
