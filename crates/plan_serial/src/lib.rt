//! A plan's answer over whole sources, on one thread.
//!
//! `read_sources` reads all sources of a plan line by line. They are fed to the plan's network in rounds, one line of each
//! source, and it settles after each round (`feed_round`, `feed_all`). `write_answer` writes the rows, and what ports
//! forgot. `fed_sources` says that the lists that went over the network are then a run of the plan over the whole
//! sources, which came in rounds (`specs/Rounds.antt`). `answer_sources` and `answer_rows` do all this.
#![tactic(auto)]

mod answer;
mod feeding;
mod law;
mod noting;
mod query;
mod sources;

pub use answer::write_answer;
pub use feeding::{feed_all, feed_round};
pub use law::{fed_sources, lines_read};
pub use noting::note_sources;
pub use query::{answer_rows, answer_sources};
pub use sources::{SourcesFault, read_source, read_sources};
