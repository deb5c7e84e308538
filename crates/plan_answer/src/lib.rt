//! What is read and written of a plan, whether it runs on one thread or on threads of its nodes.
//!
//! `find_sources` finds the files of a plan's sources, and `accepted_sources` says what these amount to where none is
//! faulty. `write_report` writes the rows that the changes of a result lead to and `write_changes` the changes; `write_port`
//! writes what a port forgot. `streamed_changes` says that the changes of any run of a plan come to its answer.
#![tactic(auto)]

mod faulty;
mod finding;
mod forgotten;
mod law;
mod text;

pub use faulty::FaultySource;
pub use finding::{find_sources, give_back_each};
pub use forgotten::{PortForgotten, has_memory, write_port};
pub use law::{accepted_sources, streamed_changes};
pub use text::{rows_of, write_changes, write_report, write_tail};
