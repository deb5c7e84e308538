//! The top call: from the words of a command line to what is written and the exit status.
//!
//! `run` ends as the record `Ends` of the crate `cedr_commands` says: which status may come when, what the output and the error
//! stream gained, and which files were asked for. Where `run PLAN`, `stream PLAN` or `pool N PLAN` is done, it answers too what
//! went over the edges of the plan, as `AnswersRun` and `AnswersStream` in `specs/Answers.antt` say. These three are carried out
//! here, on threads; `parts N PLAN` by `cedr_parts`, and all others by `cedr_commands`.
#![tactic(auto)]

mod ending;
mod progress;
mod streaming;
mod telling;
mod threads;
mod top;

pub use ending::Ending;
pub use top::run;
