//! The commands: which one the words of a command line name, how a command may end, and all those that stay on one thread.
//!
//! `run_alone` and `run_named` end as the record `Ends` in `specs/Ending.antt` says: which status may come when, what the
//! output and the error stream gained, and which files were asked for. What each command gives is in `specs/Answers.antt`, also
//! of `run`, `stream` and `pool`, which the crate `cedr_run` carries out on threads. What `follow` writes is said by `cedr_follow`.
//! What `history` writes is the text of the canonical history of the file's lines, as the crate `cedr_guard` defines
//! it; what `check` writes is a line for each node of the plan that the file's bytes describe, as the crate `cedr_plan`
//! defines them. `specs/Resuming.antt` says what `save` and `resume` write, and `resumed_commands` is their law: a script
//! that goes on from a saved one writes what it writes behind that one.
#![tactic(auto)]

mod alone;
mod carry_out;
mod command;
mod events;
mod file;
mod history;
mod law;
mod make;
mod outcome;
mod plan;
mod refusal;
mod resume;
mod save;
mod saying;
mod script;
mod sources;
mod status;

pub use alone::{run_alone, run_named};
pub use command::{Job, named_command};
pub use law::{accepted_commands, resumed_commands};
pub use outcome::Outcome;
pub use plan::{open_plan, open_saved};
pub use resume::open_checkpoint;
pub use saying::{refuse_sources, write_text};
pub use sources::on_plan;
pub use status::Status;
