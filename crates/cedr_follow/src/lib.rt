//! The command `follow`: a script that is followed over a plan, from its first line on or from a checkpoint.
//!
//! `run_follow` and `run_follow_from` open the plan, and the checkpoint, find the script, and follow it as the crate `plan_follow`
//! does, with the script's file and the output as the wire. `specs/FollowEnds.antt` says which status may come when, and what
//! is left. Its `EndsCommand` is what any command promises of its end.
#![tactic(auto)]

mod command;
mod script;
mod wire;

pub use command::{run_follow, run_follow_from};
