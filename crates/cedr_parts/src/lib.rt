//! The command `parts`: the answer of a plan by parts of its keys, each part on a thread of its own where one can be made.
//!
//! A plan is divided where all its nodes keep one key and no port has a finite memory (`CanBeDivided` in `specs/Divided.antt`);
//! any other is answered as a whole, as `serial` does. Either way `run_parts` ends as the record `Ends` of the crate
//! `cedr_commands` says for `parts N PLAN`. It waits for no thread but at the end of those that it started, and returns.
#![tactic(auto)]

mod answer;
mod choice;
mod command;
mod reading;

pub use command::run_parts;
