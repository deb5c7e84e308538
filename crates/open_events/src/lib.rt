//! Rows of events, each under the id of its event; those that end before a time are found first.
#![tactic(auto)]

mod ending;
mod events;

pub use events::OpenEvents;
