//! A stream as it is written for those who follow it: the messages of a plan's output as lines.
#![tactic(auto)]

mod message;

pub use message::{write_message, write_messages};
