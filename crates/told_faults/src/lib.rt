//! What is told on standard error of a line of events that isn't accepted: its file, its number and its fault.
#![tactic(auto)]

mod refusal;

pub use refusal::write_refusal;
