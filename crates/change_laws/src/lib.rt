//! What streams of changes mean: which changes repair a table, when two tables agree up to a time, and what a
//! legal list of messages keeps as it goes on.
//!
//! There are definitions and laws here, and no data. A law is a function whose contract is the law.
#![tactic(auto)]

mod laws;

pub use laws::{agreement, legal_lists, repairs};
