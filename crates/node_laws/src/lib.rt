//! What a port and a node owe, over the lists of messages that they took and gave: what is kept, held and passed on
//! under a level, and when a node is lawful.
//!
//! There are definitions and laws here, and no buffer. A law is a function whose contract is the law.
#![tactic(auto)]

mod forgotten;
mod laws;

pub use forgotten::{Cause, Forgotten};
pub use laws::{approaching, forgetting, lawful_giving, middle_passing, passing, strong_passing};
