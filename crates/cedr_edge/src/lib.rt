//! The edges between workers: bounded queues with one end that puts and one that takes, which two threads may share.
//!
//! Contracts see of each end its own list: what was sent, what was taken. `specs/Line.antt` is the rule of an edge:
//! what was sent is what was taken and then what the queue holds, and it is legal. So each message is taken once, in
//! the order of sending, over every schedule of the two ends; [`close_edge`] says it of an edge that is over.
#![tactic(auto)]

mod ends;
mod line;

pub use ends::{EdgeIn, EdgeOut, EdgeRecord, Full, close_edge, new_edge};
