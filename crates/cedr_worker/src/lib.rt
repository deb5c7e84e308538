//! Workers: the sources and the nodes of a plan, each with the ends of its edges, taking turns.
//!
//! In a turn a worker passes the gate and tries to put one pending message on each out edge. Only where nothing is pending
//! any more an operator takes at most one message from each input, and a source takes a line of what it read, or reads a
//! block. `specs/Operators.antt` and `specs/Sources.antt` say what holds at every moment: what was sent over an out edge and
//! then what is pending is the list that the node gave, or the messages of the lines that were taken. An output has no out
//! edge: it takes a message and publishes what that adds to its list, which is what its port passes on
//! (`specs/Outputs.antt`). The turns of a worker may be taken by any thread.
#![tactic(auto)]

mod giving;
mod hearing;
mod operator;
mod output;
mod ran;
mod reading;
mod resting;
mod source;
mod stop;
mod taking;
mod telling;
mod turn;
mod working;

pub use operator::{OperatorEnd, OperatorWorker};
pub use output::{OutputEnd, OutputWorker};
pub use ran::Ran;
pub use resting::rest;
pub use source::{NoSource, SourceEnd, SourceWorker};
pub use stop::SourceStop;
pub use turn::Turn;
