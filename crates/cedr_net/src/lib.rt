//! A plan's network on one thread: its nodes, and the messages that wait on the edges between them.
//!
//! Sources are fed, and nodes are turned in any order. The lists that went over the edges are a run of the plan
//! (`plan_runs`) whatever the order was, so the answer of a network that has settled is the plan's query.
//!
//! A `SerialNet` keeps the table of what its output gives, and its changes where they are asked for. A `StreamNet` hands the
//! messages on, and keeps none that was taken.
#![tactic(auto)]

mod answer;
mod edges;
mod flow;
mod keeping;
mod law;
mod net;
mod network;
mod queue;
mod stream;
mod work;

pub use law::network_runs;
pub use net::{NetFault, SerialNet};
pub use stream::StreamNet;
