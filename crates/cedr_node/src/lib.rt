//! Nodes of a plan: the operator of a node's kind, with an aligner on each port.
//!
//! A node takes the messages of its ports one after the other, in any order between the ports. Each goes through its
//! port's aligner, and what that passes on goes through the operator. `node_laws` says what a node owes (`IsLawful`),
//! and [`Node::take`] that it is met after each message.
#![tactic(auto)]

mod aligned;
mod fault;
mod law;
mod node;
mod port;

pub use fault::NodeFault;
pub use law::{accepted_nodes, standing_nodes};
pub use node::Node;
