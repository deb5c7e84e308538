//! The edges of a plan: one for each port of each node, from the node that the port reads. `specs/Wires.antt` says how their
//! ends belong together, before anything went over them and once they are closed.
#![tactic(auto)]

mod closing;
mod ends;
mod law;
mod making;

pub use closing::close_wires;
pub use ends::{Putters, Takers};
pub use law::closed_edges;
pub use making::{Wires, new_wires};
