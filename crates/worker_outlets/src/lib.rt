//! The out edges of a worker, with what is pending on each.
//!
//! What a worker gives goes once, in order, to each of its out edges, and an edge may be full: what it didn't take yet
//! is pending. `specs/Outlets.antt` says what is meant for an edge: what was sent, and then what is pending.
#![tactic(auto)]

mod fan;
mod last;
mod outlet;
mod outlets;

pub use fan::Puts;
pub use last::Last;
pub use outlet::Outlet;
pub use outlets::Outlets;
