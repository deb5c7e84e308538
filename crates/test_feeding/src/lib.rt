//! What the programs of cases and the crates of tests feed with: an operator with changes and marks, and a port with
//! messages, each tested at run time; what an operator's answers lead to; and messages written shortly.
#![tactic(auto)]

mod brief;
mod came;
mod feeding;
mod levels;

pub use brief::{Brief, brief_of, brief_of_change, message_of};
pub use came::Came;
pub use feeding::{feed, no_tables, raise, repair};
pub use levels::{MIDDLE, STRONG};
