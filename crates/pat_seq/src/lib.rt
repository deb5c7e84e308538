//! The pattern sequence: one row of each port, one after the other within a scope.
#![tactic(auto)]

mod kept;
mod sequence;

pub use sequence::Sequence;
