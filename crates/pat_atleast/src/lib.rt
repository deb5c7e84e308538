//! The pattern of some number of different inputs: so many of them have rows within a scope, in any order.
#![tactic(auto)]

mod append;
mod at_least;
mod kept;
mod law;
mod order;
mod pairs;

pub use at_least::AtLeast;
pub use law::at_least_law;
