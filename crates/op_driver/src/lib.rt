//! An operator driven by messages: what came on its ports goes in, and its repairs and its bound come out.
//!
//! It is generic over `Operator`, and knows of an operator only what that trait says.
#![tactic(auto)]

mod driver;
mod only;

pub use driver::Driver;
pub use only::{empty, take_only};
