//! The operators that make each row's valid interval anew: window, shift, hop, starts and ends.
//!
//! Each meets `Operator` by `RowWise`: a row gives one row of the result or none, with the same payload.
#![tactic(auto)]

mod ends;
mod hop;
mod law;
mod shift;
mod starts;
mod window;

pub use ends::Ends;
pub use hop::Hop;
pub use law::multiples;
pub use shift::Shift;
pub use starts::Starts;
pub use window::Window;
