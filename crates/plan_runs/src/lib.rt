//! Runs of plans over lists of messages, and what they make: the query, with what was forgotten left out. While the
//! sources go on, what a run makes is the plan as it stands (`specs/Now.antt`), at levels where that is all that counts.
//!
//! There are definitions and laws here, and no network. A law is a function whose contract is the law.
#![tactic(auto)]

mod laws;

pub use laws::{closed_runs, going_runs, now_cases, now_runs, partial_agreement, partial_runs};
