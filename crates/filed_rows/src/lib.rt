//! Rows filed under tags, and those of one tag by their times, so that those are found that may meet a row without a look
//! at the others.
//!
//! A tag is a number made of the fields that equality tests between two sides compare. Rows that end and rows without end
//! stand apart, each kind in order of time.
#![tactic(auto)]

mod filed;
mod ranges;
mod refile;
mod spans;

pub use filed::{ByTag, Filed, all_rows};
pub use refile::refiled;
pub use spans::Spans;
