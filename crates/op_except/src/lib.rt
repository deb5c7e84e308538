//! The difference of two tables: for each row of the first one the longest parts of its life in which no matching row of the
//! second one lives.
//!
//! Each port's rows are filed under a tag, a number made of the fields that equality tests between the two sides compare,
//! and those under one tag by their times. So a change looks only at the rows that it may touch, and at the parts that
//! change. The lives of the result stand in order of begin and of end beside them, for the bound.
#![tactic(auto)]

mod around;
mod except;
mod law;
mod lives;
mod turns;

pub use except::Except;
pub use law::{agreeing_excepts, held_rows, longest_parts};
