//! The join of two tables: one row for each pair of rows that passes tests, over the time that both are valid.
//!
//! Each port's rows are filed under a tag, a number made of the fields that equality tests between the two sides
//! compare, and those under one tag by their times, so that a change looks only at the rows that may meet it.
#![tactic(auto)]

mod join;
mod pairs;
mod partners;

pub use join::Join;
