//! Counts, sums, least and greatest fields of groups: the rows with equal key fields form one group, and each two
//! neighbouring cut points of a group between which some of its rows are valid give one row of the result.
//!
//! `Group` keeps, for each group, its cut points in an ordered map, and repairs the segments that a change touches. Where
//! least or greatest fields are asked for it keeps the fields of the rows too, by the times at which they live, since the
//! field that goes may have been the least. At a mark it forgets what no later change and no bound depends on.
#![tactic(auto)]

mod answer;
mod bags;
mod bound;
mod cuts;
mod extremes;
mod forget;
mod group;
mod law;
mod points;
mod segment;

pub use group::Group;
pub use law::{held_groups, open_groups};
