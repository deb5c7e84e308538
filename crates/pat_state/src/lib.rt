//! What patterns share: the rows of a port in order of begin or by a tag, the choices of rows that begin one after the other
//! within a scope, and whole rows that join or leave a result.
//!
//! A pattern reads a row's begin and its payload alone. So each row is kept as if it never ended, and a retraction that
//! leaves something of its row changes nothing here.
#![tactic(auto)]

mod answer;
mod by_begin;
mod by_tag;
mod crossing;
mod due_rows;
mod grouped;
mod key;
mod keyed;
mod matches;
mod pairs;
mod tagged;
mod tied;

pub use answer::{Way, push_answers};
pub use by_begin::ByBegin;
pub use crossing::Crossing;
pub use grouped::Grouped;
pub use pairs::find_pairs;
pub use tied::Tied;
