//! The operators that choose rows and columns: select, project and union.
//!
//! Select and project meet `Operator` by `RowWise`: a row gives one row of the result or none, with the same
//! interval. Union hands each change of its ports on.
#![tactic(auto)]

mod project;
mod select;
mod union;

pub use project::Project;
pub use select::Select;
pub use union::{Union, hand_on};
