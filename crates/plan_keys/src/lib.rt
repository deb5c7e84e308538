//! Plans whose nodes all keep one key. Such a plan can be answered key by key: the query over the rows of some keys is
//! the part of the query that has these keys.
//!
//! There are definitions (`specs/Keys.antt`) and laws here. A law is a function whose contract is the law.
#![tactic(auto)]

mod law;

pub use law::{keyed_operators, keyed_plans, query_widths};
