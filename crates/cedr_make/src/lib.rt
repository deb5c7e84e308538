//! A workload of any size: a plan, the event files of its two sources, and what is reported of its answer.
//!
//! `specs/` has the plan, the lines of each event and the text of the summary. All numbers come from one small generator,
//! so a workload of a size is the same wherever it is made. `made_sources` is the law that its sources are accepted.
#![tactic(auto)]

mod generator;
mod law;
mod plan;
mod summary;

pub use generator::made_bytes;
pub use law::made_sources;
pub use plan::made_plan;
pub use summary::write_summary;
