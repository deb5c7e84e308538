//! A plan's workers, each on a thread of its own.
//!
//! `run_threads` makes the workers and the edges of a plan, starts a thread for each worker, and turns those whose
//! thread was refused in rounds of its own, with looks at the result between them. Once each has ended, the edges are
//! closed, and what they carried is reported. Which thread took which turn is in no contract: what is reported follows
//! from what was left of the workers and of the edges.
#![tactic(auto)]

mod playing;
mod post;
mod room;
mod rounds;
mod run;
mod seat;

pub use plan_report::{NoMemory, Outcome, PortForgotten, Report, Watcher};
pub use run::run_threads;
pub use seat::Started;
