//! What a run of a plan's workers came to, however they were turned.
//!
//! Both ways of turning, a thread for each worker and a pool of threads, begin with the same room and end with
//! [`report_run`]: once each worker has ended, the edges are closed, and what they carried is reported. Nothing here says
//! who took which turn; what is reported follows from what is left of the workers and of the edges. A [`Watcher`] reads the
//! result while it grows; [`Quiet`] is one that writes nothing.
#![tactic(auto)]

mod closing;
mod concluding;
mod outcome;
mod quiet;
mod report;
mod reporting;
mod room;
mod rounds;
mod watcher;
mod watching;

pub use closing::report_run;
pub use plan_answer::PortForgotten;
pub use plan_workers::NoMemory;
pub use quiet::Quiet;
pub use report::{Outcome, Report};
pub use room::ReportRoom;
pub use rounds::turn_on;
pub use watcher::Watcher;
pub use watching::look_once;
