//! A plan's workers, turned by a pool of threads.
//!
//! `run_pool` makes the workers and the edges of a plan, puts each worker into a queue as a task, and starts so many
//! threads, which take tasks out of it, turn them a while and put them back until each has ended. Once all threads are
//! joined the workers stand in the order of the plan again, and what their edges carried is reported as after any other way
//! of turning. Which thread took which turn is in no contract; that no worker was lost or came twice is the law of the queue.
#![tactic(auto)]

mod gathering;
mod playing;
mod room;
mod run;
mod seat;
mod seating;
mod task;
mod turning;

pub use plan_report::{NoMemory, Outcome, PortForgotten, Report};
pub use run::run_pool;
