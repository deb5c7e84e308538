//! The queue of a pool's tasks: passes take them and put them back, and each task is there once.
//!
//! [`open_tasks`] makes a queue with some numbered tasks and a pass of it for each worker, which two threads may use at
//! the same time. Contracts see of each pass what was opened and what it holds of that. `specs/Once.antt` is the rule of
//! such a queue: the tasks in it, and those that its passes hold, are together those that were opened, each once. It holds
//! at every moment, over every schedule of the passes; [`close_tasks`] says it of a queue that is closed. A put is never
//! refused: while a pass holds a task the queue has room for it.
#![tactic(auto)]

mod blank;
mod claim;
mod close;
mod numbered;
mod open;
mod pass;
mod room;
mod rule;

pub use close::close_tasks;
pub use numbered::{Numbered, Placed};
pub use open::{NoTasks, open_tasks};
pub use pass::TaskPass;
pub use room::TaskRoom;
