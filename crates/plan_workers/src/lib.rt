//! The workers of a plan together: made with the plan's edges, turned, and put away once each has ended.
//!
//! `specs/Roles.antt` says what each worker was made for, and that it works as that whatever its turns do. The turns
//! may be taken by any thread, in any order. `specs/Ends.antt` says what is left of the workers, `specs/Closings.antt`
//! how that is put away, and `specs/Wents.antt` what that says of the plan: which node gave what over which edge.
//! Nothing in it speaks of turns.
#![tactic(auto)]

mod ended;
mod ending;
mod ends;
mod forgotten;
mod held;
mod law;
mod making;
mod sorting;
mod worker;

pub use ended::{Ended, Part};
pub use ending::{Closed, Desk, close_all, finish_each};
pub use ends::{ended_counts, ended_sources, give_back_ends, listed_sources};
pub use forgotten::tell_forgotten;
pub use held::{Held, HeldWriter};
pub use law::workers_went;
pub use making::{Crew, NoMemory, new_crew};
pub use sorting::{any_lacked, sort_parts};
pub use worker::Worker;
