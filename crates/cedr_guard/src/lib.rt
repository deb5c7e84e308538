//! Event lines judged against the lines before them, and what accepted lines become: messages, and a
//! canonical history.
//!
//! `specs/Judging.antt` says which fault a line has after others, `specs/Messages.antt` and
//! `specs/History.antt` what accepted lines say together, and `specs/Sources.antt` the same of a source's
//! bytes. `Guard` answers the messages; `Judge` looks at ids and times alone. `message_laws` says that the
//! messages are legal and that their table is the canonical history, and `source_limits` what the limits are.
//!
//! A `SourceState` is what accepted lines come to (`specs/Spelt.antt`): a guard answers it, and is made of it anew.
//! `same_states` says that lines are judged by the state of the lines before them alone (`specs/States.antt`), and
//! `spelt_states` that a state spells lines that lead to it.
#![tactic(auto)]

mod fault;
mod guard;
mod ids;
mod judge;
mod law;
mod refusal;
mod state;

pub use fault::GuardFault;
pub use guard::Guard;
pub use judge::Judge;
pub use law::{message_laws, same_states, source_limits, spelt_states};
pub use refusal::{FILE_LIMIT, Refusal, limit_fault};
pub use state::{EventState, SourceState};
