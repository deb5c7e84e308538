//! What a source remembers of its lines where it forgets the events that are over: those that end below its guarantee.
//!
//! An `OpenGuard` judges lines as a `Guard` of `cedr_guard` does, by what is remembered alone (`specs/Remembered.antt`).
//! `memory_laws` says that the messages of later lines go on from all that were given before, and what the table of all of
//! them is.
#![tactic(auto)]

mod fault;
mod guard;
mod law;

pub use guard::OpenGuard;
pub use law::memory_laws;
