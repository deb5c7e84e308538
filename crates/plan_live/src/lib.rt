//! A script that is played over a plan: event lines of its sources, and `?`.
//!
//! `play` judges each line after the earlier lines of its source, feeds its message to the plan's network, and writes
//! the rows of the output at each `?`. `specs/Scripts.antt` says which lines are accepted, and `specs/Shown.antt` what
//! is shown. `shown_rows` says that these are the rows of the plan as it stands over the canonical histories so far, at
//! levels where that is all that counts, and at middle levels those of the plan's query.
//!
//! `play_from` goes on from states of the sources (`specs/Resumed.antt`). `resumed_scripts` says that a script shows from
//! the states that accepted lines came to what it shows behind these lines. `saved_scripts` says that the states that a
//! script comes to may be saved, and that their text fits into a checkpoint.
//!
//! What takes a script's lines in another way reads each by `read_script_line` and comes to states by `restore_sources`.
#![tactic(auto)]

mod fault;
mod guards;
mod judge;
mod law;
mod line;
mod player;
mod restoring;
mod script;
mod state;

pub use fault::ScriptFault;
pub use guards::shapes_of;
pub use judge::script_states;
pub use law::{resumed_scripts, saved_scripts, shown_rows};
pub use line::{ScriptLine, event_of, is_question, read_script_line};
pub use restoring::{Restores, restore_sources};
pub use script::{play, play_from};
pub use state::state_messages;
