//! Checkpoints: the states of a plan's sources as a text, from which a run goes on later.
//!
//! `specs/Checkpoints.antt` has the text as one relation between states and bytes. `write_checkpoint` appends the bytes
//! of states, and `read_checkpoint` answers the states of bytes, or the line at which they aren't a checkpoint of the
//! plan (`specs/Refusals.antt`). `can_save` says whether a plan can be saved (`specs/Saving.antt`). A checkpoint has
//! no operator's state: a source's events and its guarantee, which is the reduced history of the CIDR 2007 paper, are
//! enough where nothing is forgotten. Nothing is claimed of crashes.
#![tactic(auto)]

mod fault;
mod front;
mod law;
mod line;
mod reader;
mod saving;
mod states;
mod text;
mod writer;

pub use fault::{CheckpointFault, NotSaved};
pub use law::checkpoint_law;
pub use reader::{CHECKPOINT_LIMIT, read_checkpoint};
pub use saving::can_save;
pub use writer::write_checkpoint;
