//! Which columns a plan can be answered by, key by key: `key_columns` finds a column of each node that all nodes keep, or says
//! that there are none (`IsKeyChoice` and `IsUnkeyed` in `specs/Choices.antt`).
//!
//! Each node is read by later ones alone. So from the first node to the last it is worked out which columns each may have, as
//! far as it and those before it tell (`candidate`), and then from the output to the sources a column of each is taken that all
//! that read it keep (`search`). Whether a node keeps the key is looked up by ranges of columns (`specs/Ranges.antt`), so that
//! what can't be is left out before all its ports have a column.
#![tactic(auto)]

mod candidate;
mod choice;
mod fault;
mod keep;
mod node;
mod order;
mod range;
mod search;
mod tie;

pub use choice::{MOST_TRIES, key_columns};
pub use fault::KeyFault;
