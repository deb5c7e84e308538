//! The alignment buffer of a port: it holds rows back until they may pass, and forgets changes that come too late.
//!
//! `Aligner` takes a port's messages one by one and passes on what the definitions of `node_laws` say. It keeps no row
//! that passed but those that `specs/Remembered.antt` names.
#![tactic(auto)]

mod aligner;
mod fate;
mod held;
mod keep;
mod settle;

pub use aligner::Aligner;
pub use fate::Fate;
