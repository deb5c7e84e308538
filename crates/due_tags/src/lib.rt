//! Times, each with a tag, of which the first one is found: when something under a tag is due.
//!
//! A time stays until it is due, also where nothing of its tag is due then any more: what changes under a tag is
//! noted here without a search. Who holds them can ask how many there are, and where they have outgrown what they stand for,
//! take all away and add those anew that still stand for something.
#![tactic(auto)]

mod due;

pub use due::DueTags;
