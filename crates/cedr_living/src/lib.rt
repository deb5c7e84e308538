//! The least and the greatest of the fields that live at a time, from an ordered bag of fields each of which lives from
//! a begin to an end.
//!
//! A life is kept in pieces of time whose lengths are powers of two and which begin at multiples of them: in at most
//! two pieces of each length, so in about twice the logarithm of its length, however many begins and ends of others it
//! spans. A bag of fields for each segment between two neighbouring begins or ends would hold a long life once for each
//! of them. A time is in one piece of each length, whose fields stand in order, so a question looks at the first or the
//! last field of one piece for each length, and never walks over the fields.
//!
//! `LivingFields` is that bag. It keeps its lives a second time in the order of their ends, to forget those that have ended
//! by a time. Contracts speak of the list of lives that came and didn't go, of which only the bag matters.
#![tactic(auto)]

mod counts;
mod ending;
mod ends;
mod index;
mod living;
mod outer;
mod pieces;
mod place;

pub use living::LivingFields;
