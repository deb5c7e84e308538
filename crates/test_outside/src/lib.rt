//! The outside that cases and tests make: files in memory, with reads that are refused; files and streams that note what no
//! refusal tells; a gate that holds turns; and a case's files and refusals, read from lines of text.
#![tactic(auto)]

mod case;
mod files;
mod gate;
mod outside;
mod spelling;
mod watched;

pub use case::Case;
pub use files::{NO_READ, files_of};
pub use gate::Holding;
pub use outside::Outside;
pub use spelling::spelled_words;
pub use watched::{WatchedFiles, WatchedSink, WatchedSource};
