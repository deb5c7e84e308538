//! The outside, as traits: where bytes come from, how a file is found by its name, where answers go.
//!
//! Contracts see what a source has left, what a file holds and what a sink was given, where that is
//! known: of those in memory it is, of the real ones it isn't. Each object counts its faults,
//! and a call answers `Failed` only where its count rose.
#![tactic(auto)]

mod disk;
mod fault;
mod files;
mod gate;
mod mem_files;
mod mem_sink;
mod mem_source;
mod sink;
mod source;
mod standard;

pub use disk::{DiskFiles, DiskSource};
pub use fault::{Failed, OutsideFault};
pub use files::Files;
pub use gate::{Gate, OpenGate};
pub use mem_files::{ListSource, MemFiles};
pub use mem_sink::MemSink;
pub use mem_source::MemSource;
pub use sink::{Sink, write_all};
pub use source::Source;
pub use standard::StdSink;
