//! The query of a plan from scratch: the plain program that says what the others have to answer.
//!
//! `specs/Queries.antt` says what each node means, and what the nodes of a plan make of the tables and the marks of its
//! sources. A node's operator is made anew, takes each row of each table that it reads, and what it answers is the
//! node's table.
#![tactic(auto)]

mod ask;
mod node;
mod query;

pub use query::{evaluate, reach};
