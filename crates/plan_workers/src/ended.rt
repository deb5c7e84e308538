use crate::held::HeldWriter;
use cedr_io::Source;
use cedr_node::Node;
use cedr_worker::{Ran, SourceEnd};
use plan_edges::{Putters, Takers};
use std::sync::Wait;

/// What is left of a worker that ended.
#[derive(Drop)]
pub struct Ended<S: Source + Drop, R: Wait + Drop> {
    /// The ends of the edges of its ports, and of those that come from it.
    pub takers: Takers,
    pub putters: Putters,
    pub ran: Ran,
    pub part: Part<S, R>,
}

/// What is left besides, by what the worker was.
#[derive(Drop)]
pub enum Part<S: Source + Drop, R: Wait + Drop> {
    /// What is left of a source, without its out edges.
    Source(SourceEnd<S>),
    /// The node of an operator, and whether memory was lacking.
    Operator(Node, bool),
    /// The node of an output, whether memory was lacking, and the writer of the result.
    Output(Node, bool, HeldWriter<R>),
}
