use cedr_base::Change;
use cedr_edge::EdgeRecord;
use cedr_io::Source;
use cedr_worker::{Ran, SourceEnd};
use plan_answer::{FaultySource, PortForgotten};

/// What a run of a plan's workers came to.
#[derive(Drop)]
pub struct Report<S: Source + Drop> {
    pub outcome: Outcome,
    /// What each port of each node forgot, in the order of the plan and of the ports. At any outcome but
    /// [`Outcome::Done`] no clause says what it has.
    pub forgotten: Vec<PortForgotten>,
    /// The closed edges: one for each port of each node, in that order.
    pub edges: Vec<EdgeRecord>,
    /// How much the turns of each node's worker did, in the order of the plan.
    pub ran: Vec<Ran>,
    /// The changes of the result, in order. At any outcome but [`Outcome::Done`] no clause says what it has.
    pub changes: Vec<Change>,
    /// What is left of each source, in the order of the plan. Its out edges are closed, so none is left there.
    pub sources: Vec<SourceEnd<S>>,
}

/// How a run ended. Want of memory comes before a refused read, and that before a faulty line.
#[derive(Drop)]
pub enum Outcome {
    /// Each source closed, and memory was found.
    Done,
    /// Memory was lacking.
    Memory,
    /// A read of a source was refused.
    Read,
    /// The sources of which a line isn't accepted, at least one, in the order of the plan.
    Events(Vec<FaultySource>),
}
