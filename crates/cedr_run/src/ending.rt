use cedr_commands::Status;
use cedr_edge::EdgeRecord;
use cedr_worker::Ran;

/// How a call ended, and what went over the edges of a plan.
#[derive(Drop)]
pub struct Ending {
    pub status: Status,
    /// The closed edges of `run`, `stream` and `pool`, one for each port of each node, in that order. Other commands have none.
    pub edges: Vec<EdgeRecord>,
    /// How much the turns of each node's worker did, in the order of the plan.
    pub ran: Vec<Ran>,
}
