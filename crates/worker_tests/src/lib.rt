//! Tests of what needs threads, a clock, or a gate that holds turns, below the runs of whole plans: edges, the queue of a pool's
//! tasks and the result's history, over real threads and where what a call answers depends on what the other end did before;
//! and workers, turn by turn and beside each other. There is nothing here but tests.
#![tactic(auto)]

#[cfg(test)]
mod edges;
#[cfg(test)]
mod feeding;
#[cfg(test)]
mod histories;
#[cfg(test)]
mod history_threads;
#[cfg(test)]
mod operators;
#[cfg(test)]
mod out_edges;
#[cfg(test)]
mod outputs;
#[cfg(test)]
mod sources;
#[cfg(test)]
mod tasks;
#[cfg(test)]
mod wires;
#[cfg(test)]
mod worker_threads;
