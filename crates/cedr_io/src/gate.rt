/// What a worker passes at the start of each of its turns. Tests hold a turn by a gate of their own.
pub trait Gate: Sync {
    /// `node` is the worker's number, from 0.
    fn pass(&self, node: usize);
}

/// The gate that holds nobody.
#[derive(Clone, Copy, Debug)]
pub struct OpenGate;

impl Gate for OpenGate {
    fn pass(&self, _node: usize) {}
}
