use thiserror::Error;

/// Why a node gives no answer.
#[derive(Clone, Copy, Debug, PartialEq, Eq, Error)]
pub enum NodeFault {
    /// Memory ran out. Each later call is refused as spent.
    #[error("out of memory")]
    OutOfMemory,
    /// Memory ran out in an earlier call, so what the node stands for isn't known any more.
    #[error("the node is spent: memory ran out in an earlier call")]
    Spent,
}
