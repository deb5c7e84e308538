ghost use Rattle.std.specs.Prelude.{◌≡◌};
ghost use Rattle.cedr_save.specs.declared.fault.CheckpointFault.TheVariants as fault;

use cedr_base::OutOfMemory;
use std::alloc::AllocFailed;
use thiserror::Error;

/// Why bytes aren't read as a checkpoint of a plan.
#[derive(Clone, Copy, Debug, PartialEq, Eq, Error)]
pub enum CheckpointFault {
    /// The bytes aren't a checkpoint of the plan.
    #[error("checkpoint line {line}")]
    BadLine {
        /// The first line with which no checkpoint of the plan goes on, from 1 on; one more than the lines where the
        /// text stops early; and 0 where the bytes are over the limit.
        line: u64,
    },
    #[error("out of memory")]
    OutOfMemory,
}

impl From<OutOfMemory> for CheckpointFault {
    ghost from_gives = { λ _ made. made ≡ fault.OutOfMemory };

    fn from(_error: OutOfMemory) -> CheckpointFault {
        CheckpointFault::OutOfMemory
    }
}

impl<T: Drop> From<AllocFailed<T>> for CheckpointFault {
    ghost from_gives = { λ _ made. made ≡ fault.OutOfMemory };

    fn from(_error: AllocFailed<T>) -> CheckpointFault {
        CheckpointFault::OutOfMemory
    }
}

/// A plan can't be saved, since what ports with a finite memory or block forget and hold depends on the order of
/// arrival.
#[derive(Clone, Copy, Debug, PartialEq, Eq, Error)]
#[error("node {node} can't be saved")]
pub struct NotSaved {
    /// The first such node's number, from 1 on.
    pub node: usize,
}
