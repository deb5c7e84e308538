ghost use Rattle.std.specs.Prelude.{◌≡◌};
ghost use Rattle.cedr_io.specs.declared.fault.OutsideFault.TheVariants as outside;

use cedr_base::OutOfMemory;
use std::alloc::{AllocError, AllocFailed};
use thiserror::Error;

/// The outside refused a read. The object's count of faults rose.
#[derive(Clone, Copy, Debug, PartialEq, Eq, Error)]
#[error("the outside refused")]
pub struct Failed;

/// Why the outside gave or took nothing.
#[derive(Clone, Copy, Debug, PartialEq, Eq, Error)]
pub enum OutsideFault {
    /// The outside refused. The object's count of faults rose.
    #[error("the outside refused")]
    Failed,
    /// Memory ran out. The object stands for what it stood for before.
    #[error("out of memory")]
    OutOfMemory,
}

impl From<OutOfMemory> for OutsideFault {
    ghost from_gives = { λ _ fault. fault ≡ outside.OutOfMemory };

    fn from(_error: OutOfMemory) -> OutsideFault {
        OutsideFault::OutOfMemory
    }
}

impl From<AllocError> for OutsideFault {
    ghost from_gives = { λ _ fault. fault ≡ outside.OutOfMemory };

    fn from(_error: AllocError) -> OutsideFault {
        OutsideFault::OutOfMemory
    }
}

impl<T: Drop> From<AllocFailed<T>> for OutsideFault {
    ghost from_gives = { λ _ fault. fault ≡ outside.OutOfMemory };

    fn from(_error: AllocFailed<T>) -> OutsideFault {
        OutsideFault::OutOfMemory
    }
}
