ghost use Rattle.std.specs.Prelude.{◌≡◌};
ghost use Rattle.cedr_guard.specs.Faults.{guard_fault_of};
ghost use Rattle.cedr_guard.specs.declared.fault.GuardFault.TheVariants as guard_fault;

use cedr_base::OutOfMemory;
use cedr_text::{LineFault, ReadLineFault};
use std::alloc::AllocFailed;
use thiserror::Error;

/// Why a line isn't accepted after others.
#[derive(Clone, Copy, Debug, PartialEq, Eq, Error)]
pub enum GuardFault {
    #[error("{0}")]
    Line(LineFault),
    #[error("out of memory")]
    OutOfMemory,
}

impl From<OutOfMemory> for GuardFault {
    ghost from_gives = { λ _ fault. fault ≡ guard_fault.OutOfMemory };

    fn from(_error: OutOfMemory) -> GuardFault {
        GuardFault::OutOfMemory
    }
}

impl<T: Drop> From<AllocFailed<T>> for GuardFault {
    ghost from_gives = { λ _ fault. fault ≡ guard_fault.OutOfMemory };

    fn from(_error: AllocFailed<T>) -> GuardFault {
        GuardFault::OutOfMemory
    }
}

impl From<ReadLineFault> for GuardFault {
    ghost from_gives = { λ read fault. fault ≡ guard_fault_of read };

    fn from(read: ReadLineFault) -> GuardFault {
        match read {
            ReadLineFault::Line(fault) => GuardFault::Line(fault),
            ReadLineFault::OutOfMemory => GuardFault::OutOfMemory,
        }
    }
}
