ghost use Rattle.std.specs.Prelude.{◌≡◌};
ghost use Rattle.plan_follow.specs.declared.fault.FollowFault.TheVariants as fault;

use cedr_base::OutOfMemory;
use std::alloc::AllocFailed;
use thiserror::Error;

/// Why following a script ends before the script does.
#[derive(Clone, Copy, Debug, PartialEq, Eq, Error)]
pub enum FollowFault {
    /// A read of the script was refused.
    #[error("a read was refused")]
    Read,
    /// A write of the answer was refused.
    #[error("a write was refused")]
    Write,
    /// Memory ran out; or the script has more lines than 64 bits count, which no run comes to.
    #[error("out of memory")]
    OutOfMemory,
}

impl From<OutOfMemory> for FollowFault {
    ghost from_gives = { λ _ made. made ≡ fault.OutOfMemory };

    fn from(_error: OutOfMemory) -> FollowFault {
        FollowFault::OutOfMemory
    }
}

impl<T: Drop> From<AllocFailed<T>> for FollowFault {
    ghost from_gives = { λ _ made. made ≡ fault.OutOfMemory };

    fn from(_error: AllocFailed<T>) -> FollowFault {
        FollowFault::OutOfMemory
    }
}
