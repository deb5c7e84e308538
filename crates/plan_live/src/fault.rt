ghost use Rattle.std.specs.Prelude.{◌≡◌};
ghost use Rattle.plan_live.specs.declared.fault.ScriptFault.TheVariants as fault;

use cedr_base::OutOfMemory;
use cedr_guard::Refusal;
use std::alloc::AllocFailed;
use thiserror::Error;

/// Why a script comes to no states.
#[derive(Clone, Copy, Debug, PartialEq, Eq, Error)]
pub enum ScriptFault {
    /// A line isn't accepted; this is the first one.
    #[error("a line isn't accepted")]
    Refused(Refusal),
    #[error("out of memory")]
    OutOfMemory,
}

impl From<OutOfMemory> for ScriptFault {
    ghost from_gives = { λ _ made. made ≡ fault.OutOfMemory };

    fn from(_error: OutOfMemory) -> ScriptFault {
        ScriptFault::OutOfMemory
    }
}

impl<T: Drop> From<AllocFailed<T>> for ScriptFault {
    ghost from_gives = { λ _ made. made ≡ fault.OutOfMemory };

    fn from(_error: AllocFailed<T>) -> ScriptFault {
        ScriptFault::OutOfMemory
    }
}
