ghost use Rattle.std.specs.Prelude.{◌≡◌};
ghost use Rattle.cedr_source.specs.declared.fault.Unread.TheVariants as unread;

use cedr_base::OutOfMemory;
use cedr_guard::Refusal;
use cedr_io::Failed;
use std::alloc::AllocFailed;
use thiserror::Error;

/// Why a source gave no messages.
#[derive(Clone, Copy, Debug, PartialEq, Eq, Error)]
pub enum Unread {
    /// Its first line that isn't accepted, and why.
    #[error("a line isn't accepted")]
    Refused(Refusal),
    /// A read was refused.
    #[error("a read was refused")]
    Failed,
    #[error("out of memory")]
    OutOfMemory,
}

impl From<Failed> for Unread {
    ghost from_gives = { λ _ fault. fault ≡ unread.Failed };

    fn from(_error: Failed) -> Unread {
        Unread::Failed
    }
}

impl From<OutOfMemory> for Unread {
    ghost from_gives = { λ _ fault. fault ≡ unread.OutOfMemory };

    fn from(_error: OutOfMemory) -> Unread {
        Unread::OutOfMemory
    }
}

impl<T: Drop> From<AllocFailed<T>> for Unread {
    ghost from_gives = { λ _ fault. fault ≡ unread.OutOfMemory };

    fn from(_error: AllocFailed<T>) -> Unread {
        Unread::OutOfMemory
    }
}
