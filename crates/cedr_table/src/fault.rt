use cedr_base::OutOfMemory;
use std::alloc::AllocFailed;
use thiserror::Error;

/// Why a change can't be applied to a table. The table is then as before.
#[derive(Clone, Copy, Debug, PartialEq, Eq, Error)]
pub enum TableFault {
    /// The change cuts a row of which the table has no copy.
    #[error("the row to be cut isn't in the table")]
    NoSuchRow,
    /// Memory ran out, or the copies are more than a `usize` counts.
    #[error("out of memory")]
    OutOfMemory,
}

impl From<OutOfMemory> for TableFault {
    ghost use Rattle.std.specs.Prelude.{◌≡◌};
    ghost use Rattle.cedr_table.specs.declared.fault.TableFault.TheVariants.{OutOfMemory};

    ghost from_gives = { λ _ e. e ≡ OutOfMemory };

    fn from(_error: OutOfMemory) -> TableFault {
        TableFault::OutOfMemory
    }
}

impl<T: Drop> From<AllocFailed<T>> for TableFault {
    ghost use Rattle.std.specs.Prelude.{◌≡◌};
    ghost use Rattle.cedr_table.specs.declared.fault.TableFault.TheVariants.{OutOfMemory};

    ghost from_gives = { λ _ e. e ≡ OutOfMemory };

    fn from(_error: AllocFailed<T>) -> TableFault {
        TableFault::OutOfMemory
    }
}
