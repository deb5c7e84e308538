ghost use Rattle.std.specs.Prelude.{◌≡◌};
ghost use Rattle.plan_key_choice.specs.declared.fault.KeyFault.TheVariants as key_fault;

use cedr_base::OutOfMemory;
use thiserror::Error;

/// Why there is no choice of columns.
#[derive(Clone, Copy, Debug, PartialEq, Eq, Error)]
pub enum KeyFault {
    /// No columns are kept by all nodes. The place is that of a node of the plan, counted from 0: the first that may have no
    /// column, or else one that didn't keep the columns that were tried. No clause says more of it than that it is there.
    #[error("no column of the output is kept by all nodes (node {node})")]
    Unkeyed { node: usize },
    /// As many columns were tried as there may be, and no choice was found. Only where several nodes read one.
    #[error("no column of the output was found in so many tries")]
    Undecided,
    #[error("out of memory")]
    OutOfMemory,
}

impl From<OutOfMemory> for KeyFault {
    ghost from_gives = { λ _ fault. fault ≡ key_fault.OutOfMemory };

    fn from(_error: OutOfMemory) -> KeyFault {
        KeyFault::OutOfMemory
    }
}
