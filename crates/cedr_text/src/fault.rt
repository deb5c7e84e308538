ghost use Rattle.std.specs.Prelude.{◌≡◌};
ghost use Rattle.cedr_text.specs.Faults.{line_fault_number};
ghost use Rattle.cedr_text.specs.declared.fault.ReadLineFault.TheVariants as read_fault;

use cedr_base::{OutOfMemory, Time};
use std::alloc::AllocFailed;
use thiserror::Error;

/// What is wrong with a line of an event file. Where several hold, the one with the least number
/// counts.
#[derive(Clone, Copy, Debug, PartialEq, Eq, Error)]
pub enum LineFault {
    #[error("the line is too long")]
    LineTooLong,
    #[error("the line isn't in form")]
    BadForm,
    #[error("an id or a time isn't in form")]
    BadNumber,
    #[error("the valid interval is empty")]
    EmptyLife,
    #[error("a number field isn't in form")]
    BadField,
    #[error("the id was inserted before")]
    KnownId,
    #[error("the id wasn't inserted")]
    UnknownId,
    /// The new end isn't at least the event's begin and below its end as it is now.
    #[error("the new end isn't from {begin} on and below {end}")]
    BadEnd { begin: Time, end: Time },
    /// The line's sync is below the greatest earlier guarantee.
    #[error("the sync {sync} is below the guarantee {mark}")]
    BeforeGuarantee { sync: Time, mark: Time },
    #[error("the file is too large")]
    TooLarge,
}

impl LineFault {
    /// The fault's number, from 1 to 10, as messages show it.
    pub fn number(&self) -> u8
        ensures { result ≡ line_fault_number self.now }
    {
        match self {
            LineFault::LineTooLong => 1,
            LineFault::BadForm => 2,
            LineFault::BadNumber => 3,
            LineFault::EmptyLife => 4,
            LineFault::BadField => 5,
            LineFault::KnownId => 6,
            LineFault::UnknownId => 7,
            LineFault::BadEnd { begin: _, end: _ } => 8,
            LineFault::BeforeGuarantee { sync: _, mark: _ } => 9,
            LineFault::TooLarge => 10,
        }
    }
}

/// Why a line has no reading.
#[derive(Clone, Copy, Debug, PartialEq, Eq, Error)]
pub enum ReadLineFault {
    #[error("{0}")]
    Line(LineFault),
    #[error("out of memory")]
    OutOfMemory,
}

impl From<OutOfMemory> for ReadLineFault {
    ghost from_gives = { λ _ fault. fault ≡ read_fault.OutOfMemory };

    fn from(_error: OutOfMemory) -> ReadLineFault {
        ReadLineFault::OutOfMemory
    }
}

impl<T: Drop> From<AllocFailed<T>> for ReadLineFault {
    ghost from_gives = { λ _ fault. fault ≡ read_fault.OutOfMemory };

    fn from(_error: AllocFailed<T>) -> ReadLineFault {
        ReadLineFault::OutOfMemory
    }
}

impl From<LineFault> for ReadLineFault {
    ghost from_gives = { λ line fault. fault ≡ read_fault.Line line };

    fn from(fault: LineFault) -> ReadLineFault {
        ReadLineFault::Line(fault)
    }
}
