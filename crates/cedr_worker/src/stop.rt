ghost use Rattle.std.specs.Prelude.{◌≡◌};
ghost use Rattle.cedr_worker.specs.Stops.{last_at};

use cedr_text::LineFault;
use worker_outlets::Last;

/// Why a worker reads no more of its source.
#[derive(Clone, Copy, Debug, PartialEq, Eq)]
pub enum SourceStop {
    /// The source ended, and all its lines were accepted.
    Closed,
    /// The line of this number, from 1 on, is the first that isn't accepted.
    Refused { line: u64, fault: LineFault },
    /// A read was refused.
    ReadFault,
    OutOfMemory,
}

impl SourceStop {
    /// The message that the out edges end with.
    pub(crate) fn last(self) -> Last
        ensures { result ≡ last_at self }
    {
        match self {
            SourceStop::Closed => Last::End,
            SourceStop::Refused { .. } | SourceStop::ReadFault | SourceStop::OutOfMemory => {
                Last::Broken
            }
        }
    }
}
