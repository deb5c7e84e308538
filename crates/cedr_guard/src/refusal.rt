ghost use Rattle.std.specs.Prelude.{◌≡◌};
ghost use Rattle.cedr_guard.specs.Sources.{limit_fault};

use cedr_text::{LINE_LIMIT, LineFault};

/// How many bytes a source may have.
pub const FILE_LIMIT: usize = 67_108_864;

/// The first line of a source that isn't accepted, and why.
#[derive(Clone, Copy, Debug, PartialEq, Eq)]
pub struct Refusal {
    /// The line's number, from 1 on. Empty lines count.
    pub line: u64,
    pub fault: LineFault,
}

/// The fault of the line that the first `FILE_LIMIT` bytes of a longer source end in. It takes no memory.
pub fn limit_fault(line: &[u8]) -> LineFault
    ensures { result ≡ limit_fault line.now }
{
    if line.len() > LINE_LIMIT {
        LineFault::LineTooLong
    } else {
        LineFault::TooLarge
    }
}
