//! Files in memory.
ghost use Rattle.std.specs.Prelude.{◌≡◌, IfOk};

use cedr_base::OutOfMemory;
use cedr_io::{Files, MemFiles};
use std::alloc::Global;

/// A read that doesn't come.
pub const NO_READ: (&str, u64) = ("s.csv", 1000);

/// Files of these names and texts. A read gives at most so many bytes, and the read of one file that has this number is
/// refused.
pub fn files_of(
    alloc: Global,
    named: &[(&str, &str)],
    piece: usize,
    refused: (&str, u64),
) -> Result<MemFiles, OutOfMemory>
    ensures { IfOk result (λ files. ⟦<MemFiles as Files>⟧.faults files ≡ 0) }
{
    let mut files = MemFiles::new(alloc);
    files.set_piece(piece.max(1));
    for (name, text) in named {
        files.add(name, text.as_bytes())?;
    }
    let (name, call) = refused;
    files.fail_read(name, call)?;
    Ok(files)
}
