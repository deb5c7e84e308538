ghost use Rattle.std.specs.Prelude.{◌≡◌, ◌<◌, ◌≤◌, ◌+◌, length, ℕ, List, IfOk, IfSome};
ghost use Rattle.std.specs.Io.KnownBytes.{Consumes};
ghost use Rattle.cedr_io.specs.Counts.{Counts, last_count};
ghost use Rattle.cedr_save.specs.declared.reader.TheConstants.{CHECKPOINT_LIMIT};
ghost use Rattle.cedr_commands.specs.Files.{IsFileFront, AsksFile};

use cedr_io::{Files, OutsideFault, Source};
use std::alloc::Global;

/// The bytes of a file, or its first ones where these pass the limit.
pub(crate) fn read_file<F: Files>(
    alloc: Global,
    limit: usize,
    files: &mut F,
    name: &[u8],
) -> Result<Vec<u8>, OutsideFault>
    requires limit { limit ≤ CHECKPOINT_LIMIT }
    requires counts { F.faults files.old < last_count }
    ensures bytes { IfOk result (λ bytes. IfSome (F.content files.old name.now) (λ all. IsFileFront limit all bytes.items)) }
    ensures counted { Counts result (F.faults files.old) (F.faults files.new) }
    ensures asked { AsksFile result (F.asked files.old) (F.asked files.new) name.now }
    ensures contents { (n : List ℕ) → F.content files.new n ≡ F.content files.old n }
{
    let mut source = files.find(name)?;
    let bytes = read_all(alloc, limit, &mut source);
    files.give_back(source);
    bytes
}

/// Reads a source to its end, or until the bytes pass the limit. Each turn takes a byte at least, and a block at most.
fn read_all<S: Source>(alloc: Global, limit: usize, source: &mut S) -> Result<Vec<u8>, OutsideFault>
    requires { limit ≤ CHECKPOINT_LIMIT }
    ensures bytes { IfOk result (λ bytes. IfSome (S.rest source.old) (λ all. IsFileFront limit all bytes.items)) }
    ensures took { (bytes : List ℕ) × Consumes (S.rest source.old) (S.rest source.new) bytes × (length bytes ≤ limit + 4096) }
    ensures counted { Counts result (S.faults source.old) (S.faults source.new) }
{
    let mut bytes = Vec::new(alloc);
    let mut block = [0u8; 4096];
    while bytes.len() <= limit {
        let Ok(count) = source.read(&mut block) else {
            return Err(OutsideFault::Failed);
        };
        if count == 0 {
            break;
        }
        bytes.extend_from_slice(&block[..count])?;
    }
    Ok(bytes)
}
