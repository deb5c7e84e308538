ghost use Rattle.std.specs.Prelude.{◌≡◌, ◌≤◌, ◌<◌, ◌++◌, [], Some, length, vec_len, take, drop, IsOk};

use crate::fault::Failed;
use crate::source::Source;

/// A source of bytes in memory. It refuses no read, so its count of faults stays at 0.
#[derive(Drop)]
pub struct MemSource {
    bytes: Vec<u8>,
    read: usize,
    ghost within: { read ≤ vec_len bytes },
}

impl MemSource {
    /// A source of all of these bytes.
    pub fn new(bytes: Vec<u8>) -> MemSource
        ensures { ⟦<MemSource as Source>⟧.rest result ≡ Some bytes.items }
    {
        MemSource { bytes, read: 0 }
    }
}

impl Source for MemSource {
    ghost rest = { λ s. Some (drop s.read s.bytes.items) };

    ghost faults = { λ _. 0 };

    fn read(&mut self, buf: &mut [u8]) -> Result<usize, Failed> {
        Ok(give(&self.bytes, &mut self.read, usize::MAX, buf))
    }
}

/// Copies the next bytes to the front of `buf`, at most `piece` of them, and answers how many. It
/// answers 0 only where none is left.
pub(crate) fn give(bytes: &[u8], read: &mut usize, piece: usize, buf: &mut [u8]) -> usize
    requires begun { read.old ≤ length bytes.now }
    requires room { 0 < length buf.old }
    requires some { 0 < piece }
    ensures within { read.new ≤ length bytes.now }
    ensures count { result ≤ length buf.new }
    ensures piece { result ≤ piece }
    ensures given { drop read.old bytes.now ≡ take result buf.new ++ drop read.new bytes.now }
    ensures end { result ≡ 0 → drop read.new bytes.now ≡ [] }
{
    let rest = &bytes[*read..];
    let count = rest.len().min(piece).min(buf.len());
    buf[..count].copy_from_slice(&rest[..count]);
    *read += count;
    count
}
