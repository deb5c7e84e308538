ghost use Rattle.std.specs.Prelude.{◌≡◌, ◌≤◌, ◌+◌, ◌++◌, ◌∷◌, [], IfOk, OnOk, length, take};
ghost use Rattle.cedr_base.specs.Stored.{IsStoredAs};

use crate::code_bytes::CodeBytes;
use crate::memory::OutOfMemory;
use std::alloc::Global;
use std::marker::Model;

/// A string of bytes that grows: up to 29 bytes in place, and then in memory of its own. Contracts see the list of its bytes.
pub(crate) struct CodeBuffer {
    short: [u8; 29],
    len: usize,
    long: Vec<u8>,
}

impl Drop for CodeBuffer {
    fn drop(self) {
        let CodeBuffer {
            short: _,
            len: _,
            long: _,
        } = self;
    }
}

impl Model for CodeBuffer {
    ghost use Rattle.std.specs.Prelude.{ℕ, List, [], ◌≡◌, ◌≤◌, ◌⊎◌, ◌++◌, take};

    ghost Value = { List ℕ };

    ghost view = { λ b. take b.len b.short ++ b.long.items };

    ghost invariant = { λ b. (b.len ≤ 29) × ((b.len ≡ 0) ⊎ (b.long.items ≡ [])) };
}

impl CodeBuffer {
    /// No bytes. It takes no memory.
    pub(crate) fn new(alloc: Global) -> CodeBuffer
        ensures { result ≡ [] }
    {
        CodeBuffer {
            short: [0; 29],
            len: 0,
            long: Vec::new(alloc),
        }
    }

    /// Some bytes, and then others. O(n).
    pub(crate) fn of_two(alloc: Global, one: &[u8], other: &[u8]) -> Result<CodeBuffer, OutOfMemory>
        ensures { IfOk result (λ b. b ≡ one.now ++ other.now) }
    {
        let mut all = CodeBuffer::new(alloc);
        if one.len() > 29 || other.len() > 29 - one.len() {
            all.long = of_two(alloc, one, other)?;
        } else {
            put(&mut all.short, 0, one);
            put(&mut all.short, one.len(), other);
            all.len = one.len() + other.len();
        }
        Ok(all)
    }

    /// Appends a byte. Where memory runs out the buffer is only to be dropped.
    #[inline(always)]
    pub(crate) fn push(&mut self, byte: u8) -> Result<(), OutOfMemory>
        ensures { OnOk result (self.new ≡ self.old ++ byte ∷ []) }
    {
        if self.len < 29 && self.long.is_empty() {
            self.short[self.len] = byte;
            self.len += 1;
            return Ok(());
        }
        self.extend(&[byte])
    }

    /// Appends bytes. Where memory runs out the buffer is only to be dropped.
    #[inline(always)]
    pub(crate) fn extend(&mut self, more: &[u8]) -> Result<(), OutOfMemory>
        ensures { OnOk result (self.new ≡ self.old ++ more.now) }
    {
        if !self.long.is_empty() {
            self.long.extend_from_slice(more)?;
            return Ok(());
        }
        if more.len() <= 29 - self.len {
            put(&mut self.short, self.len, more);
            self.len += more.len();
            return Ok(());
        }
        self.long = of_two(*self.long.allocator(), &self.short[..self.len], more)?;
        self.len = 0;
        Ok(())
    }

    pub(crate) fn clear(&mut self)
        ensures { self.new ≡ [] }
    {
        self.len = 0;
        self.long.clear();
    }

    /// The bytes, as the code of so many fields.
    #[inline(always)]
    pub(crate) fn finish(self, width: usize) -> Result<CodeBytes, OutOfMemory>
        requires { width ≤ length self }
        ensures { IfOk result (λ stored. IsStoredAs stored self width) }
    {
        let CodeBuffer { short, len, long } = self;
        if long.is_empty() {
            return Ok(CodeBytes::short(short, len, width));
        }
        CodeBytes::long(long, width)
    }
}

/// Writes bytes at a place.
#[inline(always)]
fn put(short: &mut [u8; 29], at: usize, more: &[u8])
    requires { at + length more.now ≤ 29 }
    ensures { take (at + length more.now) short.new ≡ take at short.old ++ more.now }
{
    short[at..at + more.len()].copy_from_slice(more);
}

/// Some bytes and others, with room for as many again.
fn of_two(alloc: Global, one: &[u8], other: &[u8]) -> Result<Vec<u8>, OutOfMemory>
    ensures { IfOk result (λ v. v.items ≡ one.now ++ other.now) }
{
    let mut all = Vec::with_capacity(alloc, one.len().saturating_add(other.len()))?;
    all.extend_from_slice(one)?;
    all.extend_from_slice(other)?;
    Ok(all)
}
