ghost use Rattle.std.specs.Prelude.{◌≡◌, ◌<◌, [], Some};

use crate::fault::OutsideFault;
use crate::sink::Sink;
use cedr_base::OutOfMemory;
use std::alloc::Global;

/// A sink in memory, for tests. It numbers its writes from 1 on, and refuses those that it was asked to
/// refuse.
#[derive(Drop)]
pub struct MemSink {
    written: Vec<u8>,
    piece: usize,
    refused: Vec<u64>,
    writes: u64,
    faults: u64,
    ghost takes_some: { 0 < piece },
}

impl MemSink {
    ghost use Rattle.std.specs.Prelude.{◌∷◌, ◌++◌, OnOk, OnErr};
    ghost use Rattle.cedr_io.specs.Memory.{piece_of_sink, refused_writes, write_number};

    /// Nothing is written. Each write takes its whole piece, and none will be refused.
    pub fn new(alloc: Global) -> MemSink
        ensures empty { ⟦<MemSink as Sink>⟧.written result ≡ Some [] }
        ensures faults { ⟦<MemSink as Sink>⟧.faults result ≡ 0 }
        ensures piece { piece_of_sink result ≡ usize.MAX }
        ensures refused { refused_writes result ≡ [] }
        ensures numbered { write_number result ≡ 1 }
    {
        MemSink {
            written: Vec::new(alloc),
            piece: usize::MAX,
            refused: Vec::new(alloc),
            writes: 0,
            faults: 0,
        }
    }

    /// The bytes that were taken so far.
    pub fn written(&self) -> &[u8]
        ensures { ⟦<MemSink as Sink>⟧.written self.now ≡ Some result.now }
    {
        &self.written
    }

    /// From now on a write takes at most `n` bytes.
    pub fn set_piece(&mut self, n: usize)
        requires { 0 < n }
        ensures piece { piece_of_sink self.new ≡ n }
        ensures written { ⟦<MemSink as Sink>⟧.written self.new ≡ ⟦<MemSink as Sink>⟧.written self.old }
        ensures faults { ⟦<MemSink as Sink>⟧.faults self.new ≡ ⟦<MemSink as Sink>⟧.faults self.old }
        ensures same_refused { refused_writes self.new ≡ refused_writes self.old }
        ensures numbered { write_number self.new ≡ write_number self.old }
    {
        self.piece = n;
    }

    /// The write of this number, from 1 on, will be refused.
    pub fn fail_write(&mut self, call: u64) -> Result<(), OutOfMemory>
        ensures refused { OnOk result (refused_writes self.new ≡ refused_writes self.old ++ call ∷ []) }
        ensures err { OnErr result (refused_writes self.new ≡ refused_writes self.old) }
        ensures written { ⟦<MemSink as Sink>⟧.written self.new ≡ ⟦<MemSink as Sink>⟧.written self.old }
        ensures faults { ⟦<MemSink as Sink>⟧.faults self.new ≡ ⟦<MemSink as Sink>⟧.faults self.old }
        ensures same_piece { piece_of_sink self.new ≡ piece_of_sink self.old }
        ensures numbered { write_number self.new ≡ write_number self.old }
    {
        self.refused.push(call)?;
        Ok(())
    }
}

impl Sink for MemSink {
    ghost use Rattle.std.specs.Prelude.{◌≡◌, ◌<◌, ◌≤◌, ◌+◌, ◌↔◌, Some, Err, IfOk, OnOk, Contains, length, min};
    ghost use Rattle.std.specs.Io.KnownBytes.{WriteAppends};
    ghost use Rattle.cedr_io.specs.Counts.{Counts, last_count};
    ghost use Rattle.cedr_io.specs.declared.fault.OutsideFault.TheVariants as outside;
    ghost use Rattle.cedr_io.specs.Memory.{piece_of_sink, refused_writes, write_number};

    ghost written = { λ s. Some s.written.items };

    ghost faults = { λ s. s.faults };

    fn write(&mut self, piece: &[u8]) -> Result<usize, OutsideFault>
        requires { 0 < length piece.now }
        ensures some { IfOk result (λ n. 0 < n) }
        ensures within { IfOk result (λ n. n ≤ length piece.now) }
        ensures piece { IfOk result (λ n. n ≤ piece_of_sink self.old) }
        ensures bytes { WriteAppends (Some self.old.written.items) (Some self.new.written.items) result piece.now }
        ensures counted { Counts result self.old.faults self.new.faults }
        // A write is refused exactly where its number was named.
        ensures refused { (result ≡ Err outside.Failed) ↔ Contains (refused_writes self.old) (write_number self.old) }
        ensures numbered { write_number self.new ≡ min (write_number self.old + 1) last_count }
        ensures same_piece { piece_of_sink self.new ≡ piece_of_sink self.old }
        ensures same_refused { refused_writes self.new ≡ refused_writes self.old }
    {
        self.writes = self.writes.saturating_add(1);
        if self.refused.contains(&self.writes) {
            self.faults = self.faults.saturating_add(1);
            return Err(OutsideFault::Failed);
        }
        let count = piece.len().min(self.piece);
        self.written.extend_from_slice(&piece[..count])?;
        Ok(count)
    }
}
