ghost use Rattle.std.specs.Prelude.{◌≡◌, [], Some};

use crate::step::WireStep;
use crate::wire::Wire;
use cedr_base::Text;
use cedr_io::{Failed, OutsideFault, Sink, Source};
use std::alloc::Global;

/// A source and a sink as a wire that keeps a log of all that came and went, for cases and tests.
pub struct LoggedWire<S: Source, K: Sink> {
    source: S,
    sink: K,
    log: Vec<WireStep>,
}

impl<S: Source + Drop, K: Sink + Drop> Drop for LoggedWire<S, K> {
    fn drop(self) {
        let LoggedWire {
            source: _,
            sink: _,
            log: _,
        } = self;
    }
}

impl<S: Source, K: Sink> LoggedWire<S, K> {
    /// Nothing came or went over it. It takes no memory.
    pub fn new(alloc: Global, source: S, sink: K) -> LoggedWire<S, K>
        ensures rest { ⟦<LoggedWire<S, K> as Wire>⟧.rest result ≡ S.rest source }
        ensures written { ⟦<LoggedWire<S, K> as Wire>⟧.written result ≡ K.written sink }
        ensures log { ⟦<LoggedWire<S, K> as Wire>⟧.log result ≡ Some [] }
    {
        LoggedWire {
            source,
            sink,
            log: Vec::new(alloc),
        }
    }

    /// What came and what went, one after the other.
    pub fn log(&self) -> &[WireStep]
        ensures { ⟦<LoggedWire<S, K> as Wire>⟧.log self.now ≡ Some result.now }
    {
        &self.log
    }
}

impl<S: Source, K: Sink> Wire for LoggedWire<S, K> {
    ghost use Rattle.std.specs.Prelude.{Some, []};

    ghost rest = { λ wire. S.rest wire.source };

    ghost written = { λ wire. K.written wire.sink };

    ghost log = { λ wire. Some wire.log.items };

    ghost loans = { λ wire. [] };

    ghost refused_reads = { λ wire. S.faults wire.source };

    ghost refused_writes = { λ wire. K.faults wire.sink };

    fn read(&mut self, buf: &mut [u8]) -> Result<usize, OutsideFault> {
        let alloc = *self.log.allocator();
        self.log.reserve(1)?;
        let mut bytes = Vec::with_capacity(alloc, buf.len())?;
        match self.source.read(buf) {
            Ok(count) => {
                bytes.extend_from_slice(&buf[..count])?;
                self.log.push(WireStep::Came(Text::from(bytes)))?;
                Ok(count)
            }
            Err(Failed) => {
                self.log.push(WireStep::Refused)?;
                Err(OutsideFault::Failed)
            }
        }
    }

    fn write(&mut self, piece: &[u8]) -> Result<usize, OutsideFault> {
        let alloc = *self.log.allocator();
        self.log.reserve(1)?;
        let mut bytes = Vec::with_capacity(alloc, piece.len())?;
        let count = self.sink.write(piece)?;
        bytes.extend_from_slice(&piece[..count])?;
        self.log.push(WireStep::Went(Text::from(bytes)))?;
        Ok(count)
    }
}
