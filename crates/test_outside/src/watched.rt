//! Files and streams in memory that note what no refusal tells: whether each source came back, and what was asked of one
//! behind its end.
use cedr_io::{Failed, Files, ListSource, MemFiles, MemSink, OutsideFault, Sink, Source};
use std::alloc::Global;

/// Files that count the sources that they gave and got back.
#[derive(Drop)]
pub struct WatchedFiles {
    pub watched: MemFiles,
    pub found: u64,
    pub given_back: u64,
    /// How many reads of the sources that came back followed one that gave nothing or was refused.
    pub late_reads: u64,
}

impl WatchedFiles {
    ghost use Rattle.std.specs.Prelude.{◌≡◌};

    /// No file, and nothing is refused.
    pub fn new(alloc: Global) -> WatchedFiles
        ensures { ⟦<WatchedFiles as Files>⟧.faults result ≡ 0 }
    {
        WatchedFiles {
            watched: MemFiles::new(alloc),
            found: 0,
            given_back: 0,
            late_reads: 0,
        }
    }
}

impl Files for WatchedFiles {
    type Source = WatchedSource;

    ghost content = { λ f n. ⟦<MemFiles as Files>⟧.content f.watched n };

    ghost faults = { λ f. ⟦<MemFiles as Files>⟧.faults f.watched };

    ghost asked = { λ f. ⟦<MemFiles as Files>⟧.asked f.watched };

    fn find(&mut self, name: &[u8]) -> Result<WatchedSource, OutsideFault> {
        match self.watched.find(name) {
            Ok(source) => {
                self.found = self.found.saturating_add(1);
                Ok(WatchedSource {
                    watched: source,
                    is_over: false,
                    late_reads: 0,
                })
            }
            Err(fault) => Err(fault),
        }
    }

    fn give_back(&mut self, source: WatchedSource) {
        self.given_back = self.given_back.saturating_add(1);
        self.late_reads = self.late_reads.saturating_add(source.late_reads);
        self.watched.give_back(source.watched);
    }
}

/// What `WatchedFiles` give to read.
#[derive(Drop)]
pub struct WatchedSource {
    watched: ListSource,
    /// A read gave nothing or was refused.
    is_over: bool,
    late_reads: u64,
}

impl Source for WatchedSource {
    ghost rest = { λ s. ⟦<ListSource as Source>⟧.rest s.watched };

    ghost faults = { λ s. ⟦<ListSource as Source>⟧.faults s.watched };

    fn read(&mut self, buf: &mut [u8]) -> Result<usize, Failed> {
        if self.is_over {
            self.late_reads = self.late_reads.saturating_add(1);
        }
        let given = self.watched.read(buf);
        match given {
            Ok(count) if count > 0 => {}
            _ => self.is_over = true,
        }
        given
    }
}

/// A stream that counts the texts that it was given.
#[derive(Drop)]
pub struct WatchedSink {
    pub watched: MemSink,
    /// A write was refused.
    is_over: bool,
    /// How many writes followed one that was refused.
    pub late_writes: u64,
    /// How many bytes of its last piece it left.
    left: usize,
    /// How many pieces weren't what it had left of the one before.
    pub texts: u64,
}

impl WatchedSink {
    ghost use Rattle.std.specs.Prelude.{◌≡◌};

    /// Nothing is written, and nothing is refused.
    pub fn new(alloc: Global) -> WatchedSink
        ensures { ⟦<WatchedSink as Sink>⟧.faults result ≡ 0 }
    {
        WatchedSink {
            watched: MemSink::new(alloc),
            is_over: false,
            late_writes: 0,
            left: 0,
            texts: 0,
        }
    }

    /// Notes a piece of so many bytes.
    fn note(&mut self, length: usize)
        ensures { self.new.watched ≡ self.old.watched }
    {
        if self.is_over {
            self.late_writes = self.late_writes.saturating_add(1);
        }
        if length != self.left {
            self.texts = self.texts.saturating_add(1);
        }
    }
}

impl Sink for WatchedSink {
    ghost written = { λ s. ⟦<MemSink as Sink>⟧.written s.watched };

    ghost faults = { λ s. ⟦<MemSink as Sink>⟧.faults s.watched };

    fn write(&mut self, piece: &[u8]) -> Result<usize, OutsideFault> {
        self.note(piece.len());
        let taken = self.watched.write(piece);
        match taken {
            Ok(count) => self.left = piece.len().saturating_sub(count),
            Err(_) => self.is_over = true,
        }
        taken
    }
}
