ghost use Rattle.std.specs.Prelude.{◌<◌};
ghost use Rattle.cedr_io.specs.Counts.{last_count};

use crate::watched::{WatchedFiles, WatchedSink};
use anyhow::{Result, bail};
use cedr_io::{Files, Sink};
use std::alloc::Global;

/// What the next command finds outside.
#[derive(Drop)]
pub struct Outside {
    pub files: WatchedFiles,
    pub out: WatchedSink,
    pub err: WatchedSink,
    /// Some front of this is written to `out`. Without it the very bytes are wanted.
    pub longest: Option<Vec<u8>>,
    ghost files_count: { ⟦<WatchedFiles as Files>⟧.faults files < last_count },
    ghost out_count: { ⟦<WatchedSink as Sink>⟧.faults out < last_count },
}

impl Outside {
    /// No file, and nothing is refused.
    pub(crate) fn new(alloc: Global) -> Outside {
        Outside {
            files: WatchedFiles::new(alloc),
            out: WatchedSink::new(alloc),
            err: WatchedSink::new(alloc),
            longest: None,
        }
    }

    /// Sets how many bytes a read gives at most, or a write takes.
    pub(crate) fn set_piece(&mut self, whom: &str, count: &str) -> Result<()> {
        let count = count.parse::<usize>()?;
        if count == 0 {
            bail!("a piece has some bytes");
        }
        match whom {
            "read" => self.files.watched.set_piece(count),
            "out" => self.out.watched.set_piece(count),
            "err" => self.err.watched.set_piece(count),
            _ => bail!("no such pieces: {whom}"),
        }
        Ok(())
    }

    /// Has the call of this number refused.
    pub(crate) fn refuse(&mut self, what: &[&str], call: &str) -> Result<()> {
        let call = call.parse::<u64>()?;
        let noted = match what {
            ["find"] => self.files.watched.fail_find(call),
            ["read", name] => self.files.watched.fail_read(name, call),
            ["out"] => self.out.watched.fail_write(call),
            ["err"] => self.err.watched.fail_write(call),
            _ => bail!("no such refusal: {what:?}"),
        };
        Ok(noted?)
    }

    /// Puts a file there.
    pub(crate) fn add(&mut self, name: &str, bytes: &[u8]) -> Result<()> {
        self.files.watched.add(name, bytes)?;
        Ok(())
    }
}
