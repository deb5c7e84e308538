//! Sinks. Of the one in memory:
//!
//! - `piece COUNT`: from now on a write takes at most so many bytes.
//! - `refuse CALL`: the write of this number will be refused.
//! - `written`: the bytes that were taken so far.
//!
//! Of all of them:
//!
//! - `write BYTES`: writes all of the bytes.

use crate::Subject;
use crate::words::bytes;
use crate::written::encoded;
use anyhow::{Result, ensure};
use cedr_io::{MemSink, Sink, StdSink, write_all};
use std::alloc::Global;

impl Subject for MemSink {
    fn answer(&mut self, rt: &impl Print, alloc: Global, words: &[&str]) -> Option<Result<()>> {
        match words {
            ["piece", count] => Some(set_piece(self, count)),
            ["refuse", call] => Some(refuse(self, call)),
            ["write", word] => Some(write(alloc, self, word)),
            ["written"] => Some(show(rt, self.written())),
            _ => None,
        }
    }
}

impl Subject for StdSink {
    fn answer(&mut self, _rt: &impl Print, alloc: Global, words: &[&str]) -> Option<Result<()>> {
        match words {
            ["write", word] => Some(write(alloc, self, word)),
            _ => None,
        }
    }
}

fn set_piece(sink: &mut MemSink, count: &str) -> Result<()> {
    let count = count.parse::<usize>()?;
    ensure!(count > 0, "a piece of nothing");
    sink.set_piece(count);
    Ok(())
}

fn refuse(sink: &mut MemSink, call: &str) -> Result<()> {
    sink.fail_write(call.parse::<u64>()?)?;
    Ok(())
}

fn write<K: Sink>(alloc: Global, sink: &mut K, word: &str) -> Result<()> {
    write_all(sink, bytes(alloc, word)?.as_slice())?;
    Ok(())
}

fn show(rt: &impl Print, written: &[u8]) -> Result<()> {
    print!(rt; " {}", encoded(written))?;
    Ok(())
}
