//! Files. Of those in memory:
//!
//! - `file NAME BYTES`: puts the bytes under the name.
//! - `piece COUNT`: from now on a read gives at most so many bytes.
//! - `refuse find CALL` and `refuse read NAME CALL`: the call of this number will be refused.
//! - `asked`: the names that were looked for.
//! - `source BYTES COUNT`: reads as below of a source of these bytes.
//!
//! Of all of them:
//!
//! - `read NAME COUNT`: finds the file and reads up to so many times, to a room of eight bytes, which are `?` at first. It
//!   writes what each read gave, `end` where that was nothing, or after a refused read the whole room.

use crate::Subject;
use crate::words::bytes;
use crate::written::encoded;
use anyhow::{Result, ensure};
use cedr_base::Text;
use cedr_io::{DiskFiles, Failed, Files, MemFiles, MemSource, Source};
use std::alloc::Global;

impl Subject for MemFiles {
    fn answer(&mut self, rt: &impl Print, alloc: Global, words: &[&str]) -> Option<Result<()>> {
        match words {
            ["file", name, word] => Some(add(alloc, self, name, word)),
            ["piece", count] => Some(set_piece(self, count)),
            ["refuse", "find", call] => Some(refuse_find(self, call)),
            ["refuse", "read", name, call] => Some(refuse_read(self, name, call)),
            ["asked"] => Some(write_names(rt, self.asked())),
            ["source", word, count] => Some(write_source(rt, alloc, word, count)),
            ["read", name, count] => Some(write_file(rt, alloc, self, name, count)),
            _ => None,
        }
    }
}

impl Subject for DiskFiles<'_> {
    fn answer(&mut self, rt: &impl Print, alloc: Global, words: &[&str]) -> Option<Result<()>> {
        match words {
            ["read", name, count] => Some(write_file(rt, alloc, self, name, count)),
            _ => None,
        }
    }
}

fn add(alloc: Global, files: &mut MemFiles, name: &str, word: &str) -> Result<()> {
    files.add(name, bytes(alloc, word)?.as_slice())?;
    Ok(())
}

fn set_piece(files: &mut MemFiles, count: &str) -> Result<()> {
    let count = count.parse::<usize>()?;
    ensure!(count > 0, "a piece of nothing");
    files.set_piece(count);
    Ok(())
}

fn refuse_find(files: &mut MemFiles, call: &str) -> Result<()> {
    files.fail_find(call.parse::<u64>()?)?;
    Ok(())
}

fn refuse_read(files: &mut MemFiles, name: &str, call: &str) -> Result<()> {
    files.fail_read(name, call.parse::<u64>()?)?;
    Ok(())
}

fn write_names(rt: &impl Print, names: &[Text]) -> Result<()> {
    for name in names {
        print!(rt; " {}", encoded(name.bytes()))?;
    }
    Ok(())
}

fn write_source(rt: &impl Print, alloc: Global, word: &str, count: &str) -> Result<()> {
    let mut source = MemSource::new(bytes(alloc, word)?);
    write_pieces(rt, &mut source, count.parse::<u64>()?)
}

fn write_file<F: Files>(
    rt: &impl Print,
    alloc: Global,
    files: &mut F,
    name: &str,
    count: &str,
) -> Result<()> {
    let name = bytes(alloc, name)?;
    let count = count.parse::<u64>()?;
    let mut source = files.find(name.as_slice())?;
    let written = write_pieces(rt, &mut source, count);
    files.give_back(source);
    written
}

/// Writes what each read gives, up to so many.
fn write_pieces<S: Source>(rt: &impl Print, source: &mut S, count: u64) -> Result<()> {
    let mut room = [b'?'; 8];
    for _ in 0..count {
        match source.read(&mut room) {
            Ok(0) => {
                print!(rt; " end")?;
                break;
            }
            Ok(given) => print!(rt; " {}", encoded(&room[..given]))?,
            Err(Failed) => print!(rt; " refused:{}", encoded(&room))?,
        }
    }
    Ok(())
}
