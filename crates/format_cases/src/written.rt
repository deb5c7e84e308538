use crate::bytes::{bytes, tell};
use crate::row::{change, row, text_row, time};
use anyhow::{Result, bail};
use cedr_base::Text;
use cedr_text::{sort_text_rows, write_change, write_forgotten, write_rows, write_text_rows};
use std::alloc::Global;

/// Writes rows behind the front.
pub(crate) fn rows(rt: &impl Print, alloc: Global, front: &str, words: &[&str]) -> Result<()> {
    let mut rows = Vec::new(alloc);
    for word in words {
        rows.push(row(alloc, word)?)?;
    }
    let mut out = bytes(alloc, front)?;
    write_rows(rows.as_slice(), &mut out)?;
    tell(rt, alloc, out.as_slice())
}

/// Writes changes behind the front.
pub(crate) fn changes(rt: &impl Print, alloc: Global, front: &str, words: &[&str]) -> Result<()> {
    let mut out = bytes(alloc, front)?;
    for word in words {
        let change = change(alloc, word)?;
        write_change(&change, &mut out)?;
    }
    tell(rt, alloc, out.as_slice())
}

/// Writes a change that a port left out behind the front.
pub(crate) fn forgotten(rt: &impl Print, alloc: Global, front: &str, words: &[&str]) -> Result<()> {
    let [name, port, cause, high, word] = words else {
        bail!("a change that was left out has five words");
    };
    let mut out = bytes(alloc, front)?;
    let name = Text::from(bytes(alloc, name)?);
    let change = change(alloc, word)?;
    let port = port.parse::<usize>()?;
    write_forgotten(&name, port, cause, time(high)?, &change, &mut out)?;
    tell(rt, alloc, out.as_slice())
}

/// Sorts rows and writes them behind the front.
pub(crate) fn sorted(rt: &impl Print, alloc: Global, front: &str, words: &[&str]) -> Result<()> {
    let mut rows = Vec::new(alloc);
    for word in words {
        rows.push(text_row(alloc, word)?)?;
    }
    sort_text_rows(&mut rows);
    let mut out = bytes(alloc, front)?;
    write_text_rows(rows.as_slice(), &mut out)?;
    tell(rt, alloc, out.as_slice())
}
