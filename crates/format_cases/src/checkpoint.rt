use crate::bytes::{bytes, tell};
use anyhow::{Result, bail};
use cedr_plan::read_plan;
use cedr_save::{CheckpointFault, read_checkpoint, write_checkpoint};
use std::alloc::Global;

/// What stands before the types of a source's fields.
const FRONT: &str = r#"{"version":1,"nodes":[{"name":"s","op":"source","file":"s.csv","fields":["#;

/// What stands behind them: an output that reads the source.
const BEHIND: &str = r#"]},{"name":"out","op":"output","from":["s"],"level":"middle"}]}"#;

/// The lines before those of the events.
const HEAD: &[u8] = b"checkpoint,1\nsource,s,5\n";

/// Reads bytes as a checkpoint of a plan with one source, and writes its states anew, or the line that is refused.
pub(crate) fn checkpoint(rt: &impl Print, alloc: Global, types: &str, text: &str) -> Result<()> {
    tell_checkpoint(rt, alloc, types, bytes(alloc, text)?.as_slice())
}

/// The same of bytes that stand behind the line of the source.
pub(crate) fn events(rt: &impl Print, alloc: Global, types: &str, text: &str) -> Result<()> {
    let mut all = Vec::from_slice(alloc, HEAD)?;
    all.extend_from_slice(bytes(alloc, text)?.as_slice())?;
    tell_checkpoint(rt, alloc, types, all.as_slice())
}

fn tell_checkpoint(rt: &impl Print, alloc: Global, types: &str, text: &[u8]) -> Result<()> {
    let types = if types == "\\-" { "" } else { types };
    let document = format!(in alloc; "{FRONT}{types}{BEHIND}")?;
    let plan = read_plan(alloc, document.as_bytes())?;
    match read_checkpoint(alloc, &plan, text) {
        Ok(states) => {
            let mut out = Vec::new(alloc);
            write_checkpoint(&plan, states.as_slice(), &mut out)?;
            tell(rt, alloc, out.as_slice())
        }
        Err(CheckpointFault::OutOfMemory) => bail!("out of memory"),
        Err(fault) => {
            println!(rt; "  {fault}")?;
            Ok(())
        }
    }
}
